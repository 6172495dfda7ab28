//! A whole packet: its parts, its padding and its end.

ghost use Rattle.std.specs.Prelude.{◌≡◌, ◌<◌, length, IfOk, IfSome, IsSome, OnOk};
ghost use Rattle.packet_decode.specs.PacketReading.{parse_parts, parse_whole_packet};
ghost use Rattle.packet_decode.specs.Parts.{IsBefore, IsChanged, IsDeduced, TakesPart, found_in, kept_state, lent, part_by};
ghost use Rattle.packet_decode.specs.State.{deduced_by, in_reach};

use crate::data::take_data;
use crate::draft::Room;
use crate::latest::{DataKind, Latest};
use crate::padding::{take_end, take_padding};
use bit_vectors::{BitEye, BitFault, Bits};

/// Takes the packet with the number `t` and the end, or an opaque front, into the room. The eye stands at the first bit.
#[tactic(auto, unfolding(crate::specs::PacketReading::parse_whole_packet, crate::specs::PacketReading::parse_packet))]
pub fn take_whole_packet(
    eye: &mut BitEye,
    t: u64,
    latest: &Latest,
    room: &mut Room,
) -> Result<DataKind, BitFault>
    requires start { eye.old.place ≡ 0 }
    requires latest { IsBefore t (length room.old.draft.content) latest.now }
    ensures places { length room.new.draft.content ≡ length room.old.draft.content }
    ensures deduced_by { IfOk result (λ kind. IsDeduced kind
        → IsSome (deduced_by (kept_state latest.now) t room.new.next)) }
    ensures changed { OnOk result (IsChanged room.new.next
        → IfSome (deduced_by (kept_state latest.now) t room.new.next) (λ mask. room.new.deduced ≡ mask)) }
    ensures taken { TakesPart
        (found_in room.new (kept_state latest.now) t) result eye.old eye.new
        (parse_whole_packet (length room.old.draft.content) (kept_state latest.now) t) }
{
    let kind = take_parts(eye, t, latest, room)?;
    take_padding(eye, kind)?;
    take_end(eye, kind)?;
    Ok(kind)
}

/// Takes all parts of a packet. After the first of them, the mask is deduced if the known mask is in reach, and the
/// content is known if that is in reach.
#[tactic(auto, unfolding(crate::specs::PacketReading::parse_parts))]
fn take_parts(
    eye: &mut BitEye,
    t: u64,
    latest: &Latest,
    room: &mut Room,
) -> Result<DataKind, BitFault>
    requires { IsBefore t (length room.old.draft.content) latest.now }
    ensures places { length room.new.draft.content ≡ length room.old.draft.content }
    ensures deduced_by { IfOk result (λ kind. IsDeduced kind
        → IsSome (deduced_by (kept_state latest.now) t room.new.next)) }
    ensures changed { OnOk result (IsChanged room.new.next
        → IfSome (deduced_by (kept_state latest.now) t room.new.next) (λ mask. room.new.deduced ≡ mask)) }
    ensures taken { TakesPart
        (found_in room.new (kept_state latest.now) t) result eye.old eye.new
        (parse_parts (length room.old.draft.content) (kept_state latest.now) t) }
{
    room.next.take(eye)?;
    let level = room.next.level();
    let known = in_reach_of(latest.content_number, &latest.content, t, level);
    let sent = &mut room.sent;
    let draft = &mut room.draft;
    let Some(mask) = in_reach_of(latest.mask_number, &latest.mask, t, level) else {
        return take_data(eye, &room.next, None, known, sent, draft);
    };
    if room.next.is_quiet() {
        return take_data(eye, &room.next, Some(mask), known, sent, draft);
    }
    room.deduced.copy_from(mask);
    room.next.deduce(&mut room.deduced);
    take_data(eye, &room.next, Some(&room.deduced), known, sent, draft)
}

/// A known vector, if the packet with the number `t` and this level is in reach of the one with which it became known.
pub fn in_reach_of(last: Option<u64>, vector: &Bits, t: u64, level: u8) -> Option<&Bits>
    requires { IfSome last (λ last. last < t) }
    ensures { lent result ≡ in_reach (part_by last vector.now) t level }
{
    let last = last?;
    if t - 1 - last <= u64::from(level) {
        Some(vector)
    } else {
        None
    }
}
