//! The decoder: the latest known mask and content, and the reading of the next packet.

ghost use Rattle.std.specs.Prelude.{[], ℕ, ◌≡◌, ◌+◌, ◌^◌, ◌<◌, ◌≤◌, ◌↔◌, Bool, true, false, List, if◌then◌else◌, length, replicate, Option, Some, None, Ok, IfSome, IfNone, IfOk, IsSome, IsTrue};
ghost use Rattle.bit_vectors.specs.Vectors.{IsPlaces, IsVector, bits_of};
ghost use Rattle.bit_vectors.specs.Reading.{Read};
ghost use Rattle.packet_encode.specs.Forms.{Form};
ghost use Rattle.packet_decode.specs.State.{IsState, in_reach, next_state, no_vectors, Decoding, IsAfter, latest_number, latest_mask_number, latest_mask, latest_content, tells_nothing};
ghost use Rattle.packet_decode.specs.Spelling.{Spells};
ghost use Rattle.packet_decode.specs.Answers.{Says, IsExactAnswer};
ghost use Rattle.packet_decode.specs.PacketReading.{Spelled, missed, parse_whole_packet};
ghost use Rattle.packet_decode.specs.Parts.{IsAtLevel, IsBefore, IsDeduced, IsRemembered, kept_state, part_by, tells_mask};
ghost use Rattle.state_bytes.specs.Parts.{Puts};
ghost use Rattle.packet_decode.specs.Saved.{AreNumbers, AreOfDecoding, IsDecoding, decoding_bytes, decoding_room};

use crate::change::FirstPart;
use crate::draft::Room;
use crate::latest::{DataKind, Latest};
use crate::packet::{in_reach_of, take_whole_packet};
use crate::remembered::Remembered;
use crate::saved::{are_three, number_after, number_before, take_numbers};
use bit_vectors::{BitEye, BitFault, Bits, NoMemory};
use state_bytes::{put, put_number, put_vector, take_vector};
use std::alloc::Global;
use std::marker::Model;
use std::mem::swap;

/// What the data of a packet were.
#[derive(Clone, Copy, Debug, PartialEq, Eq)]
pub enum Reading {
    /// They spell a packet whose content became known. It is now the latest written one.
    Written,
    /// The content didn't become known, and none is known so far. `mask` tells whether the mask became known; if not, no
    /// mask is known so far.
    Unsynced { mask: bool },
    /// The content didn't become known. `mask` tells whether the mask became known. The content that is known, or the mask
    /// if it didn't become known, is of a packet too far back for this effective robustness level.
    Gap { level: u8, mask: bool },
}

/// Reads the data of packets with vectors of 1 to 49,152 places, and keeps the latest mask and the latest content that
/// became known, which may be those of different packets. Contracts see the number of places, these two, each with the
/// number of its packet, and the recent changes and the effective robustness level of the latest written packet.
#[derive(Debug, Drop)]
pub struct Decoder {
    latest: Latest,
    shown: FirstPart,
    room: Room,
    remembered: Remembered,
}

impl Model for Decoder {
    ghost use Rattle.std.specs.Prelude.{length};
    ghost use Rattle.packet_decode.specs.State.{Decoding};
    ghost use Rattle.packet_decode.specs.Parts.{IsDecoder, kept_state};

    ghost Value = { Decoding };

    ghost view = { λ d. record { places = length d.latest.content; state = kept_state d.latest; recent = d.shown.recent; level = d.shown.level } };

    ghost invariant = { λ d. IsDecoder d.latest d.shown d.room d.remembered };
}

impl Decoder {
    /// Knows nothing. Takes the memory for every vector that `read` fills, and for the moves that it keeps.
    pub fn open(alloc: Global, f: u32) -> Result<Decoder, NoMemory>
        requires valid { IsPlaces f }
        ensures { IfOk result
            (λ d. d ≡ record { places = f; state = no_vectors; recent = replicate f false; level = 0 }) }
    {
        let latest = Latest::none(alloc, f)?;
        let shown = FirstPart::zeros(alloc, f)?;
        let room = Room::zeros(alloc, f)?;
        Ok(Decoder {
            latest,
            shown,
            room,
            remembered: Remembered::nothing(),
        })
    }

    /// Knows nothing again, in the memory that it has, with as many places as before.
    pub fn reset(&mut self)
        ensures { self.new ≡ record {
          places = self.old.places;
          state = no_vectors;
          recent = replicate self.old.places false;
          level = 0;
        } }
    {
        self.latest.reset();
        self.shown.reset();
        self.remembered = Remembered::nothing();
    }

    /// Reads the data of the packet with the number `t`, at most 65,536 bytes. If they spell a packet, its mask is then
    /// the latest known one, if it became known, and so is its content; else nothing changes. A fault names the first bit
    /// after which the data can neither spell a packet nor be those of one that can't be understood (CCSDS 124.0-B-1).
    pub fn read(&mut self, t: u64, bytes: &[u8]) -> Result<Reading, BitFault>
        requires number { t < 2 ^ 62 }
        requires later { IsAfter t self.old.state }
        requires size { length bytes.now ≤ 65536 }
        // Each answer comes exactly when it is the right one, and a fault names the first bit.
        ensures exact { IsExactAnswer self.old.places self.old.state t (bits_of bytes.now) result }
        // Written, Unsynced and Gap come exactly when the bits say so.
        ensures says { (reading : Reading) → (result ≡ Ok reading) ↔
            Says self.old.places self.old.state t (bits_of bytes.now) reading }
        // What the bits tell is then known, and the rest stays.
        ensures written { (form : Form) (mask : Option (List Bool)) (content : List Bool) →
            Spells self.old.places self.old.state t (bits_of bytes.now) form mask (Some content) →
            self.new ≡ record {
              places = self.old.places;
              state = next_state self.old.state t mask (Some content);
              recent = form.recent;
              level = form.level;
            } }
        ensures mask_alone { (form : Form) (mask : Option (List Bool)) →
            Spells self.old.places self.old.state t (bits_of bytes.now) form mask None →
            self.new ≡ record {
              places = self.old.places;
              state = next_state self.old.state t mask None;
              recent = self.old.recent;
              level = self.old.level;
            } }
        ensures unchanged { tells_nothing result ≡ true → self.new ≡ self.old }
        ensures places { self.new.places ≡ self.old.places }
    {
        if let Some(level) = repeats(&self.remembered, &self.latest, &self.shown, t, bytes) {
            self.shown.set_level(level);
            self.latest.mask_number = Some(t);
            self.latest.content_number = Some(t);
            return Ok(Reading::Written);
        }
        let mut eye = BitEye::new(bytes);
        let kind = take_whole_packet(&mut eye, t, &self.latest, &mut self.room)?;
        if kind.is_opaque() {
            return Ok(missed(self.latest.mask_number, self.room.next.level(), false));
        }
        let quiet = self.room.next.is_quiet();
        keep_mask(&mut self.latest, t, kind, quiet, &mut self.room);
        self.remembered.keep(bytes, quiet && kind.tells_both());
        if !kind.tells_content() {
            return Ok(missed(self.latest.content_number, self.room.next.level(), true));
        }
        self.shown.take_over(&mut self.room.next);
        swap(&mut self.latest.content, &mut self.room.draft.content);
        self.latest.content_number = Some(t);
        Ok(Reading::Written)
    }

    /// The number of the latest written packet, and nothing before the first.
    pub fn last(&self) -> Option<u64>
        ensures number { result ≡ latest_number self.now.state }
        ensures state { IsState self.now.places self.now.state }
    {
        self.latest.content_number
    }

    /// The number of the latest packet whose mask became known, and nothing before the first.
    pub fn last_mask(&self) -> Option<u64>
        ensures number { result ≡ latest_mask_number self.now.state }
    {
        self.latest.mask_number
    }

    /// The content of the latest written packet, and zeros before the first.
    pub fn content(&self) -> &Bits
        ensures content { result.now ≡ latest_content self.now.places self.now.state }
        ensures places { length result.now ≡ self.now.places }
        ensures vector { IsVector result.now }
    {
        &self.latest.content
    }

    /// The latest mask that became known, and zeros before the first.
    pub fn mask(&self) -> &Bits
        ensures mask { result.now ≡ latest_mask self.now.places self.now.state }
        ensures places { length result.now ≡ self.now.places }
    {
        &self.latest.mask
    }

    /// The recent changes of the mask by the latest written packet, and zeros before the first.
    pub fn recent(&self) -> &Bits
        ensures recent { result.now ≡ self.now.recent }
        ensures first { IfNone self.now.state.content (result.now ≡ replicate self.now.places false) }
        ensures places { length result.now ≡ self.now.places }
    {
        self.shown.recent()
    }

    /// The effective robustness level of the latest written packet, from 0 to 15, and 0 before the first.
    pub fn level(&self) -> u8
        ensures level { result ≡ self.now.level }
        ensures most { result < 16 }
        ensures first { IfNone self.now.state.content (result ≡ 0) }
    {
        self.shown.level()
    }
}

impl Decoder {
    /// Whether these are the bytes of a decoder with vectors of `f` places, whose known vectors are of packets with numbers below
    /// `before`.
    pub fn is_saved(f: u32, before: u64, bytes: &[u8]) -> bool
        requires valid { IsPlaces f }
        ensures { IsTrue result ↔ AreOfDecoding f before bytes.now }
    {
        let Some((mask, content, level, rest)) = take_numbers(bytes) else {
            return false;
        };
        if mask > before || content > before || level > 15 || (content == 0 && level > 0) {
            return false;
        }
        are_three(rest, f, mask > 0, content > 0)
    }

    /// Writes its bytes at this place, and tells the place after them.
    pub fn save(&self, out: &mut [u8], at: usize) -> usize
        requires room { at + decoding_room self.now.places ≤ length out.old }
        requires numbers { AreNumbers self.now }
        ensures saved { Puts out.old out.new at (decoding_bytes self.now) result }
        ensures valid { IsDecoding self.now.places self.now }
    {
        let at = put_number(out, at, number_after(self.latest.mask_number));
        let at = put_number(out, at, number_after(self.latest.content_number));
        let at = put(out, at, &[self.shown.level()]);
        let at = put_vector(out, at, &self.latest.mask);
        let at = put_vector(out, at, &self.latest.content);
        put_vector(out, at, self.shown.recent())
    }

    /// Becomes the decoder with these bytes, in the memory that it has.
    pub fn load(&mut self, bytes: &[u8])
        requires { (d : Decoding) × IsDecoding self.old.places d × (bytes.now ≡ decoding_bytes d) }
        ensures { (d : Decoding) → IsDecoding self.old.places d → bytes.now ≡ decoding_bytes d
            → self.new ≡ d }
    {
        let Some((mask, content, level, rest)) = take_numbers(bytes) else {
            unreachable!();
        };
        let rest = take_vector(rest, &mut self.latest.mask);
        let rest = take_vector(rest, &mut self.latest.content);
        self.latest.mask_number = number_before(mask);
        self.latest.content_number = number_before(content);
        self.shown.load(rest, level);
        self.remembered = Remembered::nothing();
    }
}

/// The level of these data, exactly if they are remembered but for it, and what is known is in reach of the packet with the
/// number `t` at that level. Then they spell the latest written packet again, at that level.
fn repeats(
    remembered: &Remembered,
    latest: &Latest,
    shown: &FirstPart,
    t: u64,
    bytes: &[u8],
) -> Option<u8>
    requires remembered { IsRemembered latest.now shown.now remembered.now }
    requires latest { IsBefore t (length latest.now.content) latest.now }
    ensures when { (level : ℕ) → (result ≡ Some level) ↔ (IsAtLevel level remembered.now bytes.now
        × IsSome (in_reach (kept_state latest.now).content t level)) }
    ensures read { IfSome result (λ level.
        parse_whole_packet (length latest.now.content) (kept_state latest.now) t
        (bits_of bytes.now)
        ≡ Read (record {
          change = record { recent = shown.now.recent; level = level; directions = None };
          outcome = Spelled (Some latest.now.mask) (Some latest.now.content);
        }) []) }
{
    let level = remembered.level_of(bytes)?;
    in_reach_of(latest.content_number, &latest.content, t, level)?;
    Some(level)
}

/// Stores the mask that the packet with the number `t` tells as the latest one: the sent one, or the deduced one, which
/// is the latest one itself if nothing changed. If it tells none, nothing changes.
fn keep_mask(latest: &mut Latest, t: u64, kind: DataKind, is_quiet: bool, room: &mut Room)
    requires { length latest.old.mask ≡ length room.old.draft.content }
    ensures sent { (known : Bool) → kind ≡ DataKind.Sent known → latest.new.mask ≡ room.old.sent }
    ensures deduced { IsDeduced kind
        → latest.new.mask ≡ (if is_quiet then latest.old.mask else room.old.deduced) }
    ensures number { tells_mask kind ≡ true → latest.new.mask_number ≡ Some t }
    ensures untold { tells_mask kind ≡ false → latest.new ≡ latest.old }
    ensures content { latest.new.content ≡ latest.old.content }
    ensures content_number { latest.new.content_number ≡ latest.old.content_number }
    ensures places { length latest.new.mask ≡ length latest.old.mask }
    ensures next { room.new.next ≡ room.old.next }
    ensures draft { room.new.draft.content ≡ room.old.draft.content }
{
    match kind {
        DataKind::Sent(_) => swap(&mut latest.mask, &mut room.sent),
        DataKind::Deduced(_) if !is_quiet => swap(&mut latest.mask, &mut room.deduced),
        DataKind::Deduced(_) => {}
        DataKind::Maskless | DataKind::Opaque => return,
    }
    latest.mask_number = Some(t);
}

/// The answer if a part did not become known; it was last known with this packet, if with any. `mask` tells whether
/// the mask became known.
fn missed(last: Option<u64>, level: u8, mask: bool) -> Reading
    ensures { (vector : List Bool) → result ≡ missed (part_by last vector) level mask }
{
    match last {
        None => Reading::Unsynced { mask },
        Some(_) => Reading::Gap { level, mask },
    }
}
