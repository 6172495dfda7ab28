//! The calls of a sender.

ghost use Rattle.std.specs.Prelude.{◌≡◌, ◌+◌, ◌<◌, ◌≤◌, Err, None, Some, length, drop, take};
ghost use Rattle.mask_update.specs.Histories.{History, no_steps};
ghost use Rattle.packet_encode.specs.Encoder.{StandsFor};
ghost use Rattle.packet_encode.specs.Forms.{with_next_input};
ghost use Rattle.robust_window.specs.Histories.{level_at};
ghost use Rattle.flight_chain.specs.Compressing.{data_at};
ghost use Rattle.packet_calls.specs.Sending.{SenderState, first_mask, given_mask, room_bits, room_bytes, vector_in};
ghost use Rattle.packet_calls.specs.Refusals.{opening_fault};
ghost use Rattle.pocket_c.specs.Answers.{opening_status, resetting_status, sending_status};
ghost use Rattle.pocket_c.specs.Kinds.{flags_by, mask_in};
ghost use Rattle.pocket_c.specs.Statuses.{status_number};

use crate::held::{Handle, Held};
use crate::status::CallStatus;
use bit_vectors::Flags;
use packet_calls::Sender;
use std::alloc::Global;

/// Opens a sender of vectors of 1 to 49,152 places in a handle that holds nothing. Its first mask is the one that these bytes
/// spell, or of zeros if there is no byte. It takes all memory that later calls need.
#[unsafe(no_mangle)]
pub extern "C" fn pocket_sender_open(
    alloc: Global,
    handle: &mut Handle,
    places: u32,
    mask: &[u8],
) -> u32
    ensures answer { (result ≡ status_number CallStatus.NoMemory → ⊥)
        → result ≡ status_number (opening_status handle.old.held places (mask_in mask.now)) }
    ensures no_memory { result ≡ status_number CallStatus.NoMemory → (handle.old.held ≡ None)
        × (opening_fault places (mask_in mask.now) ≡ None) }
    ensures opened { result ≡ status_number CallStatus.Done
        → (s : SenderState) × (handle.new.held ≡ Some (Held.Sender s))
        × StandsFor (no_steps (first_mask places (mask_in mask.now))) s.encoder
        × (length s.encoder.masks.mask ≡ places) × (s.encoder.masks.taken ≡ 0)
        × (s.room ≡ room_bits places) }
    ensures unchanged { (result ≡ status_number CallStatus.Done → ⊥)
        → handle.new.held ≡ handle.old.held }
{
    if handle.is_open(alloc) {
        return CallStatus::Open.number();
    }
    match Sender::open(alloc, places, mask_in(mask)) {
        Ok(sender) => handle.hold(alloc, Held::Sender(sender)).number(),
        Err(fault) => CallStatus::from(fault).number(),
    }
}

/// Begins a new stream by the sender that a handle holds, in the memory that it has, with no input sent, for inputs of as many
/// bits as before. The first mask is the one that these bytes spell, or of zeros if there is no byte. It takes no memory.
#[unsafe(no_mangle)]
pub extern "C" fn pocket_sender_reset(alloc: Global, handle: &mut Handle, mask: &[u8]) -> u32
    ensures answer { result ≡ status_number (resetting_status handle.old.held (mask_in mask.now)) }
    ensures unchanged { (result ≡ status_number CallStatus.Done → ⊥)
        → handle.new.held ≡ handle.old.held }
    // It is what `pocket_sender_open` gives for as many bits and this mask, in the room that it has.
    ensures anew { (s : SenderState) → handle.old.held ≡ Some (Held.Sender s)
        → result ≡ status_number CallStatus.Done → let f = length s.encoder.masks.mask in
        (next : SenderState) × (handle.new.held ≡ Some (Held.Sender next))
        × StandsFor (no_steps (first_mask f (mask_in mask.now))) next.encoder
        × (length next.encoder.masks.mask ≡ f) × (next.encoder.masks.taken ≡ 0)
        × (next.room ≡ s.room) }
{
    let Some(mut held) = handle.take(alloc) else {
        return CallStatus::Closed.number();
    };
    let status = match &mut *held {
        Held::Sender(sender) => match sender.reset(mask_in(mask)) {
            Ok(()) => CallStatus::Done,
            Err(fault) => CallStatus::from(fault),
        },
        Held::Receiver(_) | Held::Bench(_) => CallStatus::OtherKind,
    };
    handle.put(alloc, held);
    status.number()
}

/// No mask if there is no byte.
fn mask_in(mask: &[u8]) -> Option<&[u8]>
    ensures { given_mask result ≡ mask_in mask.now }
{
    if mask.is_empty() { None } else { Some(mask) }
}

/// Sends an input by the sender that a handle holds, with these flags and this required robustness: its packet is in the first
/// `len` bytes of `out`, and has this effective robustness level. It takes no memory.
#[unsafe(no_mangle)]
pub extern "C" fn pocket_send(
    alloc: Global,
    handle: &mut Handle,
    input: &[u8],
    new_mask: bool,
    send_mask: bool,
    whole: bool,
    robust: u8,
    out: &mut [u8],
    len: &mut usize,
    level: &mut u8,
) -> u32
    ensures answer { result
        ≡ status_number (sending_status handle.old.held input.now robust (length out.old)) }
    ensures unchanged { (result ≡ status_number CallStatus.Done → ⊥)
        → (handle.new.held ≡ handle.old.held) × (out.new ≡ out.old)
        × (len.new ≡ len.old) × (level.new ≡ level.old) }
    ensures stands { (s : SenderState) → handle.old.held ≡ Some (Held.Sender s)
        → result ≡ status_number CallStatus.Done
        → (next : SenderState) × (handle.new.held ≡ Some (Held.Sender next))
        × ((h : History) → StandsFor h s.encoder → StandsFor (with_next_input h robust
        (vector_in (length s.encoder.masks.mask) input.now)
        (flags_by new_mask send_mask whole)) next.encoder)
        × (length next.encoder.masks.mask ≡ length s.encoder.masks.mask)
        × (next.encoder.masks.taken ≡ s.encoder.masks.taken + 1) × (next.room ≡ s.room) }
    ensures packet { (s : SenderState) (h : History) → handle.old.held ≡ Some (Held.Sender s)
        → StandsFor h s.encoder → result ≡ status_number CallStatus.Done → take len.new out.new ≡ data_at
        (with_next_input h robust (vector_in (length s.encoder.masks.mask) input.now)
        (flags_by new_mask send_mask whole)) (length h.steps) }
    ensures level { (s : SenderState) (h : History) → handle.old.held ≡ Some (Held.Sender s)
        → StandsFor h s.encoder → result ≡ status_number CallStatus.Done → level.new ≡ level_at
        (with_next_input h robust (vector_in (length s.encoder.masks.mask) input.now)
        (flags_by new_mask send_mask whole)) (length h.steps) }
    ensures length { (s : SenderState) → handle.old.held ≡ Some (Held.Sender s)
        → result ≡ status_number CallStatus.Done
        → (1 ≤ len.new) × (len.new ≤ room_bytes (length s.encoder.masks.mask)) }
    ensures rest { result ≡ status_number CallStatus.Done → drop len.new out.new ≡ drop len.new out.old }
{
    let flags = Flags {
        p: new_mask,
        f: send_mask,
        r: whole,
    };
    let Some(mut held) = handle.take(alloc) else {
        return CallStatus::Closed.number();
    };
    let sent = match &mut *held {
        Held::Sender(sender) => match sender.send(input, flags, robust, out) {
            Ok(sent) => Ok(sent),
            Err(fault) => Err(CallStatus::from(fault)),
        },
        Held::Receiver(_) | Held::Bench(_) => Err(CallStatus::OtherKind),
    };
    handle.put(alloc, held);
    match sent {
        Ok(sent) => {
            *len = sent.len;
            *level = sent.level;
            CallStatus::Done.number()
        }
        Err(status) => status.number(),
    }
}
