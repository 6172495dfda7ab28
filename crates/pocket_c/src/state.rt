//! The states of what handles hold.

ghost use Rattle.std.specs.Prelude.{◌≡◌, ◌≢◌, ◌↔◌, ◌∷◌, ◌++◌, [], None, Some, drop, length};
ghost use Rattle.bit_vectors.specs.Vectors.{IsPlaces};
ghost use Rattle.ground_chain.specs.Reception.{Reckoning};
ghost use Rattle.state_bytes.specs.Frames.{IsOther};
ghost use Rattle.packet_calls.specs.Sending.{SenderState};
ghost use Rattle.packet_calls.specs.States.{AreOfReceiver, AreOfSender, IsReceiverState, IsSenderState, receiver_kind, receiver_state, receiver_state_room, sender_kind, sender_state, sender_state_room};
ghost use Rattle.pocket_c.specs.Answers.{saving_status};
ghost use Rattle.pocket_c.specs.Kinds.{HasBench};
ghost use Rattle.pocket_c.specs.Statuses.{IsOneOf, status_number};

use crate::held::{Handle, Held};
use crate::status::CallStatus;
use bit_vectors::MOST_PLACES;
use packet_calls::{RECEIVER_KIND, SENDER_KIND, receiver_state_room, sender_state_room};
use std::alloc::Global;

/// The most bytes that a state of this kind has, for so many places, and 0 if there is none of that kind or number of places.
#[unsafe(no_mangle)]
pub extern "C" fn pocket_state_bytes(places: u32, kind: u32) -> usize
    ensures sender { IsPlaces places → kind ≡ sender_kind → result ≡ sender_state_room places }
    ensures receiver { IsPlaces places → kind ≡ receiver_kind → result ≡ receiver_state_room places }
    ensures other { kind ≢ sender_kind → kind ≢ receiver_kind → result ≡ 0 }
    ensures none { (IsPlaces places → ⊥) → result ≡ 0 }
{
    if places == 0 || places > MOST_PLACES {
        return 0;
    }
    if kind == u32::from(SENDER_KIND) {
        sender_state_room(places)
    } else if kind == u32::from(RECEIVER_KIND) {
        receiver_state_room(places)
    } else {
        0
    }
}

/// Writes the state of the sender or the receiver that a handle holds into the first `len` bytes of `out`. It takes no memory.
#[unsafe(no_mangle)]
pub extern "C" fn pocket_save(
    alloc: Global,
    handle: &mut Handle,
    out: &mut [u8],
    len: &mut usize,
) -> u32
    ensures answer { result ≡ status_number (saving_status handle.old.held (length out.old)) }
    ensures unchanged { handle.new.held ≡ handle.old.held }
    ensures untouched { (result ≡ status_number CallStatus.Done → ⊥)
        → (out.new ≡ out.old) × (len.new ≡ len.old) }
    ensures sender { (s : SenderState) → handle.old.held ≡ Some (Held.Sender s)
        → result ≡ status_number CallStatus.Done → (len.new ≡ length (sender_state s.encoder))
        × (out.new ≡ sender_state s.encoder ++ drop len.new out.old)
        × IsSenderState (length s.encoder.masks.mask) s.encoder }
    ensures receiver { (r : Reckoning) → handle.old.held ≡ Some (Held.Receiver r)
        → result ≡ status_number CallStatus.Done → (len.new ≡ length (receiver_state r))
        × (out.new ≡ receiver_state r ++ drop len.new out.old)
        × IsReceiverState r.reception.decoder.places r }
{
    let Some(held) = handle.take(alloc) else {
        return CallStatus::Closed.number();
    };
    let saved = match &*held {
        Held::Sender(sender) => sender.save(out).ok_or(CallStatus::NoRoom),
        Held::Receiver(receiver) => receiver.save(out).ok_or(CallStatus::NoRoom),
        Held::Bench(_) => Err(CallStatus::OtherKind),
    };
    handle.put(alloc, held);
    match saved {
        Ok(size) => {
            *len = size;
            CallStatus::Done.number()
        }
        Err(status) => status.number(),
    }
}

/// Puts the sender or the receiver with this state in place of the one that a handle holds, which is of the same kind and has as
/// many places. It takes no memory.
#[unsafe(no_mangle)]
pub extern "C" fn pocket_load(alloc: Global, handle: &mut Handle, state: &[u8]) -> u32
    ensures only { IsOneOf result (CallStatus.Done ∷ CallStatus.Closed ∷ CallStatus.OtherKind
        ∷ CallStatus.NoState ∷ CallStatus.OtherState ∷ []) }
    ensures closed { (result ≡ status_number CallStatus.Closed) ↔ (handle.old.held ≡ None) }
    ensures kind { (result ≡ status_number CallStatus.OtherKind) ↔ HasBench handle.old.held }
    ensures unchanged { (result ≡ status_number CallStatus.Done → ⊥)
        → handle.new.held ≡ handle.old.held }
    // It is done exactly if the bytes are the state of some sender with as many places, and then that is held.
    ensures sender_exact { (s : SenderState) → handle.old.held ≡ Some (Held.Sender s)
        → (result ≡ status_number CallStatus.Done) ↔ AreOfSender (length s.encoder.masks.mask) state.now }
    ensures sender_loaded { (s : SenderState) → handle.old.held ≡ Some (Held.Sender s)
        → result ≡ status_number CallStatus.Done
        → (next : SenderState) × (handle.new.held ≡ Some (Held.Sender next))
        × (state.now ≡ sender_state next.encoder)
        × IsSenderState (length s.encoder.masks.mask) next.encoder × (next.room ≡ s.room) }
    ensures sender_other { (s : SenderState) → handle.old.held ≡ Some (Held.Sender s)
        → (result ≡ status_number CallStatus.OtherState)
        ↔ IsOther sender_kind (length s.encoder.masks.mask) state.now }
    // The same of a receiver.
    ensures receiver_exact { (r : Reckoning) → handle.old.held ≡ Some (Held.Receiver r)
        → (result ≡ status_number CallStatus.Done) ↔ AreOfReceiver r.reception.decoder.places state.now }
    ensures receiver_loaded { (r : Reckoning) → handle.old.held ≡ Some (Held.Receiver r)
        → result ≡ status_number CallStatus.Done
        → (next : Reckoning) × (handle.new.held ≡ Some (Held.Receiver next))
        × (state.now ≡ receiver_state next) × IsReceiverState r.reception.decoder.places next }
    ensures receiver_other { (r : Reckoning) → handle.old.held ≡ Some (Held.Receiver r)
        → (result ≡ status_number CallStatus.OtherState)
        ↔ IsOther receiver_kind r.reception.decoder.places state.now }
{
    let Some(mut held) = handle.take(alloc) else {
        return CallStatus::Closed.number();
    };
    let status = match &mut *held {
        Held::Sender(sender) => match sender.load(state) {
            Ok(()) => CallStatus::Done,
            Err(fault) => CallStatus::from(fault),
        },
        Held::Receiver(receiver) => match receiver.load(state) {
            Ok(()) => CallStatus::Done,
            Err(fault) => CallStatus::from(fault),
        },
        Held::Bench(_) => CallStatus::OtherKind,
    };
    handle.put(alloc, held);
    status.number()
}
