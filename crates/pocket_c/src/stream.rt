//! What a sender or a receiver tells of its stream.

ghost use Rattle.std.specs.Prelude.{◌≡◌, ◌↔◌, ◌∷◌, [], None, Some, length};
ghost use Rattle.ground_chain.specs.Reception.{Reckoning};
ghost use Rattle.packet_calls.specs.Sending.{SenderState};
ghost use Rattle.pocket_c.specs.Kinds.{HasBench, HasOtherThanSender};
ghost use Rattle.pocket_c.specs.Statuses.{IsOneOf, status_number};

use crate::held::{Handle, Held};
use crate::status::CallStatus;
use std::alloc::Global;

/// Tells the number of places of the vectors of the sender or the receiver that a handle holds, 1 to 49,152.
#[unsafe(no_mangle)]
pub extern "C" fn pocket_bits(alloc: Global, handle: &mut Handle, places: &mut u32) -> u32
    ensures only { IsOneOf result (CallStatus.Done ∷ CallStatus.Closed ∷ CallStatus.OtherKind ∷ []) }
    ensures closed { (result ≡ status_number CallStatus.Closed) ↔ (handle.old.held ≡ None) }
    ensures other { (result ≡ status_number CallStatus.OtherKind) ↔ HasBench handle.old.held }
    ensures sender { (s : SenderState) → handle.old.held ≡ Some (Held.Sender s)
        → (result ≡ status_number CallStatus.Done) × (places.new ≡ length s.encoder.masks.mask) }
    ensures receiver { (r : Reckoning) → handle.old.held ≡ Some (Held.Receiver r)
        → (result ≡ status_number CallStatus.Done) × (places.new ≡ r.reception.decoder.places) }
    ensures unchanged { handle.new.held ≡ handle.old.held }
    ensures untold { (result ≡ status_number CallStatus.Done → ⊥) → places.new ≡ places.old }
{
    let Some(held) = handle.take(alloc) else {
        return CallStatus::Closed.number();
    };
    let status = match &*held {
        Held::Sender(sender) => {
            *places = sender.places();
            CallStatus::Done
        }
        Held::Receiver(receiver) => {
            *places = receiver.places();
            CallStatus::Done
        }
        Held::Bench(_) => CallStatus::OtherKind,
    };
    handle.put(alloc, held);
    status.number()
}

/// Tells how many packets the sender that a handle holds has made, at most 4,294,967,296: the number of its next one.
#[unsafe(no_mangle)]
pub extern "C" fn pocket_sent(alloc: Global, handle: &mut Handle, packets: &mut u64) -> u32
    ensures only { IsOneOf result (CallStatus.Done ∷ CallStatus.Closed ∷ CallStatus.OtherKind ∷ []) }
    ensures closed { (result ≡ status_number CallStatus.Closed) ↔ (handle.old.held ≡ None) }
    ensures other { (result ≡ status_number CallStatus.OtherKind) ↔ HasOtherThanSender handle.old.held }
    ensures told { (s : SenderState) → handle.old.held ≡ Some (Held.Sender s)
        → (result ≡ status_number CallStatus.Done) × (packets.new ≡ s.encoder.masks.taken) }
    ensures unchanged { handle.new.held ≡ handle.old.held }
    ensures untold { (result ≡ status_number CallStatus.Done → ⊥) → packets.new ≡ packets.old }
{
    let Some(held) = handle.take(alloc) else {
        return CallStatus::Closed.number();
    };
    let status = match &*held {
        Held::Sender(sender) => {
            *packets = sender.taken();
            CallStatus::Done
        }
        Held::Receiver(_) | Held::Bench(_) => CallStatus::OtherKind,
    };
    handle.put(alloc, held);
    status.number()
}
