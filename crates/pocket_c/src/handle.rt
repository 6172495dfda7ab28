//! Closing a handle.

ghost use Rattle.std.specs.Prelude.{◌≡◌, ◌↔◌, ◌∷◌, [], None};
ghost use Rattle.pocket_c.specs.Statuses.{IsOneOf, status_number};

use crate::held::Handle;
use crate::status::CallStatus;
use std::alloc::Global;

/// Gives back what a handle holds.
fn close(alloc: Global, handle: &mut Handle) -> CallStatus
    ensures only { IsOneOf (status_number result) (CallStatus.Done ∷ CallStatus.Closed ∷ []) }
    ensures closed { (result ≡ CallStatus.Closed) ↔ (handle.old.held ≡ None) }
    ensures done { (result ≡ CallStatus.Done) ↔ (handle.old.held ≡ None → ⊥) }
    ensures shut { handle.new.held ≡ None }
{
    match handle.take(alloc) {
        Some(held) => {
            drop(held);
            CallStatus::Done
        }
        None => CallStatus::Closed,
    }
}

/// Gives back all memory of what the handle holds. It then holds nothing, and may be opened again.
#[unsafe(no_mangle)]
pub extern "C" fn pocket_close(alloc: Global, handle: &mut Handle) -> u32
    ensures only { IsOneOf result (CallStatus.Done ∷ CallStatus.Closed ∷ []) }
    ensures closed { (result ≡ status_number CallStatus.Closed) ↔ (handle.old.held ≡ None) }
    ensures done { (result ≡ status_number CallStatus.Done) ↔ (handle.old.held ≡ None → ⊥) }
    ensures shut { handle.new.held ≡ None }
{
    close(alloc, handle).number()
}
