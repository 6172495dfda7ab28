//! What is read of a window in a saved state.

ghost use Rattle.std.specs.Prelude.{◌≡◌, ◌↔◌, ℕ, ◌<◌, ◌^◌, List, None, IfSome, IsTrue, length};
ghost use Rattle.bit_vectors.specs.Vectors.{IsPlaces};
ghost use Rattle.robust_window.specs.Saved.{AreChangesBytes, level_before};

use crate::changes::KEPT;
use state_bytes::pass_vector;

/// The level and the marks that the bytes begin with, and the rest. None: there are fewer than three bytes.
pub fn take_level(bytes: &[u8]) -> Option<(u8, u16, &[u8])>
    ensures some { IfSome result (λ t. bytes.now ≡ level_before t.0 t.1 t.2.now) }
    ensures level { (level marks : ℕ) (rest : List ℕ) → marks < 2 ^ 16
        → bytes.now ≡ level_before level marks rest
        → IfSome result (λ t. (t.0 ≡ level) × (t.1 ≡ marks) × (t.2.now ≡ rest)) }
    ensures none { result ≡ None → length bytes.now < 3 }
{
    let (level, rest) = bytes.split_first()?;
    let (marks, rest) = rest.split_first_chunk::<2>()?;
    Some((*level, u16::from_be_bytes(*marks), rest))
}

/// Whether the bytes are sixteen changes of `f` places and recent changes of as many.
pub fn are_changes(bytes: &[u8], f: u32) -> bool
    requires valid { IsPlaces f }
    ensures { IsTrue result ↔ AreChangesBytes f bytes.now }
{
    let mut rest = bytes;
    for _change in 0..KEPT {
        match pass_vector(rest, f, true) {
            Some(after) => rest = after,
            None => return false,
        }
    }
    match pass_vector(rest, f, true) {
        Some(after) => after.is_empty(),
        None => false,
    }
}
