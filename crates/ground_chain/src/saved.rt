//! What is read of a reckoning in a saved state.

ghost use Rattle.std.specs.Prelude.{◌≡◌, ◌↔◌, ℕ, ◌+◌, ◌*◌, ◌<◌, ◌≤◌, ◌^◌, List, length, None, Some, IsTrue, IfSome};
ghost use Rattle.state_bytes.specs.Parts.{Puts};
ghost use Rattle.ground_chain.specs.declared.restored.Restored.{Restored as Counts};
ghost use Rattle.ground_chain.specs.Run.{expected};
ghost use Rattle.ground_chain.specs.Report.{IsRestored};
ghost use Rattle.ground_chain.specs.Saved.{AreFitting, counts_before, counts_bytes};

use crate::restored::Restored;
use state_bytes::{put_number, take_number};

/// One more than a number, and 0 if there is none.
pub fn number_after(number: Option<u64>) -> u64
    requires { expected number < 2 ^ 64 }
    ensures { result ≡ expected number }
{
    match number {
        None => 0,
        Some(number) => number + 1,
    }
}

/// The five numbers that the bytes begin with, and the rest. None: there are fewer than 40 bytes.
pub fn take_counts(bytes: &[u8]) -> Option<(u64, Restored, &[u8])>
    ensures some { IfSome result (λ t. bytes.now ≡ counts_before t.0 t.1 t.2.now) }
    ensures counts { (next : ℕ) (r : Counts) (rest : List ℕ) → next < 2 ^ 64 → AreFitting r
        → bytes.now ≡ counts_before next r rest
        → IfSome result (λ t. (t.0 ≡ next) × (t.1 ≡ r) × (t.2.now ≡ rest)) }
    ensures none { result ≡ None → length bytes.now < 40 }
{
    let (next, rest) = take_number(bytes)?;
    let (packets, rest) = take_number(rest)?;
    let (written, rest) = take_number(rest)?;
    let (repeats, rest) = take_number(rest)?;
    let (listed, rest) = take_number(rest)?;
    let restored = Restored {
        packets,
        written,
        repeats,
        listed,
    };
    Some((next, restored, rest))
}

/// Writes five numbers at this place, and tells the place after them.
pub fn put_counts(out: &mut [u8], at: usize, next: u64, restored: &Restored) -> usize
    requires { at + 40 ≤ length out.old }
    ensures { Puts out.old out.new at (counts_bytes next restored.now) result }
{
    let at = put_number(out, at, next);
    let at = put_number(out, at, restored.packets);
    let at = put_number(out, at, restored.written);
    let at = put_number(out, at, restored.repeats);
    put_number(out, at, restored.listed)
}

/// Whether the numbers are within their limits.
pub fn are_within(next: u64, restored: &Restored) -> bool
    ensures { IsTrue result
        ↔ ((next ≤ 2 ^ 14 * restored.now.packets) × IsRestored restored.now × (restored.now.packets ≤ 2 ^ 32)) }
{
    restored.packets <= 4_294_967_296
        && next <= 16_384 * restored.packets
        && restored.written <= restored.packets
        && restored.repeats <= restored.packets
        && restored.listed <= 16_384 * restored.packets
}
