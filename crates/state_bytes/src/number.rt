//! Numbers of 64 bits.

ghost use Rattle.std.specs.Prelude.{◌≡◌, ℕ, ◌+◌, ◌<◌, ◌≤◌, ◌^◌, ◌++◌, List, length, None, Some, IfSome};
ghost use Rattle.state_bytes.specs.Parts.{Puts, number_bytes};

use crate::room::put;

/// Writes a number at this place, and tells the place after it.
pub fn put_number(out: &mut [u8], at: usize, n: u64) -> usize
    requires { at + 8 ≤ length out.old }
    ensures { Puts out.old out.new at (number_bytes n) result }
{
    put(out, at, &n.to_be_bytes())
}

/// The number that the bytes begin with, and the rest. None: there are fewer than eight.
pub fn take_number(bytes: &[u8]) -> Option<(u64, &[u8])>
    ensures some { IfSome result (λ taken. bytes.now ≡ number_bytes taken.0 ++ taken.1.now) }
    ensures number { (n : ℕ) (rest : List ℕ) → n < 2 ^ 64 → bytes.now ≡ number_bytes n ++ rest
        → IfSome result (λ taken. (taken.0 ≡ n) × (taken.1.now ≡ rest)) }
    ensures none { result ≡ None → length bytes.now < 8 }
{
    let (front, rest) = bytes.split_first_chunk::<8>()?;
    Some((u64::from_be_bytes(*front), rest))
}
