//! What is read of a decoder in a saved state.

ghost use Rattle.std.specs.Prelude.{◌≡◌, ◌↔◌, ℕ, ◌+◌, ◌*◌, ◌<◌, ◌^◌, List, false, length, None, Some, IsTrue, IfSome};
ghost use Rattle.bit_vectors.specs.Vectors.{IsPlaces};
ghost use Rattle.packet_decode.specs.Saved.{AreThree, number_and_one, numbers_before};

use state_bytes::{pass_vector, take_number};

/// The number of a packet, from one more than it, or none from 0.
pub fn number_before(after: u64) -> Option<u64>
    ensures { number_and_one result ≡ after }
{
    after.checked_sub(1)
}

/// One more than the number of a packet, and 0 if there is none.
pub fn number_after(number: Option<u64>) -> u64
    requires { number_and_one number < 2 ^ 64 }
    ensures { result ≡ number_and_one number }
{
    match number {
        None => 0,
        Some(number) => number + 1,
    }
}

/// The numbers and the level that the bytes begin with, and the rest. None: there are fewer than 17 bytes.
pub fn take_numbers(bytes: &[u8]) -> Option<(u64, u64, u8, &[u8])>
    ensures some { IfSome result
        (λ t. bytes.now ≡ numbers_before t.0 t.1 t.2 t.3.now) }
    ensures numbers { (mask content level : ℕ) (rest : List ℕ) → mask < 2 ^ 64 → content < 2 ^ 64
        → bytes.now ≡ numbers_before mask content level rest
        → IfSome result (λ t. (t.0 ≡ mask) × (t.1 ≡ content) × (t.2 ≡ level) × (t.3.now ≡ rest)) }
    ensures none { result ≡ None → length bytes.now < 17 }
{
    let (mask, rest) = take_number(bytes)?;
    let (content, rest) = take_number(rest)?;
    let (level, rest) = rest.split_first()?;
    Some((mask, content, *level, rest))
}

/// Whether the bytes are three vectors of `f` places, of which the first and the other two may have a 1.
pub fn are_three(bytes: &[u8], f: u32, first: bool, others: bool) -> bool
    requires valid { IsPlaces f }
    ensures { IsTrue result ↔ AreThree f first others bytes.now }
{
    let Some(rest) = pass_vector(bytes, f, first) else {
        return false;
    };
    let Some(rest) = pass_vector(rest, f, others) else {
        return false;
    };
    let Some(rest) = pass_vector(rest, f, others) else {
        return false;
    };
    rest.is_empty()
}
