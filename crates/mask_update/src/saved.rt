//! What is read of running vectors in a saved state.

ghost use Rattle.std.specs.Prelude.{◌≡◌, ℕ, ◌<◌, ◌^◌, Bool, List, None, IfSome, length};
ghost use Rattle.bit_vectors.specs.Vectors.{IsPlaces};
ghost use Rattle.mask_update.specs.Saved.{BeginsFour, bit_byte, counted_before};

use state_bytes::{pass_vector, take_number};

/// A truth value as a byte.
pub fn byte_of(bit: bool) -> u8
    ensures { result ≡ bit_byte bit }
{
    if bit { 1 } else { 0 }
}

/// The number and the byte that the bytes begin with, and the rest. None: there are fewer than nine bytes.
pub fn take_counted(bytes: &[u8]) -> Option<(u64, u8, &[u8])>
    ensures some { IfSome result (λ t. bytes.now ≡ counted_before t.0 t.1 t.2.now) }
    ensures counted { (taken again : ℕ) (rest : List ℕ) → taken < 2 ^ 64
        → bytes.now ≡ counted_before taken again rest
        → IfSome result (λ t. (t.0 ≡ taken) × (t.1 ≡ again) × (t.2.now ≡ rest)) }
    ensures none { result ≡ None → length bytes.now < 9 }
{
    let (taken, rest) = take_number(bytes)?;
    let (again, rest) = rest.split_first()?;
    Some((taken, *again, rest))
}

/// What follows the four vectors of `f` places that the bytes begin with. None: they don't begin with four such vectors.
pub fn pass_four(bytes: &[u8], f: u32) -> Option<&[u8]>
    requires valid { IsPlaces f }
    ensures some { IfSome result (λ rest. (previous build mask change : List Bool)
        × BeginsFour f previous build mask change bytes.now rest.now) }
    ensures all { (previous build mask change : List Bool) (rest : List ℕ)
        → BeginsFour f previous build mask change bytes.now rest → IfSome result (λ after. after.now ≡ rest) }
    ensures none { (previous build mask change : List Bool) (rest : List ℕ)
        → BeginsFour f previous build mask change bytes.now rest → result ≡ None → ⊥ }
{
    let Some(rest) = pass_vector(bytes, f, true) else {
        return None;
    };
    let Some(rest) = pass_vector(rest, f, true) else {
        return None;
    };
    let Some(rest) = pass_vector(rest, f, true) else {
        return None;
    };
    pass_vector(rest, f, true)
}
