//! Vectors: one without a 1 takes a byte.

ghost use Rattle.std.specs.Prelude.{◌≡◌, ℕ, ◌+◌, ◌≤◌, Bool, List, length, IfSome, Some, IsTrue, ◌↔◌, replicate};
ghost use Rattle.bit_vectors.specs.Vectors.{IsPlaces};
ghost use Rattle.state_bytes.specs.Parts.{BeginsVector, BeginsVectorIf, Puts, vector_part, vector_room};

use crate::room::put;
use bit_vectors::{Bits, byte_len, has_spare_bit};

/// Writes a vector at this place, and tells the place after it.
pub fn put_vector(out: &mut [u8], at: usize, vector: &Bits) -> usize
    requires { at + vector_room (length vector.now) ≤ length out.old }
    ensures { Puts out.old out.new at (vector_part vector.now) result }
{
    if vector.is_zero() {
        return put(out, at, &[0]);
    }
    let from = put(out, at, &[1]);
    let end = from + byte_len(vector.len()) as usize;
    vector.store(&mut out[from..end]);
    end
}

/// What follows the vector of `f` places that the bytes begin with. None: they begin with none, or with one that has a 1 and
/// may have none.
pub fn pass_vector(bytes: &[u8], f: u32, may: bool) -> Option<&[u8]>
    requires valid { IsPlaces f }
    ensures some { IfSome result
        (λ rest. (v : List Bool) × BeginsVectorIf may f v bytes.now rest.now) }
    ensures all { (v : List Bool) (rest : List ℕ) → BeginsVectorIf may f v bytes.now rest
        → IfSome result (λ after. after.now ≡ rest) }
    ensures none { (v : List Bool) (rest : List ℕ) → BeginsVectorIf may f v bytes.now rest
        → result ≡ None → ⊥ }
{
    let (first, rest) = bytes.split_first()?;
    if *first == 0 {
        return Some(rest);
    }
    let size = byte_len(f) as usize;
    if *first != 1 || !may || rest.len() < size {
        return None;
    }
    let (vector, after) = rest.split_at(size);
    if has_spare_bit(vector, f) || are_zero(vector) {
        return None;
    }
    Some(after)
}

/// Whether all bytes are 0.
fn are_zero(bytes: &[u8]) -> bool
    ensures { IsTrue result ↔ (bytes.now ≡ replicate (length bytes.now) 0) }
{
    for byte in bytes {
        if *byte != 0 {
            return false;
        }
    }
    true
}

/// Makes the vector the one of as many places that the bytes begin with, and tells what follows it.
pub fn take_vector<'a>(bytes: &'a [u8], vector: &mut Bits) -> &'a [u8]
    requires { (v : List Bool) × (rest : List ℕ) × BeginsVector (length vector.old) v bytes.now rest }
    ensures taken { (v : List Bool) (rest : List ℕ) → BeginsVector (length vector.old) v bytes.now rest
        → (vector.new ≡ v) × (result.now ≡ rest) }
    ensures places { length vector.new ≡ length vector.old }
{
    let Some((first, rest)) = bytes.split_first() else {
        unreachable!();
    };
    if *first == 0 {
        vector.clear();
        return rest;
    }
    let (given, after) = rest.split_at(byte_len(vector.len()) as usize);
    let Ok(()) = vector.load(given) else {
        unreachable!();
    };
    after
}
