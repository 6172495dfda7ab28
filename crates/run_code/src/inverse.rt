//! The inverted bits of a mask at the ones of a vector, from the lowest place up (CCSDS 124.0-B-1).

ghost use Rattle.std.specs.Prelude.{◌≡◌, ℕ, ◌+◌, ◌-◌, ◌<◌, ◌≤◌, ◌↔◌, ◌++◌, true, false, Bool, List, length, take, replicate, count_by, Contains, Err, IfErr, OnOk};
ghost use Rattle.bit_vectors.specs.Reading.{bits_left, MovesOn, Gives, IsFirstFault};
ghost use Rattle.bit_vectors.specs.Vectors.{IsOne};
ghost use Rattle.run_code.specs.Extraction.{places_up, inverse_up, bits_up, IsInverseWord, parse_filled, parse_inverse};

use crate::words::{put_gathered_up, spread_up};
use bit_vectors::{BitEye, BitFault, BitPen, Bits};

/// Appends the inverted bits of `mask` at the ones of `x`, which has the same number of places, from the lowest
/// place up. The pen has room for them.
pub fn put_inverse_up(pen: &mut BitPen, mask: &Bits, x: &Bits)
    requires places { length mask.now ≡ length x.now }
    requires room { length pen.old.bits + count_by (λ bit. bit) x.now ≤ pen.old.room }
    ensures bits { pen.new.bits ≡ pen.old.bits ++ inverse_up mask.now x.now }
    ensures room { pen.new.room ≡ pen.old.room }
{
    for index in 0..x.word_count() {
        let at = x.word(index);
        put_gathered_up(pen, at & !mask.word(index), at);
    }
}

/// Takes a bit for each 1 of `x`, which has at least one and as many places as `into`, from the lowest
/// place up, and sets the bit of `into` at that place to it. The other bits of `into` are then 0. Not all of
/// the bits may be 0: after zeros alone the last one must be 1. After a fault `into` may have any bits.
pub fn take_inverse_up(eye: &mut BitEye, x: &Bits, into: &mut Bits) -> Result<(), BitFault>
    requires places { length x.now ≡ length into.old }
    requires some { Contains x.now true }
    ensures places { length into.new ≡ length into.old }
    ensures moves { MovesOn eye.old eye.new }
    // After `Ok`, the set of ones of `x` at which a 1 was read, which isn't empty.
    ensures taken { OnOk result (bits_left eye.old ≡ bits_up into.new x.now ++ bits_left eye.new) }
    ensures within { OnOk result ((place : ℕ) → IsOne into.new place → IsOne x.now place) }
    ensures one { OnOk result (Contains into.new true) }
    // `Wrong` exactly if the bits at the ones of `x` are there and all are 0; the last of them is wrong.
    ensures wrong { let ones = count_by (λ bit. bit) x.now in
        (result ≡ Err (BitFault.Wrong (eye.old.place + ones - 1)))
        ↔ (take ones (bits_left eye.old) ≡ replicate ones false) }
    ensures early { (result ≡ Err (BitFault.EndsEarly (length eye.old.bits)))
        ↔ (length (bits_left eye.old) < count_by (λ bit. bit) x.now) }
    ensures fault { IfErr result
        (λ fault. IsFirstFault
        (λ word. (y : List Bool) × IsInverseWord x.now y word) eye.old eye.new fault) }
    ensures reading { Gives (λ _. into.new) result eye.new
        (parse_inverse x.now (bits_left eye.old)) }
{
    read_inverse(eye, x, into)
}

/// Takes a bit for each 1 of `x`, which has at least one. The last bit is wrong if all are 0.
fn read_inverse(eye: &mut BitEye, x: &Bits, into: &mut Bits) -> Result<(), BitFault>
    requires places { length x.now ≡ length into.old }
    requires some { Contains x.now true }
    ensures places { length into.new ≡ length into.old }
    ensures moves { MovesOn eye.old eye.new }
    ensures reading { Gives (λ _. into.new) result eye.new
        (parse_inverse x.now (bits_left eye.old)) }
{
    take_up(eye, x, into)?;
    if into.is_zero() {
        return Err(BitFault::Wrong { bit: eye.at() - 1 });
    }
    Ok(())
}

/// Takes a bit for each 1 of `x`, from the lowest place up, and sets the bit of `into` at that place to it.
/// The other bits of `into` are then 0.
fn take_up(eye: &mut BitEye, x: &Bits, into: &mut Bits) -> Result<(), BitFault>
    requires { length x.now ≡ length into.old }
    ensures places { length into.new ≡ length into.old }
    ensures moves { MovesOn eye.old eye.new }
    ensures reading { Gives (λ _. into.new) result eye.new
        (parse_filled (places_up x.now) (replicate (length x.now) false) (bits_left eye.old)) }
{
    for index in 0..x.word_count() {
        let at = x.word(index);
        if at == 0 {
            into.set_word(index, 0);
            continue;
        }
        let ones = at.count_ones();
        let number = eye.take_word(ones)?;
        into.set_word(index, spread_up(number, at, ones));
    }
    Ok(())
}
