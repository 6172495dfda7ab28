//! Counts from bits. A count whose whole word is seen ahead is read at once; the readers bit by bit are for the faults.

ghost use Rattle.std.specs.Prelude.{◌≡◌, ◌-◌, ◌*◌, ◌^◌, ◌≤◌, ◌++◌, Bool, List, Ok, IfOk, IfErr};
ghost use Rattle.bit_vectors.specs.Reading.{bits_left, Gives, MovesOn, IsFirstFault};
ghost use Rattle.bit_vectors.specs.Vectors.{most_places};
ghost use Rattle.count_code.specs.Counts.{AreAhead, word_of, IsWithin, IsCode, parse_bounded, parse_long, parse_above_one, parse_after_one, parse_count};
ghost use Rattle.count_code.specs.declared.count.Count.{Count};

use crate::ahead::Ahead;
use crate::count::Count;
use bit_vectors::{BitEye, BitFault};

/// Takes the word of a count from 1 to `limit`, or the word that ends a list of counts. `Wrong` names the
/// first bit after which neither can follow, and the eye is then just after it. `EndsEarly` comes if
/// the bits end before such a word is complete, and the eye is then at the end.
pub fn take_count(eye: &mut BitEye, limit: u32) -> Result<Count, BitFault>
    requires { limit ≤ most_places }
    ensures moves { MovesOn eye.old eye.new }
    ensures word { IfOk result
        (λ count. IsWithin limit count × (bits_left eye.old ≡ word_of count ++ bits_left eye.new)) }
    ensures only { (count : Count) (rest : List Bool) → IsWithin limit count
        → bits_left eye.old ≡ word_of count ++ rest → result ≡ Ok count }
    ensures fault { IfErr result (λ fault. IsFirstFault (IsCode limit) eye.old eye.new fault) }
    ensures reading { Gives (λ count. count) result eye.new
        (parse_count limit (bits_left eye.old)) }
{
    take_count_with(eye, &mut Ahead::none(), limit)
}

/// The same for one of several counts: bits that were looked at for one are kept for the next.
#[inline(always)]
pub fn take_count_with(eye: &mut BitEye, ahead: &mut Ahead, limit: u32) -> Result<Count, BitFault>
    requires limit { limit ≤ most_places }
    requires ahead { AreAhead (bits_left eye.old) ahead.old }
    ensures moves { MovesOn eye.old eye.new }
    ensures word { IfOk result
        (λ count. IsWithin limit count × (bits_left eye.old ≡ word_of count ++ bits_left eye.new)) }
    ensures only { (count : Count) (rest : List Bool) → IsWithin limit count
        → bits_left eye.old ≡ word_of count ++ rest → result ≡ Ok count }
    ensures fault { IfErr result (λ fault. IsFirstFault (IsCode limit) eye.old eye.new fault) }
    ensures reading { Gives (λ count. count) result eye.new
        (parse_count limit (bits_left eye.old)) }
    ensures ahead { AreAhead (bits_left eye.new) ahead.new }
{
    read_count(eye, ahead, limit)
}

/// Takes a count or the end: at once if its whole word is seen ahead, else bit by bit.
#[inline(always)]
fn read_count(eye: &mut BitEye, ahead: &mut Ahead, limit: u32) -> Result<Count, BitFault>
    requires limit { limit ≤ most_places }
    requires ahead { AreAhead (bits_left eye.old) ahead.old }
    ensures moves { MovesOn eye.old eye.new }
    ensures reading { Gives (λ count. count) result eye.new
        (parse_count limit (bits_left eye.old)) }
    ensures ahead { AreAhead (bits_left eye.new) ahead.new }
{
    let looked = ahead.or_looked(eye);
    let Some(seen) = looked.first(limit) else {
        *ahead = Ahead::none();
        return read_bits(eye, limit);
    };
    eye.pass(seen.width);
    *ahead = looked.after(seen.width);
    Ok(seen.count)
}

/// Takes a count or the end bit by bit, as `parse_count` reads them, to name the fault.
#[inline(never)]
#[tactic(auto, unfolding(crate::specs::Counts::parse_count))]
fn read_bits(eye: &mut BitEye, limit: u32) -> Result<Count, BitFault>
    requires { limit ≤ most_places }
    ensures moves { MovesOn eye.old eye.new }
    ensures reading { Gives (λ count. count) result eye.new
        (parse_count limit (bits_left eye.old)) }
{
    if eye.take_allowed(1 <= limit, true)? {
        after_one(eye, limit)
    } else {
        Ok(Count::Value(1))
    }
}

/// Takes what follows a first bit that is one.
#[tactic(auto, unfolding(crate::specs::Counts::parse_after_one))]
fn after_one(eye: &mut BitEye, limit: u32) -> Result<Count, BitFault>
    requires { limit ≤ most_places }
    ensures moves { MovesOn eye.old eye.new }
    ensures reading { Gives (λ count. count) result eye.new
        (parse_after_one limit (bits_left eye.old)) }
{
    if eye.take_allowed(true, 2 <= limit)? {
        let number = above_one(eye, limit)?;
        Ok(Count::Value(number + 2))
    } else {
        Ok(Count::End)
    }
}

/// Takes what follows two ones: a count, less 2.
#[tactic(auto, unfolding(crate::specs::Counts::parse_above_one))]
fn above_one(eye: &mut BitEye, limit: u32) -> Result<u32, BitFault>
    requires least { 2 ≤ limit }
    requires most { limit ≤ most_places }
    ensures moves { MovesOn eye.old eye.new }
    ensures reading { Gives (λ n. n) result eye.new (parse_above_one limit (bits_left eye.old)) }
    ensures most { IfOk result (λ n. n ≤ limit - 2) }
{
    if eye.take_allowed(true, 34 <= limit)? {
        take_long(eye, limit - 2)
    } else {
        take_bounded(eye, limit - 2, 0, 5)
    }
}

/// Takes the last `width` bits of a number that is at most `most` and begins with `so_far`.
fn take_bounded(eye: &mut BitEye, most: u32, so_far: u32, width: u32) -> Result<u32, BitFault>
    requires most { most ≤ 49150 }
    requires so_far { so_far * 2 ^ width ≤ most }
    requires width { width ≤ 15 }
    ensures moves { MovesOn eye.old eye.new }
    ensures reading { Gives (λ n. n) result eye.new
        (parse_bounded most so_far width (bits_left eye.old)) }
    ensures most { IfOk result (λ n. n ≤ most) }
{
    let mut number = so_far;
    for weight in (0..width).rev() {
        let bit = eye.take_allowed(
            (2 * number) << weight <= most,
            (2 * number + 1) << weight <= most,
        )?;
        number = 2 * number + u32::from(bit);
    }
    Ok(number)
}

/// Takes a number from 32 to `most`, which has six more binary digits than zeros before them.
fn take_long(eye: &mut BitEye, most: u32) -> Result<u32, BitFault>
    requires least { 32 ≤ most }
    requires most { most ≤ 49150 }
    ensures moves { MovesOn eye.old eye.new }
    ensures reading { Gives (λ n. n) result eye.new (parse_long most 0 most (bits_left eye.old)) }
    ensures most { IfOk result (λ n. n ≤ most) }
{
    let mut digits = 6;
    while !eye.take_allowed(1 << digits <= most, true)? {
        digits += 1;
    }
    take_bounded(eye, most, 1, digits - 1)
}
