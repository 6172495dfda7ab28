//! The bits of one word at the ones of another, in either order. Each loop visits the ones in turn, always the lowest
//! that is left in a word, so a word of zeros costs one comparison. If there are many, all bits are moved at once, and how they
//! move is kept with the word `at`.

ghost use Rattle.std.specs.Prelude.{◌≡◌, ℕ, ◌+◌, ◌-◌, ◌*◌, ◌/◌, ◌%◌, ◌^◌, ◌<◌, ◌≤◌, ◌++◌, length, take};
ghost use Rattle.std.specs.Int.{bit_at};
ghost use Rattle.std.specs.Int.Bits.{bit_and, bit_or};
ghost use Rattle.std.specs.Int.RustNames.{count_ones};
ghost use Rattle.bit_vectors.specs.Vectors.{bits_number, number_bits};
ghost use Rattle.run_code.specs.Extraction.{extract, bits_up};

use crate::moves::WordMoves;
use crate::packing::{packed, packed_once, unpacked, unpacked_once};
use bit_vectors::BitPen;

/// With more ones than these all bits are moved at once: that takes fewer instructions than to visit each 1, and if
/// there are fewer than some 30 and they are to be spread, a little more time.
pub const MANY: u32 = 24;

/// The number `held`, followed by the bits of `bits` at the ones of `at`, the least weight first, as one number.
pub fn gathered(held: u64, bits: u64, at: u64) -> u64
    requires fits { (held + 1) * 2 ^ count_ones at ≤ 2 ^ 64 }
    ensures { result ≡ held * 2 ^ count_ones at
        + bits_number (extract (number_bits 64 bits) (number_bits 64 at)) }
{
    let mut gathered = held;
    let mut rest = at;
    while rest != 0 {
        gathered = 2 * gathered + ((bits >> rest.trailing_zeros()) & 1);
        rest &= rest - 1;
    }
    gathered
}

/// The bits of `bits` at the ones of `at`, the least weight first, as one number; all are moved at once. `index` is the
/// number of the word `at`.
pub fn moved(bits: u64, at: u64, ones: u32, moves: &mut [WordMoves], index: usize) -> u64
    requires ones { ones ≡ count_ones at }
    requires some { 1 ≤ ones }
    ensures number { result ≡ bits_number (extract (number_bits 64 bits) (number_bits 64 at)) }
    ensures moves { length moves.new ≡ length moves.old }
{
    turned(packed(bits, at, moves, index)) >> (64 - ones)
}

/// `word` with the first bits of `ahead` at the ones of `at`, the first bit at the 1 of the least weight. `index` is the
/// number of the word `at`. Each turn takes two ones: a word has mostly one or two. If the second is missing, taking it
/// changes nothing.
pub fn spread(
    word: u64,
    at: u64,
    ahead: u64,
    ones: u32,
    moves: &mut [WordMoves],
    index: usize,
) -> u64
    requires { ones ≡ count_ones at }
    ensures bits { extract (number_bits 64 result) (number_bits 64 at)
        ≡ take (count_ones at) (number_bits 64 ahead) }
    ensures others { (weight : ℕ) → bit_at at weight ≡ 0
        → bit_at result weight ≡ bit_at word weight }
    ensures moves { length moves.new ≡ length moves.old }
{
    if ones > MANY {
        return (word & !at) | (unpacked(turned(ahead), at, moves, index) & at);
    }
    let mut made = word & !at;
    let mut next = ahead;
    let mut rest = at;
    while rest != 0 {
        let later = rest & (rest - 1);
        made |= (next >> 63) * (rest - later);
        next <<= 1;
        rest = later & later.wrapping_sub(1);
        made |= (next >> 63) * (later - rest);
        next <<= 1;
    }
    made
}

/// Appends the bits of `bits` at the ones of `at`, the bit of the greatest weight first.
pub fn put_gathered_up(pen: &mut BitPen, bits: u64, at: u64)
    requires { length pen.old.bits + count_ones at ≤ pen.old.room }
    ensures bits { pen.new.bits
        ≡ pen.old.bits ++ bits_up (number_bits 64 bits) (number_bits 64 at) }
    ensures room { pen.new.room ≡ pen.old.room }
{
    if at != 0 {
        let ones = at.count_ones();
        pen.put_word(gathered_up(bits, at, ones), ones);
    }
}

/// The bits of `bits` at the ones of `at`, as a number with one bit for each of these ones, the bit of the greatest
/// weight first.
fn gathered_up(bits: u64, at: u64, ones: u32) -> u64
    requires { ones ≡ count_ones at }
    ensures bits { number_bits (count_ones at) result
        ≡ bits_up (number_bits 64 bits) (number_bits 64 at) }
    ensures fits { result < 2 ^ count_ones at }
{
    if ones > MANY {
        return packed_once(bits, at);
    }
    let mut gathered = 0;
    let mut taken: u32 = 0;
    let mut rest = at;
    while rest != 0 {
        gathered += ((bits >> rest.trailing_zeros()) & 1) << taken;
        taken += 1;
        rest &= rest - 1;
    }
    gathered
}

/// The word that has the bits of `number` at the ones of `at`, its lowest bit at the 1 of the least
/// weight, and zeros elsewhere.
pub fn spread_up(number: u64, at: u64, ones: u32) -> u64
    requires { ones ≡ count_ones at }
    ensures bits { bits_up (number_bits 64 result) (number_bits 64 at)
        ≡ number_bits (count_ones at) number }
    ensures others { (weight : ℕ) → bit_at at weight ≡ 0 → bit_at result weight ≡ 0 }
{
    if ones > MANY {
        return unpacked_once(number, at) & at;
    }
    let mut made = 0;
    let mut next = number;
    let mut rest = at;
    while rest != 0 {
        made |= (next % 2) << rest.trailing_zeros();
        next /= 2;
        rest &= rest - 1;
    }
    made
}

/// The word with its bits in the reverse order: neighbouring bits are swapped, then pairs of bits, then groups of
/// 4, of 8, of 16 and of 32.
fn turned(word: u64) -> u64
    ensures { (weight : ℕ) → weight < 64 → bit_at result weight ≡ bit_at word (63 - weight) }
{
    let mut turned = swapped(word, 0x5555_5555_5555_5555, 1);
    turned = swapped(turned, 0x3333_3333_3333_3333, 2);
    turned = swapped(turned, 0x0f0f_0f0f_0f0f_0f0f, 4);
    turned = swapped(turned, 0x00ff_00ff_00ff_00ff, 8);
    turned = swapped(turned, 0x0000_ffff_0000_ffff, 16);
    swapped(turned, 0x0000_0000_ffff_ffff, 32)
}

/// A word whose bits at the ones of `low` come from the given number of places above them, and those above from
/// there.
fn swapped(word: u64, low: u64, by: u32) -> u64
    requires { by < 64 }
    ensures { result ≡ bit_or (bit_and (word / 2 ^ by) low) (bit_and word low * 2 ^ by % 2 ^ 64) }
{
    ((word >> by) & low) | ((word & low) << by)
}
