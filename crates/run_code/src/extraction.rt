//! The bits of a vector at the ones of another, from the highest place down (CCSDS 124.0-B-1). The calls with moves keep
//! how the bits of each word with many ones move, so that a vector that stays costs no new moves.

ghost use Rattle.std.specs.Prelude.{◌≡◌, ◌+◌, ◌-◌, ◌^◌, ◌<◌, ◌≤◌, ◌↔◌, ◌++◌, length, count_by, IsErr, IfErr, OnOk, OnErr};
ghost use Rattle.bit_vectors.specs.Reading.{bits_left, MovesOn, Gives};
ghost use Rattle.bit_vectors.specs.Vectors.{number_bits};
ghost use Rattle.bit_vectors.specs.Words.{word_count};
ghost use Rattle.run_code.specs.Extraction.{places_before, places_down, bits_at, extract, SameOutside, parse_filled};

use crate::moves::WordMoves;
use crate::words::{MANY, gathered, moved, spread};
use bit_vectors::{BitEye, BitFault, BitPen, Bits};

/// Appends the bits of `a` at the ones of `b`, which has the same number of places, from the highest place down.
/// The pen has room for them.
pub fn put_extract(pen: &mut BitPen, a: &Bits, b: &Bits)
    requires places { length a.now ≡ length b.now }
    requires room { length pen.old.bits + count_by (λ bit. bit) b.now ≤ pen.old.room }
    ensures bits { pen.new.bits ≡ pen.old.bits ++ extract a.now b.now }
    ensures room { pen.new.room ≡ pen.old.room }
{
    put_extract_with(pen, a, b, &mut []);
}

/// Appends the bits of `a` at the ones of `b`, which has the same number of places, from the highest place down.
/// The pen has room for them. The moves may be those of any words, and any number of them; as many are left.
pub fn put_extract_with(pen: &mut BitPen, a: &Bits, b: &Bits, moves: &mut [WordMoves])
    requires places { length a.now ≡ length b.now }
    requires room { length pen.old.bits + count_by (λ bit. bit) b.now ≤ pen.old.room }
    ensures bits { pen.new.bits ≡ pen.old.bits ++ extract a.now b.now }
    ensures room { pen.new.room ≡ pen.old.room }
    ensures count { length moves.new ≡ length moves.old }
{
    let mut held = 0;
    let mut count = 0;
    let mut words = b.word_count();
    while words > 0 {
        let index = words - 1;
        let at = b.word(index);
        if at == 0 {
            words = index;
            continue;
        }
        let more = at.count_ones();
        if more > MANY {
            put_held(pen, held, count);
            held = 0;
            count = 0;
            words = put_many(pen, a, b, moves, words);
            continue;
        }
        if count + more > 64 {
            pen.put_word(held, count);
            held = 0;
            count = 0;
        }
        held = gathered(held, a.word(index), at);
        count += more;
        words = index;
    }
    put_held(pen, held, count);
}

/// Appends the lowest bits of `held`, which has no others, as many as `count`.
fn put_held(pen: &mut BitPen, held: u64, count: u32)
    requires most { count ≤ 64 }
    requires small { held < 2 ^ count }
    requires room { length pen.old.bits + count ≤ pen.old.room }
    ensures bits { pen.new.bits ≡ pen.old.bits ++ number_bits count held }
    ensures room { pen.new.room ≡ pen.old.room }
{
    if count > 0 {
        pen.put_word(held, count);
    }
}

/// Appends the bits of `a` at the ones of the last of these first words of `b`, which has some, and of the words before it
/// as long as they have many. Answers how many words are left.
#[inline(never)]
fn put_many(pen: &mut BitPen, a: &Bits, b: &Bits, moves: &mut [WordMoves], words: u32) -> u32
    requires places { length a.now ≡ length b.now }
    requires words { words ≤ word_count (length b.now) }
    requires some { length (places_before (words - 1) b.now) < length (places_before words b.now) }
    requires room { length pen.old.bits + length (places_before words b.now) ≤ pen.old.room }
    ensures bits { pen.new.bits ++ bits_at a.now (places_before result b.now)
        ≡ pen.old.bits ++ bits_at a.now (places_before words b.now) }
    ensures room { pen.new.room ≡ pen.old.room }
    ensures left { result < words }
    ensures count { length moves.new ≡ length moves.old }
{
    let mut left = words - 1;
    loop {
        put_moved(pen, a, b, moves, left);
        if left == 0 || b.word(left - 1).count_ones() <= MANY {
            return left;
        }
        left -= 1;
    }
}

/// Appends the bits of `a` at the ones of the word of `b` with this number, which has some; all are moved at once.
#[inline(always)]
fn put_moved(pen: &mut BitPen, a: &Bits, b: &Bits, moves: &mut [WordMoves], index: u32)
    requires places { length a.now ≡ length b.now }
    requires index { index < word_count (length b.now) }
    requires some { length (places_before index b.now) < length (places_before (index + 1) b.now) }
    requires room { length pen.old.bits + length (places_before (index + 1) b.now) ≤ pen.old.room }
    ensures bits { pen.new.bits ++ bits_at a.now (places_before index b.now)
        ≡ pen.old.bits ++ bits_at a.now (places_before (index + 1) b.now) }
    ensures room { pen.new.room ≡ pen.old.room }
    ensures count { length moves.new ≡ length moves.old }
{
    let at = b.word(index);
    let ones = at.count_ones();
    let word = moved(a.word(index), at, ones, moves, index as usize);
    pen.put_word(word, ones);
}

/// Takes a bit for each 1 of `b`, which has as many places as `a`, from the highest place down, and sets
/// the bit of `a` at that place to it. The other bits of `a` are unchanged. If the bits end early, those at the
/// ones of `b` may be any bits. No bit is wrong.
pub fn take_into(eye: &mut BitEye, a: &mut Bits, b: &Bits) -> Result<(), BitFault>
    requires { length a.old ≡ length b.now }
    ensures places { length a.new ≡ length a.old }
    ensures moves { MovesOn eye.old eye.new }
    ensures taken { OnOk result (bits_left eye.old ≡ extract a.new b.now ++ bits_left eye.new) }
    ensures others { SameOutside b.now a.old a.new }
    ensures early { IsErr result ↔ (length (bits_left eye.old) < count_by (λ bit. bit) b.now) }
    ensures fault { IfErr result (λ fault. fault ≡ BitFault.EndsEarly (length eye.old.bits)) }
    ensures at_end { OnErr result (eye.new.place ≡ length eye.old.bits) }
    ensures reading { Gives (λ _. a.new) result eye.new
        (parse_filled (places_down b.now) a.old (bits_left eye.old)) }
{
    take_into_with(eye, a, b, &mut [])
}

/// Takes a bit for each 1 of `b`, which has as many places as `a`, from the highest place down, and sets
/// the bit of `a` at that place to it. The other bits of `a` are unchanged. If the bits end early, those at the
/// ones of `b` may be any bits. No bit is wrong. The moves are as in `put_extract_with`.
#[inline(never)]
pub fn take_into_with(
    eye: &mut BitEye,
    a: &mut Bits,
    b: &Bits,
    moves: &mut [WordMoves],
) -> Result<(), BitFault>
    requires { length a.old ≡ length b.now }
    ensures places { length a.new ≡ length a.old }
    ensures moves { MovesOn eye.old eye.new }
    ensures taken { OnOk result (bits_left eye.old ≡ extract a.new b.now ++ bits_left eye.new) }
    ensures others { SameOutside b.now a.old a.new }
    ensures early { IsErr result ↔ (length (bits_left eye.old) < count_by (λ bit. bit) b.now) }
    ensures fault { IfErr result (λ fault. fault ≡ BitFault.EndsEarly (length eye.old.bits)) }
    ensures at_end { OnErr result (eye.new.place ≡ length eye.old.bits) }
    ensures reading { Gives (λ _. a.new) result eye.new
        (parse_filled (places_down b.now) a.old (bits_left eye.old)) }
    ensures count { length moves.new ≡ length moves.old }
{
    let mut ahead = 0;
    let mut shown = 0;
    for index in (0..b.word_count()).rev() {
        let at = b.word(index);
        if at == 0 {
            continue;
        }
        let count = at.count_ones();
        if shown < count {
            ahead = eye.ahead();
            shown = eye.left().min(64);
            if shown < count {
                eye.pass(shown);
                return Err(BitFault::EndsEarly { bit: eye.size() });
            }
        }
        let word = spread(a.word(index), at, ahead, count, moves, index as usize);
        a.set_word(index, word);
        eye.pass(count);
        ahead <<= count % 64;
        shown -= count;
    }
    Ok(())
}
