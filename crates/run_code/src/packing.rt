//! The bits at the ones of a word moved together to its low end, and back, by the moves that are kept of it. If none are
//! kept for a word with this number, they are found for this once.

ghost use Rattle.std.specs.Prelude.{◌≡◌, ℕ, ◌^◌, ◌<◌, length};
ghost use Rattle.std.specs.Int.{bit_at};
ghost use Rattle.std.specs.Int.RustNames.{count_ones};
ghost use Rattle.run_code.specs.Extraction.{ones_under};

use crate::moves::{WordMoves, word_moves};

/// The word in which the bit of `bits` at each 1 of `at` has the weight that counts the ones below it.
pub fn packed(bits: u64, at: u64, moves: &mut [WordMoves], index: usize) -> u64
    ensures bits { (weight : ℕ) → weight < 64 → bit_at at weight ≡ 1
        → bit_at result (ones_under at weight) ≡ bit_at bits weight }
    ensures fits { result < 2 ^ count_ones at }
    ensures moves { length moves.new ≡ length moves.old }
{
    if at == u64::MAX {
        return bits;
    }
    if index >= moves.len() {
        return packed_once(bits, at);
    }
    moves[index].packed(bits, at)
}

/// The same by moves that are not kept.
#[inline(never)]
pub fn packed_once(bits: u64, at: u64) -> u64
    ensures bits { (weight : ℕ) → weight < 64 → bit_at at weight ≡ 1
        → bit_at result (ones_under at weight) ≡ bit_at bits weight }
    ensures fits { result < 2 ^ count_ones at }
{
    let mut found = word_moves(at);
    found.packed(bits, at)
}

/// A word that has at each 1 of `at` the bit of `number` whose weight counts the ones below it. Its other bits may be
/// any bits.
pub fn unpacked(number: u64, at: u64, moves: &mut [WordMoves], index: usize) -> u64
    ensures bits { (weight : ℕ) → weight < 64 → bit_at at weight ≡ 1
        → bit_at result weight ≡ bit_at number (ones_under at weight) }
    ensures moves { length moves.new ≡ length moves.old }
{
    if at == u64::MAX {
        return number;
    }
    unpacked_kept(number, at, moves, index)
}

/// The same for a word that has zeros too. It stays apart, so that a loop over words without many ones holds no place among
/// the moves.
#[inline(never)]
fn unpacked_kept(number: u64, at: u64, moves: &mut [WordMoves], index: usize) -> u64
    ensures bits { (weight : ℕ) → weight < 64 → bit_at at weight ≡ 1
        → bit_at result weight ≡ bit_at number (ones_under at weight) }
    ensures moves { length moves.new ≡ length moves.old }
{
    if index >= moves.len() {
        return unpacked_once(number, at);
    }
    moves[index].unpacked(number, at)
}

/// The same by moves that are not kept.
#[inline(never)]
pub fn unpacked_once(number: u64, at: u64) -> u64
    ensures { (weight : ℕ) → weight < 64 → bit_at at weight ≡ 1
        → bit_at result weight ≡ bit_at number (ones_under at weight) }
{
    let mut found = word_moves(at);
    found.unpacked(number, at)
}
