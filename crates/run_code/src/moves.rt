//! How the bits at the ones of a word move together to its low end, and back, all at once, in steps of 1, 2, 4, .. 32
//! places. The bit at a 1 has as many places to go as there are zeros below it. These numbers are kept with the word, so
//! that a word that comes again costs no new ones.

ghost use Rattle.std.specs.Prelude.{◌≡◌, ℕ, ◌*◌, ◌/◌, ◌%◌, ◌^◌, ◌<◌, replicate, IfOk};
ghost use Rattle.std.specs.Int.{bit_at, bit_not, w64};
ghost use Rattle.std.specs.Int.Bits.{bit_and, bit_or, bit_xor};
ghost use Rattle.std.specs.Int.RustNames.{count_ones};
ghost use Rattle.std.specs.Vec.{vec_capacity};
ghost use Rattle.bit_vectors.specs.Words.{word_count};
ghost use Rattle.run_code.specs.Extraction.{AreZeroCounts, ones_under};

use crate::edge::summed;
use bit_vectors::NoMemory;
use std::alloc::Global;
use std::marker::Model;

/// A word of a mask, and how the bits at its ones move. Contracts see the word.
#[derive(Debug, Drop)]
pub struct WordMoves {
    word: u64,
    /// The zeros of the word below each weight, bit by bit.
    counts: [u64; 6],
}

impl Model for WordMoves {
    ghost use Rattle.std.specs.Prelude.{ℕ};
    ghost use Rattle.run_code.specs.Extraction.{AreZeroCounts};

    ghost Value = { ℕ };

    ghost view = { λ m. m.word };

    ghost invariant = { λ m. AreZeroCounts m.word m.counts };
}

/// The moves of each word of a vector of `f` zeros, with no capacity for more.
pub fn moves_of_zeros(alloc: Global, f: u32) -> Result<Vec<WordMoves>, NoMemory>
    ensures moves { IfOk result (λ moves. moves.items ≡ replicate (word_count f) 0) }
    ensures full { IfOk result (λ moves. vec_capacity moves ≡ word_count f) }
{
    let count = f.div_ceil(64) as usize;
    let mut moves = Vec::with_capacity(alloc, count)?;
    for _ in 0..count {
        moves.push_reserved(word_moves(0));
    }
    Ok(moves)
}

/// The moves of a word.
#[inline(never)]
pub fn word_moves(word: u64) -> WordMoves
    ensures { result ≡ word }
{
    WordMoves {
        word,
        counts: zero_counts(word),
    }
}

impl WordMoves {
    /// Makes them the moves of this word. If they are so, nothing is computed.
    #[inline(always)]
    fn renew(&mut self, word: u64)
        ensures { self.new ≡ word }
    {
        if self.word != word {
            self.find(word);
        }
    }

    /// Makes them the moves of this word.
    #[cold]
    #[inline(never)]
    fn find(&mut self, word: u64)
        ensures { self.new ≡ word }
    {
        *self = word_moves(word);
    }

    /// The word in which the bit of `bits` at each 1 of this word has the weight that counts the ones below it. The moves
    /// are then those of this word.
    #[inline(always)]
    pub(crate) fn packed(&mut self, bits: u64, word: u64) -> u64
        ensures kept { self.new ≡ word }
        ensures bits { (weight : ℕ) → weight < 64 → bit_at word weight ≡ 1
            → bit_at result (ones_under word weight) ≡ bit_at bits weight }
        ensures fits { result < 2 ^ count_ones word }
    {
        self.renew(word);
        let mut made = lowered(bits & word, self.counts[0], 1);
        made = lowered(made, self.counts[1], 2);
        made = lowered(made, self.counts[2], 4);
        made = lowered(made, self.counts[3], 8);
        made = lowered(made, self.counts[4], 16);
        lowered(made, self.counts[5], 32)
    }

    /// A word that has at each 1 of this word the bit of `number` whose weight counts the ones below it. Its other bits
    /// may be any bits. The moves are then those of this word.
    #[inline(always)]
    pub(crate) fn unpacked(&mut self, number: u64, word: u64) -> u64
        ensures kept { self.new ≡ word }
        ensures bits { (weight : ℕ) → weight < 64 → bit_at word weight ≡ 1
            → bit_at result weight ≡ bit_at number (ones_under word weight) }
    {
        self.renew(word);
        let mut made = lifted(number, self.counts[5], 32);
        made = lifted(made, self.counts[4], 16);
        made = lifted(made, self.counts[3], 8);
        made = lifted(made, self.counts[2], 4);
        made = lifted(made, self.counts[1], 2);
        lifted(made, self.counts[0], 1)
    }
}

/// For each weight the number of zeros of `at` below it, bit by bit.
fn zero_counts(at: u64) -> [u64; 6]
    ensures { AreZeroCounts at result }
{
    let mut marks = !at << 1;
    let ones = summed(marks);
    marks &= !ones;
    let twos = summed(marks);
    marks &= !twos;
    let fours = summed(marks);
    marks &= !fours;
    let eights = summed(marks);
    marks &= !eights;
    let sixteens = summed(marks);
    marks &= !sixteens;
    [ones, twos, fours, eights, sixteens, marks.wrapping_neg()]
}

/// The word with its bits at the ones of `moving` lowered by the given number of places.
fn lowered(word: u64, moving: u64, by: u32) -> u64
    requires { by < 64 }
    ensures { result ≡ bit_or (bit_xor word (bit_and word moving)) (bit_and word moving / 2 ^ by) }
{
    let going = word & moving;
    (word ^ going) | (going >> by)
}

/// The word with, at the ones of `moving`, its bits from the given number of places below.
fn lifted(word: u64, moving: u64, by: u32) -> u64
    requires { by < 64 }
    ensures { result ≡ bit_or (bit_and word (bit_not w64 moving)) (bit_and (word * 2 ^ by % 2 ^ 64) moving) }
{
    (word & !moving) | ((word << by) & moving)
}
