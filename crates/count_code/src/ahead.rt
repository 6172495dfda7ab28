//! Counts whose whole words are seen ahead. The words are compared with bits that were looked at once for several counts.

ghost use Rattle.std.specs.Prelude.{◌≡◌, ◌≤◌, List, Bool, take, drop, IfSome};
ghost use Rattle.bit_vectors.specs.Reading.{bits_left};
ghost use Rattle.bit_vectors.specs.Vectors.{most_places};
ghost use Rattle.count_code.specs.Counts.{AreAhead, IsWithin, word_of};

use crate::count::Count;
use crate::word::{MOST_BITS, count_word};
use bit_vectors::BitEye;

/// Bits that an eye shows next, kept from one count to the next.
#[derive(Clone, Copy, Debug)]
pub struct Ahead {
    /// The bits, the next one with the greatest weight. Those after them may be any.
    pub word: u64,
    /// How many they are, at most 64.
    pub shown: u32,
}

/// A count, or the end, and the width of its word.
#[derive(Clone, Copy)]
pub struct Seen {
    pub count: Count,
    pub width: u32,
}

impl Ahead {
    /// No bits.
    pub fn none() -> Ahead
        ensures { (bits : List Bool) → AreAhead bits result }
    {
        Ahead { word: 0, shown: 0 }
    }

    /// These bits if they are as many as the longest word of a count, else those that the eye shows now.
    #[inline(always)]
    pub(crate) fn or_looked(self, eye: &BitEye) -> Ahead
        requires { AreAhead (bits_left eye.now) self }
        ensures { AreAhead (bits_left eye.now) result }
    {
        if self.shown >= MOST_BITS {
            return self;
        }
        Ahead {
            word: eye.ahead(),
            shown: eye.left().min(64),
        }
    }

    /// The bits after the first `width`, of which there are as many.
    #[inline(always)]
    pub(crate) fn after(self, width: u32) -> Ahead
        requires shown { self.shown ≤ 64 }
        requires width { width ≤ self.shown }
        requires most { width ≤ 29 }
        ensures { (bits : List Bool) → AreAhead bits self → AreAhead (drop width bits) result }
    {
        Ahead {
            word: self.word << width,
            shown: self.shown - width,
        }
    }

    /// The count within the limit, or the end, whose whole word comes first, or none: the bits are then to be read one by one.
    #[inline(always)]
    pub(crate) fn first(self, limit: u32) -> Option<Seen>
        requires { self.shown ≤ 64 }
        ensures within { IfSome result (λ seen. IsWithin limit seen.count) }
        ensures word { IfSome result (λ seen. (bits : List Bool) → AreAhead bits self
            → take seen.width bits ≡ word_of seen.count) }
        ensures shown { IfSome result (λ seen. seen.width ≤ self.shown) }
        ensures most { IfSome result (λ seen. seen.width ≤ 29) }
    {
        if self.word >> 63 == 0 && self.shown >= 1 && limit >= 1 {
            return Some(Seen {
                count: Count::Value(1),
                width: 1,
            });
        }
        if self.word >> 62 == 0b10 && self.shown >= 2 {
            return Some(Seen {
                count: Count::End,
                width: 2,
            });
        }
        let a = guessed_count(self.word);
        let word = count_word(a);
        if a <= limit
            && word.width <= self.shown
            && self.word >> (64 - word.width) == u64::from(word.value)
        {
            return Some(Seen {
                count: Count::Value(a),
                width: word.width,
            });
        }
        None
    }
}

/// The count above 1 whose word may be the first bits of `ahead`. Whatever it is, the bits are then compared with its
/// word, so the contract states only its bounds.
fn guessed_count(ahead: u64) -> u32
    ensures some { 1 ≤ result }
    ensures most { result ≤ most_places }
{
    if ahead >> 61 == 0b110 {
        return 2 + ((ahead >> 56) % 32) as u32;
    }
    let digits = ahead << 3;
    let width = 2 * digits.leading_zeros().min(10) + 6;
    2 + (digits >> (64 - width)).min(49_150) as u32
}
