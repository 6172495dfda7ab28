//! The ones of a vector from the highest place down: within a word by its lowest 1, and from there to the next
//! word that has a 1.

ghost use Rattle.std.specs.Prelude.{◌≡◌, ◌*◌, ◌^◌, ◌<◌, ◌≤◌, [], length, IfSome, IfNone};
ghost use Rattle.std.specs.Iterator.{YieldsFirst, item_count};
ghost use Rattle.run_code.specs.Extraction.{places_down, ones_left, AreWithin};

use bit_vectors::Bits;
use std::marker::Model;

/// The ones that are left of the word with this number.
#[derive(Clone, Copy)]
pub struct WordOnes {
    pub index: u32,
    pub ones: u64,
}

/// The places of a vector's ones, from the highest down. Contracts see those that are left.
#[derive(Drop)]
pub struct OnesDown<'a> {
    vector: &'a Bits,
    word: WordOnes,
}

impl<'a> Model for OnesDown<'a> {
    ghost use Rattle.std.specs.Prelude.{List, ℕ, ◌*◌, ◌^◌, ◌<◌, ◌≤◌, length};
    ghost use Rattle.run_code.specs.Extraction.{ones_left, AreWithin};

    ghost Value = { List ℕ };

    ghost view = { λ o. ones_left o.vector.now o.word };

    ghost invariant = { λ o. AreWithin o.vector.now o.word };
}

impl<'a> Iterator for OnesDown<'a> {
    type Item = u32;

    ghost next_gives = { YieldsFirst (λ places. places) };

    ghost remaining = { item_count (λ places. places) };

    fn next(&mut self) -> Option<u32> {
        let found = word_with_ones(self.vector, self.word)?;
        self.word.index = found.index;
        self.word.ones = found.ones & (found.ones - 1);
        Some(64 * found.index + (63 - found.ones.trailing_zeros()))
    }
}

/// The places of the ones of `v`.
pub fn ones_down(v: &Bits) -> OnesDown<'_>
    ensures { result ≡ places_down v.now }
{
    let index = (v.len() - 1) / 64;
    let ones = v.word(index);
    OnesDown {
        vector: v,
        word: WordOnes { index, ones },
    }
}

/// This word if it has ones left, else the last word before it that has one.
fn word_with_ones(v: &Bits, word: WordOnes) -> Option<WordOnes>
    requires { AreWithin v.now word }
    ensures same { IfSome result (λ found. ones_left v.now found ≡ ones_left v.now word) }
    ensures some { IfSome result (λ found. 0 < found.ones) }
    ensures within { IfSome result (λ found. AreWithin v.now found) }
    ensures none { IfNone result (ones_left v.now word ≡ []) }
{
    if word.ones != 0 {
        return Some(word);
    }
    let place = v.next_one_down(64 * word.index)?;
    let index = place / 64;
    let ones = v.word(index);
    Some(WordOnes { index, ones })
}
