//! What the code of counts means.

ghost use Rattle.std.specs.Prelude.{◌≡◌, ℕ, ◌+◌, ◌-◌, ◌^◌, ◌<◌, ◌≤◌, ◌↔◌, ◌⊎◌, Bool, true, false, List, [], ◌∷◌, ◌++◌, length, replicate};
ghost use Rattle.bit_vectors.specs.Vectors.{number_bits};
ghost use Rattle.count_code.specs.Code.{count_bits};
ghost use Rattle.bit_vectors.specs.Reading.{CanBegin, IsExact};
ghost use Rattle.count_code.specs.Counts.{word_of, IsCode, IsCodeOf, IsCount, IsBegunBy, IsLeastWithin, parse_count};

use crate::count::Count;

/// No word of a count, and not the word that ends a list of counts, is a prefix of another.
pub fn no_word_begins_another()
    ensures { (a b : Count) (rest others : List Bool) → IsCount a → IsCount b
        → word_of a ++ rest ≡ word_of b ++ others → a ≡ b }
{}

/// Reading counts within a limit is exact: before the first wrong bit, and if the bits end early, some word within the
/// limit begins with the bits read. Bits that begin such a word begin the end's word, or that of the least count whose
/// word they can begin at all, and no others do: so the least one is within the limit if any is. No greater count has a
/// shorter word.
pub fn counts_are_completed()
    ensures exact { (limit : ℕ) → IsExact (IsCodeOf limit) (parse_count limit) }
    ensures least { (limit : ℕ) (front : List Bool) →
        CanBegin (IsCode limit) front ↔ (IsBegunBy front Count.End ⊎ IsLeastWithin limit front) }
    ensures shortest { (a b : ℕ) → 1 ≤ a → a ≤ b → length (count_bits a) ≤ length (count_bits b) }
{}

/// After the three ones of a long word, the zeros determine how many digits follow: six more than there are
/// zeros, and the first digit is the 1 that ends the zeros.
pub fn long_words()
    ensures { (a : ℕ) → 34 ≤ a → (z : ℕ) × (2 ^ (z + 5) ≤ a - 2) × (a - 2 < 2 ^ (z + 6))
        × (count_bits a ≡ (true ∷ true ∷ true ∷ []) ++ replicate z false ++ true
        ∷ number_bits (z + 5) (a - 2)) }
{}
