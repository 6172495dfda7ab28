//! What the definitions of places, run words, extraction and edges mean.

ghost use Rattle.std.specs.Prelude.{◌≡◌, ◌≢◌, ℕ, ◌+◌, ◌-◌, ◌*◌, ◌<◌, ◌≤◌, ◌↔◌, ◌⊎◌, ◌++◌, Bool, true, false, not, if◌then◌else◌, List, [], ◌∷◌, length, count_by, replicate, slice_index_or, slice_set, Contains};
ghost use Rattle.std.specs.List.Sorted.{IsStrictlyIncreasing};
ghost use Rattle.bit_vectors.specs.Reading.{CanBegin, IsExact};
ghost use Rattle.bit_vectors.specs.Vectors.{IsOne, without_bits};
ghost use Rattle.count_code.specs.Code.{count_bits, end_bits};
ghost use Rattle.count_code.specs.Counts.{IsBegunBy, IsCount, IsLeastWithin};
ghost use Rattle.run_code.specs.Extraction.{places_up, IsInverseWord, SameOutside, bits_up, extract, inverse_up, parse_inverse};
ghost use Rattle.run_code.specs.Runs.{IsRunFront, IsRunWord, IsRunWordOf, counts_of, lowest_of, parse_vector, run_bits, edges};

use count_code::Count;

/// The places of a vector's ones are those at which it is 1, in order, and as many as it has ones.
pub fn places_of_ones()
    ensures ones { (v : List Bool) (place : ℕ) → Contains (places_up v) place ↔ IsOne v place }
    ensures order { (v : List Bool) → IsStrictlyIncreasing (places_up v) }
    ensures many { (v : List Bool) → length (places_up v) ≡ count_by (λ bit. bit) v }
{}

/// A run word has at most 4 bits for each place and 2 more. For two different vectors of one length
/// neither word is a prefix of the other, and whatever follows, the word determines the vector.
pub fn run_words()
    ensures most { (v : List Bool) → length (run_bits v) ≤ 4 * length v + 2 }
    ensures apart { (a b rest : List Bool) → length a ≡ length b → a ≢ b
        → run_bits a ++ rest ≢ run_bits b }
    ensures told { (a b rest others : List Bool) → length a ≡ length b
        → run_bits a ++ rest ≡ run_bits b ++ others → (a ≡ b) × (rest ≡ others) }
{}

/// Reading run words is exact: before the first wrong bit, and if the bits end early, the run word of some vector begins
/// with the bits read. The counts read so far can end at once (`ended`), or after one more count within the limit, which
/// is the place of the lowest 1 so far (`further`).
pub fn run_words_are_completed()
    ensures exact { (f : ℕ) → IsExact (IsRunWordOf f) (parse_vector f) }
    ensures ended { (v : List Bool) → run_bits v ≡ counts_of v ++ end_bits }
    ensures further { (v : List Bool) (a : ℕ) → 1 ≤ a → a ≤ lowest_of v →
        run_bits (slice_set v (lowest_of v - a) true)
        ≡ counts_of v ++ (count_bits a ++ end_bits) }
    // Which bits begin a run word; and after the counts of a vector, which bits in the middle of a count can go on.
    ensures fronts { (f : ℕ) (bits : List Bool) → CanBegin (IsRunWord f) bits ↔ IsRunFront f bits }
    ensures next { (v front : List Bool) (count : Count) → IsCount count → IsBegunBy front count →
        CanBegin (IsRunWord (length v)) (counts_of v ++ front)
        ↔ (IsBegunBy front Count.End ⊎ IsLeastWithin (lowest_of v) front) }
    // No ending is shorter than at once; and in the middle of a count, none is shorter than after the least count.
    ensures shortest_ended { (v w rest : List Bool) → length w ≡ length v
        → run_bits w ≡ counts_of v ++ rest → length (run_bits v) ≤ length (run_bits w) }
    ensures shortest_further { (v w front rest : List Bool)
        (next : IsLeastWithin (lowest_of v) front) → (IsBegunBy front Count.End → ⊥)
        → length w ≡ length v → run_bits w ≡ counts_of v ++ (front ++ rest) →
        length (run_bits (slice_set v (lowest_of v - next.least) true)) ≤ length (run_bits w) }
{}

/// Reading directions is exact: if there are fewer bits than ones, they can still be completed, by zeros and a 1 in
/// the last place.
pub fn directions_are_completed()
    ensures exact { (x : List Bool) → Contains x true
        → IsExact (IsInverseWord x) (parse_inverse x) }
    ensures last { (x front : List Bool) → length front < count_by (λ bit. bit) x →
        (y : List Bool) × IsInverseWord x y
        (front ++ (replicate (count_by (λ bit. bit) x - length front - 1) false ++ true ∷ [])) }
{}

/// As many bits are extracted as there are ones, and with the bits at the zeros they determine the vector. The
/// inverted bits of a mask are those at the ones that the mask does not have.
pub fn extracted_bits()
    ensures many { (a b : List Bool) → length (extract a b) ≡ count_by (λ bit. bit) b }
    ensures told { (a b other : List Bool) → length a ≡ length other → extract a b ≡ extract other b
        → SameOutside b a other → a ≡ other }
    ensures inverse { (mask x : List Bool) → length mask ≡ length x
        → bits_up (without_bits x mask) x ≡ inverse_up mask x }
{}

/// An edge is 1 if exactly one of a bit and the next is, and a 0 follows the last bit. Each vector is
/// the edges of exactly one mask.
pub fn masks_and_edges()
    ensures neighbour { (mask : List Bool) (place : ℕ) → place < length mask
        → slice_index_or (edges mask) place false
        ≡ (if slice_index_or mask place false then not (slice_index_or mask (place + 1) false)
        else slice_index_or mask (place + 1) false) }
    ensures some { (v : List Bool)
        → (mask : List Bool) × (length mask ≡ length v) × (edges mask ≡ v) }
    ensures one { (a b : List Bool) → edges a ≡ edges b → a ≡ b }
{}
