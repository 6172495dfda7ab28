//! What the definitions of vectors, bits and bytes mean.

ghost use Rattle.std.specs.Prelude.{◌≡◌, ℕ, ◌+◌, ◌-◌, ◌*◌, ◌/◌, ◌%◌, ◌^◌, ◌<◌, ◌==◌, Bool, false, List, length, take, slice_index, slice_index_or};
ghost use Rattle.std.specs.Int.{bit_at};
ghost use Rattle.bit_vectors.specs.Vectors.{number_bits, bits_number, bits_of, AreBytes, padded, vector_bytes};

/// The bits of a number in some width: one for each weight, the greatest first. They determine the number.
pub fn numbers_and_bits()
    ensures width { (width n : ℕ) → length (number_bits width n) ≡ width }
    ensures weights { (width n i : ℕ) → i < width
        → slice_index_or (number_bits width n) i false ≡ (bit_at n (width - 1 - i) == 1) }
    ensures number { (width n : ℕ) → n < 2 ^ width → bits_number (number_bits width n) ≡ n }
    ensures bits { (bits : List Bool) → number_bits (length bits) (bits_number bits) ≡ bits }
{}

/// Bytes have eight bits each and are determined by them. The bytes of a vector are the vector and fewer than
/// eight zeros after it, and reading them gives the vector again.
pub fn bytes_and_vectors()
    ensures eight { (bytes : List ℕ) → length (bits_of bytes) ≡ 8 * length bytes }
    ensures place { (bytes : List ℕ) (i : ℕ) → i < 8 * length bytes
        → slice_index_or (bits_of bytes) i false
        ≡ (bit_at (slice_index bytes (i / 8)) (7 - i % 8) == 1) }
    ensures told { (a b : List ℕ) → AreBytes a → AreBytes b → bits_of a ≡ bits_of b → a ≡ b }
    ensures whole { (v : List Bool) → length (padded v) % 8 ≡ 0 }
    ensures short { (v : List Bool) → length (padded v) < length v + 8 }
    ensures stored { (v : List Bool) → bits_of (vector_bytes v) ≡ padded v }
    ensures again { (v : List Bool) → take (length v) (bits_of (vector_bytes v)) ≡ v }
{}
