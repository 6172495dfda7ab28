//! Words of 64 bits and the bytes that hold the same bits: the bit of the greatest weight comes first.

ghost use Rattle.std.specs.Prelude.{◌≡◌, ℕ, ◌+◌, ◌-◌, ◌*◌, ◌^◌, ◌<◌, ◌≤◌, ◌↔◌, true, false, length, take, drop, slice_index, slice_index_or, Contains, IsTrue};
ghost use Rattle.std.specs.Int.{to_be_bytes, w64};
ghost use Rattle.bit_vectors.specs.Vectors.{bits_of, byte_count};
ghost use Rattle.bit_vectors.specs.Words.{bit_of};

use crate::front::front_word;

/// Fills the words with the bits of the bytes, and with zeros after the end of the bytes.
pub fn load_words(bytes: &[u8], words: &mut [u64])
    requires most { length bytes.now ≤ 8 * length words.old }
    requires least { 8 * length words.old < length bytes.now + 8 }
    ensures bits { (k : ℕ) → bit_of words.new k ≡ slice_index_or (bits_of bytes.now) k false }
    ensures numbers { (i : ℕ) → slice_index words.new i < 2 ^ 64 }
{
    let whole = bytes.len() / 8;
    for index in 0..whole {
        words[index] = front_word(&bytes[8 * index..8 * index + 8]);
    }
    if whole < words.len() {
        words[whole] = front_word(&bytes[8 * whole..]);
    }
}

/// Writes the bits of the words to the bytes. There are as many bytes as the words have, or up to seven fewer.
pub fn store_words(words: &[u64], bytes: &mut [u8])
    requires most { length bytes.old ≤ 8 * length words.now }
    requires least { 8 * length words.now < length bytes.old + 8 }
    ensures { (k : ℕ) → k < 8 * length bytes.old
        → slice_index_or (bits_of bytes.new) k false ≡ bit_of words.now k }
{
    let whole = bytes.len() / 8;
    for index in 0..whole {
        bytes[8 * index..8 * index + 8].copy_from_slice(&words[index].to_be_bytes());
    }
    if whole < words.len() {
        store_short(words[whole], &mut bytes[8 * whole..]);
    }
}

/// Writes the first bytes of a word, at most eight, one by one, because they are too few for a copy.
fn store_short(word: u64, bytes: &mut [u8])
    requires { length bytes.old ≤ 8 }
    ensures { bytes.new ≡ take (length bytes.old) (to_be_bytes w64 word) }
{
    for index in 0..bytes.len() {
        bytes[index] = ((word >> (56 - 8 * index)) % 256) as u8;
    }
}

/// Whether the last byte has a 1 in a bit that belongs to no place of a vector with this many places.
pub fn has_spare_bit(bytes: &[u8], places: u32) -> bool
    requires some { 1 ≤ places }
    requires len { length bytes.now ≡ byte_count places }
    ensures { IsTrue result ↔ Contains (drop places (bits_of bytes.now)) true }
{
    let last = places - 1;
    bytes[(last / 8) as usize] % (1 << (7 - last % 8)) != 0
}
