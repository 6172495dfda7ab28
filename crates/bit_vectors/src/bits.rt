//! Vectors of bits.

ghost use Rattle.std.specs.Prelude.{◌≡◌, ◌≢◌, ℕ, ◌+◌, ◌/◌, ◌<◌, ◌≤◌, ◌↔◌, Bool, true, false, List, length, take, drop, replicate, slice_index_or, slice_set, Contains, IsTrue, IsNone, IfSome, IsErr, IfOk, OnOk, OnErr, count_by};
ghost use Rattle.std.specs.Bool.{OnFalse};
ghost use Rattle.std.specs.Vec.{vec_capacity};
ghost use Rattle.bit_vectors.specs.Vectors.{IsPlaces, IsVector, xor_bits, or_bits, without_bits, IsOne, NoneIsOne, bits_of, byte_count, vector_bytes};
ghost use Rattle.bit_vectors.specs.Words.{word_count, IsWord, HasNoSpareBit, vector_of, AreWords};

use crate::fault::{NoMemory, SpareBit};
use crate::word_bytes::{has_spare_bit, load_words, store_words};
use crate::words::{
    are_same, are_within, are_zero, bit_in_words, copy_words, drop_words, first_one, last_one,
    ones_in, or_words, write_bit_in_words, xor_words, zero_words,
};
use std::alloc::Global;
use std::marker::Model;

/// The most places that a vector has.
pub const MOST_PLACES: u32 = 49_152;

/// The number of bytes that a vector of `f` places takes.
pub fn byte_len(f: u32) -> u32
    requires valid { IsPlaces f }
    ensures { result ≡ byte_count f }
{
    f.div_ceil(8)
}

/// A vector of 1 to 49,152 bits. Contracts see it as the list of its bits, place 0 first; in bytes, place 0
/// is the bit of the greatest weight of the first byte. It is kept in words of 64 bits, and place 0 is the bit of
/// the greatest weight of the first word; the bits after the last place are 0. The memory is allocated when the
/// vector is made, with no capacity for another word.
#[derive(Debug, Drop)]
pub struct Bits {
    words: Vec<u64>,
    places: u32,
}

impl Model for Bits {
    ghost Value = { List Bool };

    ghost view = { λ b. vector_of b.words.items b.places };

    ghost invariant = { λ b. AreWords b.words.items b.places × (vec_capacity b.words ≡ word_count b.places) };
}

impl Bits {
    /// A vector of `f` zeros.
    pub fn zeros(alloc: Global, f: u32) -> Result<Bits, NoMemory>
        requires valid { IsPlaces f }
        ensures { IfOk result (λ v. v ≡ replicate f false) }
    {
        let words = zero_words(alloc, f.div_ceil(64) as usize)?;
        Ok(Bits { words, places: f })
    }

    /// The number of places.
    pub fn len(&self) -> u32
        ensures len { result ≡ length self.now }
        ensures vector { IsVector self.now }
    {
        self.places
    }

    /// The bit at a place.
    pub fn get(&self, place: u32) -> bool
        requires { place < length self.now }
        ensures { result ≡ slice_index_or self.now place false }
    {
        bit_in_words(&self.words, place)
    }

    /// Sets the bit at a place to `value`.
    pub fn set(&mut self, place: u32, value: bool)
        requires { place < length self.old }
        ensures { self.new ≡ slice_set self.old place value }
    {
        write_bit_in_words(&mut self.words, place, value);
    }

    /// Sets every bit to 0.
    pub fn clear(&mut self)
        ensures { self.new ≡ replicate (length self.old) false }
    {
        self.words.fill(0);
    }

    /// Makes this vector equal to `other`, which has the same number of places.
    pub fn copy_from(&mut self, other: &Bits)
        requires { length self.old ≡ length other.now }
        ensures { self.new ≡ other.now }
    {
        copy_words(&mut self.words, &other.words);
    }

    /// Sets to 1 the bits that are 1 in exactly one of this vector and `other`, which has the same number of places,
    /// and the other bits to 0.
    pub fn xor_in(&mut self, other: &Bits)
        requires { length self.old ≡ length other.now }
        ensures bits { self.new ≡ xor_bits self.old other.now }
        ensures len { length self.new ≡ length self.old }
    {
        xor_words(&mut self.words, &other.words);
    }

    /// Sets to 1 the bits that are 1 in `other`, which has the same number of places.
    pub fn or_in(&mut self, other: &Bits)
        requires { length self.old ≡ length other.now }
        ensures bits { self.new ≡ or_bits self.old other.now }
        ensures len { length self.new ≡ length self.old }
    {
        or_words(&mut self.words, &other.words);
    }

    /// Sets to 0 the bits that are 1 in `other`, which has the same number of places.
    pub fn drop_in(&mut self, other: &Bits)
        requires { length self.old ≡ length other.now }
        ensures bits { self.new ≡ without_bits self.old other.now }
        ensures len { length self.new ≡ length self.old }
    {
        drop_words(&mut self.words, &other.words);
    }

    /// The number of ones.
    pub fn ones(&self) -> u32
        ensures { result ≡ count_by (λ bit. bit) self.now }
    {
        ones_in(&self.words)
    }

    /// Whether every bit is 0.
    pub fn is_zero(&self) -> bool
        ensures zero { IsTrue result ↔ (self.now ≡ replicate (length self.now) false) }
        ensures some { OnFalse result (Contains self.now true) }
    {
        are_zero(&self.words)
    }

    /// Whether every bit that is 1 is 1 in `other` too, which has the same number of places.
    pub fn is_within(&self, other: &Bits) -> bool
        requires { length self.now ≡ length other.now }
        ensures within { IsTrue result
            ↔ (without_bits self.now other.now ≡ replicate (length self.now) false) }
        ensures some { OnFalse result (Contains (without_bits self.now other.now) true) }
    {
        are_within(&self.words, &other.words)
    }

    /// The greatest place below `below` at which the bit is 1. `below` is at most the number of places.
    pub fn next_one_down(&self, below: u32) -> Option<u32>
        requires { below ≤ length self.now }
        ensures one { IfSome result (λ place. IsOne self.now place) }
        ensures below { IfSome result (λ place. place < below) }
        ensures greatest { IfSome result (λ place. NoneIsOne self.now (place + 1) below) }
        ensures none { IsNone result ↔ NoneIsOne self.now 0 below }
    {
        last_one(&self.words, below)
    }

    /// The least place from `from` on at which the bit is 1. `from` is at most the number of places.
    pub fn next_one_up(&self, from: u32) -> Option<u32>
        requires { from ≤ length self.now }
        ensures one { IfSome result (λ place. IsOne self.now place) }
        ensures from { IfSome result (λ place. from ≤ place) }
        ensures least { IfSome result (λ place. NoneIsOne self.now from place) }
        ensures none { IsNone result ↔ NoneIsOne self.now from (length self.now) }
    {
        first_one(&self.words, from)
    }

    /// Makes this vector the first bits of `bytes`, which must be as many as the vector needs. The spare
    /// bits of the last byte must be 0; otherwise the vector is unchanged.
    pub fn load(&mut self, bytes: &[u8]) -> Result<(), SpareBit>
        requires { length bytes.now ≡ byte_count (length self.old) }
        ensures len { length self.new ≡ length self.old }
        ensures loaded { OnOk result (self.new ≡ take (length self.old) (bits_of bytes.now)) }
        ensures stored { OnOk result (bytes.now ≡ vector_bytes self.new) }
        ensures spare { IsErr result ↔ Contains (drop (length self.old) (bits_of bytes.now)) true }
        ensures unchanged { OnErr result (self.new ≡ self.old) }
    {
        if has_spare_bit(bytes, self.places) {
            return Err(SpareBit);
        }
        load_words(bytes, &mut self.words);
        Ok(())
    }

    /// Writes the vector to `out`, which must have as many bytes as the vector needs. The spare bits are 0.
    pub fn store(&self, out: &mut [u8])
        requires { length out.old ≡ byte_count (length self.now) }
        ensures { out.new ≡ vector_bytes self.now }
    {
        store_words(&self.words, out);
    }

    /// Whether the two vectors, which have the same number of places, are equal.
    pub fn same(&self, other: &Bits) -> bool
        requires { length self.now ≡ length other.now }
        ensures { IsTrue result ↔ (self.now ≡ other.now) }
    {
        are_same(&self.words, &other.words)
    }

    /// The number of words of 64 bits that the places need.
    pub fn word_count(&self) -> u32
        ensures count { result ≡ word_count (length self.now) }
        ensures some { 1 ≤ result }
    {
        self.words.len() as u32
    }

    /// The word with this number: its bit of the greatest weight is the one at place 64 * `index`, and the bits
    /// after the last place are 0.
    pub fn word(&self, index: u32) -> u64
        requires { index < word_count (length self.now) }
        ensures { IsWord self.now index result }
    {
        self.words[index as usize]
    }

    /// Sets the bits of the word with this number to those of `value`, whose bits after the last place must
    /// be 0.
    pub fn set_word(&mut self, index: u32, value: u64)
        requires index { index < word_count (length self.old) }
        requires spare { HasNoSpareBit (length self.old) index value }
        ensures word { IsWord self.new index value }
        ensures others { (k : ℕ) → k / 64 ≢ index
            → slice_index_or self.new k false ≡ slice_index_or self.old k false }
        ensures len { length self.new ≡ length self.old }
    {
        self.words[index as usize] = value;
    }
}
