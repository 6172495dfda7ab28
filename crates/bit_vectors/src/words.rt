//! Words of 64 bits that keep the bits of a vector. Place 0 is the bit of the greatest weight of word 0.

ghost use Rattle.std.specs.Prelude.{bit_and, ◌≡◌, ◌≢◌, ℕ, ◌+◌, ◌*◌, ◌^◌, ◌<◌, ◌≤◌, ◌↔◌, ◌&&◌, ◌||◌, true, not, if◌then◌else◌, length, replicate, slice_index, EachIndex, IsTrue, IfSome, IfNone, IfOk, count_by};
ghost use Rattle.std.specs.Int.{bit_not, w64};
ghost use Rattle.std.specs.Vec.{vec_capacity};
ghost use Rattle.bit_vectors.specs.Words.{bit_of, word_bits, NoBitIsOne};

use crate::fault::NoMemory;
use std::alloc::Global;

/// The given number of zero words, with no capacity for more.
pub fn zero_words(alloc: Global, count: usize) -> Result<Vec<u64>, NoMemory>
    ensures words { IfOk result (λ words. words.items ≡ replicate count 0) }
    ensures full { IfOk result (λ words. vec_capacity words ≡ count) }
{
    let mut words = Vec::with_capacity(alloc, count)?;
    for _ in 0..count {
        words.push_reserved(0);
    }
    Ok(words)
}

/// The bit with this number, counted over all the words.
pub fn bit_in_words(words: &[u64], place: u32) -> bool
    requires { place < 64 * length words.now }
    ensures { result ≡ bit_of words.now place }
{
    (words[(place / 64) as usize] >> (63 - place % 64)) & 1 == 1
}

/// Sets the bit with this number to `value`.
pub fn write_bit_in_words(words: &mut [u64], place: u32, value: bool)
    requires { place < 64 * length words.old }
    ensures bit { bit_of words.new place ≡ value }
    ensures others { (k : ℕ) → k ≢ place → bit_of words.new k ≡ bit_of words.old k }
    ensures numbers { (i : ℕ) → slice_index words.new i < 2 ^ 64 }
{
    let weight = 1 << (63 - place % 64);
    if value {
        words[(place / 64) as usize] |= weight;
    } else {
        words[(place / 64) as usize] &= !weight;
    }
}

/// Makes the words equal to the others. A single word is assigned without a call to copy it.
pub fn copy_words(words: &mut [u64], others: &[u64])
    requires { length words.old ≡ length others.now }
    ensures { words.new ≡ others.now }
{
    if words.len() == 1 {
        words[0] = others[0];
    } else {
        words.copy_from_slice(others);
    }
}

/// Replaces each word by its exclusive or with the other word.
pub fn xor_words(words: &mut [u64], others: &[u64])
    requires { length words.old ≡ length others.now }
    ensures bits { (k : ℕ) → bit_of words.new k
        ≡ (if bit_of words.old k then not (bit_of others.now k) else bit_of others.now k) }
    ensures numbers { (i : ℕ) → slice_index words.new i < 2 ^ 64 }
{
    for (index, word) in words.iter_mut().enumerate() {
        *word ^= others[index];
    }
}

/// Sets in each word the bits that are 1 in the other word.
pub fn or_words(words: &mut [u64], others: &[u64])
    requires { length words.old ≡ length others.now }
    ensures bits { (k : ℕ) → bit_of words.new k ≡ (bit_of words.old k || bit_of others.now k) }
    ensures numbers { (i : ℕ) → slice_index words.new i < 2 ^ 64 }
{
    for (index, word) in words.iter_mut().enumerate() {
        *word |= others[index];
    }
}

/// Clears in each word the bits that are 1 in the other word.
pub fn drop_words(words: &mut [u64], others: &[u64])
    requires { length words.old ≡ length others.now }
    ensures bits { (k : ℕ)
        → bit_of words.new k ≡ (bit_of words.old k && not (bit_of others.now k)) }
    ensures numbers { (i : ℕ) → slice_index words.new i < 2 ^ 64 }
{
    for (index, word) in words.iter_mut().enumerate() {
        *word &= !others[index];
    }
}

/// The number of ones in at most 768 words.
pub fn ones_in(words: &[u64]) -> u32
    requires { length words.now ≤ 768 }
    ensures { result ≡ count_by (λ bit. bit) (word_bits words.now) }
{
    let mut ones = 0;
    for word in words {
        ones += word.count_ones();
    }
    ones
}

/// Whether every word is 0.
pub fn are_zero(words: &[u64]) -> bool
    ensures { IsTrue result ↔ EachIndex words.now (λ i. slice_index words.now i ≡ 0) }
{
    let mut any = 0;
    for word in words {
        any |= word;
    }
    any == 0
}

/// Whether the words are equal to the others. No branch depends on a word, so that several are compared at once.
pub fn are_same(words: &[u64], others: &[u64]) -> bool
    requires { length words.now ≡ length others.now }
    ensures { IsTrue result ↔ (words.now ≡ others.now) }
{
    let mut any = 0;
    for (index, word) in words.iter().enumerate() {
        any |= word ^ others[index];
    }
    any == 0
}

/// Whether every bit that is 1 in the words is 1 in the others too. No branch depends on a word, so that several are
/// compared at once.
pub fn are_within(words: &[u64], others: &[u64]) -> bool
    requires { length words.now ≡ length others.now }
    ensures { IsTrue result ↔ EachIndex words.now (λ i.
        bit_and (slice_index words.now i) (bit_not w64 (slice_index others.now i)) ≡ 0) }
{
    let mut any = 0;
    for (index, word) in words.iter().enumerate() {
        any |= word & !others[index];
    }
    any == 0
}

/// The number of the last 1 among the bits before `below`.
pub fn last_one(words: &[u64], below: u32) -> Option<u32>
    requires { below ≤ 64 * length words.now }
    ensures one { IfSome result (λ place. bit_of words.now place ≡ true) }
    ensures below { IfSome result (λ place. place < below) }
    ensures greatest { IfSome result (λ place. NoBitIsOne words.now (place + 1) below) }
    ensures none { IfNone result (NoBitIsOne words.now 0 below) }
{
    let mut end = below;
    while end > 0 {
        let last = end - 1;
        let shifted = words[(last / 64) as usize] >> (63 - last % 64);
        if shifted != 0 {
            return Some(last - shifted.trailing_zeros());
        }
        end = last / 64 * 64;
    }
    None
}

/// The number of the first 1 among the bits from `from` on, which are at most 49,152.
pub fn first_one(words: &[u64], from: u32) -> Option<u32>
    requires { length words.now ≤ 768 }
    ensures one { IfSome result (λ place. bit_of words.now place ≡ true) }
    ensures from { IfSome result (λ place. from ≤ place) }
    ensures least { IfSome result (λ place. NoBitIsOne words.now from place) }
    ensures none { IfNone result (NoBitIsOne words.now from (64 * length words.now)) }
{
    let mut start = from;
    while start < 64 * words.len() as u32 {
        let shifted = words[(start / 64) as usize] << (start % 64);
        if shifted != 0 {
            return Some(start + shifted.leading_zeros());
        }
        start = start / 64 * 64 + 64;
    }
    None
}
