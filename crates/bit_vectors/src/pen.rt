//! Writing bits one after another.

ghost use Rattle.std.specs.Prelude.{◌≡◌, ◌+◌, ◌*◌, ◌^◌, ◌<◌, ◌≤◌, [], ◌∷◌, ◌++◌, length, take, IfOk};
ghost use Rattle.std.specs.Int.{w64, to_be_bytes};
ghost use Rattle.bit_vectors.specs.Vectors.{number_bits, AreBytes, byte_count, vector_bytes};

use crate::bits::Bits;
use crate::fault::NoMemory;
use crate::front::front_word;
use crate::room::zero_bytes;
use std::alloc::Global;
use std::marker::Model;

/// A list of bits with a fixed capacity, which is allocated when the pen is made. Contracts see the bits and
/// the capacity. The whole words of 64 bits are in the bytes. The word after them, which isn't full, is also there
/// if it has a bit, and is held separately too, so that it need not be read back.
#[derive(Debug, Drop)]
pub struct BitPen {
    bytes: Vec<u8>,
    words: u32,
    word: u64,
    held: u32,
    room: u32,
}

impl Model for BitPen {
    ghost use Rattle.std.specs.Vec.{vec_capacity};
    ghost use Rattle.bit_vectors.specs.Pen.{PenState, written_bits, HasRoom};

    ghost Value = { PenState };

    ghost view = { λ p. record { bits = written_bits p.bytes.items p.words p.word p.held; room = p.room } };

    ghost invariant = { λ p. HasRoom p.bytes.items (vec_capacity p.bytes) p.words p.word p.held p.room };
}

impl BitPen {
    /// An empty pen with room for `bits` bits, at most 524,288.
    pub fn with_room(alloc: Global, bits: u32) -> Result<BitPen, NoMemory>
        requires { bits ≤ 524288 }
        ensures bits { IfOk result (λ pen. pen.bits ≡ []) }
        ensures room { IfOk result (λ pen. pen.room ≡ bits) }
    {
        let bytes = zero_bytes(alloc, 8 * bits.div_ceil(64) as usize + 8)?;
        Ok(BitPen {
            bytes,
            words: 0,
            word: 0,
            held: 0,
            room: bits,
        })
    }

    /// Appends a bit.
    pub fn put(&mut self, bit: bool)
        requires { length self.old.bits < self.old.room }
        ensures bits { self.new.bits ≡ self.old.bits ++ bit ∷ [] }
        ensures room { self.new.room ≡ self.old.room }
    {
        self.put_word(u64::from(bit), 1);
    }

    /// Appends a number in `width` bits, at most 32, the greatest weight first.
    pub fn put_number(&mut self, value: u32, width: u32)
        requires most { width ≤ 32 }
        requires fits { value < 2 ^ width }
        requires room { length self.old.bits + width ≤ self.old.room }
        ensures bits { self.new.bits ≡ self.old.bits ++ number_bits width value }
        ensures room { self.new.room ≡ self.old.room }
    {
        if width != 0 {
            self.put_word(u64::from(value), width);
        }
    }

    /// Appends a number in `width` bits, from 1 to 64, the greatest weight first.
    pub fn put_word(&mut self, value: u64, width: u32)
        requires some { 1 ≤ width }
        requires most { width ≤ 64 }
        requires fits { value < 2 ^ width }
        requires room { length self.old.bits + width ≤ self.old.room }
        ensures bits { self.new.bits ≡ self.old.bits ++ number_bits width value }
        ensures room { self.new.room ≡ self.old.room }
    {
        let end = self.held + width;
        if end < 64 {
            self.word += value << (64 - end);
            self.held = end;
            write_word(&mut self.bytes, self.words, self.word);
        } else {
            let rest = end - 64;
            let full = self.word + (value >> rest);
            self.word = value << (63 - rest) << 1;
            self.held = rest;
            write_two_words(&mut self.bytes, self.words, full, self.word);
            self.words += 1;
        }
    }

    /// Appends the bits of a vector, from place 0 up.
    pub fn put_bits(&mut self, bits: &Bits)
        requires { length self.old.bits + length bits.now ≤ self.old.room }
        ensures bits { self.new.bits ≡ self.old.bits ++ bits.now }
        ensures room { self.new.room ≡ self.old.room }
    {
        let last = bits.word_count() - 1;
        for index in 0..last {
            self.put_word(bits.word(index), 64);
        }
        let width = bits.len() - 64 * last;
        self.put_word(bits.word(last) >> (64 - width), width);
    }

    /// Appends the bits of another pen.
    pub fn put_pen(&mut self, other: &BitPen)
        requires { length self.old.bits + length other.now.bits ≤ self.old.room }
        ensures bits { self.new.bits ≡ self.old.bits ++ other.now.bits }
        ensures room { self.new.room ≡ self.old.room }
    {
        for index in 0..other.words {
            self.put_word(front_word(&other.bytes[8 * index as usize..]), 64);
        }
        if other.held != 0 {
            self.put_word(other.word >> (64 - other.held), other.held);
        }
    }

    /// Removes all bits. The capacity is unchanged.
    pub fn clear(&mut self)
        ensures bits { self.new.bits ≡ [] }
        ensures room { self.new.room ≡ self.old.room }
    {
        self.words = 0;
        self.word = 0;
        self.held = 0;
    }

    /// The number of bits.
    pub fn len(&self) -> u32
        ensures len { result ≡ length self.now.bits }
        ensures within { result ≤ self.now.room }
    {
        64 * self.words + self.held
    }

    /// The capacity: how many bits the pen can hold, at most 524,288.
    pub fn room(&self) -> u32
        ensures room { result ≡ self.now.room }
        ensures most { result ≤ 524288 }
    {
        self.room
    }

    /// The bits as bytes, with fewer than eight zeros after the last bit.
    pub fn bytes(&self) -> &[u8]
        ensures bytes { result.now ≡ vector_bytes self.now.bits }
        ensures len { length result.now ≡ byte_count (length self.now.bits) }
        ensures most { length result.now ≤ 65536 }
    {
        first_bytes(&self.bytes, self.len().div_ceil(8))
    }
}

/// Writes a word into the eight bytes after the given number of words.
fn write_word(bytes: &mut [u8], words: u32, word: u64)
    requires { 8 * words + 8 ≤ length bytes.old }
    ensures { take (8 * words + 8) bytes.new ≡ take (8 * words) bytes.old ++ to_be_bytes w64 word }
{
    let at = 8 * words as usize;
    bytes[at..at + 8].copy_from_slice(&word.to_be_bytes());
}

/// Writes two words into the sixteen bytes after the given number of words.
fn write_two_words(bytes: &mut [u8], words: u32, first: u64, second: u64)
    requires most { words ≤ 8192 }
    requires room { 8 * words + 16 ≤ length bytes.old }
    ensures { take (8 * words + 16) bytes.new
        ≡ take (8 * words) bytes.old ++ to_be_bytes w64 first ++ to_be_bytes w64 second }
{
    write_word(bytes, words, first);
    write_word(bytes, words + 1, second);
}

/// The given number of bytes from the front.
fn first_bytes(bytes: &[u8], count: u32) -> &[u8]
    requires { count ≤ length bytes.now }
    ensures first { result.now ≡ take count bytes.now }
    ensures bytes { AreBytes result.now }
{
    &bytes[..count as usize]
}
