//! Reading bytes bit by bit.

ghost use Rattle.std.specs.Prelude.{◌≡◌, ◌+◌, ◌*◌, ◌<◌, ◌≤◌, ◌↔◌, [], ◌∷◌, Bool, List, length, drop, slice_index_or, false, IsNone, IfSome, OnSome, IfNone};
ghost use Rattle.bit_vectors.specs.Vectors.{bits_of};
ghost use Rattle.bit_vectors.specs.Reading.{EyeState, bits_left, Shows};

use crate::front::front_word;
use std::marker::Model;

/// Reads borrowed bytes bit by bit, the bit of the greatest weight of each byte first. Contracts see all
/// bits and the number of the next one.
#[derive(Debug, Drop)]
pub struct BitEye<'a> {
    bytes: &'a [u8],
    place: u32,
    /// The last eight bytes, or all bytes if they are fewer, with zeros after them.
    last: u64,
}

impl<'a> Model for BitEye<'a> {
    ghost use Rattle.std.specs.Prelude.{◌≤◌, ◌*◌, ◌-◌, length, drop};
    ghost use Rattle.bit_vectors.specs.Vectors.{bits_of};
    ghost use Rattle.bit_vectors.specs.Reading.{EyeState, Shows};

    ghost Value = { EyeState };

    ghost view = { λ e. record { bits = bits_of e.bytes.now; place = e.place } };

    ghost invariant = { λ e. (length e.bytes.now ≤ 65536) × (e.place ≤ 8 * length e.bytes.now)
        × Shows (bits_of (drop (length e.bytes.now - 8) e.bytes.now)) e.last };
}

impl<'a> BitEye<'a> {
    /// Starts at bit 0 of at most 65,536 bytes.
    pub fn new(bytes: &'a [u8]) -> BitEye<'a>
        requires { length bytes.now ≤ 65536 }
        ensures bits { result.bits ≡ bits_of bytes.now }
        ensures place { result.place ≡ 0 }
    {
        let last = front_word(&bytes[bytes.len().saturating_sub(8)..]);
        BitEye {
            bytes,
            place: 0,
            last,
        }
    }

    /// The number of the next bit.
    pub fn at(&self) -> u32
        ensures at { result ≡ self.now.place }
        ensures within { result ≤ length self.now.bits }
    {
        self.place
    }

    /// The number of all bits, at most 524,288.
    pub fn size(&self) -> u32
        ensures size { result ≡ length self.now.bits }
        ensures most { result ≤ 524288 }
    {
        8 * self.bytes.len() as u32
    }

    /// Takes the next bit, or nothing at the end.
    pub fn take(&mut self) -> Option<bool>
        ensures bit { IfSome result (λ bit. bits_left self.old ≡ bit ∷ bits_left self.new) }
        ensures moved { OnSome result (self.new.place ≡ self.old.place + 1) }
        ensures end { IsNone result ↔ (self.old.place ≡ length self.old.bits) }
        ensures nothing { IfNone result (bits_left self.old ≡ []) }
        ensures still { IfNone result (self.new ≡ self.old) }
        ensures bits { self.new.bits ≡ self.old.bits }
    {
        if self.place == self.size() {
            return None;
        }
        let bit = bit_in(self.bytes, self.place as usize);
        self.place += 1;
        Some(bit)
    }

    /// The number of bits that are left.
    pub fn left(&self) -> u32
        ensures left { result ≡ length (bits_left self.now) }
        ensures rest { result + self.now.place ≡ length self.now.bits }
    {
        self.size() - self.place
    }

    /// The next 64 bits as a word, the next bit with the greatest weight, and zeros after the end. The eye
    /// does not move.
    #[inline(always)]
    pub fn ahead(&self) -> u64
        ensures { Shows (bits_left self.now) result }
    {
        let last = self.size().saturating_sub(64);
        if self.place < last {
            word_after(&self.bytes[self.place as usize / 8..], self.place % 8)
        } else {
            word_left(self.last, self.place - last)
        }
    }

    /// Moves on by the given number of bits, which is at most the number of bits left.
    pub fn pass(&mut self, width: u32)
        requires { width ≤ length (bits_left self.old) }
        ensures left { bits_left self.new ≡ drop width (bits_left self.old) }
        ensures place { self.new.place ≡ self.old.place + width }
        ensures bits { self.new.bits ≡ self.old.bits }
    {
        self.place += width;
    }
}

/// The bit with this number, counted over all the bytes.
fn bit_in(bytes: &[u8], place: usize) -> bool
    requires { place < 8 * length bytes.now }
    ensures { result ≡ slice_index_or (bits_of bytes.now) place false }
{
    (bytes[place / 8] >> (7 - place % 8)) & 1 == 1
}

/// The 64 bits after the first `skipped` bits, which are fewer than eight, with zeros after the end.
fn word_after(bytes: &[u8], skipped: u32) -> u64
    requires { skipped < 8 }
    ensures { Shows (drop skipped (bits_of bytes.now)) result }
{
    let next = bytes.get(8).copied().unwrap_or(0);
    (front_word(bytes) << skipped) + (u64::from(next) >> (8 - skipped))
}

/// The bits after the first `passed` of at most 64 bits, which this word begins with, followed by zeros.
fn word_left(word: u64, passed: u32) -> u64
    requires { passed ≤ 64 }
    ensures { (bits : List Bool) → length bits ≤ 64 → Shows bits word
        → Shows (drop passed bits) result }
{
    if passed == 64 { 0 } else { word << passed }
}
