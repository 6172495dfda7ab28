//! A line of a text, assembled from its end.

ghost use Rattle.std.specs.Prelude.{◌≡◌, ◌+◌, ◌^◌, ◌<◌, ◌≤◌, ◌++◌, ◌∷◌, [], length, drop, decimal, IfOk, unsigned_abs};
ghost use Rattle.std.specs.Fmt.{signed_decimal};

use bit_vectors::{NoMemory, zero_bytes};
use itoa::write_digits;
use std::alloc::Global;
use std::marker::Model;

/// The most bytes that a line can have: those of 257 names of 32 letters, each with a byte after it.
pub const LINE_BYTES: usize = 8_481;

/// A line that is assembled from its end to its front, and then written in one piece. Contracts see its text. The
/// memory is taken when it is made.
#[derive(Debug, Drop)]
pub struct Line {
    bytes: Vec<u8>,
    start: usize,
}

impl Model for Line {
    ghost use Rattle.std.specs.Prelude.{List, ℕ, drop, length};
    ghost use Rattle.std.specs.Vec.{vec_capacity};
    ghost use Rattle.param_table.specs.Line.{IsLine};

    ghost Value = { List ℕ };

    ghost view = { λ line. drop line.start line.bytes.items };

    ghost invariant = { λ line. IsLine line.start (length line.bytes.items) (vec_capacity line.bytes) };
}

impl Line {
    /// An empty line.
    pub fn open(alloc: Global) -> Result<Line, NoMemory>
        ensures { IfOk result (λ line. line ≡ []) }
    {
        Ok(Line {
            bytes: zero_bytes(alloc, LINE_BYTES)?,
            start: LINE_BYTES,
        })
    }

    /// Empties the line.
    pub fn clear(&mut self)
        ensures { self.new ≡ [] }
    {
        self.start = LINE_BYTES;
    }

    /// Puts a byte before the text.
    pub fn put_byte(&mut self, byte: u8)
        requires { length self.old < LINE_BYTES }
        ensures { self.new ≡ byte ∷ self.old }
    {
        self.start -= 1;
        self.bytes[self.start] = byte;
    }

    /// Puts some bytes before the text.
    pub fn put_bytes(&mut self, bytes: &[u8])
        requires { length bytes.now + length self.old ≤ LINE_BYTES }
        ensures { self.new ≡ bytes.now ++ self.old }
    {
        let end = self.start;
        self.start -= bytes.len();
        self.bytes[self.start..end].copy_from_slice(bytes);
    }

    /// Puts the decimal digits of a number, at most 20 of them, before the text.
    pub fn put_number(&mut self, number: u64)
        requires { 20 + length self.old ≤ LINE_BYTES }
        ensures text { self.new ≡ decimal number ++ self.old }
        ensures few { length self.new ≤ 20 + length self.old }
    {
        self.start = write_digits(number, &mut self.bytes, self.start);
    }

    /// Puts the decimal digits of a number whose absolute value has 64 bits, at most 20 of them, before the text, and a
    /// minus before these if the number is below 0.
    pub fn put_signed(&mut self, number: i128)
        requires room { 21 + length self.old ≤ LINE_BYTES }
        requires small { unsigned_abs number < 2 ^ 64 }
        ensures text { self.new ≡ signed_decimal number ++ self.old }
        ensures few { length self.new ≤ 21 + length self.old }
    {
        self.put_number(number.unsigned_abs() as u64);
        if number < 0 {
            self.put_byte(b'-');
        }
    }

    /// The bytes of the text.
    pub fn as_bytes(&self) -> &[u8]
        ensures { result.now ≡ self.now }
    {
        &self.bytes[self.start..]
    }
}
