//! A row of a text.

ghost use Rattle.std.specs.Prelude.{◌≡◌, ◌+◌, ◌≤◌, ◌++◌, [], length, decimal};

use arrayvec::ArrayString;
use itoa::Buffer;
use std::marker::Model;

/// The most bytes that a row can have.
pub const ROW_BYTES: usize = 128;

/// A row of a text that is assembled before it is written in one piece. It allocates no memory.
#[derive(Debug, Drop)]
pub struct Row {
    text: ArrayString<ROW_BYTES>,
}

impl Model for Row {
    ghost use Rattle.std.specs.Prelude.{List, ℕ};

    ghost Value = { List ℕ };

    ghost view = { λ row. row.text.bytes };
}

impl Row {
    /// An empty row.
    pub fn new() -> Row
        ensures { result ≡ [] }
    {
        Row {
            text: ArrayString::new(),
        }
    }

    /// Appends a text.
    pub fn put_text(&mut self, text: &str)
        requires { length self.old + length text.now ≤ ROW_BYTES }
        ensures { self.new ≡ self.old ++ text.now }
    {
        self.text.push_str(text);
    }

    /// Appends a number in decimal digits, at most 20 of them.
    pub fn put_number(&mut self, number: u64)
        requires { length self.old + 20 ≤ ROW_BYTES }
        ensures digits { self.new ≡ self.old ++ decimal number }
        ensures few { length self.new ≤ length self.old + 20 }
    {
        let mut buffer = Buffer::new();
        self.text.push_str(buffer.format(number));
    }

    /// The text of the row.
    pub fn as_str(&self) -> &str
        ensures text { result.now ≡ self.now }
        ensures fits { length result.now ≤ ROW_BYTES }
    {
        self.text.as_str()
    }

    /// The bytes of the row.
    pub fn as_bytes(&self) -> &[u8]
        ensures { result.now ≡ self.now }
    {
        self.text.as_bytes()
    }
}
