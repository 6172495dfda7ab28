//! The data of a packet that are remembered, to be compared with those of the next one.

ghost use Rattle.std.specs.Prelude.{◌≡◌, ◌↔◌, ℕ, [], nat_le, ◌&&◌, if◌then◌else◌, length, Some};
ghost use Rattle.packet_decode.specs.Parts.{IsAtLevel};

use std::marker::Model;

/// The most bytes that are remembered.
const MOST_KEPT_BYTES: usize = 64;

/// At most 64 bytes of data that are remembered. Contracts see these bytes; no bytes stand for nothing remembered.
#[derive(Debug, Drop)]
pub struct Remembered {
    size: usize,
    bytes: [u8; MOST_KEPT_BYTES],
}

impl Model for Remembered {
    ghost use Rattle.std.specs.Prelude.{ℕ, List, ◌≤◌, take};

    ghost Value = { List ℕ };

    ghost view = { λ r. take r.size r.bytes };

    ghost invariant = { λ r. r.size ≤ 64 };
}

impl Remembered {
    /// Nothing is remembered.
    pub fn nothing() -> Remembered
        ensures { result ≡ [] }
    {
        Remembered {
            size: 0,
            bytes: [0; MOST_KEPT_BYTES],
        }
    }

    /// Remembers these bytes if they can be repeated and are few enough, and else nothing.
    pub fn keep(&mut self, bytes: &[u8], can_repeat: bool)
        ensures { self.new ≡ (if can_repeat && nat_le (length bytes.now) 64 then bytes.now else []) }
    {
        self.size = 0;
        if can_repeat && bytes.len() <= MOST_KEPT_BYTES {
            self.bytes[..bytes.len()].copy_from_slice(bytes);
            self.size = bytes.len();
        }
    }

    /// The level of these bytes, which is the four bits after the first two, exactly if something is remembered and they are it
    /// but for these four.
    pub fn level_of(&self, bytes: &[u8]) -> Option<u8>
        ensures { (level : ℕ) → (result ≡ Some level) ↔ IsAtLevel level self.now bytes.now }
    {
        let (kept, others) = self.bytes[..self.size].split_first()?;
        let (byte, rest) = bytes.split_first()?;
        if byte / 64 == kept / 64 && byte % 4 == kept % 4 && rest == others {
            Some(byte / 4 % 16)
        } else {
            None
        }
    }
}
