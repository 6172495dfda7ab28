//! A place for one arrival.

ghost use Rattle.std.specs.Prelude.{◌≡◌, ◌++◌, ◌≤◌, length, drop, vec_len, IfOk};
ghost use Rattle.std.specs.Vec.{vec_capacity};
ghost use Rattle.late_window.specs.Lines.{nothing};

use bit_vectors::NoMemory;
use packet_store::MOST_DATA_BYTES;
use std::alloc::Global;
use std::marker::Model;

/// A place for one arrival: its number and its data bytes. Its room has memory for any packet, and is as long as the longest
/// packet so far, so that no zeros are written for bytes that never come.
#[derive(Debug, Drop)]
pub struct Place {
    number: u64,
    size: usize,
    room: Vec<u8>,
}

impl Model for Place {
    ghost use Rattle.std.specs.Prelude.{take, vec_len};
    ghost use Rattle.std.specs.Vec.{vec_capacity};
    ghost use Rattle.late_window.specs.Order.{Numbered};
    ghost use Rattle.late_window.specs.Lines.{IsPlace};

    ghost Value = { Numbered };

    ghost view = { λ p. record { number = p.number; body = take p.size p.room.items } };

    ghost invariant = { λ p. IsPlace p.size (vec_len p.room) (vec_capacity p.room) };
}

impl Place {
    /// A place without an arrival. Takes all memory that `fill` needs.
    pub fn open(alloc: Global) -> Result<Place, NoMemory>
        ensures { IfOk result (λ place. place ≡ nothing) }
    {
        Ok(Place {
            number: 0,
            size: 0,
            room: Vec::with_capacity(alloc, MOST_DATA_BYTES)?,
        })
    }

    /// Puts an arrival with this number and these data bytes into the place. It takes no memory.
    pub fn fill(&mut self, number: u64, bytes: &[u8])
        requires { length bytes.now ≤ 65536 }
        ensures { self.new ≡ record { number = number; body = bytes.now } }
    {
        lengthen(&mut self.room, bytes.len());
        copy_front(&mut self.room, bytes);
        self.number = number;
        self.size = bytes.len();
    }

    /// The number of the arrival.
    pub fn number(&self) -> u64
        ensures { result ≡ self.now.number }
    {
        self.number
    }

    /// The data bytes of the arrival.
    pub fn bytes(&self) -> &[u8]
        ensures bytes { result.now ≡ self.now.body }
        ensures size { length result.now ≤ 65536 }
    {
        &self.room[..self.size]
    }
}

/// Lengthens a room to `count` bytes, if it is shorter, within its memory.
fn lengthen(room: &mut Vec<u8>, count: usize)
    requires room { count ≤ vec_capacity room.old }
    requires within { vec_len room.old ≤ vec_capacity room.old }
    ensures enough { count ≤ vec_len room.new }
    ensures most { vec_len room.new ≤ vec_capacity room.new }
    ensures taken { vec_capacity room.new ≡ vec_capacity room.old }
{
    for _missing in room.len()..count {
        room.push_reserved(0);
    }
}

/// Copies bytes to the front of a room that is large enough.
fn copy_front(room: &mut [u8], bytes: &[u8])
    requires { length bytes.now ≤ length room.old }
    ensures { room.new ≡ bytes.now ++ drop (length bytes.now) room.old }
{
    room[..bytes.len()].copy_from_slice(bytes);
}
