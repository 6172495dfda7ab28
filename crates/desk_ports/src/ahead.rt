//! Bytes of the main input that are read ahead.

ghost use Rattle.std.specs.Prelude.{◌≡◌, ◌+◌, ◌-◌, ◌<◌, ◌≤◌, [], length, take, drop, true, false, Ok, All, IfOk, OnErr};
ghost use Rattle.std.specs.Io.KnownBytes.{IsAtEnd};
ghost use Rattle.desk_ports.specs.Meanings.{IsReadyIn, HasReadCause, left, ReadsOn};

use crate::desk::{Desk, Failed, Inlet};
use bit_vectors::zero_bytes;
use std::alloc::{AllocError, Global};
use std::marker::Model;

/// The most bytes that can be read ahead.
pub const MOST_AHEAD: usize = 131_072;

/// Bytes of the main input of a desk that were read and not yet passed. Contracts see these bytes: the rest of the input
/// is these bytes, and then what the desk has left.
#[derive(Debug, Drop)]
pub struct ReadAhead {
    room: Vec<u8>,
    next: usize,
    filled: usize,
}

impl Model for ReadAhead {
    ghost use Rattle.std.specs.Prelude.{ℕ, List, drop, take, vec_len};
    ghost use Rattle.std.specs.Vec.{vec_capacity};
    ghost use Rattle.desk_ports.specs.Meanings.{IsAhead};

    ghost Value = { List ℕ };

    ghost view = { λ a. drop a.next (take a.filled a.room.items) };

    ghost invariant = { λ a. IsAhead a.next a.filled (vec_len a.room) (vec_capacity a.room) };
}

impl ReadAhead {
    /// Nothing is ahead. Allocates the room for all bytes.
    pub fn open(alloc: Global) -> Result<ReadAhead, AllocError>
        ensures { IfOk result (λ ahead. ahead ≡ []) }
    {
        Ok(ReadAhead {
            room: zero_bytes(alloc, MOST_AHEAD)?,
            next: 0,
            filled: 0,
        })
    }

    /// Reads until `n` bytes are ahead or the input is at its end, and tells whether `n` bytes are ahead. At `Failed` no
    /// byte that was read before is lost. It allocates no memory.
    #[inline]
    pub fn hold<D: Desk>(&mut self, desk: &mut D, n: usize) -> Result<bool, Failed>
        requires open { IsReadyIn (D.meaning desk.old) Inlet.Main }
        requires most { n ≤ 131072 }
        // What was read comes after what was ahead.
        ensures read { ReadsOn self.old self.new (D.meaning desk.old) (D.meaning desk.new) }
        ensures held { result ≡ Ok true → n ≤ length self.new }
        ensures bytes { result ≡ Ok true → All (λ b. b < 256) self.new }
        ensures short { result ≡ Ok false → length self.new < n }
        ensures at_end { result ≡ Ok false → IsAtEnd (left (D.meaning desk.new) Inlet.Main) }
        ensures cut { OnErr result (length self.new < n) }
        // If that many bytes were ahead already, the desk is unchanged.
        ensures whole { n ≤ length self.old → desk.new ≡ desk.old }
        ensures cause { HasReadCause (D.counts desk.old) (D.counts desk.new) result }
    {
        while self.bytes().len() < n {
            if self.read(desk)? == 0 {
                return Ok(false);
            }
        }
        Ok(true)
    }

    /// The bytes that are ahead.
    pub fn bytes(&self) -> &[u8]
        ensures ahead { result.now ≡ self.now }
        ensures most { length result.now ≤ 131072 }
        ensures bytes { All (λ b. b < 256) result.now }
    {
        part(&self.room, self.next, self.filled)
    }

    /// Passes the first `n` of the bytes that are ahead.
    pub fn pass(&mut self, n: usize)
        requires { n ≤ length self.old }
        ensures { self.new ≡ drop n self.old }
    {
        self.next += n;
    }

    // Reads once, into all the room that is left, and tells how many bytes were added: 0 exactly at the end.
    #[cold]
    #[inline(never)]
    fn read<D: Desk>(&mut self, desk: &mut D) -> Result<usize, Failed>
        requires open { IsReadyIn (D.meaning desk.old) Inlet.Main }
        requires room { length self.old < 131072 }
        ensures read { ReadsOn self.old self.new (D.meaning desk.old) (D.meaning desk.new) }
        ensures added { IfOk result (λ n. length self.new ≡ length self.old + n) }
        ensures at_end { IfOk result (λ n. n ≡ 0 → IsAtEnd (left (D.meaning desk.new) Inlet.Main)) }
        ensures unchanged { OnErr result (self.new ≡ self.old) }
        ensures cause { HasReadCause (D.counts desk.old) (D.counts desk.new) result }
    {
        move_to_front(&mut self.room, self.next, self.filled);
        self.filled -= self.next;
        self.next = 0;
        let moved = desk.read(Inlet::Main, &mut self.room[self.filled..])?;
        self.filled += moved;
        Ok(moved)
    }
}

// The bytes from `next` to `filled`.
fn part(room: &[u8], next: usize, filled: usize) -> &[u8]
    requires ordered { next ≤ filled }
    requires within { filled ≤ length room.now }
    ensures part { result.now ≡ drop next (take filled room.now) }
    ensures bytes { All (λ b. b < 256) result.now }
{
    &room[next..filled]
}

// Moves the bytes from `next` to `filled` to the front of the room.
fn move_to_front(room: &mut [u8], next: usize, filled: usize)
    requires ordered { next ≤ filled }
    requires within { filled ≤ length room.old }
    ensures moved { take (filled - next) room.new ≡ drop next (take filled room.old) }
{
    if next > 0 {
        room.copy_within(next..filled, 0);
    }
}
