//! Reading until a buffer is full, and writing a whole buffer.

ghost use Rattle.std.specs.Prelude.{◌<◌, ◌≤◌, ℕ, List, length, take, IfOk, OnErr};
ghost use Rattle.std.specs.Io.KnownBytes.{IsAtEnd};
ghost use Rattle.desk_ports.specs.Meanings.{Moves, IsReadyIn, IsReadyOut, HasReadCause, left};
ghost use Rattle.desk_ports.specs.Courses.{to_outlet};
ghost use Rattle.desk_ports.specs.Turns.{Writes};

use crate::desk::{Desk, Failed, Inlet, Outlet};

/// Reads until `buf` is full or the input is at its end, and tells how many bytes were moved to its front.
/// At `Failed` the bytes that were moved before the failing read are lost.
pub fn fill<D: Desk>(desk: &mut D, inlet: Inlet, buf: &mut [u8]) -> Result<usize, Failed>
    requires { IsReadyIn (D.meaning desk.old) inlet }
    ensures within { IfOk result (λ n. n ≤ length buf.old) }
    ensures moved { IfOk result
        (λ n. Moves (D.meaning desk.old) (D.meaning desk.new) inlet (take n buf.new)) }
    ensures at_end { IfOk result
        (λ n. n < length buf.old → IsAtEnd (left (D.meaning desk.new) inlet)) }
    ensures lost { OnErr result
        ((bytes : List ℕ) × (length bytes < length buf.old)
        × Moves (D.meaning desk.old) (D.meaning desk.new) inlet bytes) }
    ensures cause { HasReadCause (D.counts desk.old) (D.counts desk.new) result }
{
    let mut filled = 0;
    while filled < buf.len() {
        let moved = desk.read(inlet, &mut buf[filled..])?;
        if moved == 0 {
            break;
        }
        filled += moved;
    }
    Ok(filled)
}

/// Writes all the bytes. At `Failed` a prefix of them was appended.
pub fn write_all<D: Desk>(desk: &mut D, outlet: Outlet, bytes: &[u8]) -> Result<(), Failed>
    requires { IsReadyOut (D.meaning desk.old) outlet }
    ensures { Writes D.meaning D.counts desk.old desk.new (to_outlet outlet bytes.now) result }
{
    let mut rest = bytes;
    while !rest.is_empty() {
        let taken = desk.write(outlet, rest)?;
        rest = &rest[taken..];
    }
    Ok(())
}
