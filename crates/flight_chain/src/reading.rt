//! One packet of a recording.

ghost use Rattle.std.specs.Prelude.{◌≡◌, ◌^◌, ◌≤◌, [], length, IfErr, OnErr};
ghost use Rattle.std.specs.Io.KnownBytes.{IsAtEnd};
ghost use Rattle.bit_vectors.specs.Vectors.{IsVector, byte_count};
ghost use Rattle.desk_ports.specs.Meanings.{Moves, IsReadyIn, left, ReadsOn};
ghost use Rattle.desk_ports.specs.Courses.{HasCause, by_stop};
ghost use Rattle.packet_store.specs.Answers.{IfGiven, OnEnd};
ghost use Rattle.flight_chain.specs.Compressing.{stop_by};
ghost use Rattle.flight_chain.specs.Reading.{TakesInput, AfterUnread};

use crate::fault::FlightFault;
use bit_vectors::{Bits, byte_len};
use desk_ports::{Desk, Inlet, ReadAhead};

/// Takes the packet `t` of a recording, counted from 0, reads its vector into `input`, and tells its number. None: the
/// recording is at its end. It takes no memory. After an answer that is not a number `input` is any vector of as many places as
/// before, and after a fault all that was read is ahead.
pub fn read_input<D: Desk>(
    ahead: &mut ReadAhead,
    desk: &mut D,
    t: u64,
    input: &mut Bits,
) -> Result<Option<u32>, FlightFault>
    requires open { IsReadyIn (D.meaning desk.old) Inlet.Main }
    requires number { t ≤ 2 ^ 32 }
    requires vector { IsVector input.old }
    ensures number { IfGiven result (λ n. n ≡ t) }
    ensures taken { IfGiven result (λ _. TakesInput (length input.old) t ahead.old ahead.new
        (D.meaning desk.old) (D.meaning desk.new) input.new) }
    ensures ahead { OnEnd result (ahead.old ≡ []) }
    ensures none { OnEnd result (Moves (D.meaning desk.old) (D.meaning desk.new) Inlet.Main []) }
    ensures at_end { OnEnd result (IsAtEnd (left (D.meaning desk.old) Inlet.Main)) }
    // A fault of the data is how the walk ends; after ReadFault less than a packet is ahead; WriteFault never comes.
    ensures unread { IfErr (by_stop stop_by result) (AfterUnread (length input.old) t ahead.old
        (D.meaning desk.old) (D.meaning desk.new)) }
    // After a fault all that was read is ahead, behind what was ahead before.
    ensures kept { OnErr result
        (ReadsOn ahead.old ahead.new (D.meaning desk.old) (D.meaning desk.new)) }
    // If the packet is ahead as a whole, the desk stays as it is.
    ensures whole { byte_count (length input.old) ≤ length ahead.old → desk.new ≡ desk.old }
    ensures cause { HasCause (D.counts desk.old) (D.counts desk.new) (by_stop stop_by result) }
    ensures places { length input.new ≡ length input.old }
{
    let size = byte_len(input.len()) as usize;
    let Ok(whole) = ahead.hold(desk, size) else {
        return Err(FlightFault::ReadFault);
    };
    if ahead.bytes().is_empty() {
        return Ok(None);
    }
    if t > u64::from(u32::MAX) {
        return Err(FlightFault::TooMany);
    }
    let t = t as u32;
    if !whole {
        return Err(FlightFault::CutRecord { t });
    }
    let Ok(()) = input.load(&ahead.bytes()[..size]) else {
        return Err(FlightFault::SpareBit { t });
    };
    ahead.pass(size);
    Ok(Some(t))
}
