//! The command `compress`: from a recording to the store of its compressed packets.

ghost use Rattle.std.specs.Prelude.{◌≡◌, IfOk};
ghost use Rattle.desk_ports.specs.Turns.{AreReady, IsOwed};
ghost use Rattle.desk_ports.specs.Courses.{AfterRun, HasCause, Work, by_stop};
ghost use Rattle.flight_chain.specs.Compressing.{IsCompression, compress_work, is_main, stop_by};

use crate::compressing::Compressing;
use crate::fault::FlightFault;
use bit_vectors::{Bits, NoMemory};
use desk_ports::{Desk, Run, drive};
use side_tables::Schedule;
use std::alloc::Global;
use std::marker::Model;

/// Compresses a recording: reads it from the main inlet of a desk, and writes the store of its packets to the main
/// outlet. Contracts see the places of the vectors, the required robustness of packets to which the schedule gives none,
/// the APID, the first mask and the rows of the schedule.
#[derive(Debug, Drop)]
pub struct Flight {
    compressing: Compressing,
}

impl Model for Flight {
    ghost use Rattle.flight_chain.specs.Compressing.{Compression, compression_of, HasTakenNothing};

    ghost Value = { Compression };

    ghost view = { λ f. compression_of f.compressing };

    ghost invariant = { λ f. HasTakenNothing f.compressing };
}

impl Flight {
    /// A flight whose vectors have `f` places, for packets of an APID that is not the idle one. It starts with this mask
    /// and gives each packet the flags and the required robustness of the schedule, and if that gives none, this one, at
    /// most 7. It takes all memory of the run.
    pub fn open(
        alloc: Global,
        f: u32,
        robust: u8,
        apid: u16,
        mask: &Bits,
        plan: Schedule,
    ) -> Result<Flight, NoMemory>
        requires { IsCompression f robust apid mask.now }
        ensures { IfOk result
            (λ flight. flight ≡ record
            { places = f; robust = robust; apid = apid; mask = mask.now; rows = plan }) }
    {
        let compressing = Compressing::open(alloc, f, robust, apid, mask, plan)?;
        Ok(Flight { compressing })
    }

    /// Compresses the recording, and tells the number of its packets. It takes no memory.
    pub fn compress<D: Desk>(self, desk: &mut D) -> Result<u64, FlightFault>
        requires { AreReady is_main (D.meaning desk.old) }
        // What stands after each answer is what the recording owes, all of it or up to where its walk or the desk ends it;
        // the number is that of the packets of the same recording, whatever the desk tells.
        ensures ran { AfterRun (compress_work self) (D.meaning desk.old) (D.meaning desk.new)
            (by_stop stop_by result) }
        ensures cause { HasCause (D.counts desk.old) (D.counts desk.new) (by_stop stop_by result) }
    {
        drive_whole(self.compressing, desk)
    }
}

/// Makes turns until the run is done, or until a fault ends it, and lets the run go.
fn drive_whole<R: Run + Drop, D: Desk>(mut run: R, desk: &mut D) -> Result<R::Answer, R::Fault>
    requires owed { IsOwed (R.owes run) }
    requires ready { AreReady R.writes (D.meaning desk.old) }
    ensures ran { (work : Work R.Answer R.Data) → R.owes run work
        → AfterRun work (D.meaning desk.old) (D.meaning desk.new) (by_stop R.stop_of result) }
    ensures cause { HasCause (D.counts desk.old) (D.counts desk.new) (by_stop R.stop_of result) }
{
    drive(&mut run, desk)
}
