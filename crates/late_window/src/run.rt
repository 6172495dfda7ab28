//! A store that is read packet by packet, whose arrivals may come late.

ghost use Rattle.std.specs.Prelude.{◌≡◌, ◌-◌, ◌^◌, ◌≤◌, IfOk};
ghost use Rattle.flight_chain.specs.Compressing.{IsStream};

use crate::done::LateDone;
use crate::late::LateArrivals;
use bit_vectors::NoMemory;
use desk_ports::{Desk, Run, Turn};
use ground_chain::RestoreFault;
use packet_store::{StoreReader, WalkFault};
use std::alloc::Global;

/// A reader, and the arrivals so far.
#[derive(Debug, Drop)]
pub(crate) struct LateRun {
    reader: StoreReader,
    arrivals: LateArrivals,
}

impl Run for LateRun {
    type Answer = LateDone;

    type Fault = RestoreFault;

    type Data = WalkFault;

    ghost use Rattle.std.specs.Prelude.{true};
    ghost use Rattle.packet_store.specs.StoreReader.{stop_by};
    ghost use Rattle.late_window.specs.Restoring.{Owes};

    ghost owes = { Owes };

    ghost stop_of = { stop_by };

    ghost writes = { λ _. true };

    ghost remaining = { λ r. 2 ^ 32 - r.reader.taken };

    fn turn<D: Desk>(&mut self, desk: &mut D) -> Result<Turn<LateDone>, RestoreFault> {
        let Some(taken) = self.reader.next(desk)? else {
            return Ok(Turn::Done(self.arrivals.end(desk)?));
        };
        if taken.chosen {
            let body = self.reader.body();
            self.arrivals.arrive(desk, taken.count, body)?;
        }
        Ok(Turn::More)
    }
}

impl LateRun {
    ghost use Rattle.late_window.specs.Restoring.{nothing_read};

    /// Nothing is read. Takes all memory of the run.
    pub(crate) fn open(alloc: Global, f: u32, apid: u16, window: u8) -> Result<LateRun, NoMemory>
        requires stream { IsStream f apid }
        requires window { window ≤ 64 }
        ensures { IfOk result (λ run. run ≡ nothing_read f apid window) }
    {
        Ok(LateRun {
            reader: StoreReader::open(alloc, apid)?,
            arrivals: LateArrivals::open(alloc, f, window)?,
        })
    }
}
