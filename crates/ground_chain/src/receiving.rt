//! A store that is being received, packet by packet, with an account of its arrivals.

ghost use Rattle.std.specs.Prelude.{◌≡◌, ◌-◌, ◌^◌, IfOk};
ghost use Rattle.flight_chain.specs.Compressing.{IsStream};

use crate::RestoreFault;
use crate::account::Account;
use crate::judging::Judging;
use crate::restored::Restored;
use bit_vectors::NoMemory;
use desk_ports::{Desk, Run, Turn};
use packet_store::{StoreReader, WalkFault};
use std::alloc::Global;

/// A reader, and the arrivals so far.
#[derive(Debug, Drop)]
pub struct Receiving<A: Account> {
    reader: StoreReader,
    judging: Judging<A>,
}

impl<A: Account> Run for Receiving<A> {
    type Answer = Restored;

    type Fault = RestoreFault;

    type Data = WalkFault;

    ghost use Rattle.packet_store.specs.StoreReader.{stop_by};
    ghost use Rattle.ground_chain.specs.Receiving.{Owes};

    ghost owes = { Owes A.texts };

    ghost stop_of = { stop_by };

    ghost writes = { A.writes };

    ghost remaining = { λ r. 2 ^ 32 - r.reader.taken };

    fn turn<D: Desk>(&mut self, desk: &mut D) -> Result<Turn<Restored>, RestoreFault> {
        let Some(taken) = self.reader.next(desk)? else {
            self.judging.end(desk)?;
            return Ok(Turn::Done(*self.judging.restored()));
        };
        if taken.chosen {
            let body = self.reader.body();
            self.judging.arrive(desk, taken.count, body)?;
        }
        Ok(Turn::More)
    }
}

impl<A: Account> Receiving<A> {
    ghost use Rattle.ground_chain.specs.Receiving.{nothing_received};

    /// Nothing is read. Takes all memory of the run but the account's.
    pub fn open(alloc: Global, f: u32, apid: u16, account: A) -> Result<Receiving<A>, NoMemory>
        requires stream { IsStream f apid }
        requires room { A.has_room account f }
        ensures { IfOk result (λ receiving. receiving ≡ nothing_received f apid) }
    {
        let reader = StoreReader::open(alloc, apid)?;
        let judging = Judging::open(alloc, f, account)?;
        Ok(Receiving { reader, judging })
    }
}
