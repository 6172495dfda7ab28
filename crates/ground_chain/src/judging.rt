//! Arrivals that are judged, and what an account writes of them.

ghost use Rattle.std.specs.Prelude.{◌≡◌, IfOk};
ghost use Rattle.desk_ports.specs.Turns.{AreReady, Writes};
ghost use Rattle.ground_chain.specs.Reception.{next_judged, IsNextArrival, Judges, nothing_judged};
ghost use Rattle.bit_vectors.specs.Vectors.{IsPlaces};

use crate::account::Account;
use crate::restored::Restored;
use crate::tallied::Tallied;
use bit_vectors::NoMemory;
use desk_ports::{Desk, Failed};
use std::alloc::Global;
use std::marker::Model;

/// The arrivals so far with their numbers, and the account of them. Contracts see what the ground knows, and the numbers.
#[derive(Debug, Drop)]
pub struct Judging<A: Account> {
    arrivals: Tallied,
    account: A,
}

impl<A: Account> Model for Judging<A> {
    ghost use Rattle.ground_chain.specs.Reception.{Reckoning};

    ghost Value = { Reckoning };

    ghost view = { λ j. j.arrivals };

    ghost invariant = { λ j. A.has_room j.account j.arrivals.reception.decoder.places };
}

impl<A: Account> Judging<A> {
    /// Nothing has arrived. The vectors have `f` places. Takes all memory of the run but the account's.
    pub fn open(alloc: Global, f: u32, account: A) -> Result<Judging<A>, NoMemory>
        requires valid { IsPlaces f }
        requires room { A.has_room account f }
        ensures { IfOk result (λ judging. judging ≡ nothing_judged f) }
    {
        let arrivals = Tallied::open(alloc, f)?;
        Ok(Judging { arrivals, account })
    }

    /// Judges the next arrival, with this sequence count and these data bytes, and writes what the account writes of it. It
    /// takes no memory.
    pub fn arrive<D: Desk>(&mut self, desk: &mut D, count: u16, bytes: &[u8]) -> Result<(), Failed>
        requires next { IsNextArrival self.old count bytes.now }
        requires ready { AreReady A.writes (D.meaning desk.old) }
        ensures judges { Judges self.old self.new count bytes.now }
        ensures written { Writes D.meaning D.counts desk.old desk.new
            (A.texts.parts (next_judged self.old.reception count bytes.now)) result }
    {
        let verdict = self.arrivals.judge(count, bytes);
        self.account.write(desk, &verdict, self.arrivals.decoder())
    }

    /// Writes the account's last part.
    pub fn end<D: Desk>(&self, desk: &mut D) -> Result<(), Failed>
        requires ready { AreReady A.writes (D.meaning desk.old) }
        ensures { Writes D.meaning D.counts desk.old desk.new
            (A.texts.last self.now.restored) result }
    {
        self.account.end(desk, self.arrivals.restored())
    }

    /// The numbers of the arrivals so far.
    pub fn restored(&self) -> &Restored
        ensures { result.now ≡ self.now.restored }
    {
        self.arrivals.restored()
    }
}
