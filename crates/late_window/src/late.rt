//! Arrivals that are put in order and then judged.

ghost use Rattle.std.specs.Prelude.{◌≡◌, ◌+◌, ◌-◌, ◌^◌, ◌<◌, ◌≤◌, ◌*◌, [], length, take, true, IfOk, OnOk};
ghost use Rattle.desk_ports.specs.Turns.{AreReady, Writes};
ghost use Rattle.ground_chain.specs.Run.{IsArrival};
ghost use Rattle.late_window.specs.Late.{AreJudged, IsWithinLimits, Sorts, arrival_bytes, held_bytes, last_bytes, done_of, nothing_late};
ghost use Rattle.late_window.specs.Lines.{given_up};
ghost use Rattle.bit_vectors.specs.Vectors.{IsPlaces};

use crate::done::LateDone;
use crate::near::NearCount;
use crate::row::late_row;
use crate::sorter::Sorter;
use bit_vectors::NoMemory;
use desk_ports::{Desk, Failed, Outlet, write_all};
use ground_chain::{Judging, Reporting};
use packet_store::PERIOD;
use std::alloc::Global;

/// The arrivals so far: those that are held, and those that were judged.
#[derive(Debug, Drop)]
pub(crate) struct LateArrivals {
    numbers: NearCount,
    sorter: Sorter,
    judging: Judging<Reporting>,
    late: u64,
}

impl LateArrivals {
    /// Nothing has arrived. Takes all memory of the arrivals.
    pub(crate) fn open(alloc: Global, f: u32, window: u8) -> Result<LateArrivals, NoMemory>
        requires valid { IsPlaces f }
        requires window { window ≤ 64 }
        ensures { IfOk result (λ arrivals. arrivals ≡ nothing_late f window) }
    {
        let account = Reporting::open(alloc, f)?;
        Ok(LateArrivals {
            numbers: NearCount::new(),
            sorter: Sorter::open(alloc, window)?,
            judging: Judging::open(alloc, f, account)?,
            late: 0,
        })
    }

    /// Takes the next arrival. If more are held then than the window is large, the one with the least number is judged, and
    /// what there is to write of it is written. It takes no memory.
    pub(crate) fn arrive<D: Desk>(
        &mut self,
        desk: &mut D,
        count: u16,
        bytes: &[u8],
    ) -> Result<(), Failed>
        requires arrival { IsArrival count bytes.now }
        requires limits { IsWithinLimits self.old (2 ^ 32 - 1) }
        requires ready { AreReady (λ _. true) (D.meaning desk.old) }
        ensures sorts { Sorts self.old self.new (record { count = count; body = bytes.now }) }
        ensures written { Writes D.meaning D.counts desk.old desk.new
            (arrival_bytes self.old (record { count = count; body = bytes.now })) result }
    {
        let t = self.numbers.next(count);
        if !self.sorter.push(t, bytes) {
            self.late += 1;
            return Ok(());
        }
        if !self.sorter.is_over() {
            return Ok(());
        }
        self.judge_least(desk)
    }

    /// Judges the arrival with the least number of those that are held.
    fn judge_least<D: Desk>(&mut self, desk: &mut D) -> Result<(), Failed>
        requires some { 0 < length self.old.sorter.line.held }
        requires few { self.old.judging.restored.packets < 2 ^ 32 }
        requires ready { AreReady (λ _. true) (D.meaning desk.old) }
        ensures line { self.new.sorter.line ≡ given_up self.old.sorter.line }
        ensures judged { AreJudged self.old.judging self.new.judging
            (take 1 self.old.sorter.line.held) }
        ensures others { self.new ≡ record self.old { sorter = self.new.sorter; judging = self.new.judging } }
        ensures written { Writes D.meaning D.counts desk.old desk.new
            (held_bytes self.old.judging (take 1 self.old.sorter.line.held)) result }
    {
        self.sorter.release();
        let count = (self.sorter.out_number() % PERIOD) as u16;
        self.judging.arrive(desk, count, self.sorter.out_bytes())
    }

    /// Judges all that are held, in order.
    fn judge_held<D: Desk>(&mut self, desk: &mut D) -> Result<(), Failed>
        requires few { self.old.judging.restored.packets + length self.old.sorter.line.held ≤ 2 ^ 32 }
        requires ready { AreReady (λ _. true) (D.meaning desk.old) }
        ensures judged { OnOk result (AreJudged self.old.judging self.new.judging
            self.old.sorter.line.held) }
        ensures late { self.new.late ≡ self.old.late }
        ensures written { Writes D.meaning D.counts desk.old desk.new
            (held_bytes self.old.judging self.old.sorter.line.held) result }
    {
        while self.sorter.held() > 0 {
            self.judge_least(desk)?;
        }
        Ok(())
    }

    /// Judges all that are held, and writes the last rows of the report.
    pub(crate) fn end<D: Desk>(&mut self, desk: &mut D) -> Result<LateDone, Failed>
        requires few { self.old.judging.restored.packets + length self.old.sorter.line.held ≤ 2 ^ 32 }
        requires ready { AreReady (λ _. true) (D.meaning desk.old) }
        ensures done { IfOk result (λ done. done ≡ done_of self.old []) }
        ensures written { Writes D.meaning D.counts desk.old desk.new
            (last_bytes self.old []) result }
    {
        self.judge_held(desk)?;
        self.judging.end(desk)?;
        write_all(desk, Outlet::Report, late_row(self.late).as_bytes())?;
        Ok(LateDone {
            restored: *self.judging.restored(),
            late: self.late,
        })
    }
}
