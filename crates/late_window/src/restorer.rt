//! The command `late`: from a store whose packets may come late to the restored packets and the report.

ghost use Rattle.std.specs.Prelude.{◌≡◌, ◌≤◌, ℕ, List, [], None, Some, IsOk, IfOk};
ghost use Rattle.desk_ports.specs.Meanings.{Rose, left};
ghost use Rattle.desk_ports.specs.Turns.{IsOwed, IsReadyRun, Steps};
ghost use Rattle.desk_ports.specs.Courses.{AfterRun, HasCause, Work, by_stop, to_report};
ghost use Rattle.mask_update.specs.Histories.{History};
ghost use Rattle.packet_store.specs.Walks.{walk};
ghost use Rattle.packet_store.specs.StoreReader.{stop_by};
ghost use Rattle.packet_store.specs.declared.fault.WalkFault.{WalkFault};
ghost use Rattle.ground_chain.specs.Report.{header_row};
ghost use Rattle.late_window.specs.Restoring.{Owes, late_work};
ghost use Rattle.late_window.specs.declared.done.LateDone.{LateDone};
ghost use Rattle.late_window.specs.Deliveries.{IsLateDelivered, IsLatePlayed};
ghost use Rattle.flight_chain.specs.Compressing.{IsStream};

use crate::done::LateDone;
use crate::run::LateRun;
use bit_vectors::NoMemory;
use desk_ports::{Desk, Inlet, Outlet, drive, write_all};
use ground_chain::{HEADER, RestoreFault};
use std::alloc::Global;
use std::marker::Model;

/// Restores a store whose packets may come late: reads it from the main inlet of a desk, puts the arrivals in order within
/// the window, and writes the content of each restored packet to the main outlet, and the report. Contracts see the places
/// of the vectors, the chosen APID and the window.
#[derive(Debug, Drop)]
pub struct LateRestorer {
    run: LateRun,
}

impl Model for LateRestorer {
    ghost use Rattle.late_window.specs.Restoring.{IsUnread, LateState, late_state};

    ghost Value = { LateState };

    ghost view = { λ r. late_state r.run };

    ghost invariant = { λ r. IsUnread r.run };
}

impl LateRestorer {
    /// A restorer of packets of a chosen APID, which is not the idle one, with vectors of `f` places, that come late by up to
    /// `window` packets, at most 64. It takes all memory of the run.
    pub fn open(alloc: Global, f: u32, apid: u16, window: u8) -> Result<LateRestorer, NoMemory>
        requires stream { IsStream f apid }
        requires window { window ≤ 64 }
        ensures { IfOk result
            (λ restorer. restorer ≡ record { places = f; apid = apid; window = window }) }
    {
        let run = LateRun::open(alloc, f, apid, window)?;
        Ok(LateRestorer { run })
    }

    /// Restores the store, and tells the numbers of its run. It takes no memory.
    pub fn restore<D: Desk>(self, desk: &mut D) -> Result<LateDone, RestoreFault>
        requires { IsReadyRun (D.meaning desk.old) }
        // What stands after each answer is what the store owes, in its order, all of it or up to where its walk or the desk
        // ends it; the numbers are those of the run over the same store, whatever the desk tells.
        ensures ran { AfterRun (late_work self.places self.apid self.window) (D.meaning desk.old)
            (D.meaning desk.new) (by_stop stop_by result) }
        ensures cause { HasCause (D.counts desk.old) (D.counts desk.new) (by_stop stop_by result) }
        // Packets of a history that come late by no more than the window: each up to the greatest number that arrives is
        // written exactly as it was, or listed.
        ensures headline { (h : History) (copies : ℕ → ℕ)
            → IsLatePlayed self.places self.apid self.window h copies (D.meaning desk.old)
            → IfOk result (λ done. IsLateDelivered h copies done (D.meaning desk.old)
            (D.meaning desk.new)) }
        // Over a desk that doesn't fail the run of a whole store is done.
        ensures complete { (store : List ℕ) → left (D.meaning desk.old) Inlet.Main ≡ Some store
            → (walk (Some self.apid) store).ending ≡ None
            → ¬ Rose (D.counts desk.old).reads (D.counts desk.new).reads
            → ¬ Rose (D.counts desk.old).writes (D.counts desk.new).writes
            → IsOk result }
    {
        let mut run = self.run;
        run_after_header(&mut run, desk)
    }
}

/// Writes the report's header, and then makes the run.
fn run_after_header<D: Desk>(run: &mut LateRun, desk: &mut D) -> Result<LateDone, RestoreFault>
    requires owed { IsOwed (Owes run.old) }
    requires ready { IsReadyRun (D.meaning desk.old) }
    ensures ran { (work rest : Work LateDone WalkFault) → Owes run.old rest
        → Steps work rest [] (to_report header_row)
        → AfterRun work (D.meaning desk.old) (D.meaning desk.new) (by_stop stop_by result) }
    ensures cause { HasCause (D.counts desk.old) (D.counts desk.new) (by_stop stop_by result) }
{
    write_all(desk, Outlet::Report, HEADER.as_bytes())?;
    drive(run, desk)
}
