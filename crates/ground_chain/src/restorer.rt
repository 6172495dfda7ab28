//! The command `restore`: from a store to the restored packets and the report.

ghost use Rattle.std.specs.Prelude.{◌≡◌, ◌≤◌, ◌^◌, ℕ, length, IsOk, IfOk};
ghost use Rattle.desk_ports.specs.Meanings.{Rose};
ghost use Rattle.desk_ports.specs.Turns.{IsReadyRun};
ghost use Rattle.desk_ports.specs.Courses.{AfterRun, HasCause, by_stop};
ghost use Rattle.mask_update.specs.Histories.{History};
ghost use Rattle.packet_encode.specs.Deliveries.{arrivals};
ghost use Rattle.ground_chain.specs.Deliveries.{IsDelivered, IsPlayed};
ghost use Rattle.packet_store.specs.StoreReader.{stop_by};
ghost use Rattle.ground_chain.specs.Receiving.{IsUnread, receiving_state};
ghost use Rattle.ground_chain.specs.Restoring.{restore_work};
ghost use Rattle.flight_chain.specs.Compressing.{IsStream};

use crate::RestoreFault;
use crate::receiving::Receiving;
use crate::report::HEADER;
use crate::reporting::Reporting;
use crate::restored::Restored;
use bit_vectors::NoMemory;
use desk_ports::{Desk, Outlet, drive, write_all};
use std::alloc::Global;
use std::marker::Model;

/// Restores a store: reads it from the main inlet of a desk, and writes the content of each restored packet to the
/// main outlet, and the report. Contracts see the places of the vectors and the chosen APID.
#[derive(Debug, Drop)]
pub struct Restorer {
    receiving: Receiving<Reporting>,
}

impl Model for Restorer {
    ghost use Rattle.ground_chain.specs.Restoring.{RestorerState};
    ghost use Rattle.ground_chain.specs.Receiving.{IsUnread, receiving_state};

    ghost Value = { RestorerState };

    ghost view = { λ r. receiving_state r.receiving };

    ghost invariant = { λ r. IsUnread r.receiving };
}

impl Restorer {
    /// A restorer of packets of a chosen APID, which is not the idle one, with vectors of `f` places. It takes all
    /// memory of the run.
    pub fn open(alloc: Global, f: u32, apid: u16) -> Result<Restorer, NoMemory>
        requires { IsStream f apid }
        ensures { IfOk result (λ restorer. restorer ≡ record { places = f; apid = apid }) }
    {
        let account = Reporting::open(alloc, f)?;
        let receiving = Receiving::open(alloc, f, apid, account)?;
        Ok(Restorer { receiving })
    }

    /// Restores the store, and tells the numbers of its run. It takes no memory.
    pub fn restore<D: Desk>(self, desk: &mut D) -> Result<Restored, RestoreFault>
        requires { IsReadyRun (D.meaning desk.old) }
        // What stands after each answer is what the store owes, in its order, all of it or up to where its walk or the desk
        // ends it; the numbers are those of the run over the same store, whatever the desk tells.
        ensures ran { AfterRun (restore_work self.places self.apid) (D.meaning desk.old)
            (D.meaning desk.new) (by_stop stop_by result) }
        ensures cause { HasCause (D.counts desk.old) (D.counts desk.new) (by_stop stop_by result) }
        // Whatever was lost or repeated, with gaps that are shorter than the period of the sequence counts: each packet up to
        // the last arrival is written exactly as it was, or listed.
        ensures headline { (h : History) (copies : ℕ → ℕ)
            → IsPlayed self.places self.apid h copies (D.meaning desk.old)
            → IfOk result (λ restored. IsDelivered h copies restored (D.meaning desk.old)
            (D.meaning desk.new)) }
        // Over a desk that doesn't fail the run of such a store is done, if it has no more packets than a store may have.
        ensures complete { (h : History) (copies : ℕ → ℕ)
            → IsPlayed self.places self.apid h copies (D.meaning desk.old)
            → length (arrivals copies (length h.steps)) ≤ 2 ^ 32
            → ¬ Rose (D.counts desk.old).reads (D.counts desk.new).reads
            → ¬ Rose (D.counts desk.old).writes (D.counts desk.new).writes
            → IsOk result }
    {
        let Restorer { mut receiving } = self;
        run(&mut receiving, desk)
    }
}

/// Writes the report's first line, and drives a run that has read nothing.
fn run<D: Desk>(
    receiving: &mut Receiving<Reporting>,
    desk: &mut D,
) -> Result<Restored, RestoreFault>
    requires unread { IsUnread receiving.old }
    requires ready { IsReadyRun (D.meaning desk.old) }
    ensures ran { AfterRun
        (restore_work (receiving_state receiving.old).places (receiving_state receiving.old).apid)
        (D.meaning desk.old) (D.meaning desk.new) (by_stop stop_by result) }
    ensures cause { HasCause (D.counts desk.old) (D.counts desk.new) (by_stop stop_by result) }
{
    write_all(desk, Outlet::Report, HEADER.as_bytes())?;
    drive(receiving, desk)
}
