//! The command `multi`: from a store of several streams to a store of their restored packets and one report.

ghost use Rattle.std.specs.Prelude.{◌≡◌, ◌<◌, ℕ, All, Err, List, Some, IfOk, OnOk};
ghost use Rattle.desk_ports.specs.Meanings.{left};
ghost use Rattle.desk_ports.specs.Turns.{IsReadyRun};
ghost use Rattle.desk_ports.specs.Courses.{AfterRun, HasCause, by_stop};
ghost use Rattle.packet_store.specs.StoreReader.{stop_by};
ghost use Rattle.multi_ground.specs.Apart.{AreRestored};
ghost use Rattle.multi_ground.specs.MultiOutputs.{multi_work};

use crate::receiving::MultiReceiving;
use crate::writing::write_header;
use bit_vectors::NoMemory;
use desk_ports::{Desk, Inlet, drive};
use ground_chain::RestoreFault;
use packet_store::StoreFault;
use side_tables::Streams;
use std::alloc::Global;
use std::marker::Model;

/// Restores the streams of a store: reads it from the main inlet of a desk, and writes each restored packet as a Space
/// Packet to the main outlet, and one report. Contracts see the streams.
#[derive(Debug, Drop)]
pub struct MultiRestorer {
    receiving: MultiReceiving,
}

impl Model for MultiRestorer {
    ghost use Rattle.std.specs.Prelude.{List};
    ghost use Rattle.side_tables.specs.declared.rows.StreamRow.{StreamRow};
    ghost use Rattle.multi_ground.specs.Receiving.{IsUnread};

    ghost Value = { List StreamRow };

    ghost view = { λ r. r.receiving.streams };

    ghost invariant = { λ r. IsUnread r.receiving };
}

impl MultiRestorer {
    /// A restorer of these streams. It takes all memory of the run.
    pub fn open(alloc: Global, streams: Streams) -> Result<MultiRestorer, NoMemory>
        ensures { IfOk result (λ restorer. restorer ≡ streams) }
    {
        let receiving = MultiReceiving::open(alloc, streams)?;
        Ok(MultiRestorer { receiving })
    }

    /// Restores the streams of the store, and tells how many packets were written. It takes no memory.
    pub fn restore<D: Desk>(self, desk: &mut D) -> Result<u64, RestoreFault>
        requires { IsReadyRun (D.meaning desk.old) }
        // What stands after each answer is what the store owes, in its order, all of it or up to where its walk or the desk
        // ends it.
        ensures ran { AfterRun (multi_work self) (D.meaning desk.old) (D.meaning desk.new)
            (by_stop stop_by result) }
        ensures cause { HasCause (D.counts desk.old) (D.counts desk.new) (by_stop stop_by result) }
        // No stream sees another: what is added is a store of Space Packets again, whose contents on each APID are those of
        // the run over its own arrivals, and a report whose lines on each APID are the rows of that run.
        ensures apart { (store : List ℕ) → All (λ b. b < 256) store
            → left (D.meaning desk.old) Inlet.Main ≡ Some store
            → OnOk result (AreRestored self store (D.meaning desk.old) (D.meaning desk.new)) }
        // A packet of another shape is no fault.
        ensures shape { (byte : ℕ) → result ≡ Err (RestoreFault.Store (StoreFault.Shape byte)) → ⊥ }
    {
        let mut receiving = self.receiving;
        write_header(desk)?;
        drive(&mut receiving, desk)
    }
}
