//! The command `show`: from a store to the listing of its arrivals.

ghost use Rattle.std.specs.Prelude.{◌≡◌, ◌≤◌, ◌^◌, ℕ, length, IsOk, IfOk};
ghost use Rattle.desk_ports.specs.Meanings.{Rose};
ghost use Rattle.desk_ports.specs.Turns.{AreReady};
ghost use Rattle.desk_ports.specs.Courses.{AfterRun, HasCause, by_stop};
ghost use Rattle.mask_update.specs.Histories.{History};
ghost use Rattle.packet_encode.specs.Deliveries.{arrivals};
ghost use Rattle.ground_chain.specs.Deliveries.{IsPlayed};
ghost use Rattle.ground_chain.specs.Listing.{listing_work};
ghost use Rattle.packet_store.specs.StoreReader.{stop_by};
ghost use Rattle.flight_chain.specs.Compressing.{is_main, IsStream};

use crate::RestoreFault;
use crate::listing::Listing;
use crate::receiving::Receiving;
use crate::restored::Restored;
use bit_vectors::NoMemory;
use desk_ports::{Desk, drive};
use std::alloc::Global;
use std::marker::Model;

/// Lists a store: reads it from the main inlet of a desk, and writes a line for each arrival to the main outlet.
/// Contracts see the places of the vectors and the chosen APID.
#[derive(Debug, Drop)]
pub struct Lister {
    receiving: Receiving<Listing>,
}

impl Model for Lister {
    ghost use Rattle.ground_chain.specs.Restoring.{RestorerState};
    ghost use Rattle.ground_chain.specs.Receiving.{IsUnread, receiving_state};

    ghost Value = { RestorerState };

    ghost view = { λ l. receiving_state l.receiving };

    ghost invariant = { λ l. IsUnread l.receiving };
}

impl Lister {
    /// A lister of packets of a chosen APID, which is not the idle one, with vectors of `f` places. It takes all memory
    /// of the run.
    pub fn open(alloc: Global, f: u32, apid: u16) -> Result<Lister, NoMemory>
        requires { IsStream f apid }
        ensures { IfOk result (λ lister. lister ≡ record { places = f; apid = apid }) }
    {
        let account = Listing::open(alloc, f)?;
        let receiving = Receiving::open(alloc, f, apid, account)?;
        Ok(Lister { receiving })
    }

    /// Lists the store, and tells the numbers of its run. It takes no memory.
    pub fn list<D: Desk>(self, desk: &mut D) -> Result<Restored, RestoreFault>
        requires { AreReady is_main (D.meaning desk.old) }
        // What stands after each answer is what the store owes, all of it or up to where its walk or the desk ends it; the
        // numbers are those of the run over the same store, whatever the desk tells.
        ensures ran { AfterRun (listing_work self.places self.apid) (D.meaning desk.old)
            (D.meaning desk.new) (by_stop stop_by result) }
        ensures cause { HasCause (D.counts desk.old) (D.counts desk.new) (by_stop stop_by result) }
        // Over a desk that doesn't fail the run of the played store of a valid history is done, with gaps that are shorter than
        // the period of the sequence counts, if it has no more packets than a store may have.
        ensures complete { (h : History) (copies : ℕ → ℕ)
            → IsPlayed self.places self.apid h copies (D.meaning desk.old)
            → length (arrivals copies (length h.steps)) ≤ 2 ^ 32
            → ¬ Rose (D.counts desk.old).reads (D.counts desk.new).reads
            → ¬ Rose (D.counts desk.old).writes (D.counts desk.new).writes
            → IsOk result }
    {
        let mut receiving = self.receiving;
        drive(&mut receiving, desk)
    }
}
