//! An account of a run over arrivals: what is written of each, and at the end.

ghost use Rattle.std.specs.Prelude.{◌≡◌, ℕ, Bool};
ghost use Rattle.desk_ports.specs.declared.desk.Outlet.{Outlet};
ghost use Rattle.desk_ports.specs.Meanings.{HasWriteCause};
ghost use Rattle.desk_ports.specs.Turns.{AreReady, Writes};
ghost use Rattle.ground_chain.specs.Report.{Texts};
ghost use Rattle.ground_chain.specs.Reception.{AgreesWith};
ghost use Rattle.ground_chain.specs.Run.{Judged};

use crate::restored::Restored;
use crate::verdict::Verdict;
use desk_ports::{Desk, Failed};
use packet_decode::Decoder;

/// What is written of a run over arrivals.
///
/// `texts` is what is written of each judged arrival, and finally of the numbers of the run, `writes` the outlets that are
/// written, and `has_room` that there is room for vectors of so many places.
pub trait Account: Drop {
    ghost texts: { Texts };

    ghost writes: { Outlet → Bool };

    ghost has_room: { Self → ℕ → Type 0 };

    /// Writes what there is to write of an arrival, under the decoder as it stands after it.
    fn write<D: Desk>(
        &mut self,
        desk: &mut D,
        verdict: &Verdict,
        decoder: &Decoder,
    ) -> Result<(), Failed>
        requires room { has_room self.old decoder.now.places }
        requires ready { AreReady writes (D.meaning desk.old) }
        ensures written { (judged : Judged) → judged.verdict ≡ verdict.now → AgreesWith decoder.now judged
            → Writes D.meaning D.counts desk.old desk.new (texts.parts judged) result }
        ensures room { has_room self.new decoder.now.places }
        ensures cause { HasWriteCause (D.counts desk.old) (D.counts desk.new) result };

    /// Writes the last part.
    fn end<D: Desk>(&self, desk: &mut D, restored: &Restored) -> Result<(), Failed>
        requires ready { AreReady writes (D.meaning desk.old) }
        ensures { Writes D.meaning D.counts desk.old desk.new (texts.last restored.now) result };
}
