//! How many packets were restored.

ghost use Rattle.std.specs.Prelude.{◌≡◌, ◌^◌, ◌<◌, [], IfSome};
ghost use Rattle.ground_chain.specs.Report.{IsRestored, added, restored_by, restored_of};
ghost use Rattle.ground_chain.specs.Reception.{AreLost};

use crate::verdict::{Kind, Verdict};

/// The numbers of a run.
#[derive(Clone, Copy, Debug, PartialEq, Eq)]
pub struct Restored {
    /// The packets of the chosen APID that arrived, repeats too.
    pub packets: u64,
    /// The packets that were written.
    pub written: u64,
    /// The repeats.
    pub repeats: u64,
    /// The packets up to the last arrival that are not written: those that did not arrive, and those that could
    /// not be read.
    pub listed: u64,
}

impl Restored {
    /// The numbers of a run over nothing.
    pub(crate) fn none() -> Restored
        ensures { result ≡ restored_of [] }
    {
        Restored {
            packets: 0,
            written: 0,
            repeats: 0,
            listed: 0,
        }
    }

    /// Counts one more arrival.
    pub(crate) fn count(&mut self, verdict: &Verdict)
        requires few { self.old.packets < 2 ^ 32 }
        requires tally { IsRestored self.old }
        requires lost { IfSome verdict.now.lost AreLost }
        ensures counted { self.new ≡ added self.old (restored_by verdict.now) }
        ensures tally { IsRestored self.new }
    {
        self.packets += 1;
        if let Some(lost) = verdict.lost {
            self.listed += lost.last - lost.first + 1;
        }
        match verdict.kind {
            Kind::Written => self.written += 1,
            Kind::Repeat => self.repeats += 1,
            Kind::Unsynced { .. } | Kind::Gap { .. } | Kind::Refused { .. } => self.listed += 1,
        }
    }
}
