//! What a desk in memory counts.

ghost use Rattle.std.specs.Prelude.{◌≡◌, ◌≤◌};
ghost use Rattle.desk_ports.specs.Meanings.{next_count};

use crate::desk::Failed;

/// How often reading and writing have failed, and how often an allocation was refused.
#[derive(Clone, Copy, Debug)]
pub struct Faults {
    pub reads: u64,
    pub writes: u64,
    pub short: u64,
}

impl Faults {
    /// Nothing failed.
    pub fn none() -> Faults
        ensures { result ≡ record { reads = 0; writes = 0; short = 0 } }
    {
        Faults {
            reads: 0,
            writes: 0,
            short: 0,
        }
    }

    /// Counts a failed reading.
    pub fn read(&mut self) -> Failed
        ensures counted { self.new ≡ record self.old { reads = next_count self.old.reads } }
        ensures rises { self.old.reads ≤ self.new.reads }
    {
        self.reads = self.reads.saturating_add(1);
        Failed
    }

    /// Counts a failed writing.
    pub fn write(&mut self) -> Failed
        ensures counted { self.new ≡ record self.old { writes = next_count self.old.writes } }
        ensures rises { self.old.writes ≤ self.new.writes }
    {
        self.writes = self.writes.saturating_add(1);
        Failed
    }

    /// Counts a writing that failed since an allocation was refused.
    pub fn growth(&mut self) -> Failed
        ensures counted { self.new ≡ record self.old {
          writes = next_count self.old.writes;
          short = next_count self.old.short;
        } }
        ensures writes_rise { self.old.writes ≤ self.new.writes }
        ensures short_rises { self.old.short ≤ self.new.short }
    {
        self.writes = self.writes.saturating_add(1);
        self.short = self.short.saturating_add(1);
        Failed
    }
}
