//! A schedule and a script that are asked about one packet after another.

ghost use Rattle.std.specs.Prelude.{◌≡◌, ◌≤◌, IfOk, IfSome};
ghost use Rattle.side_tables.specs.Rows.{copies_of, flags_of, robust_of};

use crate::columns::{Columns, block, copies_at, latest_ranks};
use crate::ranks::Ranks;
use crate::schedule::Schedule;
use crate::script::Script;
use crate::table::FEW;
use bit_vectors::{Flags, NoMemory};
use std::alloc::Global;
use std::marker::Model;

/// What a schedule gives a packet.
#[derive(Clone, Copy, Debug, PartialEq, Eq)]
pub struct Planned {
    /// The flags of all flag rows that name it, combined.
    pub flags: Flags,
    /// The required robustness, if a row gives it one.
    pub robust: Option<u8>,
}

/// A schedule that is asked about one packet after another. Contracts see the rows.
///
/// Of few rows it keeps numbers of packets that they give nothing, which are answered without looking at the rows. Of many
/// it finds what they give some packets together.
#[derive(Debug, Drop)]
pub struct Lookup {
    schedule: Schedule,
    idle_from: u32,
    idle_until: u32,
    columns: Option<Columns>,
}

impl Model for Lookup {
    ghost use Rattle.side_tables.specs.Rows.{ScheduleRows};
    ghost use Rattle.side_tables.specs.Columns.{IsLookup};

    ghost Value = { ScheduleRows };

    ghost view = { λ l. l.schedule };

    ghost invariant = { λ l. IsLookup l.schedule l.idle_from l.idle_until l.columns };
}

impl Lookup {
    /// A lookup of this schedule. Takes all memory that `at` needs.
    pub fn open(alloc: Global, schedule: Schedule) -> Result<Lookup, NoMemory>
        ensures { IfOk result (λ lookup. lookup ≡ schedule) }
    {
        let rows = schedule.flag_rows().len().max(schedule.robust_rows().len());
        let columns = if rows <= FEW {
            None
        } else {
            Some(Columns::open(alloc, &schedule)?)
        };
        Ok(Lookup {
            schedule,
            idle_from: 0,
            idle_until: 0,
            columns,
        })
    }

    /// What the schedule gives a packet. It takes no memory, and little time if the packets come in order.
    #[inline]
    pub fn at(&mut self, t: u32) -> Planned
        ensures flags { result.flags ≡ flags_of self.old.flags t }
        ensures robust { result.robust ≡ robust_of self.old.robust t }
        ensures most { IfSome result.robust (λ robust. robust ≤ 7) }
        ensures same { self.new ≡ self.old }
    {
        if self.idle_from <= t && t < self.idle_until {
            return Planned {
                flags: Flags::default(),
                robust: None,
            };
        }
        self.look_up(t)
    }

    /// What the rows give a packet, and of few rows from there on up to which number nothing.
    #[cold]
    fn look_up(&mut self, t: u32) -> Planned
        ensures flags { result.flags ≡ flags_of self.old.flags t }
        ensures robust { result.robust ≡ robust_of self.old.robust t }
        ensures most { IfSome result.robust (λ robust. robust ≤ 7) }
        ensures same { self.new ≡ self.old }
    {
        if let Some(columns) = &mut self.columns {
            return columns.at(&self.schedule, t);
        }
        self.idle_until = self.schedule.next_named(t);
        self.idle_from = t;
        Planned {
            flags: self.schedule.flags(t),
            robust: self.schedule.robust(t),
        }
    }
}

/// A script that is asked about one packet after another. Contracts see the rows.
#[derive(Debug, Drop)]
pub struct CopyLookup {
    script: Script,
    ranks: Option<Ranks>,
}

impl Model for CopyLookup {
    ghost use Rattle.std.specs.Prelude.{List};
    ghost use Rattle.side_tables.specs.declared.rows.CopyRow.{CopyRow};
    ghost use Rattle.side_tables.specs.Columns.{IsCopyLookup};

    ghost Value = { List CopyRow };

    ghost view = { λ l. l.script };

    ghost invariant = { λ l. IsCopyLookup l.script l.ranks };
}

impl CopyLookup {
    /// A lookup of this script. Takes all memory that `at` needs.
    pub fn open(alloc: Global, script: Script) -> Result<CopyLookup, NoMemory>
        ensures { IfOk result (λ lookup. lookup ≡ script) }
    {
        let rows = script.rows().len();
        let ranks = if rows <= FEW {
            None
        } else {
            Some(latest_ranks(alloc, &script, block(rows))?)
        };
        Ok(CopyLookup { script, ranks })
    }

    /// How many copies of the packet arrive, at most 9: what the last row that names it says, or one if none does. It takes
    /// no memory, and little time if the packets come in order.
    pub fn at(&mut self, t: u32) -> u8
        ensures copies { result ≡ copies_of self.old t }
        ensures most { result ≤ 9 }
        ensures same { self.new ≡ self.old }
    {
        match &mut self.ranks {
            None => self.script.times(t),
            Some(ranks) => copies_at(&self.script, ranks.at(t)),
        }
    }
}
