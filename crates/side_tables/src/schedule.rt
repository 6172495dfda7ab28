//! Schedules: which flags and which required robustness packets have.

ghost use Rattle.std.specs.Prelude.{◌≡◌, ℕ, ◌<◌, ◌≤◌, ◌||◌, ◌↔◌, [], length, All, Err, Some, None, IfOk, IfSome, OnOk};
ghost use Rattle.side_tables.specs.Grammar.{bad_schedule_row, schedule_rows_of};
ghost use Rattle.side_tables.specs.Rows.{IsFlagRow, IsRobustRow, IsScheduleRow, by_kind, flags_of, GiveNothing, robust_of};

use crate::fault::SideFault;
use crate::grammar::ScheduleText;
use crate::rows::{FlagRow, RobustRow, ScheduleRow, TableRow};
use crate::table::Table;
use crate::text::read_rows;
use bit_vectors::{Flags, NoMemory};
use std::alloc::Global;
use std::marker::Model;

/// Tables of flags and of required robustness by packet number. Contracts see the rows of each in order.
///
/// A row of its text is first number, last number, step and flags, or `robust` with first number, last number, step and
/// the required robustness: plain decimals of 32 bits, the first at most the last and the step 1 or more; one to three
/// of the letters `p`, `f` and `r`, none twice; and a robustness of 0 to 7.
#[derive(Debug, Drop)]
pub struct Schedule {
    flags: Table<FlagRow>,
    robust: Table<RobustRow>,
}

impl Model for Schedule {
    ghost use Rattle.side_tables.specs.Rows.{ScheduleRows};

    ghost Value = { ScheduleRows };

    ghost view = { λ s. record { flags = s.flags; robust = s.robust } };
}

impl Schedule {
    /// The schedule that a text describes, at most 1,048,576 bytes: each record of comma-separated values is a row.
    pub fn read(alloc: Global, text: &[u8]) -> Result<Schedule, SideFault>
        ensures rows { IfOk result (λ schedule. schedule ≡ schedule_rows_of text.now) }
        ensures within { OnOk result (length text.now ≤ 1048576) }
        ensures right { OnOk result (bad_schedule_row text.now ≡ None) }
        ensures too_long { (result ≡ Err SideFault.TooLong) ↔ (1048576 < length text.now) }
        ensures row { (row : ℕ) → result ≡ Err (SideFault.Row row)
            → bad_schedule_row text.now ≡ Some row }
    {
        let rows = read_rows(alloc, &ScheduleText, text)?;
        Ok(Schedule::of_rows(alloc, &rows)?)
    }

    /// The schedule with these rows of flags, which requires no robustness.
    pub fn with_rows(alloc: Global, rows: &[FlagRow]) -> Result<Schedule, NoMemory>
        requires { All IsFlagRow rows.now }
        ensures { IfOk result (λ schedule. schedule ≡ record { flags = rows.now; robust = [] }) }
    {
        Ok(Schedule {
            flags: Table::with_rows(alloc, rows)?,
            robust: Table::with_rows(alloc, &[])?,
        })
    }

    /// The schedule with these rows.
    fn of_rows(alloc: Global, rows: &[ScheduleRow]) -> Result<Schedule, NoMemory>
        requires { All IsScheduleRow rows.now }
        ensures { IfOk result (λ schedule. schedule ≡ by_kind rows.now) }
    {
        let mut flags = Vec::new(alloc);
        let mut robust = Vec::new(alloc);
        for row in rows {
            match row {
                ScheduleRow::Flags(row) => flags.push(*row)?,
                ScheduleRow::Robust(row) => robust.push(*row)?,
            }
        }
        Ok(Schedule {
            flags: Table::of_rows(flags),
            robust: Table::of_rows(robust),
        })
    }

    /// The flags of all flag rows that name the packet, combined. It looks at all rows.
    pub fn flags(&self, t: u32) -> Flags
        ensures { result ≡ flags_of self.now.flags t }
    {
        let mut flags = Flags::default();
        for row in self.flag_rows() {
            if row.span().names(t) {
                flags = joined(flags, row.flags);
            }
        }
        flags
    }

    /// The required robustness of the packet, at most 7: what the last `robust` row that names it says, or none if
    /// no such row does.
    pub fn robust(&self, t: u32) -> Option<u8>
        ensures robust { result ≡ robust_of self.now.robust t }
        ensures most { IfSome result (λ robust. robust ≤ 7) }
    {
        let row = self.robust.latest(t)?;
        Some(row.value)
    }

    /// The flag rows in order.
    pub fn flag_rows(&self) -> &[FlagRow]
        ensures rows { result.now ≡ self.now.flags }
        ensures right { All IsFlagRow self.now.flags }
    {
        self.flags.rows()
    }

    /// The `robust` rows in order.
    pub fn robust_rows(&self) -> &[RobustRow]
        ensures rows { result.now ≡ self.now.robust }
        ensures right { All IsRobustRow self.now.robust }
    {
        self.robust.rows()
    }

    /// The table of the `robust` rows.
    pub(crate) fn robust_table(&self) -> &Table<RobustRow>
        ensures { result.now ≡ self.now.robust }
    {
        &self.robust
    }

    /// A number `result` such that no packet in `t..result` is given anything. If there are many rows, it is `t`.
    pub fn next_named(&self, t: u32) -> u32
        ensures least { t ≤ result }
        ensures nothing { GiveNothing self.now t result }
    {
        let flags = self.flags.next_named(t);
        flags.min(self.robust.next_named(t))
    }
}

/// The flags that are set in at least one of the two.
fn joined(some: Flags, more: Flags) -> Flags
    ensures p { result.p ≡ (some.p || more.p) }
    ensures f { result.f ≡ (some.f || more.f) }
    ensures r { result.r ≡ (some.r || more.r) }
{
    Flags {
        p: some.p || more.p,
        f: some.f || more.f,
        r: some.r || more.r,
    }
}
