//! What the rows of a schedule and of a script give packets, if there are many rows.

ghost use Rattle.std.specs.Prelude.{◌≡◌, ◌≤◌, IfOk, IfSome, length};
ghost use Rattle.std.specs.Option.{option_map, option_map_or};
ghost use Rattle.side_tables.specs.Ranks.{IsBlock};
ghost use Rattle.side_tables.specs.Rows.{flags_of, robust_of};
ghost use Rattle.side_tables.specs.Columns.{AreColumns, AreFlagRanks, AreLatestRanks, ranked_row};

use crate::claims::{Flag, flag_claims, row_claims};
use crate::lookup::Planned;
use crate::ranks::{MOST_NUMBERS, Ranks};
use crate::rows::{RobustRow, TableRow};
use crate::schedule::Schedule;
use crate::script::Script;
use crate::table::Table;
use bit_vectors::{Flags, NoMemory};
use std::alloc::Global;

/// For each flag whether a row sets it, and the last rows of required robustness.
#[derive(Debug, Drop)]
pub struct Columns {
    pub new_masks: Ranks,
    pub masks: Ranks,
    pub contents: Ranks,
    pub robusts: Ranks,
}

impl Columns {
    /// What the rows of a schedule give.
    pub fn open(alloc: Global, plan: &Schedule) -> Result<Columns, NoMemory>
        ensures { IfOk result (AreColumns plan.now) }
    {
        let numbers = block(plan.flag_rows().len().max(plan.robust_rows().len()));
        Ok(Columns {
            new_masks: flag_ranks(alloc, plan, Flag::NewMask, numbers)?,
            masks: flag_ranks(alloc, plan, Flag::SendMask, numbers)?,
            contents: flag_ranks(alloc, plan, Flag::WholeContent, numbers)?,
            robusts: latest_ranks(alloc, plan.robust_table(), numbers)?,
        })
    }

    /// What the rows give the packet. It takes no memory.
    pub fn at(&mut self, plan: &Schedule, t: u32) -> Planned
        requires { AreColumns plan.now self.old }
        ensures flags { result.flags ≡ flags_of plan.now.flags t }
        ensures robust { result.robust ≡ robust_of plan.now.robust t }
        ensures most { IfSome result.robust (λ robust. robust ≤ 7) }
        ensures same { self.new ≡ self.old }
    {
        let flags = Flags {
            p: 0 < self.new_masks.at(t),
            f: 0 < self.masks.at(t),
            r: 0 < self.contents.at(t),
        };
        let robust = robust_at(plan.robust_table(), self.robusts.at(t));
        Planned { flags, robust }
    }
}

/// For how many packets ranks are found together, if there are so many rows: then each row costs a packet little.
pub fn block(rows: usize) -> usize
    ensures { IsBlock result }
{
    rows.saturating_mul(16).clamp(1, MOST_NUMBERS)
}

/// The required robustness that the row of a rank gives.
fn robust_at(table: &Table<RobustRow>, rank: usize) -> Option<u8>
    requires { rank ≤ length table.now }
    ensures robust { result ≡ option_map (λ row. row.value) (ranked_row table.now rank) }
    ensures most { IfSome result (λ robust. robust ≤ 7) }
{
    let place = rank.checked_sub(1)?;
    Some(table.rows()[place].value)
}

/// The copies that the row of a rank gives, or one if there is none.
pub fn copies_at(script: &Script, rank: usize) -> u8
    requires { rank ≤ length script.now }
    ensures copies { result ≡ option_map_or (λ row. row.copies) (ranked_row script.now rank) 1 }
    ensures most { result ≤ 9 }
{
    match rank.checked_sub(1) {
        None => 1,
        Some(place) => script.rows()[place].copies,
    }
}

/// The ranks by a flag.
fn flag_ranks(alloc: Global, plan: &Schedule, flag: Flag, numbers: usize) -> Result<Ranks, NoMemory>
    requires { IsBlock numbers }
    ensures { IfOk result (λ ranks. AreFlagRanks flag plan.now.flags ranks.claims) }
{
    let claims = flag_claims(alloc, plan, flag)?;
    Ranks::open(alloc, claims, numbers)
}

/// The ranks of the last rows that name the packets.
pub fn latest_ranks<R: TableRow>(
    alloc: Global,
    table: &Table<R>,
    numbers: usize,
) -> Result<Ranks, NoMemory>
    requires { IsBlock numbers }
    ensures { IfOk result (λ ranks. AreLatestRanks R.span_of table.now ranks.claims) }
{
    let claims = row_claims(alloc, table)?;
    Ranks::open(alloc, claims, numbers)
}
