//! Tables: rows that name packets by their numbers.

ghost use Rattle.std.specs.Prelude.{◌≡◌, ℕ, ◌<◌, ◌≤◌, false, All, IfOk, IfSome};
ghost use Rattle.side_tables.specs.Rows.{last_row, names};

use crate::rows::TableRow;
use bit_vectors::NoMemory;
use std::alloc::Global;
use std::marker::Model;

/// Rows that name packets by their numbers. Contracts see the rows in order.
#[derive(Debug, Drop)]
pub struct Table<R: TableRow> {
    rows: Vec<R>,
}

impl<R: TableRow> Model for Table<R> {
    ghost use Rattle.std.specs.Prelude.{List, All};

    ghost Value = { List R };

    ghost view = { λ t. t.rows.items };

    ghost invariant = { λ t. All R.is_right t.rows.items };
}

/// How many rows are looked at one after another for each packet. If there are more, the ranks of many packets are found
/// together.
pub const FEW: usize = 8;

impl<R: TableRow> Table<R> {
    /// The table with these rows.
    pub fn with_rows(alloc: Global, rows: &[R]) -> Result<Table<R>, NoMemory>
        requires { All R.is_right rows.now }
        ensures { IfOk result (λ table. table ≡ rows.now) }
    {
        let rows = Vec::from_slice(alloc, rows)?;
        Ok(Table::of_rows(rows))
    }

    /// The table that owns these rows.
    pub(crate) fn of_rows(rows: Vec<R>) -> Table<R>
        requires { All R.is_right rows.items }
        ensures { result ≡ rows.items }
    {
        Table { rows }
    }

    /// The rows in order.
    pub fn rows(&self) -> &[R]
        ensures rows { result.now ≡ self.now }
        ensures right { All R.is_right self.now }
    {
        &self.rows
    }

    /// The last row that names the packet. It looks at all rows.
    pub(crate) fn latest(&self, t: u32) -> Option<R>
        ensures row { result ≡ last_row R.span_of self.now t }
        ensures right { IfSome result R.is_right }
    {
        let mut latest = None;
        for row in self.rows() {
            if row.span().names(t) {
                latest = Some(*row);
            }
        }
        latest
    }

    /// A number `result` such that no row names a packet in `t..result`. If there are many rows, it is `t`.
    pub(crate) fn next_named(&self, t: u32) -> u32
        ensures least { t ≤ result }
        ensures none { (n : ℕ) → t ≤ n → n < result
            → All (λ row. names (R.span_of row) n ≡ false) self.now }
    {
        if self.rows.len() > FEW {
            return t;
        }
        let mut next = u32::MAX;
        for row in self.rows() {
            next = match row.span().next(t) {
                Some(named) => next.min(named),
                None => next,
            };
        }
        next
    }
}
