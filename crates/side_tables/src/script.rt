//! Scripts: how many copies of packets arrive.

ghost use Rattle.std.specs.Prelude.{◌≡◌, ℕ, ◌<◌, ◌≤◌, ◌↔◌, length, Err, Some, None, IfOk, OnOk};
ghost use Rattle.side_tables.specs.Grammar.{bad_copy_row, copy_rows_of};
ghost use Rattle.side_tables.specs.Rows.{copies_of};

use crate::fault::SideFault;
use crate::grammar::ScriptText;
use crate::rows::CopyRow;
use crate::table::Table;
use crate::text::read_rows;
use std::alloc::Global;

/// A table of copies by packet number.
///
/// A row of its text is `drop` with first number, last number and step, or `repeat` with these and the number of
/// further copies: plain decimals of 32 bits, the first at most the last, the step 1 or more, and 1 to 8 further copies.
pub type Script = Table<CopyRow>;

impl Table<CopyRow> {
    /// The script that a text describes, at most 1,048,576 bytes: each record of comma-separated values is a row.
    pub fn read(alloc: Global, text: &[u8]) -> Result<Script, SideFault>
        ensures rows { IfOk result (λ script. script ≡ copy_rows_of text.now) }
        ensures within { OnOk result (length text.now ≤ 1048576) }
        ensures right { OnOk result (bad_copy_row text.now ≡ None) }
        ensures too_long { (result ≡ Err SideFault.TooLong) ↔ (1048576 < length text.now) }
        ensures row { (row : ℕ) → result ≡ Err (SideFault.Row row)
            → bad_copy_row text.now ≡ Some row }
    {
        let rows = read_rows(alloc, &ScriptText, text)?;
        Ok(Table::of_rows(rows))
    }

    /// How many copies of the packet arrive, at most 9: what the last row that names it says, or one if none does. It looks
    /// at all rows.
    pub fn times(&self, t: u32) -> u8
        ensures copies { result ≡ copies_of self.now t }
        ensures most { result ≤ 9 }
    {
        match self.latest(t) {
            None => 1,
            Some(row) => row.copies,
        }
    }
}
