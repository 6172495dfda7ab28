//! The rows of the report, each put together before it is written.

ghost use Rattle.std.specs.Prelude.{◌≡◌, ◌+◌, ◌≤◌, ◌++◌, [], length, Some};
ghost use Rattle.ground_chain.specs.Report.{end_row, lost_row, own_row, number_row, verdict_rows};

use crate::restored::Restored;
use crate::verdict::{Kind, Lost, Verdict};
use bit_vectors::BitFault;
use desk_ports::{ROW_BYTES, Row};

/// The report's first line.
pub const HEADER: &str = "first,last,cause,value\n";

/// The rows of a verdict: the numbers lost before the arrival, and the arrival itself if it is not written.
pub fn rows_of(verdict: &Verdict) -> Row
    ensures { result ≡ verdict_rows verdict.now }
{
    let mut row = Row::new();
    if let Some(lost) = &verdict.lost {
        put_lost(&mut row, lost);
    }
    put_own(&mut row, verdict.t, &verdict.kind);
    row
}

/// Puts the row of numbers that did not arrive.
fn put_lost(row: &mut Row, lost: &Lost)
    requires { row.old ≡ [] }
    ensures text { row.new ≡ lost_row (Some lost.now) }
    ensures few { length row.new ≤ 49 }
{
    row.put_number(lost.first);
    row.put_text(",");
    row.put_number(lost.last);
    row.put_text(",lost,0\n");
}

/// Appends the row of an arrival that is not written, and nothing for any other.
fn put_own(row: &mut Row, t: u64, kind: &Kind)
    requires { length row.old ≤ 49 }
    ensures { row.new ≡ row.old ++ own_row t kind.now }
{
    match kind {
        Kind::Written | Kind::Repeat => {}
        Kind::Unsynced { .. } => put_row(row, t, "unsynced", 0),
        Kind::Gap { level, .. } => put_row(row, t, "gap", u64::from(*level)),
        Kind::Refused {
            fault: BitFault::Wrong { bit },
        } => put_row(row, t, "wrong", u64::from(*bit)),
        Kind::Refused {
            fault: BitFault::EndsEarly { bit },
        } => put_row(row, t, "early", u64::from(*bit)),
    }
}

/// Appends a row of one number.
fn put_row(row: &mut Row, t: u64, cause: &str, value: u64)
    requires { length row.old + length cause.now + 64 ≤ ROW_BYTES }
    ensures { row.new ≡ row.old ++ number_row t cause.now value }
{
    row.put_number(t);
    row.put_text(",");
    row.put_number(t);
    row.put_text(",");
    row.put_text(cause);
    row.put_text(",");
    row.put_number(value);
    row.put_text("\n");
}

/// The report's last row.
pub fn end_row(restored: &Restored) -> Row
    ensures { result ≡ end_row restored.now }
{
    let mut row = Row::new();
    row.put_text("end,");
    row.put_number(restored.packets);
    row.put_text(",");
    row.put_number(restored.written);
    row.put_text(",");
    row.put_number(restored.repeats);
    row.put_text("\n");
    row
}
