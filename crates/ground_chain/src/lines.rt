//! The lines of the listing except for their vectors, each put together before it is written.

ghost use Rattle.std.specs.Prelude.{◌≡◌, ◌+◌, ◌≤◌, ◌++◌, [], Some, length};
ghost use Rattle.ground_chain.specs.Listing.{end_line, front_line, lost_line, own_front, line_with};

use crate::restored::Restored;
use crate::verdict::{Kind, Lost, Verdict};
use bit_vectors::BitFault;
use desk_ports::{ROW_BYTES, Row};

/// The line of the numbers lost before the arrival, and its own line up to the vectors, if it has some.
pub fn front_of(verdict: &Verdict, level: u8) -> Row
    ensures { result ≡ front_line verdict.now level }
{
    let mut row = Row::new();
    if let Some(lost) = &verdict.lost {
        put_lost(&mut row, lost);
    }
    put_own(&mut row, verdict.t, &verdict.kind, level);
    row
}

/// Puts the line of numbers that did not arrive.
fn put_lost(row: &mut Row, lost: &Lost)
    requires { row.old ≡ [] }
    ensures text { row.new ≡ lost_line (Some lost.now) }
    ensures few { length row.new ≤ 47 }
{
    row.put_number(lost.first);
    row.put_text("-");
    row.put_number(lost.last);
    row.put_text(" lost\n");
}

/// Appends the line of an arrival up to its vectors.
fn put_own(row: &mut Row, t: u64, kind: &Kind, level: u8)
    requires { length row.old ≤ 47 }
    ensures { row.new ≡ row.old ++ own_front t kind.now level }
{
    row.put_number(t);
    match kind {
        Kind::Written => put_value(row, " written ", u64::from(level), " "),
        Kind::Repeat => row.put_text(" repeat\n"),
        Kind::Unsynced { mask: false } => row.put_text(" unsynced\n"),
        Kind::Unsynced { mask: true } => row.put_text(" unsynced mask "),
        Kind::Gap { level, mask: false } => put_value(row, " gap ", u64::from(*level), "\n"),
        Kind::Gap { level, mask: true } => put_value(row, " gap ", u64::from(*level), " mask "),
        Kind::Refused {
            fault: BitFault::Wrong { bit },
        } => put_value(row, " wrong ", u64::from(*bit), "\n"),
        Kind::Refused {
            fault: BitFault::EndsEarly { bit },
        } => put_value(row, " early ", u64::from(*bit), "\n"),
    }
}

/// Appends a word, a number, and what stands after it.
fn put_value(row: &mut Row, word: &str, value: u64, after: &str)
    requires { length row.old + length word.now + 20 + length after.now ≤ ROW_BYTES }
    ensures { row.new ≡ row.old ++ line_with word.now value after.now }
{
    row.put_text(word);
    row.put_number(value);
    row.put_text(after);
}

/// The listing's last line.
pub fn end_line(restored: &Restored) -> Row
    ensures { result ≡ end_line restored.now }
{
    let mut row = Row::new();
    row.put_text("end ");
    row.put_number(restored.packets);
    row.put_text(" ");
    row.put_number(restored.written);
    row.put_text(" ");
    row.put_number(restored.repeats);
    row.put_text("\n");
    row
}
