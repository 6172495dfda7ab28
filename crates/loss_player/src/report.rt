//! The play report, written once the store is played to its end.

ghost use Rattle.std.specs.Prelude.{◌≡◌, ◌+◌, ◌≤◌, ◌++◌, length};
ghost use Rattle.desk_ports.specs.Meanings.{IsReadyOut};
ghost use Rattle.desk_ports.specs.Courses.{to_report};
ghost use Rattle.desk_ports.specs.Turns.{Writes};
ghost use Rattle.loss_player.specs.Report.{first_text, numbers_row, play_report};

use crate::played::Played;
use desk_ports::{Desk, Failed, Outlet, Row, write_all};

/// The report's first line.
const HEADER: &str = "packets,delivered,dropped,repeats,first,widest\n";

/// Writes the report of a played store.
pub fn write_report<D: Desk>(desk: &mut D, played: &Played) -> Result<(), Failed>
    requires { IsReadyOut (D.meaning desk.old) Outlet.Report }
    ensures { Writes D.meaning D.counts desk.old desk.new (to_report (play_report played.now)) result }
{
    write_all(desk, Outlet::Report, HEADER.as_bytes())?;
    write_all(desk, Outlet::Report, numbers_row(played).as_bytes())
}

/// The row of the numbers.
fn numbers_row(played: &Played) -> Row
    ensures { result ≡ numbers_row played.now }
{
    let mut row = Row::new();
    row.put_number(played.packets);
    row.put_text(",");
    row.put_number(played.delivered);
    row.put_text(",");
    row.put_number(played.dropped);
    row.put_text(",");
    row.put_number(played.repeats);
    row.put_text(",");
    put_first(&mut row, played.first);
    row.put_text(",");
    row.put_number(played.widest);
    row.put_text("\n");
    row
}

/// Appends the first delivered number, or a dash if there is none.
fn put_first(row: &mut Row, first: Option<u64>)
    requires { length row.old ≤ 84 }
    ensures text { row.new ≡ row.old ++ first_text first }
    ensures few { length row.new ≤ length row.old + 20 }
{
    match first {
        None => row.put_text("-"),
        Some(t) => row.put_number(t),
    }
}
