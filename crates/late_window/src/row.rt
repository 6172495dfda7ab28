//! The last row of the report.

ghost use Rattle.std.specs.Prelude.{◌≡◌};
ghost use Rattle.late_window.specs.Order.{late_row};

use desk_ports::Row;

/// The row of the arrivals that came too late.
pub fn late_row(late: u64) -> Row
    ensures { result ≡ late_row late }
{
    let mut row = Row::new();
    row.put_text("late,");
    row.put_number(late);
    row.put_text("\n");
    row
}
