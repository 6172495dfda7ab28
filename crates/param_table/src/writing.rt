//! What is written of the packets: a line of the table, and the rows of the values out of their limits.

ghost use Rattle.std.specs.Prelude.{◌≡◌, ◌≤◌, length, is_some, IfOk};
ghost use Rattle.std.specs.Option.{option_to_list};
ghost use Rattle.desk_ports.specs.Meanings.{IsReadyOut};
ghost use Rattle.desk_ports.specs.Turns.{IsReadyRun, Writes};
ghost use Rattle.desk_ports.specs.Courses.{to_report};
ghost use Rattle.param_table.specs.Rows.{AreColumns, IsColumn};
ghost use Rattle.param_table.specs.Texts.{end_row, packet_violations, violation_of, violation_rows};
ghost use Rattle.param_table.specs.Tabling.{headers, packet_texts};

use crate::cells::cell;
use crate::line::Line;
use crate::rows::Column;
use crate::texts::{put_end, put_names, put_values, put_violation};
use bit_vectors::Bits;
use desk_ports::{Desk, Failed, Outlet, write_all};

/// The report's first line.
const HEADER: &str = "t,name,value,low,high\n";

/// Writes the first line of the table, and that of the report.
pub fn write_headers<D: Desk>(
    desk: &mut D,
    line: &mut Line,
    columns: &[Column],
) -> Result<(), Failed>
    requires ready { IsReadyRun (D.meaning desk.old) }
    requires few { length columns.now ≤ 256 }
    ensures { Writes D.meaning D.counts desk.old desk.new (headers columns.now) result }
{
    put_names(line, columns);
    write_all(desk, Outlet::Main, line.as_bytes())?;
    write_all(desk, Outlet::Report, HEADER.as_bytes())
}

/// Writes the line of the packet `t`, and the rows of its values that are out of their limits, and tells how many these are.
pub fn write_packet<D: Desk>(
    desk: &mut D,
    line: &mut Line,
    columns: &[Column],
    packet: &Bits,
    t: u32,
) -> Result<u64, Failed>
    requires ready { IsReadyRun (D.meaning desk.old) }
    requires columns { AreColumns (length packet.now) columns.now }
    ensures written { Writes D.meaning D.counts desk.old desk.new
        (packet_texts columns.now (t, packet.now)) result }
    ensures found { IfOk result
        (λ found. found ≡ length (packet_violations columns.now (t, packet.now))) }
    ensures few { IfOk result (λ found. found ≤ 256) }
{
    put_values(line, columns, packet, t);
    write_all(desk, Outlet::Main, line.as_bytes())?;
    write_violations(desk, line, columns, packet, t)
}

/// Writes the last row: how many packets there are, and how many values are out of their limits.
pub fn write_end<D: Desk>(
    desk: &mut D,
    line: &mut Line,
    packets: u64,
    found: u64,
) -> Result<(), Failed>
    requires { IsReadyOut (D.meaning desk.old) Outlet.Report }
    ensures { Writes D.meaning D.counts desk.old desk.new (to_report (end_row packets found)) result }
{
    put_end(line, packets, found);
    write_all(desk, Outlet::Report, line.as_bytes())
}

/// Writes the rows of the values of the packet `t` that are out of their limits, and tells how many they are.
fn write_violations<D: Desk>(
    desk: &mut D,
    line: &mut Line,
    columns: &[Column],
    packet: &Bits,
    t: u32,
) -> Result<u64, Failed>
    requires report { IsReadyOut (D.meaning desk.old) Outlet.Report }
    requires columns { AreColumns (length packet.now) columns.now }
    ensures written { Writes D.meaning D.counts desk.old desk.new
        (to_report (violation_rows (packet_violations columns.now (t, packet.now)))) result }
    ensures found { IfOk result
        (λ found. found ≡ length (packet_violations columns.now (t, packet.now))) }
    ensures few { IfOk result (λ found. found ≤ 256) }
{
    let mut found = 0;
    for column in columns {
        if write_violation(desk, line, column, packet, t)? {
            found += 1;
        }
    }
    Ok(found)
}

/// Writes the row of a column's value in the packet `t` if it is out of its limit, and tells whether it is.
fn write_violation<D: Desk>(
    desk: &mut D,
    line: &mut Line,
    column: &Column,
    packet: &Bits,
    t: u32,
) -> Result<bool, Failed>
    requires report { IsReadyOut (D.meaning desk.old) Outlet.Report }
    requires column { IsColumn (length packet.now) column.now }
    ensures written { Writes D.meaning D.counts desk.old desk.new
        (to_report (violation_rows (option_to_list (violation_of (t, packet.now) column.now)))) result }
    ensures found { IfOk result
        (λ found. found ≡ is_some (violation_of (t, packet.now) column.now)) }
{
    let Some(limit) = &column.limit else {
        return Ok(false);
    };
    let field = &column.field;
    let value = cell(packet, field.place, field.width, field.signed);
    if !limit.is_outside(value) {
        return Ok(false);
    }
    put_violation(line, t, &field.name, value, limit);
    write_all(desk, Outlet::Report, line.as_bytes())?;
    Ok(true)
}
