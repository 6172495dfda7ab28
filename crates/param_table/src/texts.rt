//! The lines of the texts.

ghost use Rattle.std.specs.Prelude.{◌≡◌, ◌≤◌, ◌<◌, ◌^◌, length, unsigned_abs};
ghost use Rattle.param_table.specs.Rows.{AreColumns, IsLimit};
ghost use Rattle.param_table.specs.Texts.{end_row, names_line, values_line, violation_row};

use crate::cells::cell;
use crate::line::Line;
use crate::name::Name;
use crate::rows::{Column, Limit};
use bit_vectors::Bits;

/// The first line of the table: the names of the columns.
pub fn put_names(line: &mut Line, columns: &[Column])
    requires { length columns.now ≤ 256 }
    ensures { line.new ≡ names_line columns.now }
{
    line.clear();
    line.put_byte(b'\n');
    for index in (0..columns.len()).rev() {
        line.put_bytes(columns[index].field.name.as_bytes());
        line.put_byte(b',');
    }
    line.put_byte(b't');
}

/// The line of the packet `t`: the values of the columns.
pub fn put_values(line: &mut Line, columns: &[Column], packet: &Bits, t: u32)
    requires { AreColumns (length packet.now) columns.now }
    ensures { line.new ≡ values_line columns.now (t, packet.now) }
{
    line.clear();
    line.put_byte(b'\n');
    for index in (0..columns.len()).rev() {
        let field = &columns[index].field;
        line.put_signed(cell(packet, field.place, field.width, field.signed));
        line.put_byte(b',');
    }
    line.put_number(u64::from(t));
}

/// The row of a value of the packet `t` that is out of its limit.
pub fn put_violation(line: &mut Line, t: u32, name: &Name, value: i128, limit: &Limit)
    requires value { unsigned_abs value < 2 ^ 64 }
    requires limit { IsLimit limit.now }
    ensures { line.new ≡ violation_row (record
        { packet = t; name = name.now; value = value; limit = limit.now }) }
{
    line.clear();
    line.put_byte(b'\n');
    line.put_signed(limit.high);
    line.put_byte(b',');
    line.put_signed(limit.low);
    line.put_byte(b',');
    line.put_signed(value);
    line.put_byte(b',');
    line.put_bytes(name.as_bytes());
    line.put_byte(b',');
    line.put_number(u64::from(t));
}

/// The last row of the report: how many packets there are, and how many values are out of their limits.
pub fn put_end(line: &mut Line, packets: u64, found: u64)
    ensures { line.new ≡ end_row packets found }
{
    line.clear();
    line.put_byte(b'\n');
    line.put_number(found);
    line.put_byte(b',');
    line.put_number(packets);
    line.put_bytes(b"end,");
}
