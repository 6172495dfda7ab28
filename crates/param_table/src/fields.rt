//! The fields of a recording's packets.

ghost use Rattle.std.specs.Prelude.{◌≡◌, ◌<◌, ◌≤◌, ◌↔◌, ◌++◌, ℕ, length, map, Err, IfOk, OnOk};
ghost use Rattle.std.specs.List.{filter_map};
ghost use Rattle.std.specs.Option.{option_to_list};
ghost use Rattle.param_table.specs.Rows.{bad_text_row, text_columns, AreColumns, column_of, field_of, limit_named, limit_of};
ghost use Rattle.bit_vectors.specs.Vectors.{IsPlaces};

use crate::grammar::FieldText;
use crate::name::Name;
use crate::rows::{Column, FieldRow, Limit, LimitRow, TextRow};
use bit_vectors::NoMemory;
use side_tables::{SideFault, read_rows};
use std::alloc::Global;
use std::marker::Model;

/// The fields of packets, with their limits. Contracts see a column for each, in the order in which the text names them.
///
/// A row of the text is `field`, place, width, kind and name, or `limit`, the name of a field of a row before it, the
/// least and the greatest value. A field lies within the places of a packet, has 1 to 64 bits, and is `s`, signed, or `u`;
/// its name has 1 to 32 ASCII letters, digits or `_`, the first a letter, and no two fields have the same. There are at
/// most 256 fields. A field has one limit at most, two plain decimals from -9,223,372,036,854,775,808 to
/// 18,446,744,073,709,551,615, those below 0 after a minus, the first at most the second.
#[derive(Debug, Drop)]
pub struct Fields {
    columns: Vec<Column>,
}

impl Model for Fields {
    ghost use Rattle.std.specs.Prelude.{List};
    ghost use Rattle.param_table.specs.declared.rows.Column.{Column as ColumnValue};

    ghost Value = { List ColumnValue };

    ghost view = { λ fields. fields.columns.items };
}

impl Fields {
    /// The fields that a text names for packets of `f` places. The text has at most 1,048,576 bytes, and each record of
    /// comma-separated values is a row.
    pub fn read(alloc: Global, text: &[u8], f: u32) -> Result<Fields, SideFault>
        requires valid { IsPlaces f }
        ensures columns { IfOk result (λ fields. fields ≡ text_columns f text.now) }
        ensures fit { IfOk result (AreColumns f) }
        ensures within { OnOk result (length text.now ≤ 1048576) }
        ensures right { OnOk result (bad_text_row f text.now ≡ None) }
        ensures too_long { (result ≡ Err SideFault.TooLong) ↔ (1048576 < length text.now) }
        ensures row { (row : ℕ) → result ≡ Err (SideFault.Row row)
            → bad_text_row f text.now ≡ Some row }
    {
        let rows = read_rows(alloc, &FieldText { places: f }, text)?;
        let kinds = Kinds::of(alloc, rows)?;
        let columns = kinds.columns(alloc)?;
        Ok(Fields { columns })
    }

    /// The columns, in the order in which the text names them.
    pub fn columns(&self) -> &[Column]
        ensures { result.now ≡ self.now }
    {
        &self.columns
    }
}

/// The rows of a text by their kind, each in its order.
#[derive(Debug, Drop)]
struct Kinds {
    fields: Vec<FieldRow>,
    limits: Vec<LimitRow>,
}

impl Kinds {
    /// These rows.
    fn of(alloc: Global, rows: Vec<TextRow>) -> Result<Kinds, NoMemory>
        ensures fields { IfOk result
            (λ kinds. kinds.fields.items ≡ filter_map field_of rows.items) }
        ensures limits { IfOk result
            (λ kinds. kinds.limits.items ≡ filter_map limit_of rows.items) }
    {
        let mut kinds = Kinds {
            fields: Vec::new(alloc),
            limits: Vec::new(alloc),
        };
        for row in rows {
            kinds.put(row)?;
        }
        Ok(kinds)
    }

    /// One row more.
    fn put(&mut self, row: TextRow) -> Result<(), NoMemory>
        ensures fields { OnOk result
            (self.new.fields.items ≡ self.old.fields.items ++ option_to_list (field_of row)) }
        ensures limits { OnOk result
            (self.new.limits.items ≡ self.old.limits.items ++ option_to_list (limit_of row)) }
    {
        match row {
            TextRow::Field(row) => self.fields.push(row)?,
            TextRow::Limit(row) => self.limits.push(row)?,
        }
        Ok(())
    }

    /// A column for each field.
    fn columns(self, alloc: Global) -> Result<Vec<Column>, NoMemory>
        ensures { IfOk result (λ columns.
            columns.items ≡ map (column_of self.limits.items) self.fields.items) }
    {
        let mut columns = Vec::new(alloc);
        for field in self.fields {
            let limit = limit_named(&self.limits, &field.name);
            columns.push(Column { field, limit })?;
        }
        Ok(columns)
    }
}

/// The limit that the first row of this name gives, if there is one.
fn limit_named(limits: &[LimitRow], name: &Name) -> Option<Limit>
    ensures { result ≡ limit_named limits.now name.now }
{
    for row in limits {
        if row.name.is(name) {
            return Some(row.limit);
        }
    }
    None
}
