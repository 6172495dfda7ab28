//! Which records are rows.

ghost use Rattle.std.specs.Prelude.{◌≡◌, count_by, IfOk};
ghost use Rattle.std.specs.Result.{result_ok};
ghost use Rattle.std.specs.List.{list_any};
ghost use Rattle.csv.specs.Records.{fields_of};
ghost use Rattle.param_table.specs.Rows.{IsFieldRow, IsLimitRow, IsTextRow, is_field, names_field, names_limit, field_row_of, is_signed_kind, limit_row_of, text_row_of};

use crate::name::Name;
use crate::rows::{FieldRow, Limit, LimitRow, TextRow};
use csv::ByteRecord;
use side_tables::{RowFault, RowGrammar, number, signed_number};

const ROW: &str = "a row of fields is field,place,width,kind,name or limit,name,low,high";

const PLACE: &str = "the place is no number below bits in plain digits";

const WIDTH: &str =
    "the width is no number from 1 to 64 in plain digits, or the field reaches past the last bit";

const NAME: &str = "the name is not 1 to 32 letters, digits or _, the first a letter";

const UNNAMED: &str = "no earlier row has a field of this name, or it has a limit already";

const LOW: &str = "the low limit is no number from -9223372036854775808 to 18446744073709551615";

const HIGH: &str = "the high limit is no number from -9223372036854775808 to 18446744073709551615";

/// The most rows that name a field.
const MOST_FIELDS: usize = 256;

/// The rows of a side text for vectors of the given number of places.
#[derive(Clone, Copy)]
pub struct FieldText {
    pub places: u32,
}

impl RowGrammar for FieldText {
    type Row = TextRow;

    ghost row_after = { λ text. text_row_of text.places };

    ghost is_right = { λ text. IsTextRow text.places };

    fn row(&self, before: &[TextRow], fields: &ByteRecord) -> Result<TextRow, RowFault> {
        match fields.get(0).ok_or(RowFault(ROW))? {
            b"field" => Ok(TextRow::Field(field_row(before, fields, self.places)?)),
            b"limit" => Ok(TextRow::Limit(limit_row(before, fields)?)),
            _ => Err(RowFault(ROW)),
        }
    }
}

/// The field that a record names after these rows.
fn field_row(before: &[TextRow], fields: &ByteRecord, places: u32) -> Result<FieldRow, RowFault>
    ensures row { result_ok result ≡ field_row_of places before.now (fields_of fields.now) }
    ensures right { IfOk result (IsFieldRow places) }
{
    if fields.len() != 5 {
        return Err(RowFault(ROW));
    }
    if field_count(before) >= MOST_FIELDS {
        return Err(RowFault("there are 256 fields before it"));
    }
    let place = number(
        fields.get(1).ok_or(RowFault(ROW))?,
        0,
        places.saturating_sub(1),
    )
    .ok_or(RowFault(PLACE))?;
    let width = number(
        fields.get(2).ok_or(RowFault(ROW))?,
        1,
        64.min(places.saturating_sub(place)),
    );
    let width = width.ok_or(RowFault(WIDTH))?;
    let signed = is_signed_kind(fields.get(3).ok_or(RowFault(ROW))?).ok_or(RowFault(
        "the kind is neither u nor s",
    ))?;
    let name = Name::of(fields.get(4).ok_or(RowFault(ROW))?).ok_or(RowFault(NAME))?;
    if has_field(before, &name) {
        return Err(RowFault("an earlier row has this name"));
    }
    Ok(FieldRow {
        place,
        width,
        signed,
        name,
    })
}

/// The limit that a record gives to a field of the rows before it.
fn limit_row(before: &[TextRow], fields: &ByteRecord) -> Result<LimitRow, RowFault>
    ensures row { result_ok result ≡ limit_row_of before.now (fields_of fields.now) }
    ensures right { IfOk result IsLimitRow }
{
    if fields.len() != 4 {
        return Err(RowFault(ROW));
    }
    let name = Name::of(fields.get(1).ok_or(RowFault(ROW))?).ok_or(RowFault(UNNAMED))?;
    let low = signed_number(fields.get(2).ok_or(RowFault(ROW))?).ok_or(RowFault(LOW))?;
    let high = signed_number(fields.get(3).ok_or(RowFault(ROW))?).ok_or(RowFault(HIGH))?;
    if !has_field(before, &name) || has_limit(before, &name) {
        return Err(RowFault(UNNAMED));
    }
    if high < low {
        return Err(RowFault("the high limit is below the low one"));
    }
    Ok(LimitRow {
        name,
        limit: Limit { low, high },
    })
}

/// Whether a kind is that of signed numbers, `s`, or that of others, `u`.
fn is_signed_kind(kind: &[u8]) -> Option<bool>
    ensures { result ≡ is_signed_kind kind.now }
{
    match kind {
        b"u" => Some(false),
        b"s" => Some(true),
        _ => None,
    }
}

/// How many rows name a field.
fn field_count(rows: &[TextRow]) -> usize
    ensures { result ≡ count_by is_field rows.now }
{
    rows.iter().filter(|row| row.is_field()).count()
}

/// Whether a row names the field of this name.
fn has_field(rows: &[TextRow], name: &Name) -> bool
    ensures { result ≡ list_any (names_field name.now) rows.now }
{
    for row in rows {
        if row.names_field(name) {
            return true;
        }
    }
    false
}

/// Whether a row gives the field of this name a limit.
fn has_limit(rows: &[TextRow], name: &Name) -> bool
    ensures { result ≡ list_any (names_limit name.now) rows.now }
{
    for row in rows {
        if row.names_limit(name) {
            return true;
        }
    }
    false
}
