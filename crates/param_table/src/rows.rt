//! The rows of a side text, and what they make of a recording's packets: columns.

ghost use Rattle.std.specs.Prelude.{◌≡◌};
ghost use Rattle.param_table.specs.Rows.{is_field, names_field, names_limit};
ghost use Rattle.param_table.specs.Texts.{is_outside};

use crate::name::Name;

/// A row that names a field: the number of `width` bits from `place` on, signed or not.
#[derive(Debug, Drop)]
pub struct FieldRow {
    pub place: u32,
    pub width: u32,
    pub signed: bool,
    pub name: Name,
}

/// The least and the greatest value within a limit.
#[derive(Clone, Copy, Debug, PartialEq, Eq)]
pub struct Limit {
    pub low: i128,
    pub high: i128,
}

/// A row that gives the field of this name a limit.
#[derive(Debug, Drop)]
pub struct LimitRow {
    pub name: Name,
    pub limit: Limit,
}

/// A row, of either kind.
#[derive(Debug, Drop)]
pub enum TextRow {
    Field(FieldRow),
    Limit(LimitRow),
}

/// A column of a table: a field, and its limit if it has one.
#[derive(Debug, Drop)]
pub struct Column {
    pub field: FieldRow,
    pub limit: Option<Limit>,
}

impl Limit {
    /// Whether a value is out of the limit: below the least or above the greatest value.
    pub(crate) fn is_outside(&self, value: i128) -> bool
        ensures { result ≡ is_outside self.now value }
    {
        value < self.low || self.high < value
    }
}

impl TextRow {
    /// Whether it names a field.
    pub(crate) fn is_field(&self) -> bool
        ensures { result ≡ is_field self.now }
    {
        matches!(self, TextRow::Field(_))
    }

    /// Whether it names the field of this name.
    pub(crate) fn names_field(&self, name: &Name) -> bool
        ensures { result ≡ names_field name.now self.now }
    {
        match self {
            TextRow::Field(row) => row.name.is(name),
            TextRow::Limit(_) => false,
        }
    }

    /// Whether it gives the field of this name a limit.
    pub(crate) fn names_limit(&self, name: &Name) -> bool
        ensures { result ≡ names_limit name.now self.now }
    {
        match self {
            TextRow::Field(_) => false,
            TextRow::Limit(row) => row.name.is(name),
        }
    }
}
