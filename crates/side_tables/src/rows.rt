//! The rows of schedules, scripts and texts of streams.

ghost use Rattle.std.specs.Prelude.{◌≡◌, ℕ, List, Option, All, IfOk};
ghost use Rattle.std.specs.Result.{result_ok};
ghost use Rattle.csv.specs.Records.{fields_of};
ghost use Rattle.side_tables.specs.declared.span.Span.{Span as Numbers};
ghost use Rattle.side_tables.specs.Rows.{IsSpan};

use crate::fault::RowFault;
use crate::span::Span;
use bit_vectors::Flags;
use csv::ByteRecord;

/// A row of a schedule: flags for each `step`-th packet from `first` to `last`.
#[derive(Clone, Copy, Debug, PartialEq, Eq)]
pub struct FlagRow {
    pub first: u32,
    pub last: u32,
    pub step: u32,
    pub flags: Flags,
}

/// A row of a schedule: the required robustness, 0 to 7, of each `step`-th packet from `first` to `last`.
#[derive(Clone, Copy, Debug, PartialEq, Eq)]
pub struct RobustRow {
    pub first: u32,
    pub last: u32,
    pub step: u32,
    pub value: u8,
}

/// A row of a schedule, of either kind.
#[derive(Clone, Copy, Debug, PartialEq, Eq)]
pub enum ScheduleRow {
    Flags(FlagRow),
    Robust(RobustRow),
}

/// A row of a script: how many copies of each `step`-th packet from `first` to `last` arrive.
#[derive(Clone, Copy, Debug, PartialEq, Eq)]
pub struct CopyRow {
    pub first: u32,
    pub last: u32,
    pub step: u32,
    pub copies: u8,
}

/// A row of streams: an APID, at most 2,046, and the length of its vectors, 1 to 49,152 bits.
#[derive(Clone, Copy, Debug, PartialEq, Eq)]
pub struct StreamRow {
    pub apid: u16,
    pub bits: u32,
}

/// Which records of a text are rows: a record is a row by its fields, and it may hang on the rows before it.
///
/// `row_after` gives the row that a record's fields are after these rows, if they are one, and `is_right` says what holds
/// for each row of a text.
pub trait RowGrammar {
    type Row: Drop;

    ghost row_after: { Self → List Self.Row → List (List ℕ) → Option Self.Row };

    ghost is_right: { Self → Self.Row → Type 0 };

    /// The row that the record is after these rows, or which part of it is wrong.
    fn row(&self, before: &[Self::Row], fields: &ByteRecord) -> Result<Self::Row, RowFault>
        requires { All (is_right self.now) before.now }
        ensures row { result_ok result ≡ row_after self.now before.now (fields_of fields.now) }
        ensures right { IfOk result (is_right self.now) };
}

/// A row of a table: what it says holds for each packet that it names.
///
/// `span_of` gives the numbers of the packets that a row names, and `is_right` says what holds for each row of a table.
pub trait TableRow: Copy {
    ghost span_of: { Self → Numbers };

    ghost is_right: { Self → Type 0 };

    /// The numbers of the packets that the row names.
    fn span(&self) -> Span
        ensures { result ≡ span_of self.now };

    ghost names_packets: { (row : Self) → is_right row → IsSpan (span_of row) };
}
