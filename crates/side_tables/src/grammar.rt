//! Which records are rows.

ghost use Rattle.std.specs.Prelude.{◌≡◌, ◌<◌, ◌≤◌, IfOk};
ghost use Rattle.std.specs.List.{list_all, list_any};
ghost use Rattle.std.specs.Result.{result_ok};
ghost use Rattle.csv.specs.Records.{fields_of};
ghost use Rattle.side_tables.specs.Rows.{IsFlagRow, IsRobustRow, IsScheduleRow, IsCopyRow, flag_span, robust_span, copy_span, IsSpan};
ghost use Rattle.side_tables.specs.Texts.{alone};
ghost use Rattle.side_tables.specs.Grammar.{field_number, span_from, flags_named, are_letters, is_letter, count_of, flag_row_of, robust_row_of, schedule_row_of, drop_row_of, repeat_row_of, copy_row_of};
ghost use Rattle.side_tables.specs.Streams.{IsStreamRow, has_apid, stream_row_after, stream_row_of};

use crate::decimal::number;
use crate::fault::RowFault;
use crate::rows::{CopyRow, FlagRow, RobustRow, RowGrammar, ScheduleRow, StreamRow, TableRow};
use crate::span::Span;
use bit_vectors::{Flags, MOST_PLACES};
use csv::ByteRecord;

const SCHEDULE: &str =
    "a row of a schedule is first,last,step,flags or robust,first,last,step,value";

const SCRIPT: &str = "a row of a script is drop,first,last,step or repeat,first,last,step,extra";

const SCRIPT_WORD: &str = "a row of a script begins with drop or repeat";

const FIRST: &str = "the first packet is no number from 0 to 4294967295 in plain digits";

const LAST: &str = "the last packet is no number from the first one to 4294967295 in plain digits";

const STEP: &str = "the step is no number from 1 to 4294967295 in plain digits";

const APID: &str = "the APID is no number from 0 to 2046 in plain digits";

const BITS: &str = "the bits are no number from 1 to 49152 in plain digits";

/// The rows of a schedule.
pub struct ScheduleText;

impl RowGrammar for ScheduleText {
    type Row = ScheduleRow;

    ghost row_after = { λ _. alone schedule_row_of };

    ghost is_right = { λ _. IsScheduleRow };

    fn row(&self, _before: &[ScheduleRow], fields: &ByteRecord) -> Result<ScheduleRow, RowFault> {
        match fields.get(0) {
            Some(b"robust") => Ok(ScheduleRow::Robust(robust_row(fields)?)),
            _ => Ok(ScheduleRow::Flags(flag_row(fields)?)),
        }
    }
}

/// The rows of a script.
pub struct ScriptText;

impl RowGrammar for ScriptText {
    type Row = CopyRow;

    ghost row_after = { λ _. alone copy_row_of };

    ghost is_right = { λ _. IsCopyRow };

    fn row(&self, _before: &[CopyRow], fields: &ByteRecord) -> Result<CopyRow, RowFault> {
        match fields.get(0).ok_or(RowFault(SCRIPT_WORD))? {
            b"drop" => drop_row(fields),
            b"repeat" => repeat_row(fields),
            _ => Err(RowFault(SCRIPT_WORD)),
        }
    }
}

/// The most rows of streams.
const MOST_STREAMS: usize = 64;

/// The rows of streams.
pub struct StreamText;

impl RowGrammar for StreamText {
    type Row = StreamRow;

    ghost row_after = { λ _. stream_row_after };

    ghost is_right = { λ _. IsStreamRow };

    fn row(&self, before: &[StreamRow], fields: &ByteRecord) -> Result<StreamRow, RowFault> {
        let row = stream_row(fields)?;
        if before.len() >= MOST_STREAMS || has_apid(before, row.apid) {
            return Err(RowFault("an earlier row has this APID, or there are 64 rows before it"));
        }
        Ok(row)
    }
}

impl TableRow for FlagRow {
    ghost span_of = { flag_span };

    ghost is_right = { IsFlagRow };

    ghost names_packets = { λ row right. right };

    fn span(&self) -> Span {
        Span {
            first: self.first,
            last: self.last,
            step: self.step,
        }
    }
}

impl TableRow for RobustRow {
    ghost span_of = { robust_span };

    ghost is_right = { IsRobustRow };

    ghost names_packets = { λ row right. right.span };

    fn span(&self) -> Span {
        Span {
            first: self.first,
            last: self.last,
            step: self.step,
        }
    }
}

impl TableRow for CopyRow {
    ghost span_of = { copy_span };

    ghost is_right = { IsCopyRow };

    ghost names_packets = { λ row right. right.span };

    fn span(&self) -> Span {
        Span {
            first: self.first,
            last: self.last,
            step: self.step,
        }
    }
}

/// The flags of packets.
fn flag_row(fields: &ByteRecord) -> Result<FlagRow, RowFault>
    ensures row { result_ok result ≡ flag_row_of (fields_of fields.now) }
    ensures right { IfOk result IsFlagRow }
{
    if fields.len() != 4 {
        return Err(RowFault(SCHEDULE));
    }
    let span = span_from(fields, 0)?;
    let flags = fields.get(3).and_then(|letters| flags_named(letters));
    let flags = flags.ok_or(RowFault("the flags are one to three of p, f and r, none twice"))?;
    Ok(FlagRow {
        first: span.first,
        last: span.last,
        step: span.step,
        flags,
    })
}

/// The required robustness of packets.
fn robust_row(fields: &ByteRecord) -> Result<RobustRow, RowFault>
    ensures row { result_ok result ≡ robust_row_of (fields_of fields.now) }
    ensures right { IfOk result IsRobustRow }
{
    if fields.len() != 5 {
        return Err(RowFault(SCHEDULE));
    }
    let span = span_from(fields, 1)?;
    let value = field_number(fields, 4, 0, 7, "the value is no number from 0 to 7")?;
    Ok(RobustRow {
        first: span.first,
        last: span.last,
        step: span.step,
        value: value as u8,
    })
}

/// The packets that are dropped.
fn drop_row(fields: &ByteRecord) -> Result<CopyRow, RowFault>
    ensures row { result_ok result ≡ drop_row_of (fields_of fields.now) }
    ensures right { IfOk result IsCopyRow }
{
    if fields.len() != 4 {
        return Err(RowFault(SCRIPT));
    }
    let span = span_from(fields, 1)?;
    Ok(CopyRow {
        first: span.first,
        last: span.last,
        step: span.step,
        copies: 0,
    })
}

/// The packets that are repeated.
fn repeat_row(fields: &ByteRecord) -> Result<CopyRow, RowFault>
    ensures row { result_ok result ≡ repeat_row_of (fields_of fields.now) }
    ensures right { IfOk result IsCopyRow }
{
    if fields.len() != 5 {
        return Err(RowFault(SCRIPT));
    }
    let span = span_from(fields, 1)?;
    let extra = field_number(
        fields,
        4,
        1,
        8,
        "the extra copies are no number from 1 to 8",
    )?;
    Ok(CopyRow {
        first: span.first,
        last: span.last,
        step: span.step,
        copies: 1 + extra as u8,
    })
}

/// The APID and the bits of a stream.
fn stream_row(fields: &ByteRecord) -> Result<StreamRow, RowFault>
    ensures row { result_ok result ≡ stream_row_of (fields_of fields.now) }
    ensures right { IfOk result IsStreamRow }
{
    if fields.len() != 2 {
        return Err(RowFault("a row of streams is apid,bits"));
    }
    let apid = field_number(fields, 0, 0, 2046, APID)?;
    let bits = field_number(fields, 1, 1, MOST_PLACES, BITS)?;
    Ok(StreamRow {
        apid: apid as u16,
        bits,
    })
}

/// Whether one of the streams has the APID.
fn has_apid(rows: &[StreamRow], apid: u16) -> bool
    ensures { result ≡ list_any (has_apid apid) rows.now }
{
    rows.iter().any(|row| row.apid == apid)
}

/// The first number, the last number and the step that three fields say.
fn span_from(fields: &ByteRecord, place: usize) -> Result<Span, RowFault>
    requires { place < 4 }
    ensures span { result_ok result ≡ span_from (fields_of fields.now) place }
    ensures right { IfOk result IsSpan }
{
    let first = field_number(fields, place, 0, u32::MAX, FIRST)?;
    let last = field_number(fields, place + 1, first, u32::MAX, LAST)?;
    let step = field_number(fields, place + 2, 1, u32::MAX, STEP)?;
    Ok(Span { first, last, step })
}

/// The number from `low` to `high` that a field says, or why it says none.
fn field_number(
    fields: &ByteRecord,
    place: usize,
    low: u32,
    high: u32,
    why: &'static str,
) -> Result<u32, RowFault>
    ensures number { result_ok result ≡ field_number (fields_of fields.now) place low high }
    ensures low { IfOk result (λ number. low ≤ number) }
    ensures high { IfOk result (λ number. number ≤ high) }
{
    match fields.get(place) {
        None => Err(RowFault(why)),
        Some(text) => number(text, low, high).ok_or(RowFault(why)),
    }
}

/// The flags that letters name: `p`, `f` and `r`, each at most once and in any order.
fn flags_named(letters: &[u8]) -> Option<Flags>
    ensures { result ≡ flags_named letters.now }
{
    if !are_letters(letters) {
        return None;
    }
    Some(Flags {
        p: count_of(letters, b'p') >= 1,
        f: count_of(letters, b'f') >= 1,
        r: count_of(letters, b'r') >= 1,
    })
}

/// Whether the letters are only `p`, `f` and `r`, each at most once, and at least one.
fn are_letters(letters: &[u8]) -> bool
    ensures { result ≡ are_letters letters.now }
{
    !letters.is_empty()
        && has_only_letters(letters)
        && count_of(letters, b'p') <= 1
        && count_of(letters, b'f') <= 1
        && count_of(letters, b'r') <= 1
}

/// Whether every byte is `p`, `f` or `r`.
fn has_only_letters(letters: &[u8]) -> bool
    ensures { result ≡ list_all is_letter letters.now }
{
    for letter in letters {
        if !matches!(letter, b'p' | b'f' | b'r') {
            return false;
        }
    }
    true
}

/// How often a letter occurs.
fn count_of(letters: &[u8], letter: u8) -> usize
    ensures { result ≡ count_of letters.now letter }
{
    letters.iter().filter(|other| **other == letter).count()
}
