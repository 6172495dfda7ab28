//! Rows from texts: each record of comma-separated values is one.

ghost use Rattle.std.specs.Prelude.{◌≡◌, ◌<◌, All, IfOk, IfErr};
ghost use Rattle.csv.specs.Reading.{error_kind};
ghost use Rattle.side_tables.specs.Texts.{AreRowsOf, CanCome, IsFaultOf};

use crate::fault::{RowFault, SideFault};
use crate::rows::RowGrammar;
use csv::{ByteRecord, ReaderBuilder};
use std::alloc::Global;

/// The most bytes of a text.
pub const MOST_TEXT_BYTES: usize = 1_048_576;

/// The rows of a text by a grammar, or why the text is not made of rows.
pub fn read_rows<G: RowGrammar>(
    alloc: Global,
    grammar: &G,
    text: &[u8],
) -> Result<Vec<G::Row>, SideFault>
    ensures rows { IfOk result
        (λ rows. AreRowsOf (G.row_after grammar.now) text.now rows.items) }
    ensures right { IfOk result (λ rows. All (G.is_right grammar.now) rows.items) }
    ensures fault { IfErr result (IsFaultOf (G.row_after grammar.now) text.now) }
{
    if text.len() > MOST_TEXT_BYTES {
        return Err(SideFault::TooLong);
    }
    let records = ReaderBuilder::new()
        .has_headers(false)
        .flexible(true)
        .from_reader(alloc, text)
        .into_byte_records();
    let mut rows = Vec::new(alloc);
    'records: for record in records {
        let record = match record {
            Ok(record) => record,
            Err(error) => return Err(refused(&error)),
        };
        let Ok(row) = grammar.row(&rows, &record) else {
            return Err(SideFault::Row {
                row: rows.len() as u32 + 1,
            });
        };
        if rows.push(row).is_err() {
            return Err(SideFault::NoMemory);
        }
    }
    Ok(rows)
}

/// The first record of a text that is not a row by a grammar, and which part of it is wrong. It is told of a text that `read_rows`
/// refused; no clause speaks of it.
pub fn wrong_row<G: RowGrammar>(
    alloc: Global,
    grammar: &G,
    text: &[u8],
) -> Option<(ByteRecord, RowFault)> {
    let records = ReaderBuilder::new()
        .has_headers(false)
        .flexible(true)
        .from_reader(alloc, text)
        .into_byte_records();
    let mut rows = Vec::new(alloc);
    'records: for record in records {
        let Ok(record) = record else {
            return None;
        };
        match grammar.row(&rows, &record) {
            Err(fault) => return Some((record, fault)),
            Ok(row) => {
                if rows.push(row).is_err() {
                    return None;
                }
            }
        }
    }
    None
}

/// What it means if `csv` can't read a record of a text in memory: an allocation was refused. Each record may have a
/// number of fields of its own.
fn refused(error: &csv::Error) -> SideFault
    requires { CanCome (error_kind error.now) }
    ensures { result ≡ SideFault.NoMemory }
{
    SideFault::NoMemory
}
