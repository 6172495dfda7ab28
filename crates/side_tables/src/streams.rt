//! Streams: which APIDs a store's packets are restored from, and how long the vectors of each are.

ghost use Rattle.std.specs.Prelude.{◌≡◌, ℕ, ◌<◌, ◌≤◌, ◌↔◌, length, Err, Some, None, IfOk, IfSome, OnOk};
ghost use Rattle.bit_vectors.specs.Vectors.{most_places};
ghost use Rattle.side_tables.specs.Streams.{AreStreams, AreIndexesOf, bad_stream_row, stream_at, stream_of, streams_of};

use crate::fault::SideFault;
use crate::grammar::StreamText;
use crate::rows::StreamRow;
use crate::text::read_rows;
use bit_vectors::NoMemory;
use std::alloc::Global;
use std::marker::Model;

/// The number of different APIDs: an APID has 11 bits.
const APIDS: usize = 2048;

/// Streams of packets, each with its APID and the length of its vectors. Contracts see the rows in order.
///
/// A row of its text is an APID and a number of bits: plain decimals, the APID at most 2,046, which none of the rows
/// before it has, and 1 to 49,152 bits. There are at most 64 rows.
#[derive(Debug, Drop)]
pub struct Streams {
    rows: Vec<StreamRow>,
    indexes: Vec<Option<u32>>,
}

impl Model for Streams {
    ghost use Rattle.std.specs.Prelude.{List};
    ghost use Rattle.side_tables.specs.declared.rows.StreamRow.{StreamRow as Row};
    ghost use Rattle.side_tables.specs.Streams.{AreStreams, AreIndexesOf};

    ghost Value = { List Row };

    ghost view = { λ s. s.rows.items };

    ghost invariant = { λ s. AreStreams s.rows.items × AreIndexesOf s.rows.items s.indexes.items };
}

impl Streams {
    /// The streams that a text describes, at most 1,048,576 bytes: each record of comma-separated values is a row.
    pub fn read(alloc: Global, text: &[u8]) -> Result<Streams, SideFault>
        ensures rows { IfOk result (λ streams. streams ≡ streams_of text.now) }
        ensures within { OnOk result (length text.now ≤ 1048576) }
        ensures right { OnOk result (bad_stream_row text.now ≡ None) }
        ensures too_long { (result ≡ Err SideFault.TooLong) ↔ (1048576 < length text.now) }
        ensures row { (row : ℕ) → result ≡ Err (SideFault.Row row)
            → bad_stream_row text.now ≡ Some row }
    {
        let rows = read_rows(alloc, &StreamText, text)?;
        let indexes = indexes_of(alloc, &rows)?;
        Ok(Streams { rows, indexes })
    }

    /// The number of streams, at most 64.
    pub fn count(&self) -> u32
        ensures count { result ≡ length self.now }
        ensures streams { AreStreams self.now }
    {
        self.rows.len() as u32
    }

    /// The APID of a stream.
    pub fn apid(&self, index: u32) -> u16
        requires { index < length self.now }
        ensures apid { result ≡ (stream_at self.now index).apid }
        ensures most { result ≤ 2046 }
    {
        self.rows[index as usize].apid
    }

    /// The length of a stream's vectors, in bits.
    pub fn bits(&self, index: u32) -> u32
        requires { index < length self.now }
        ensures bits { result ≡ (stream_at self.now index).bits }
        ensures some { 1 ≤ result }
        ensures most { result ≤ most_places }
    {
        self.rows[index as usize].bits
    }

    /// The index of the stream with this APID. `None`: no stream has it.
    pub fn find(&self, apid: u16) -> Option<u32>
        ensures index { result ≡ stream_of self.now apid }
        ensures within { IfSome result (λ index. index < length self.now) }
        ensures own { IfSome result (λ index. (stream_at self.now index).apid ≡ apid) }
    {
        *self.indexes.get(usize::from(apid))?
    }
}

/// For each APID the index of the row that has it.
fn indexes_of(alloc: Global, rows: &[StreamRow]) -> Result<Vec<Option<u32>>, NoMemory>
    requires { AreStreams rows.now }
    ensures { IfOk result (λ indexes. AreIndexesOf rows.now indexes.items) }
{
    let mut indexes = vec![in alloc; None; APIDS]?;
    for (index, row) in rows.iter().enumerate() {
        indexes[usize::from(row.apid)] = Some(index as u32);
    }
    Ok(indexes)
}
