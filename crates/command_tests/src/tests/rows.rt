//! Runs as rows of tables: what each is given, and how it must end.

use super::desk::{
    Case, Tester, assert_ending, assert_in_pieces, bytes_of_packets, done, joined, refused,
    with_both, words_alone,
};
use desk_ports::Call;
use packet_store::StoreKind;
use pocket_cmd::Refusal;
use std::alloc::{AllocError, Global};
use std::test::Fail;

/// How bytes stand in a row: as packets by their names and digits, two for each byte, or as text.
#[derive(Clone, Copy)]
pub enum Form {
    Packets,
    Text,
}

/// What the rows of a table have in common. A row has, with bars between them: what is held as `a`, what is written, the
/// report, the last of the words, and what is held as `s`. Those at the end may be left out: then they are empty, and
/// nothing is held. If the run is refused after it wrote that, then before all this stand the name of the refusal, its
/// number and a colon.
#[derive(Clone, Copy)]
pub struct Table {
    /// The first of the words.
    pub words: &'static str,
    pub input: Form,
    pub output: Form,
    /// What each report begins with.
    pub header: &'static str,
}

/// A text of words or of a side input, and the place of what is first wrong in it.
pub type Wrong = (&'static str, u32);

/// No other input than the side input and no output is opened.
static NOTHING_ELSE: [(Call, u32); 2] = [(Call::OpenIn, 2), (Call::OpenOut, 1)];

fn written_out(alloc: Global, form: Form, text: &str) -> Result<Vec<u8>, AllocError> {
    match form {
        Form::Packets => bytes_of_packets(alloc, text),
        Form::Text => Vec::from_slice(alloc, text.as_bytes()),
    }
}

fn case_of<'a>(words: &'a str, input: &'a [u8], side: Option<&'a str>) -> Case<'a> {
    Case {
        input: Some(input),
        side: match side {
            None => None,
            Some(text) => Some(text.as_bytes()),
        },
        ..words_alone(words)
    }
}

/// What a run is refused for: at the byte where a packet of the store is wrong, or at a packet of the recording.
fn refusal_of(text: &str) -> Option<Refusal> {
    let (name, number) = text.split_once(' ')?;
    let kind = match name {
        "cut" => StoreKind::Cut,
        "version" => StoreKind::Version,
        "shape" => StoreKind::Shape,
        "record" => return Some(Refusal::CutRecord {
            t: number.parse().ok()?,
        }),
        "spare" => return Some(Refusal::SpareBit {
            t: number.parse().ok()?,
        }),
        _ => return None,
    };
    Some(Refusal::BadStore {
        byte: number.parse().ok()?,
        kind,
    })
}

/// The run must end as its row says.
fn assert_row(rt: &impl Tester, table: &Table, row: &str) -> Result<(), Fail> {
    let (refusal, given) = match row.split_once(": ") {
        None => (None, row),
        Some((refusal, given)) => (Some(refusal), given),
    };
    let mut fields = given.split('|');
    let input = written_out(rt.alloc(), table.input, fields.next().unwrap_or(""))?;
    let output = written_out(rt.alloc(), table.output, fields.next().unwrap_or(""))?;
    let report = joined(rt.alloc(), table.header, fields.next().unwrap_or(""))?;
    let words = joined(rt.alloc(), table.words, fields.next().unwrap_or(""))?;
    let case = case_of(&words, &input, fields.next());
    assert!(rt; fields.next().is_none(), "{row}");
    let ending = match refusal {
        None => done(&output, report.as_bytes()),
        Some(text) => {
            let refusal = refusal_of(text).ok_or(row)?;
            refused(refusal, &output, report.as_bytes())
        }
    };
    assert_in_pieces(rt, case, &ending)
}

/// Each run must end as its row says.
pub fn assert_rows(rt: &impl Tester, table: &Table, rows: &[&str]) -> Result<(), Fail> {
    for row in rows {
        assert_row(rt, table, row)?;
    }
    Ok(())
}

/// Each line of words is refused for its first wrong word.
pub fn assert_wrong_words(rt: &impl Tester, lines: &[Wrong]) -> Result<(), Fail> {
    for (line, word) in lines {
        let wanted = refused(Refusal::BadWords { word: *word }, &[], &[]);
        assert_ending(rt, &words_alone(line), &wanted)?;
    }
    Ok(())
}

/// The side input is refused before anything else is opened.
pub fn assert_refused(rt: &impl Tester, case: Case<'_>, refusal: Refusal) -> Result<(), Fail> {
    let alone = Case {
        fails: &NOTHING_ELSE,
        ..case
    };
    assert_ending(rt, &alone, &refused(refusal, &[], &[]))
}

/// Each side text is refused for its first wrong row, before anything else is opened.
pub fn assert_wrong_sides(
    rt: &impl Tester,
    words: &str,
    input: &[u8],
    texts: &[Wrong],
) -> Result<(), Fail> {
    for (text, row) in texts {
        let case = with_both(words, input, text.as_bytes());
        assert_refused(rt, case, Refusal::BadSide { row: *row })?;
    }
    Ok(())
}
