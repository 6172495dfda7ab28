//! A run over a desk in memory, and what it leaves there.

use super::samples::digits_of;
use bit_vectors::NoMemory;
use desk_ports::{Call, MemDesk, Outlet};
use pocket_cmd::{Refusal, Status, pocket};
use std::alloc::{AllocError, Global};
use std::process::Abort;
use std::test::Fail;

/// The words that restore packets of eight bits.
pub const EIGHT_BITS: &str = "restore in=a out=b report=c bits=8 apid=100";

/// The words that play a store by a script.
pub const BY_SCRIPT: &str = "play in=a script=s out=b report=c apid=100";

/// The words that list a store of packets of eight bits.
pub const LIST: &str = "show in=a out=b bits=8 apid=100";

/// The first line of a report.
pub const HEADER: &str = "first,last,cause,value\n";

/// What a test is given: it may assert and allocate.
pub trait Tester: Abort + AllocGlobal {}

impl<R: Abort + AllocGlobal> Tester for R {}

/// The words in one line, what the inputs have, the most bytes that a call moves, and the calls that fail.
#[derive(Clone, Copy)]
pub struct Case<'a> {
    pub words: &'a str,
    /// What is held as `a`.
    pub input: Option<&'a [u8]>,
    /// What is held as `s`.
    pub side: Option<&'a [u8]>,
    /// How many bytes a call moves at most, if not all.
    pub pieces: Option<u32>,
    pub fails: &'a [(Call, u32)],
}

/// How a run ended: what was written, and what is kept under the names of both outputs.
#[derive(Clone, Copy, Debug, PartialEq, Eq)]
pub struct Ending<'a> {
    pub status: Status,
    pub output: &'a [u8],
    pub report: &'a [u8],
    pub kept_output: &'a [u8],
    pub kept_report: &'a [u8],
    /// How often reading, writing and taking memory for an output failed.
    pub faults: (u64, u64, u64),
}

/// The words, at a desk without an input.
pub fn words_alone(words: &str) -> Case<'_> {
    Case {
        words,
        input: None,
        side: None,
        pieces: None,
        fails: &[],
    }
}

/// The words, at a desk with this input.
pub fn with_input<'a>(words: &'a str, input: &'a [u8]) -> Case<'a> {
    Case {
        input: Some(input),
        ..words_alone(words)
    }
}

/// The words, at a desk with both inputs.
pub fn with_both<'a>(words: &'a str, input: &'a [u8], side: &'a [u8]) -> Case<'a> {
    Case {
        side: Some(side),
        ..with_input(words, input)
    }
}

/// All was done, and both outputs are kept.
pub fn done<'a>(output: &'a [u8], report: &'a [u8]) -> Ending<'a> {
    Ending {
        status: Status::Done,
        output,
        report,
        kept_output: output,
        kept_report: report,
        faults: (0, 0, 0),
    }
}

/// The run was refused, and no output is kept.
pub fn refused<'a>(refusal: Refusal, output: &'a [u8], report: &'a [u8]) -> Ending<'a> {
    Ending {
        status: Status::Refused(refusal),
        output,
        report,
        kept_output: &[],
        kept_report: &[],
        faults: faults_of(refusal),
    }
}

/// How often reading, writing and taking memory for an output failed, if this is the answer.
fn faults_of(refusal: Refusal) -> (u64, u64, u64) {
    match refusal {
        Refusal::ReadFault => (1, 0, 0),
        Refusal::WriteFault => (0, 1, 0),
        _ => (0, 0, 0),
    }
}

/// Runs a case, which must end like this.
pub fn assert_ending(rt: &impl Tester, case: &Case<'_>, wanted: &Ending<'_>) -> Result<(), Fail> {
    assert_ending_at(rt, case, wanted, &mut new_desk(rt.alloc()))
}

fn assert_ending_at(
    rt: &impl Tester,
    case: &Case<'_>,
    wanted: &Ending<'_>,
    desk: &mut MemDesk,
) -> Result<(), Fail> {
    let status = answer_at(rt.alloc(), case, desk)?;
    let side = front(case.side.unwrap_or(&[]), 80);
    assert_eq!(rt;
        ended(status, desk),
        *wanted,
        "{} {:?} {side:?}",
        case.words,
        case.fails
    );
    Ok(())
}

/// What is answered to a case.
pub fn answer_to(alloc: Global, case: &Case<'_>) -> Result<Status, Fail> {
    answer_at(alloc, case, &mut new_desk(alloc))
}

fn answer_at(alloc: Global, case: &Case<'_>, desk: &mut MemDesk) -> Result<Status, Fail> {
    prepare(desk, case)?;
    Ok(answer(alloc, case.words, desk)?)
}

/// The first bytes, as many as there are.
pub fn front(bytes: &[u8], count: usize) -> &[u8] {
    &bytes[..count.min(bytes.len())]
}

/// Runs a case with whole reads and writes, with those of seven bytes at most, and with those of one byte.
pub fn assert_in_pieces(rt: &impl Tester, case: Case<'_>, wanted: &Ending<'_>) -> Result<(), Fail> {
    for pieces in [None, Some(7), Some(1)] {
        assert_ending(rt, &Case { pieces, ..case }, wanted)?;
    }
    Ok(())
}

/// Bytes from their hexadecimal digits, two for each.
pub fn bytes_of(alloc: Global, text: &str) -> Result<Vec<u8>, AllocError> {
    let mut bytes = Vec::new(alloc);
    for digits in text.split_ascii_whitespace() {
        bytes.push(u8::from_str_radix(digits, 16).unwrap_or(0))?;
    }
    Ok(bytes)
}

/// The bytes of words, each of which is the name of a packet or has the digits of a byte.
pub fn bytes_of_packets(alloc: Global, text: &str) -> Result<Vec<u8>, AllocError> {
    let mut bytes = Vec::new(alloc);
    for word in text.split_ascii_whitespace() {
        bytes.extend_from_slice(&bytes_of(alloc, digits_of(word))?)?;
    }
    Ok(bytes)
}

/// One text after another.
pub fn joined(alloc: Global, front: &str, back: &str) -> Result<String, AllocError> {
    let mut text = String::from_str(alloc, front)?;
    text.push_str(back)?;
    Ok(text)
}

/// Does what the words in a line say.
pub fn answer(alloc: Global, line: &str, desk: &mut MemDesk) -> Result<Status, AllocError> {
    let words = words_of(alloc, line)?;
    let few = words.len().min(1000);
    Ok(pocket(alloc, &words[..few], desk))
}

/// Does what the words in a line say, which must end well.
pub fn assert_done(rt: &impl Tester, line: &str, desk: &mut MemDesk) -> Result<(), Fail> {
    let status = answer(rt.alloc(), line, desk)?;
    assert_eq!(rt; status, Status::Done, "{line}");
    Ok(())
}

pub fn words_of(alloc: Global, line: &str) -> Result<Vec<String>, AllocError> {
    let mut words = Vec::new(alloc);
    for word in line.split_ascii_whitespace() {
        words.push(String::from_str(alloc, word)?)?;
    }
    Ok(words)
}

/// A desk that holds nothing. The callers know nothing of it, so that their proofs are short.
pub fn new_desk(alloc: Global) -> MemDesk {
    MemDesk::new(alloc)
}

/// From here on a call moves so many bytes at most.
pub fn in_pieces(desk: &mut MemDesk, size: u32) {
    desk.pieces(size.max(1));
}

/// Holds bytes under a name.
pub fn hold(desk: &mut MemDesk, name: &str, bytes: &[u8]) -> Result<(), NoMemory> {
    desk.put(name, bytes)
}

/// Holds the inputs of a case, and lets the calls fail that it names.
fn prepare(desk: &mut MemDesk, case: &Case<'_>) -> Result<(), NoMemory> {
    for (name, input) in [("a", case.input), ("s", case.side)] {
        if let Some(bytes) = input {
            hold(desk, name, bytes)?;
        }
    }
    if let Some(size) = case.pieces {
        in_pieces(desk, size);
    }
    for (call, nth) in case.fails {
        desk.fail(*call, *nth)?;
    }
    Ok(())
}

fn ended(status: Status, desk: &MemDesk) -> Ending<'_> {
    Ending {
        status,
        output: desk.seen(Outlet::Main),
        report: desk.seen(Outlet::Report),
        kept_output: desk.get("b"),
        kept_report: desk.get("c"),
        faults: (desk.read_faults(), desk.write_faults(), desk.short()),
    }
}
