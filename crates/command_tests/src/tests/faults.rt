//! A desk in which some calls fail: what each verb leaves then; and stores that are cut.

use super::desk::{
    BY_SCRIPT, Case, EIGHT_BITS, Ending, HEADER, LIST, Tester, assert_ending, done, front, refused,
    with_input, words_alone,
};
use super::samples::{LISTING, PLAY_REPORT, PLAYED, RECORDING, REPORT, RESTORED, STORE};
use super::trials::{SUMMARY, THREE};
use desk_ports::Call;
use packet_store::StoreKind;
use pocket_cmd::Refusal;
use std::test::Fail;

const COMPRESS: &str = "compress in=a out=b bits=8 apid=100 robust=1";

const BY_PLAN: &str = "compress in=a out=b bits=8 apid=100 robust=1 plan=s";

/// What a verb is given, what it writes if no call fails, and rows of calls that do, at a desk that moves whole pieces and
/// at one that moves single bytes. Between two rows is a bar. A row has the calls that fail, each by its name and its number,
/// a colon, and how the run then ends: `done`; `half`, if both outputs stand and the first alone is kept; or `unread` or
/// `unwritten`, with how many bytes of the output and of the report stand when a reading or a writing failed.
pub struct Faults {
    pub words: &'static str,
    pub input: Option<&'static [u8]>,
    pub side: Option<&'static [u8]>,
    pub output: &'static [u8],
    pub report: &'static [u8],
    pub whole: &'static str,
    pub single: &'static str,
}

/// Of the worked restore.
static RESTORES: [Faults; 1] = [Faults {
    words: EIGHT_BITS,
    input: Some(PLAYED),
    side: None,
    output: RESTORED,
    report: REPORT,
    // One reading has the whole input, and the next one meets its end.
    whole: "read 2: unread 3 34|read 3: done|write 1: unwritten 0 0|write 2: unwritten 0 23|write 3: unwritten 1 23|\
        write 4: unwritten 2 23|write 5: unwritten 2 34|write 6: unwritten 3 34|write 7: done",
    // The packets end at the bytes 10, 20 and 29.
    single: "open_in 1 open_out 1: unread 0 0|open_in 2: done|open_out 1: unwritten 0 0|open_out 2: unwritten 0 0|\
        open_out 3: done|read 1: unread 0 23|read 10: unread 0 23|read 11: unread 1 23|read 20: unread 1 23|\
        read 21: unread 2 23|read 30: unread 3 34|read 31: done|finish 1: unwritten 3 44|finish 2: half|\
        finish 3: done",
}];

static OTHERS: [Faults; 5] = [
    Faults {
        words: COMPRESS,
        input: Some(RECORDING),
        side: None,
        output: STORE,
        report: &[],
        // Each packet is written at once; the first has ten bytes.
        whole: "open_in 1 open_out 1: unread 0 0|open_in 2: done|open_out 1: unwritten 0 0|open_out 2: done|\
            read 1: unread 0 0|read 2: unread 37 0|read 3: done|write 1: unwritten 0 0|write 2: unwritten 10 0|\
            write 5: done|finish 1: unwritten 37 0|finish 2: done",
        single: "",
    },
    Faults {
        words: BY_PLAN,
        input: Some(RECORDING),
        side: Some(b"9,9,1,p"),
        output: STORE,
        report: &[],
        // A schedule is opened and read before anything else is opened.
        whole: "open_in 1 open_out 1: unread 0 0|open_in 2 open_out 1: unread 0 0|read 1 open_out 1: unread 0 0|\
            open_in 3 open_out 2: done",
        single: "",
    },
    Faults {
        words: BY_SCRIPT,
        input: Some(STORE),
        side: Some(b"drop,2,2,1"),
        output: PLAYED,
        report: PLAY_REPORT,
        // The script is read by two readings, and then the store.
        whole: "read 4: unread 29 0|read 5: done",
        // Ten reads move the script, and one meets its end. The packets end at the bytes 10, 20, 28 and 37.
        single: "open_in 1 open_out 1: unread 0 0|open_in 2 open_out 1: unread 0 0|open_out 1: unwritten 0 0|\
            open_out 2: unwritten 0 0|read 11 open_out 1: unread 0 0|read 21: unread 0 0|read 22: unread 10 0|\
            read 40: unread 20 0|read 48: unread 20 0|read 49: unread 29 0|read 50: done|write 1: unwritten 0 0|\
            write 2: unwritten 1 0|write 11: unwritten 10 0|write 29: unwritten 28 0|write 30: unwritten 29 0|\
            write 76: unwritten 29 46|write 77: unwritten 29 47|write 88: unwritten 29 58|write 89: done|\
            finish 1: unwritten 29 59|finish 2: half",
    },
    Faults {
        words: LIST,
        input: Some(PLAYED),
        side: None,
        output: LISTING,
        report: &[],
        whole: "read 2: unread 72 0|read 3: done",
        // The first line has 21 bytes, the last ten.
        single: "open_in 1 open_out 1: unread 0 0|open_in 2: done|open_out 1: unwritten 0 0|open_out 2: done|\
            read 1: unread 0 0|read 11: unread 21 0|read 30: unread 72 0|read 31: done|write 1: unwritten 0 0|\
            write 22: unwritten 21 0|write 82: unwritten 81 0|write 83: done|finish 1: unwritten 82 0|finish 2: done",
    },
    Faults {
        words: THREE,
        input: None,
        side: None,
        output: SUMMARY,
        report: &[],
        // Nothing is read, nothing more is opened, and the summary is written in one piece.
        whole: "open_in 1 read 1 open_out 2 write 2 finish 2: done",
        single: "open_out 1: unwritten 0 0|write 1: unwritten 0 0|write 11: unwritten 10 0|write 72: unwritten 71 0|\
            finish 1: unwritten 72 0",
    },
];

static CALLS: [(&str, Call); 5] = [
    ("open_in", Call::OpenIn),
    ("open_out", Call::OpenOut),
    ("read", Call::Read),
    ("write", Call::Write),
    ("finish", Call::Finish),
];

fn call_of(name: &str) -> Option<Call> {
    for (known, call) in &CALLS {
        if *known == name {
            return Some(*call);
        }
    }
    None
}

/// The calls that fail in a row.
fn calls_of(rt: &impl Tester, text: &str) -> Result<Vec<(Call, u32)>, Fail> {
    let mut calls = Vec::new(rt.alloc());
    let mut words = text.split_ascii_whitespace();
    while let Some(name) = words.next() {
        let (Some(call), Ok(number)) = (call_of(name), words.next().unwrap_or("").parse()) else {
            return Err(Fail::new(text));
        };
        calls.push((call, number))?;
    }
    Ok(calls)
}

/// How the run of a row ends.
fn ending_of<'a>(text: &str, output: &'a [u8], report: &'a [u8]) -> Option<Ending<'a>> {
    let mut words = text.split_ascii_whitespace();
    let refusal = match words.next()? {
        "done" => return Some(done(output, report)),
        "half" => {
            return Some(Ending {
                kept_output: output,
                ..refused(Refusal::WriteFault, output, report)
            });
        }
        "unread" => Refusal::ReadFault,
        "unwritten" => Refusal::WriteFault,
        _ => return None,
    };
    let output = front(output, words.next()?.parse().ok()?);
    let report = front(report, words.next()?.parse().ok()?);
    Some(refused(refusal, output, report))
}

/// What a table gives, for as long as a case has it.
fn given<'a>(input: Option<&'static [u8]>) -> Option<&'a [u8]> {
    match input {
        None => None,
        Some(bytes) => Some(bytes),
    }
}

fn assert_fault_row(
    rt: &impl Tester,
    faults: &Faults,
    pieces: Option<u32>,
    row: &str,
) -> Result<(), Fail> {
    let (calls, end) = row.split_once(':').unwrap_or((row, ""));
    let ending = ending_of(end, faults.output, faults.report).ok_or(row)?;
    let fails = calls_of(rt, calls)?;
    let (input, side) = (given(faults.input), given(faults.side));
    let case = Case {
        words: faults.words,
        input,
        side,
        pieces,
        fails: &fails,
    };
    assert_ending(rt, &case, &ending)
}

pub fn assert_faults(rt: &impl Tester, verbs: &[Faults]) -> Result<(), Fail> {
    for faults in verbs {
        for (pieces, rows) in [(None, faults.whole), (Some(1), faults.single)] {
            for row in rows.split_terminator('|') {
                assert_fault_row(rt, faults, pieces, row)?;
            }
        }
    }
    Ok(())
}

/// What `restore` leaves if it could write this many bytes of 47: the report's first line, two contents, the lost row,
/// the third content and the last row come in this order.
fn restored_until(written: usize) -> Ending<'static> {
    let (most, noted) = match written {
        0..=23 => (0, written),
        24..=25 => (written - 23, 23),
        26..=36 => (2, written - 2),
        37..=46 => (3, written - 3),
        _ => return done(RESTORED, REPORT),
    };
    refused(
        Refusal::WriteFault,
        front(RESTORED, most),
        front(REPORT, noted),
    )
}

/// Makes each write of one byte fail in turn, up to the first number that no write has.
fn assert_writes(rt: &impl Tester) -> Result<(), Fail> {
    for written in 0..48u32 {
        let case = Case {
            pieces: Some(1),
            fails: &[(Call::Write, written + 1)],
            ..with_input(EIGHT_BITS, PLAYED)
        };
        assert_ending(rt, &case, &restored_until(written as usize))?;
    }
    Ok(())
}

/// How the restoring ends for a store that is cut to this size, in the packet that begins here, before which this is
/// restored.
fn cut_at(size: usize) -> Ending<'static> {
    let (begin, output, report): (usize, &[u8], &[u8]) = match size {
        0..=9 => (0, &[], b"first,last,cause,value\nend,0,0,0\n"),
        10..=19 => (10, &[0xB0], b"first,last,cause,value\nend,1,1,0\n"),
        20..=28 => (20, &[0xB0, 0xB1], b"first,last,cause,value\nend,2,2,0\n"),
        _ => (29, RESTORED, REPORT),
    };
    if size == begin {
        return done(output, report);
    }
    let refusal = Refusal::BadStore {
        byte: begin as u64,
        kind: StoreKind::Cut,
    };
    refused(refusal, output, HEADER.as_bytes())
}

/// The store cut at each length.
fn assert_cuts(rt: &impl Tester) -> Result<(), Fail> {
    for size in 0..30 {
        let case = with_input(EIGHT_BITS, front(PLAYED, size));
        assert_ending(rt, &case, &cut_at(size))?;
    }
    Ok(())
}

#[test]
fn a_restore_at_each_fault(rt: HostRuntime) -> Result<(), Fail> {
    assert_faults(&rt, &RESTORES)?;
    assert_writes(&rt)?;
    assert_cuts(&rt)
}

#[test]
fn calls_of_other_verbs(rt: HostRuntime) -> Result<(), Fail> {
    assert_faults(&rt, &OTHERS)
}

/// Words, the input that is held for them, and no other.
static NOT_HELD: [(&str, Option<&[u8]>); 7] = [
    (COMPRESS, None),
    (BY_PLAN, None),
    (BY_PLAN, Some(RECORDING)),
    (BY_SCRIPT, None),
    (BY_SCRIPT, Some(&[])),
    (EIGHT_BITS, None),
    (LIST, None),
];

#[test]
fn names_that_are_not_held(rt: HostRuntime) -> Result<(), Fail> {
    for (words, input) in &NOT_HELD {
        let case = Case {
            input: *input,
            fails: &[(Call::OpenOut, 1)],
            ..words_alone(words)
        };
        assert_ending(&rt, &case, &refused(Refusal::ReadFault, &[], &[]))?;
    }
    Ok(())
}
