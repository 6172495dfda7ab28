//! Worked stores of several streams, the rules of their side texts, and what stands if a call fails.

use super::desk::{assert_in_pieces, done, with_both};
use super::faults::{Faults, assert_faults};
use super::rows::{Form, Table, Wrong, assert_refused, assert_rows, assert_wrong_sides};
use pocket_cmd::Refusal;
use std::alloc::{AllocError, Global};
use std::test::Fail;

pub const MULTI: &str = "multi in=a out=b report=c streams=s";

const TWO_STREAMS: &[u8] = b"100,8\n101,8\n";

/// A packet of the APID 100; one of 101 with the count 5; the next one of 100; and a segment of 101.
const STORE: &[u8] = &[
    0x00, 0x64, 0xC0, 0x00, 0x00, 0x03, 0x85, 0xB8, 0xD6, 0x00, //
    0x00, 0x65, 0xC0, 0x05, 0x00, 0x00, 0x82, //
    0x00, 0x64, 0xC0, 0x01, 0x00, 0x00, 0x82, //
    0x00, 0x65, 0x00, 0x00, 0x00, 0x00, 0x82,
];

/// What is restored of it: both packets of the APID 100.
const RESTORED: &[u8] = &[
    0x00, 0x64, 0xC0, 0x00, 0x00, 0x00, 0xB0, //
    0x00, 0x64, 0xC0, 0x01, 0x00, 0x00, 0xB0,
];

const REPORT: &[u8] = b"apid,first,last,cause,value\n101,0,4,lost,0\n101,5,5,unsynced,0\n\
    100,end,2,2,0\n101,end,1,0,0\nshape,1\n";

/// Stores with what is restored of them, the reports, and the streams.
const STORES: Table = Table {
    words: MULTI,
    input: Form::Packets,
    output: Form::Packets,
    header: "apid,first,last,cause,value\n",
};

static WHOLE: [&str; 10] = [
    "00 64 C0 00 00 03 85 B8 D6 00 00 65 C0 05 00 00 82 00 64 C0 01 00 00 82 00 65 00 00 00 00 82|\
        00 64 C0 00 00 00 B0 00 64 C0 01 00 00 B0|\
        101,0,4,lost,0\n101,5,5,unsynced,0\n100,end,2,2,0\n101,end,1,0,0\nshape,1\n||100,8\n101,8\n",
    // No stream.
    "00 64 C0 00 00 03 85 B8 D6 00 00 65 00 00 00 00 82||shape,0\n||",
    "||101,end,0,0,0\n100,end,0,0,0\nshape,0\n||101,8\n100,8\n",
    // Other APIDs are passed over, in whatever shape their packets are.
    "00 65 C0 00 00 03 85 B8 D6 00 07 FF C0 00 00 00 00 18 66 40 05 00 00 FF 00 64 C0 00 00 03 85 B8 D6 00|\
        00 64 C0 00 00 00 B0|100,end,1,1,0\nshape,0\n||\n100,8",
    // A telecommand, a packet with a secondary header and a segment, none of which is an arrival.
    "00 64 C0 00 00 03 85 B8 D6 00 10 64 C0 01 00 00 82 08 64 C0 01 00 00 82 00 64 40 01 00 00 82 00 64 C0 01 00 \
        00 82|00 64 C0 00 00 00 B0 00 64 C0 01 00 00 B0|100,end,2,2,0\nshape,3\n||100,8",
    // Each stream has its own counts, its own mask and its own content.
    "00 00 C0 00 00 03 85 B8 D6 00 07 FE C0 00 00 03 85 5C 6B 00 00 00 C0 02 00 03 85 B8 D6 00 07 FE C0 01 00 03 \
        85 5C 64 F0 00 00 C0 02 00 03 85 B8 D6 00|\
        00 00 C0 00 00 00 B0 07 FE C0 00 00 00 B0 00 00 C0 02 00 00 B0 07 FE C0 01 00 00 4F|\
        0,1,1,lost,0\n0,end,3,2,1\n2046,end,2,2,0\nshape,0\n||0,8\n2046,8\n",
    // Vectors of two lengths: each packet is read by the length of its own stream.
    "00 64 C0 00 00 03 81 B9 62 47 00 0A C0 00 00 03 85 B8 D6 00|00 64 C0 00 00 01 12 38 00 0A C0 00 00 00 B0|\
        10,end,1,1,0\n100,end,1,1,0\nshape,0\n||10,8\n100,13\n",
    // The least and the greatest APID, and the fewest and the most bits.
    "00 00 C0 00 00 01 81 A8|00 00 C0 00 00 00 80|0,end,1,1,0\n2046,end,0,0,0\nshape,0\n||0,1\r\n2046,49152\n",
    // An APID that begins with another one.
    "00 01 C0 01 00 00 82 00 0A C0 02 00 00 82||\
        1,0,0,lost,0\n1,1,1,unsynced,0\n10,0,1,lost,0\n10,2,2,unsynced,0\n1,end,1,0,0\n10,end,1,0,0\nshape,0\n||\
        1,8\n10,8\n",
    // The last count before the first one comes again: the number is written by the period.
    "00 64 FF FF 00 03 85 B8 D6 00 00 64 C0 00 00 00 82|00 64 FF FF 00 00 B0 00 64 C0 00 00 00 B0|\
        100,0,16382,lost,0\n100,end,2,2,0\nshape,0\n||100,8",
];

/// The same store, cut inside a packet.
static CUT: [&str; 6] = [
    "cut 0: 00||||100,8\n101,8\n",
    "cut 0: 00 64 C0 00 00 03 85 B8 D6||||100,8\n101,8\n",
    "cut 10: FIRST 00 65|00 64 C0 00 00 00 B0|||100,8\n101,8\n",
    "cut 10: FIRST 00 65 C0 05 00 00|00 64 C0 00 00 00 B0|||100,8\n101,8\n",
    "cut 17: FIRST 00 65 C0 05 00 00 82 00 64 C0 01 00 00|00 64 C0 00 00 00 B0|\
        101,0,4,lost,0\n101,5,5,unsynced,0\n||100,8\n101,8\n",
    "cut 24: FIRST 00 65 C0 05 00 00 82 COUNT_1 00 65 00 00 00 00|00 64 C0 00 00 00 B0 00 64 C0 01 00 00 B0|\
        101,0,4,lost,0\n101,5,5,unsynced,0\n||100,8\n101,8\n",
];

/// Side texts, and the first row of each that is wrong.
static WRONG: [Wrong; 17] = [
    ("100,8\n100,16\n", 2),
    ("2047,8", 1),
    ("-1,8", 1),
    ("0100,8", 1),
    ("100,08", 1),
    ("100,0", 1),
    ("100,49153", 1),
    ("100,4294967297", 1),
    ("100", 1),
    ("100,8,", 1),
    ("100,8,8", 1),
    ("100, 8", 1),
    ("apid,bits\n100,8", 1),
    (",", 1),
    ("100,8\n101,", 2),
    ("100,8\n\n101,8\n,8", 3),
    ("100,8\n101,8\n102,8\n101,8\n", 4),
];

/// The calls that fail. The header has 5 and 23 bytes, a packet 7, an APID with its comma 4, the first two rows 11 and 15,
/// the last ones 10 each, and the line of the shapes 8.
static FAILING: [Faults; 1] = [Faults {
    words: MULTI,
    input: Some(STORE),
    side: Some(TWO_STREAMS),
    output: RESTORED,
    report: REPORT,
    whole: "open_in 1 open_out 1: unread 0 0|open_in 2 open_out 1: unread 0 0|open_in 3: done|open_out 1: unwritten 0 0|\
        open_out 2: unwritten 0 0|open_out 3: done|read 1 open_out 1: unread 0 0|read 2 open_out 1: unread 0 0|\
        read 3: unread 0 28|read 4: unread 14 62|read 5: done|write 1: unwritten 0 0|write 2: unwritten 0 5|\
        write 3: unwritten 0 28|write 4: unwritten 7 28|write 5: unwritten 7 32|write 6: unwritten 7 43|\
        write 7: unwritten 7 47|write 8: unwritten 7 62|write 9: unwritten 14 62|write 10: unwritten 14 66|\
        write 11: unwritten 14 76|write 12: unwritten 14 80|write 13: unwritten 14 90|write 14: done|\
        finish 1: unwritten 14 98|finish 2: half|finish 3: done",
    single: "write 6: unwritten 0 5|write 28: unwritten 0 27|write 35: unwritten 6 28|write 40: unwritten 7 32|\
        write 76: unwritten 13 62|write 112: unwritten 14 97|write 113: done",
}];

#[test]
fn stores_of_streams(rt: HostRuntime) -> Result<(), Fail> {
    assert_rows(&rt, &STORES, &WHOLE)?;
    assert_rows(&rt, &STORES, &CUT)
}

#[test]
fn streams_at_each_fault(rt: HostRuntime) -> Result<(), Fail> {
    assert_faults(&rt, &FAILING)
}

#[test]
fn rules_of_streams(rt: HostRuntime) -> Result<(), Fail> {
    assert_wrong_sides(&rt, MULTI, &[], &WRONG)
}

/// The side text, the store, the output and the report of many streams, each with a packet.
#[derive(Drop)]
struct Many {
    streams: String,
    store: Vec<u8>,
    output: Vec<u8>,
    report: String,
}

fn many_streams(alloc: Global, count: u8) -> Result<Many, AllocError> {
    let mut streams = String::new(alloc);
    let mut store = Vec::new(alloc);
    let mut output = Vec::new(alloc);
    let mut report = String::from_str(alloc, "apid,first,last,cause,value\n")?;
    for apid in 0..count {
        streams.push_str(&format!(in alloc; "{apid},8\n")?)?;
        store.extend_from_slice(&[0x00, apid, 0xC0, 0x00, 0x00, 0x03, 0x85, 0xB8, 0xD6, 0x00])?;
        output.extend_from_slice(&[0x00, apid, 0xC0, 0x00, 0x00, 0x00, 0xB0])?;
        report.push_str(&format!(in alloc; "{apid},end,1,1,0\n")?)?;
    }
    report.push_str("shape,0\n")?;
    Ok(Many {
        streams,
        store,
        output,
        report,
    })
}

#[test]
fn most_streams(rt: HostRuntime) -> Result<(), Fail> {
    let most = many_streams(rt.alloc(), 64)?;
    let case = with_both(MULTI, &most.store, most.streams.as_bytes());
    assert_in_pieces(&rt, case, &done(&most.output, most.report.as_bytes()))?;
    let more = many_streams(rt.alloc(), 66)?;
    let case = with_both(MULTI, &[], more.streams.as_bytes());
    assert_refused(&rt, case, Refusal::BadSide { row: 65 })
}
