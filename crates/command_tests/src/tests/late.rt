//! Packets that come late: worked orders, and what stands if a call fails or the store is cut.

use super::desk::HEADER;
use super::faults::{Faults, assert_faults};
use super::rows::{Form, Table, assert_rows};
use std::test::Fail;

/// The words but for the window.
pub const LATE: &str = "late in=a out=b report=c bits=8 apid=100 window=";

/// Packets in the order of arrival, what is restored, the report and the window.
const ORDERS: Table = Table {
    words: LATE,
    input: Form::Packets,
    output: Form::Packets,
    header: HEADER,
};

static WHOLE: [&str; 15] = [
    "FIRST THIRD SECOND FOURTH|B0 B1 B1 B3|end,4,4,0\nlate,0\n|1",
    "FIRST THIRD SECOND FOURTH|B0 B1 B3|1,1,lost,0\nend,3,3,0\nlate,1\n|0",
    "||end,0,0,0\nlate,0\n|0",
    "FIRST SECOND THIRD FOURTH|B0 B1 B1 B3|end,4,4,0\nlate,0\n|0",
    "FIRST SECOND THIRD FOURTH|B0 B1 B1 B3|end,4,4,0\nlate,0\n|64",
    "FOURTH THIRD SECOND FIRST|B0 B1 B1 B3|end,4,4,0\nlate,0\n|3",
    // The first packet comes after three with greater numbers.
    "FOURTH THIRD SECOND FIRST|B1 B1 B3|0,0,lost,0\nend,3,3,0\nlate,1\n|2",
    // Packets of another APID are passed over.
    "IDLE FIRST IDLE THIRD IDLE SECOND FOURTH IDLE|B0 B1 B1 B3|end,4,4,0\nlate,0\n|1",
    // Repeats within the window and beyond it.
    "FIRST SECOND FIRST THIRD FOURTH|B0 B1 B1 B3|end,5,4,1\nlate,0\n|1",
    "FIRST SECOND THIRD FIRST FOURTH|B0 B1 B1 B3|end,4,4,0\nlate,1\n|1",
    "FIRST FIRST SECOND SECOND|B0 B1|end,4,2,2\nlate,0\n|0",
    // Counts across the period.
    "LAST_COUNT COUNT_1 COUNT_0|B0 B0 B0|0,16382,lost,0\nend,3,3,0\nlate,0\n|1",
    "LAST_COUNT COUNT_1 COUNT_0|B0|0,16382,lost,0\n16384,16384,lost,0\n16385,16385,gap,0\nend,2,1,0\nlate,1\n|0",
    // No number is below 0.
    "SECOND SAME_LAST_COUNT|B1|0,0,lost,0\n2,16382,lost,0\n16383,16383,gap,0\nend,2,1,0\nlate,0\n|3",
    // Nothing is known when the first one comes.
    "COUNT_1||0,0,lost,0\n1,1,unsynced,0\nend,1,0,0\nlate,0\n|2",
];

/// Stores that end inside their last packet, what stands of each, and the byte at which that packet begins.
static CUT: [&str; 5] = [
    "cut 28: FIRST THIRD SECOND 00 64|B0 B1||1",
    "cut 28: FIRST THIRD SECOND 00 64|B0 B1|1,1,lost,0\n|0",
    "cut 28: FIRST THIRD SECOND 00 64|B0||2",
    "cut 28: FIRST THIRD SECOND 00 64|||3",
    "cut 0: 00 64|||5",
];

/// The packets of the first order, which end at the bytes 10, 18, 28 and 37.
const SWAPPED: &[u8] = &[
    0x00, 0x64, 0xC0, 0x00, 0x00, 0x03, 0x85, 0xB8, 0xD6, 0x00, //
    0x00, 0x64, 0xC0, 0x02, 0x00, 0x01, 0x44, 0xC0, //
    0x00, 0x64, 0xC0, 0x01, 0x00, 0x03, 0x42, 0x4B, 0x8D, 0x62, //
    0x00, 0x64, 0xC0, 0x03, 0x00, 0x02, 0xC0, 0x85, 0xC0,
];

const BY_ONE: &str = "late in=a out=b report=c bits=8 apid=100 window=1";

const RESTORED: &[u8] = &[0xB0, 0xB1, 0xB1, 0xB3];

const REPORT: &[u8] = b"first,last,cause,value\nend,4,4,0\nlate,0\n";

/// The calls that fail. The rows of the report end at the bytes 23, 33 and 40.
static FAILING: [Faults; 1] = [Faults {
    words: BY_ONE,
    input: Some(SWAPPED),
    side: None,
    output: RESTORED,
    report: REPORT,
    whole: "open_in 1 open_out 1: unread 0 0|open_in 2: done|open_out 1: unwritten 0 0|open_out 2: unwritten 0 0|\
        open_out 3: done|read 1: unread 0 23|read 2: unread 3 23|read 3: done|write 1: unwritten 0 0|\
        write 2: unwritten 0 23|write 3: unwritten 1 23|write 4: unwritten 2 23|write 5: unwritten 3 23|\
        write 6: unwritten 4 23|write 7: unwritten 4 33|write 8: done|finish 1: unwritten 4 40|finish 2: half|\
        finish 3: done",
    single: "read 1: unread 0 23|read 18: unread 0 23|read 19: unread 1 23|read 28: unread 1 23|read 29: unread 2 23|\
        read 37: unread 2 23|read 38: unread 3 23|read 39: done|write 23: unwritten 0 22|write 37: unwritten 4 32|\
        write 44: unwritten 4 39|write 45: done",
}];

#[test]
fn late_packets(rt: HostRuntime) -> Result<(), Fail> {
    assert_rows(&rt, &ORDERS, &WHOLE)
}

#[test]
fn cut_stores_of_late_packets(rt: HostRuntime) -> Result<(), Fail> {
    assert_rows(&rt, &ORDERS, &CUT)
}

#[test]
fn late_packets_at_each_fault(rt: HostRuntime) -> Result<(), Fail> {
    assert_faults(&rt, &FAILING)
}
