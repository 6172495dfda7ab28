//! Worked stores, in whole reads and writes and in those of one byte.

use super::desk::{EIGHT_BITS, HEADER};
use super::rows::{Form, Table, assert_rows};
use std::test::Fail;

/// Stores, the packets that are restored, and the report.
const STORES: Table = Table {
    words: EIGHT_BITS,
    input: Form::Packets,
    output: Form::Packets,
    header: HEADER,
};

/// Of packets of eight bits.
static WHOLE: [&str; 15] = [
    "||end,0,0,0\n",
    "FIRST|B0|end,1,1,0\n",
    // A mask of ones.
    "00 64 C0 00 00 03 85 5C 6B 00 00 64 C0 01 00 03 85 5C 64 F0|B0 4F|end,2,2,0\n",
    // Nothing but the level is sent.
    "FIRST 00 64 C0 01 00 00 82|B0 B0|end,2,2,0\n",
    // A lost packet and a repeat.
    "FIRST 00 64 C0 02 00 03 85 B8 D6 00 00 64 C0 02 00 03 85 B8 D6 00|B0 B0|1,1,lost,0\nend,3,2,1\n",
    // Two forced packets, and two with recent changes.
    "FIRST SECOND THIRD FOURTH|B0 B1 B1 B3|end,4,4,0\n",
    // The same without the third.
    "FIRST SECOND FOURTH|B0 B1 B3|2,2,lost,0\nend,3,3,0\n",
    // A first mask of zeros and ones.
    "00 64 C0 00 00 04 81 61 5C 6A 50 00 64 C0 01 00 01 86 C0|A5 A6|end,2,2,0\n",
    // Level 0, so that the mask turns at the changes.
    "00 64 C0 00 00 03 81 B8 C0 00 00 64 C0 01 00 01 42 C0 00 64 C0 02 00 02 C0 83 80|00 01 03|end,3,3,0\n",
    // Levels too small for what was lost, up to a packet that stands alone.
    "00 64 C0 00 00 03 85 B8 C0 00 00 64 C0 01 00 03 42 4B 8C 02 00 64 C0 04 00 01 87 80 00 64 C0 05 00 01 8B 80 \
        00 64 C0 06 00 04 8D 60 5C 60 30|00 01 03|2,3,lost,0\n4,4,gap,1\n5,5,gap,2\nend,5,3,0\n",
    // A listed packet, and one whose level reaches over it.
    "FIRST 00 64 C0 02 00 00 82 00 64 C0 03 00 00 8A|B0 B0|1,1,lost,0\n2,2,gap,0\nend,3,2,0\n",
    // With nothing known.
    "00 64 C0 05 00 00 82||0,4,lost,0\n5,5,unsynced,0\nend,1,0,0\n",
    // Data with a wrong bit, and data that end early.
    "FIRST 00 64 C0 01 00 01 43 00|B0|1,1,wrong,8\nend,2,1,0\n",
    "FIRST 00 64 C0 01 00 00 43|B0|1,1,early,8\nend,2,1,0\n",
    // An idle packet and a telecommand of another APID before the packet.
    "07 FF C0 00 00 00 00 18 05 C0 00 00 01 AA BB FIRST|B0|end,1,1,0\n",
];

/// Of other packets, with the words after the first one.
static OTHERS: [&str; 2] = [
    "00 64 C0 00 00 03 81 B9 62 47|12 38|end,1,1,0\n|bits=13 apid=100 report=c out=b in=a",
    "00 64 C0 00 00 01 81 A8 00 64 C0 01 00 01 42 80 00 64 C0 02 00 00 83|80 00 80|end,3,3,0\n|\
        bits=1 apid=100 report=c out=b in=a",
];

/// Stores, the packet at which each is wrong and how, and the packets that stand before it.
static FAULTY: [&str; 6] = [
    "cut 0: 00 64 C0 00 00 03 85 B8 D6",
    "cut 10: FIRST 00 64 C0|B0",
    "cut 0: 00 64 C0 00 00 03 85",
    "version 0: 20 64 C0 00 00 00 00",
    "shape 0: 00 64 00 00 00 00 82",
    // Another version is refused on another APID too, and the shape before the length is looked at.
    "shape 10: FIRST 18 64 C0 00 00 09 82|B0",
];

#[test]
fn whole_stores(rt: HostRuntime) -> Result<(), Fail> {
    assert_rows(&rt, &STORES, &WHOLE)?;
    let words = "restore ";
    assert_rows(&rt, &Table { words, ..STORES }, &OTHERS)
}

#[test]
fn faulty_stores(rt: HostRuntime) -> Result<(), Fail> {
    assert_rows(&rt, &STORES, &FAULTY)
}
