//! Worked recordings with their stores, and recordings that are refused.

use super::rows::{Form, Table, assert_rows};
use std::test::Fail;

/// Recordings and their stores.
const RUNS: Table = Table {
    words: "compress in=a out=b bits=8 apid=100 robust=",
    input: Form::Packets,
    output: Form::Packets,
    header: "",
};

/// Of packets of eight bits, with the words from the required robustness on, and the schedule.
static EIGHT_BITS: [&str; 10] = [
    "|||1|",
    // Two forced packets, a quiet one, and one with a change: 37 bytes.
    "B0 B1 B1 B3|FIRST SECOND THIRD FOURTH||1|",
    // Two new masks, of which the second clears a place, so that it is extracted again.
    "00 01 01 01 01 01|00 64 C0 00 00 03 85 B8 C0 00 00 64 C0 01 00 03 42 4B 8C 02 00 64 C0 02 00 01 44 C0 00 64 \
        C0 03 00 00 87 00 64 C0 04 00 00 8B 00 64 C0 05 00 01 47 F0||1 plan=s|3,5,2,p",
    // A first mask.
    "A5 A6|00 64 C0 00 00 04 81 61 5C 6A 50 00 64 C0 01 00 01 86 C0||0 mask=0f|",
    // Equal inputs: the level rises to 15, and from then on each packet is the one before, but if the input changes at a
    // place of the mask, if mask and whole content are sent, and after that.
    "A6 A6 A6 A6 A6 A6 A6 A6 A6 A6 A6 A6 A6 A6 A6 A6 A6 A6 A7 A7 A6 A6 A6 A6|00 64 C0 00 00 04 81 61 5C 6A 60 00 64 C0 \
        01 00 01 86 C0 00 64 C0 02 00 01 8A C0 00 64 C0 03 00 01 8E C0 00 64 C0 04 00 01 92 C0 00 64 C0 05 00 01 96 C0 \
        00 64 C0 06 00 01 9A C0 00 64 C0 07 00 01 9E C0 00 64 C0 08 00 01 A2 C0 00 64 C0 09 00 01 A6 C0 00 64 C0 0A 00 \
        01 AA C0 00 64 C0 0B 00 01 AE C0 00 64 C0 0C 00 01 B2 C0 00 64 C0 0D 00 01 B6 C0 00 64 C0 0E 00 01 BA C0 00 64 \
        C0 0F 00 01 BE C0 00 64 C0 10 00 01 BE C0 00 64 C0 11 00 01 BE C0 00 64 C0 12 00 01 BF C0 00 64 C0 13 00 01 BF \
        C0 00 64 C0 14 00 01 BE C0 00 64 C0 15 00 04 BD 61 5C 6A 60 00 64 C0 16 00 01 BE C0 00 64 C0 17 00 01 BE C0||0 \
        mask=0f plan=s|21,21,1,fr",
    // Level 0, which says nothing of directions.
    "00 01 03|00 64 C0 00 00 03 81 B8 C0 00 00 64 C0 01 00 01 42 C0 00 64 C0 02 00 02 C0 83 80||0|",
    // The last packet stands alone.
    "00 01 03 03 03 03 03|00 64 C0 00 00 03 85 B8 C0 00 00 64 C0 01 00 03 42 4B 8C 02 00 64 C0 02 00 01 22 70 \
        FOURTH 00 64 C0 04 00 01 87 80 00 64 C0 05 00 01 8B 80 00 64 C0 06 00 04 8D 60 5C 60 30||1 plan=s|6,6,1,fr",
    // Two packets require more than the others, the first of which is forced by it.
    "00 01 03 03|00 64 C0 00 00 03 81 B8 C0 00 00 64 C0 01 00 01 42 C0 00 64 C0 02 00 04 22 2C 0B 8C 06 00 64 C0 \
        03 00 01 23 70||0 plan=s|robust,2,3,1,2",
    // Each packet is forced by its own value: those that require less than their number are not, a later one is.
    "00 01 03 03 03 07 07|00 64 C0 00 00 03 81 B8 C0 00 00 64 C0 01 00 01 42 C0 00 64 C0 02 00 02 C0 83 80 00 64 \
        C0 03 00 01 23 70 00 64 C0 04 00 02 C0 89 C0 00 64 C0 05 00 04 13 16 0D C6 07 00 64 C0 06 00 02 C1 8D E0||\
        2 plan=s|robust,0,2,1,0\nrobust,5,5,1,6",
    // Rows of both kinds over the same packets: flags are joined, and of the robustness the last row decides.
    "00 01 01 03 03 03 03 03|00 64 C0 00 00 03 85 B8 C0 00 00 64 C0 01 00 03 42 4B 8C 02 00 64 C0 02 00 03 46 4B \
        8C 02 00 64 C0 03 00 04 23 2C 0B 8C 06 00 64 C0 04 00 02 81 60 4C 00 64 C0 05 00 04 23 F6 E3 01 80 00 64 \
        C0 06 00 01 81 80 00 64 C0 07 00 02 23 F6 60||1 plan=s|\
        0,9,1,f\nrobust,2,9,1,3\n4,5,1,p\nrobust,4,6,2,0\n5,5,1,r",
];

/// Of other packets, with the words after the first one.
static OTHERS: [&str; 4] = [
    // A first mask, in digits of the other case.
    "A5 A6|00 64 C0 00 00 04 81 61 5C 6A 50 00 64 C0 01 00 01 86 C0||mask=0F in=a out=b bits=8 apid=100 robust=0|",
    "80 00 80|00 64 C0 00 00 01 81 A8 00 64 C0 01 00 01 42 80 00 64 C0 02 00 00 83||\
        in=a out=b bits=1 apid=100 robust=0|",
    "12 38|00 64 C0 00 00 03 81 B9 62 47||in=a out=b bits=13 apid=100 robust=0|",
    // The greatest APID.
    "B0|07 FE C0 00 00 03 85 B8 D6 00||in=a out=b bits=8 apid=2046 robust=1|",
];

/// Recordings of packets of 13 bits, of which the last packet is cut, or one has a spare bit: what comes first decides, and
/// the packets before it stand.
static FAULTY: [&str; 7] = [
    "record 0: 12||||",
    "spare 0: 12 34||||",
    "spare 0: 12 39||||",
    "spare 0: 12 34 12||||",
    "record 1: 12 38 12|00 64 C0 00 00 03 81 B9 62 47|||",
    "spare 1: 12 38 12 34|00 64 C0 00 00 03 81 B9 62 47|||",
    "spare 1: 12 38 12 3C 12|00 64 C0 00 00 03 81 B9 62 47|||",
];

#[test]
fn recordings(rt: HostRuntime) -> Result<(), Fail> {
    assert_rows(&rt, &RUNS, &EIGHT_BITS)?;
    let words = "compress ";
    assert_rows(&rt, &Table { words, ..RUNS }, &OTHERS)?;
    let words = "compress in=a out=b bits=13 apid=100 robust=0";
    assert_rows(&rt, &Table { words, ..RUNS }, &FAULTY)
}
