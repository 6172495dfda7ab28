//! Listings of worked stores, in whole reads and writes and in those of one byte.

use super::desk::{LIST, assert_in_pieces, done, with_input};
use super::rows::{Form, Table, assert_rows};
use super::samples::{LISTING, PLAYED};
use std::test::Fail;

/// Stores and their listings.
const STORES: Table = Table {
    words: LIST,
    input: Form::Packets,
    output: Form::Text,
    header: "",
};

/// Of packets of eight bits.
static EIGHT_BITS: [&str; 13] = [
    "|end 0 0 0\n",
    "FIRST|0 written 1 00 00 b0\nend 1 1 0\n",
    // A mask of ones.
    "00 64 C0 00 00 03 85 5C 6B 00 00 64 C0 01 00 03 85 5C 64 F0|\
        0 written 1 00 ff b0\n1 written 1 00 ff 4f\nend 2 2 0\n",
    // A lost packet and a repeat.
    "FIRST 00 64 C0 02 00 03 85 B8 D6 00 00 64 C0 02 00 03 85 B8 D6 00|\
        0 written 1 00 00 b0\n1-1 lost\n2 written 1 00 00 b0\n2 repeat\nend 3 2 1\n",
    // Levels too small for what was lost, up to a packet that stands alone.
    "00 64 C0 00 00 03 85 B8 C0 00 00 64 C0 01 00 03 42 4B 8C 02 00 64 C0 04 00 01 87 80 00 64 C0 05 00 01 8B 80 \
        00 64 C0 06 00 04 8D 60 5C 60 30|\
        0 written 1 00 00 00\n1 written 1 01 01 01\n2-3 lost\n4 gap 1\n5 gap 2\n6 written 3 00 03 03\nend 5 3 0\n",
    // A listed packet, and one whose level reaches over it.
    "FIRST 00 64 C0 02 00 00 82 00 64 C0 03 00 00 8A|\
        0 written 1 00 00 b0\n1-1 lost\n2 gap 0\n3 written 2 00 00 b0\nend 3 2 0\n",
    // With nothing known.
    "00 64 C0 05 00 00 82|0-4 lost\n5 unsynced\nend 1 0 0\n",
    // Each number is the least above the one before that the count allows, up to 16,383 above it; the same count is a repeat.
    "00 64 C0 03 00 00 82 00 64 C0 03 00 00 82 00 64 C0 04 00 00 82 SAME_LAST_COUNT COUNT_0 SAME_LAST_COUNT \
        SAME_LAST_COUNT 00 64 FF FE 00 00 82|\
        0-2 lost\n3 unsynced\n3 repeat\n4 unsynced\n5-16382 lost\n16383 unsynced\n16384 unsynced\n16385-32766 lost\n\
        32767 unsynced\n32767 repeat\n32768-49149 lost\n49150 unsynced\nend 8 0 2\n",
    // Whole content whose mask is not known, and then a mask under which that content is.
    "00 64 C0 00 00 03 81 B8 C0 00 00 64 C0 03 00 03 80 E3 01 80 00 64 C0 04 00 02 85 60 44 00 64 C0 05 00 01 8A \
        80|0 written 0 00 00 00\n1-2 lost\n3 written 0 00 - 03\n4 written 1 00 03 02\n5 written 2 00 03 02\nend 4 \
        4 0\n",
    // A mask whose extracted bits tell no content, and then whole content.
    "00 64 C0 00 00 03 81 B8 C0 00 00 64 C0 03 00 02 81 60 4C 00 64 C0 04 00 03 84 E3 01 00 00 64 C0 05 00 01 8A \
        80|\
        0 written 0 00 00 00\n1-2 lost\n3 gap 0 mask 03\n4 written 1 00 03 02\n5 written 2 00 03 02\nend 4 3 0\n",
    "00 64 C0 05 00 02 85 60 44|0-4 lost\n5 unsynced mask 03\nend 1 0 0\n",
    // Data with a wrong bit, and data that end early.
    "FIRST 00 64 C0 01 00 01 43 00|0 written 1 00 00 b0\n1 wrong 8\nend 2 1 0\n",
    "FIRST 00 64 C0 01 00 00 43|0 written 1 00 00 b0\n1 early 8\nend 2 1 0\n",
];

/// Of other packets, with the words after the first one.
static OTHERS: [&str; 2] = [
    "07 FF C0 00 00 00 00 00 64 C0 00 00 03 81 B9 62 47|0 written 0 0000 0000 1238\nend 1 1 0\n||\
        in=a out=b bits=13 apid=100",
    "00 64 C0 00 00 01 81 A8 00 64 C0 01 00 01 42 80 00 64 C0 02 00 00 83|\
        0 written 0 00 00 80\n1 written 1 80 80 00\n2 written 0 00 80 80\nend 3 3 0\n||apid=100 bits=1 out=b in=a",
];

/// Stores, the packet at which each is wrong and how, and the lines that stand before it.
static FAULTY: [&str; 3] = [
    "cut 10: FIRST 00 64 C0|0 written 1 00 00 b0\n",
    "version 0: 20 64 C0 00 00 00 00",
    "shape 7: 00 64 C0 05 00 00 82 18 64 C0 00 00 09 82|0-4 lost\n5 unsynced\n",
];

#[test]
fn listings(rt: HostRuntime) -> Result<(), Fail> {
    assert_in_pieces(&rt, with_input(LIST, PLAYED), &done(LISTING, &[]))?;
    assert_rows(&rt, &STORES, &EIGHT_BITS)?;
    let words = "show ";
    assert_rows(&rt, &Table { words, ..STORES }, &OTHERS)
}

#[test]
fn faulty_listings(rt: HostRuntime) -> Result<(), Fail> {
    assert_rows(&rt, &STORES, &FAULTY)
}
