//! Tables of worked recordings, the rules of their side texts, and what stands if a call fails.

use super::desk::{answer_to, assert_in_pieces, done, with_both};
use super::faults::{Faults, assert_faults};
use super::rows::{Form, Table, Wrong, assert_rows, assert_wrong_sides};
use pocket_cmd::{Refusal, Status};
use std::alloc::{AllocError, Global};
use std::test::Fail;

const SIXTEEN_BITS: &str = "table in=a out=b report=c fields=s bits=16";

const FIELDS: &[u8] = b"field,0,8,u,mode\nfield,8,8,s,temp\nlimit,temp,-10,40\n";

const RECORDING: &[u8] = &[0x01, 0xF0, 0x02, 0x28];

const TABLE: &[u8] = b"t,mode,temp\n0,1,-16\n1,2,40\n";

const REPORT: &[u8] = b"t,name,value,low,high\n0,temp,-16,-10,40\nend,2,1\n";

/// Recordings with their tables and reports, the number of bits, and the fields.
const RUNS: Table = Table {
    words: "table in=a out=b report=c fields=s bits=",
    input: Form::Packets,
    output: Form::Text,
    header: "t,name,value,low,high\n",
};

static WHOLE: [&str; 8] = [
    "|t,mode\n|end,0,0\n|16|field,0,8,u,mode\nlimit,mode,1,2\n",
    // No field.
    "01 F0 02 28|t\n0\n1\n|end,2,0\n|16|\n",
    // A value at its limit is within it, and one beside it is not.
    "00 00 00 01 00 03 00 04|t,a\n0,0\n1,1\n2,3\n3,4\n|0,a,0,1,3\n3,a,4,1,3\nend,4,2\n|16|\
        field,0,16,u,a\nlimit,a,1,3",
    // By packet and then by field, whatever the order of the limits is.
    "40 00 80 00|t,a,b,c\n0,0,-1,1\n1,1,0,-2\n|0,a,0,1,1\n0,b,-1,0,0\n1,c,-2,0,1\nend,2,3\n|16|\
        field,0,1,u,a\nfield,1,1,s,b\nfield,0,2,s,c\nlimit,c,0,1\nlimit,b,0,0\nlimit,a,1,1\n",
    // The least and the greatest numbers, within the widest limits and beside narrower ones.
    "FF FF FF FF FF FF FF FF 80 00 00 00 00 00 00 00 7F FF FF FF FF FF FF FF|t,U,S\n0,18446744073709551615,-1\n\
        1,9223372036854775808,-9223372036854775808\n2,9223372036854775807,9223372036854775807\n|end,3,0\n|64|\
        field,0,64,u,U\nfield,0,64,s,S\nlimit,U,0,18446744073709551615\n\
        limit,S,-9223372036854775808,9223372036854775807\n",
    "FF FF FF FF FF FF FF FF 80 00 00 00 00 00 00 00 7F FF FF FF FF FF FF FF|t,U,S\n0,18446744073709551615,-1\n\
        1,9223372036854775808,-9223372036854775808\n2,9223372036854775807,9223372036854775807\n|\
        0,U,18446744073709551615,1,18446744073709551614\n\
        1,S,-9223372036854775808,-9223372036854775807,9223372036854775806\n\
        2,S,9223372036854775807,-9223372036854775807,9223372036854775806\nend,3,3\n|64|field,0,64,u,U\n\
        field,0,64,s,S\nlimit,U,1,18446744073709551614\nlimit,S,-9223372036854775807,9223372036854775806\n",
    // Fields over the places 64 and 128, and one that ends at the last place.
    "00 00 00 00 00 00 00 0A 50 00 00 00 00 00 00 01 80|t,a,b,c,d\n0,165,-6557241057451442176,-1,384\n|end,1,0\n|\
        136|field,60,8,u,a\nfield,60,64,s,b\nfield,127,2,s,c\nfield,72,64,u,d\n",
    // Quotes, and lines with no record.
    "00 01|t,Z_9\n0,-1\n|0,Z_9,-1,0,0\nend,1,1\n|16|\u{feff}\n\n\"field\",15,\"1\",s,Z_9\r\n\nlimit,Z_9,0,\"0\"",
];

/// One of packets of 13 bits.
static OF_THIRTEEN_BITS: [&str; 1] = [
    "12 38 12 38|t,all,last\n0,583,-1\n1,583,-1\n|end,2,0\n||field,0,13,u,all\nfield,12,1,s,last\n",
];

/// Recordings of packets of 13 bits, what is wrong with each, and the lines that stand before it.
static FAULTY: [&str; 3] = [
    "record 0: 12|t,all\n|||field,0,13,u,all",
    "record 1: 12 38 12|t,all\n0,583\n|||field,0,13,u,all",
    "spare 1: 12 38 12 34 12 38|t,all\n0,583\n|||field,0,13,u,all",
];

/// Side texts for packets of 16 bits that are right.
static RIGHT: [&str; 6] = [
    "field,0,16,u,a\nlimit,a,-10,40\n",
    "field,0,1,u,abcdefghijklmnopqrstuvwxyz_01234",
    "field,0,1,u,x\nfield,1,1,u,X\n",
    "field,0,1,u,x\nlimit,x,-2,-1\n",
    "field,0,1,u,x\nlimit,x,0,0\n",
    "field,0,1,u,x\nlimit,x,-9223372036854775808,18446744073709551615\n",
];

/// Side texts for packets of 16 bits, and the first row of each that is wrong.
static WRONG: [Wrong; 42] = [
    ("field,9,8,u,x\n", 1),
    ("field,16,1,u,x\n", 1),
    ("field,0,0,u,x\n", 1),
    ("field,0,17,u,x\n", 1),
    ("field,00,1,u,x\n", 1),
    ("field,0,+1,u,x\n", 1),
    ("field,-0,1,u,x\n", 1),
    ("field,99999999999999999999,1,u,x\n", 1),
    ("field,0,99999999999999999999,u,x\n", 1),
    ("field,0,1,x,x\n", 1),
    ("field,0,1,,x\n", 1),
    ("field,0,1,us,x\n", 1),
    ("field,0,1,U,x\n", 1),
    ("field,0,1,u,\n", 1),
    ("field,0,1,u,9x\n", 1),
    ("field,0,1,u,_x\n", 1),
    ("field,0,1,u,x-y\n", 1),
    ("field,0,1,u,\u{e9}\n", 1),
    ("field,0,1,u,abcdefghijklmnopqrstuvwxyz_012345\n", 1),
    ("field,0,1,u\n", 1),
    ("field,0,1,u,x,y\n", 1),
    ("Field,0,1,u,x\n", 1),
    ("bits,0,1,u,x\n", 1),
    ("field,0,1,u,x\n,\n", 2),
    ("field,0,1,u,x\n\nfield,1,1,u,x\n", 2),
    ("limit,x,0,1\nfield,0,1,u,x\n", 1),
    ("field,0,1,u,x\nlimit,y,0,1\n", 2),
    ("field,0,1,u,x\nlimit,x,0,1\nlimit,x,0,1\n", 3),
    ("field,0,1,u,x\nlimit,x,1,0\n", 2),
    ("field,0,1,u,x\nlimit,x,-1,-2\n", 2),
    ("field,0,1,u,x\nlimit,x,-0,0\n", 2),
    ("field,0,1,u,x\nlimit,x,-05,7\n", 2),
    ("field,0,1,u,x\nlimit,x,05,7\n", 2),
    ("field,0,1,u,x\nlimit,x,+5,7\n", 2),
    ("field,0,1,u,x\nlimit,x,5,\n", 2),
    ("field,0,1,u,x\nlimit,x,-,7\n", 2),
    ("field,0,1,u,x\nlimit,x,1 ,7\n", 2),
    ("field,0,1,u,x\nlimit,x,5\n", 2),
    ("field,0,1,u,x\nlimit,x,5,7,9\n", 2),
    ("field,0,1,u,x\nlimit,x,-9223372036854775809,0\n", 2),
    ("field,0,1,u,x\nlimit,x,0,18446744073709551616\n", 2),
    ("field,0,1,u,x\nlimit,x,-99999999999999999999999,0\n", 2),
];

/// The calls that fail: the two lines that come first have 12 and 22 bytes, packet 0 a line of 8 and a row of 18, packet 1
/// a line of 7, and the last row has 8.
static FAILING: [Faults; 1] = [Faults {
    words: SIXTEEN_BITS,
    input: Some(RECORDING),
    side: Some(FIELDS),
    output: TABLE,
    report: REPORT,
    whole: "open_in 1 open_out 1: unread 0 0|open_in 2 open_out 1: unread 0 0|open_in 3: done|open_out 1: unwritten 0 0|\
        open_out 2: unwritten 0 0|open_out 3: done|read 1 open_out 1: unread 0 0|read 2 open_out 1: unread 0 0|\
        read 3: unread 12 22|read 4: unread 27 40|read 5: done|write 1: unwritten 0 0|write 2: unwritten 12 0|\
        write 3: unwritten 12 22|write 4: unwritten 20 22|write 5: unwritten 20 40|write 6: unwritten 27 40|\
        write 7: done|finish 1: unwritten 27 48|finish 2: half|finish 3: done",
    single: "write 12: unwritten 11 0|write 34: unwritten 12 21|write 42: unwritten 19 22|write 60: unwritten 20 39|\
        write 67: unwritten 26 40|write 75: unwritten 27 47|write 76: done",
}];

#[test]
fn tables(rt: HostRuntime) -> Result<(), Fail> {
    let worked = with_both(SIXTEEN_BITS, RECORDING, FIELDS);
    assert_in_pieces(&rt, worked, &done(TABLE, REPORT))?;
    assert_rows(&rt, &RUNS, &WHOLE)?;
    let words = "table bits=13 fields=s report=c out=b in=a";
    assert_rows(&rt, &Table { words, ..RUNS }, &OF_THIRTEEN_BITS)?;
    assert_rows(&rt, &Table { words, ..RUNS }, &FAULTY)
}

#[test]
fn tables_at_each_fault(rt: HostRuntime) -> Result<(), Fail> {
    assert_faults(&rt, &FAILING)
}

/// A text with so many fields of one bit.
fn many_fields(alloc: Global, count: u32) -> Result<String, AllocError> {
    let mut text = String::new(alloc);
    for number in 0..count {
        let row = format!(in alloc; "field,{},1,u,n{number}\n", number % 16)?;
        text.push_str(&row)?;
    }
    Ok(text)
}

/// What is answered to a text with a recording of no bytes.
fn answer_of(alloc: Global, text: &str) -> Result<Status, Fail> {
    answer_to(alloc, &with_both(SIXTEEN_BITS, &[], text.as_bytes()))
}

#[test]
fn rules_of_fields(rt: HostRuntime) -> Result<(), Fail> {
    for text in &RIGHT {
        assert_eq!(rt; answer_of(rt.alloc(), text)?, Status::Done, "{text}");
    }
    assert_wrong_sides(&rt, SIXTEEN_BITS, &[], &WRONG)?;
    let most = many_fields(rt.alloc(), 256)?;
    assert_eq!(rt; answer_of(rt.alloc(), &most)?, Status::Done);
    let more = many_fields(rt.alloc(), 257)?;
    let refusal = Refusal::BadSide { row: 257 };
    assert_eq!(rt; answer_of(rt.alloc(), &more)?, Status::Refused(refusal));
    Ok(())
}
