//! Texts of schedules and scripts, as both commands take them.

use super::desk::{BY_SCRIPT, Case, assert_ending, bytes_of, done, with_both};
use super::rows::{Wrong, assert_refused, assert_wrong_sides};
use super::samples::{PLAY_REPORT, PLAYED, STORE};
use pocket_cmd::Refusal;
use std::test::Fail;

const BY_PLAN: &str = "compress in=a out=b bits=8 apid=100 robust=1 plan=s";

/// A recording whose store shows at which packets there are new masks.
const RECORDING: &[u8] = &[0x00, 0x01, 0x01, 0x01, 0x01, 0x01];

/// Packets 3 and 5 have new masks.
const RENEWED: &str =
    "00 64 C0 00 00 03 85 B8 C0 00 00 64 C0 01 00 03 42 4B 8C 02 00 64 C0 02 00 01 44 C0 \
    00 64 C0 03 00 00 87 00 64 C0 04 00 00 8B 00 64 C0 05 00 01 47 F0";

/// No packet has a new mask.
const STEADY: &str =
    "00 64 C0 00 00 03 85 B8 C0 00 00 64 C0 01 00 03 42 4B 8C 02 00 64 C0 02 00 01 44 C0 \
    00 64 C0 03 00 00 87 00 64 C0 04 00 00 8B 00 64 C0 05 00 00 8F";

/// Schedules, and the store that each makes.
static SCHEDULES: [(&str, &str); 10] = [
    ("", STEADY),
    // The first two carry mask and content whatever a schedule says, and have no new mask.
    ("0,1,1,prf\r\n\r\n6,4294967295,4294967295,p", STEADY),
    ("3,5,2,p", RENEWED),
    ("\u{feff}3,5,2,p\r\n", RENEWED),
    ("\n5,5,1,p\r\n\r\n3,3,4294967295,p\r3,3,1,p", RENEWED),
    ("\"3\",5,\"2\",\"p\"\r\n", RENEWED),
    // An open quote runs to the end, and text after a closing one is kept.
    ("3,5,2,\"p", RENEWED),
    ("3,\"\"5,2,p", RENEWED),
    // What the rows require is what is required without them.
    ("robust,0,9,1,7\r\n\"robust\",0,4294967295,1,\"1\"", STEADY),
    ("robust,0,9,1,1\n3,5,2,p", RENEWED),
];

/// Schedules, and the first row of each that is wrong.
static WRONG_SCHEDULES: [Wrong; 23] = [
    ("1,5,0,p", 1),
    ("0,9,1,f\n5,9,1,pp", 2),
    ("\n\n1,5,0,p", 1),
    ("\u{feff}\u{feff}3,5,2,p", 1),
    ("3,5,2", 1),
    ("3,5,2,p,1", 1),
    ("3,5,2,", 1),
    ("3,5,2,P", 1),
    ("3,5,2,p ", 1),
    ("03,5,2,p", 1),
    ("00,5,1,p", 1),
    ("+3,5,2,p", 1),
    ("5,3,1,p", 1),
    ("3,4294967296,2,p", 1),
    ("\"3,5,2,p\n3,5,2,p\n", 1),
    ("3,5,2,p\r\n3,5,2,p\r\n\r\n3,5,0,p\r\n5,3,1,p\r\n", 3),
    ("robust,0,9,1,8", 1),
    ("robust,0,9,1", 1),
    ("robust,0,9,1,1,1", 1),
    ("robust,9,8,1,1", 1),
    ("robust,0,9,0,1", 1),
    ("0,9,1,p\nRobust,0,9,1,1", 2),
    ("robust,0,9,1,1\n0,9,1,p\nrobust,0,9,1,-1", 3),
];

/// Scripts that drop the third of four packets.
static SCRIPTS: [&str; 3] = [
    "\u{feff}drop,2,2,4294967295\r\n",
    "\"drop\",\"2\",2,\"1",
    "\n\nrepeat,2,2,1,8\r\r\ndrop,2,3,2\r",
];

/// Scripts, and the first row of each that is wrong.
static WRONG_SCRIPTS: [Wrong; 12] = [
    ("repeat,0,3,1,9", 1),
    ("repeat,0,3,1,0", 1),
    ("repeat,0,3,1", 1),
    ("repeat,0,3,0,1", 1),
    ("drop,2,2,1,1", 1),
    ("drop,2,2", 1),
    ("drop,3,2,1", 1),
    ("drop,02,2,1", 1),
    ("drop,2,4294967296,1", 1),
    ("Drop,2,2,1", 1),
    ("\"drop,2,2,1\n", 1),
    ("drop,2,2,1\r\n\r\nDrop,2,2,1\r\nkeep", 2),
];

fn planned(text: &[u8]) -> Case<'_> {
    with_both(BY_PLAN, RECORDING, text)
}

#[test]
fn schedules(rt: HostRuntime) -> Result<(), Fail> {
    for (text, store) in &SCHEDULES {
        let store = bytes_of(rt.alloc(), store)?;
        assert_ending(&rt, &planned(text.as_bytes()), &done(&store, &[]))?;
    }
    assert_wrong_sides(&rt, BY_PLAN, RECORDING, &WRONG_SCHEDULES)
}

#[test]
fn scripts(rt: HostRuntime) -> Result<(), Fail> {
    let wanted = done(PLAYED, PLAY_REPORT);
    for text in &SCRIPTS {
        let case = with_both(BY_SCRIPT, STORE, text.as_bytes());
        assert_ending(&rt, &case, &wanted)?;
    }
    assert_wrong_sides(&rt, BY_SCRIPT, STORE, &WRONG_SCRIPTS)
}

#[test]
fn long_texts(rt: HostRuntime) -> Result<(), Fail> {
    let store = bytes_of(rt.alloc(), STEADY)?;
    let lines = vec![in rt.alloc(); b'\n'; 1_048_577]?;
    let letters = vec![in rt.alloc(); b'p'; 1_048_577]?;
    // The most bytes that are read: no rows, and one wrong row.
    assert_ending(&rt, &planned(&lines[1..]), &done(&store, &[]))?;
    assert_refused(&rt, planned(&letters[1..]), Refusal::BadSide { row: 1 })?;
    assert_refused(&rt, planned(&lines), Refusal::SideTooLong)?;
    assert_refused(&rt, planned(&letters), Refusal::SideTooLong)?;
    let scripted = with_both(BY_SCRIPT, &[], &lines);
    assert_refused(&rt, scripted, Refusal::SideTooLong)
}
