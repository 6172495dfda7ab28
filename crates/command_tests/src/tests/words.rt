//! Words, and what is answered to them at a desk with nothing or with empty inputs.

use super::desk::{answer, hold, new_desk};
use super::rows::{Wrong, assert_wrong_words};
use desk_ports::MemDesk;
use pocket_cmd::Status;
use std::alloc::Global;
use std::test::Fail;

/// Lines of words, and the place of the first wrong word in each.
static WRONG: [Wrong; 173] = [
    ("", 0),
    ("shrink", 0),
    ("Restore in=a out=b report=c bits=8 apid=100", 0),
    ("restore", 1),
    ("restore in=a", 2),
    ("restore in=a in=b", 2),
    ("restore in=a out=a report=c bits=8 apid=100", 2),
    ("restore in=a out=b report=a bits=8 apid=100", 3),
    ("restore in=a out=b report=b bits=8 apid=100", 3),
    ("restore in=- out=- report=- bits=8 apid=100", 3),
    ("restore in=a out=b report=c bits=08 apid=100", 4),
    ("restore in=a out=b report=c bits=+8 apid=100", 4),
    ("restore in=a out=b report=c bits=8. apid=100", 4),
    ("restore in=a out=b report=c bits= apid=100", 4),
    ("restore in=a out=b report=c bits=0 apid=100", 4),
    ("restore in=a out=b report=c bits=49153 apid=100", 4),
    ("restore in=a out=b report=c bits=4294967304 apid=100", 4),
    ("restore in=a out=b report=c bits=8 apid=2047", 5),
    ("restore in=a out=b report=c bits=8 apid=00", 5),
    ("restore in=a out=b report=c bits=8 apid=100 apid=100", 6),
    ("restore in=a out=b report=c bits=8 apid=100 robust=1", 6),
    ("restore in=a out=b report=c bits=8", 5),
    ("restore out=b report=c bits=8 apid=100", 5),
    ("restore in=", 1),
    ("restore in", 1),
    ("restore =a", 1),
    ("restore IN=a", 1),
    ("restore out=b restore", 2),
    // The first mask has two digits for each byte, and no spare bit.
    ("compress in=a out=b bits=13 apid=1 robust=2 mask=123", 6),
    ("compress in=a out=b bits=13 apid=1 robust=2 mask=1234", 6),
    ("compress in=a out=b bits=13 apid=1 robust=2 mask=12380", 6),
    ("compress in=a out=b bits=13 apid=1 robust=2 mask=123800", 6),
    ("compress in=a out=b bits=13 apid=1 robust=2 mask=12g8", 6),
    ("compress in=a out=b bits=13 apid=1 robust=2 mask=+238", 6),
    ("compress in=a out=b bits=13 apid=1 robust=2 mask=", 6),
    ("compress in=a out=b bits=8 apid=1 robust=2 mask=0x0f", 6),
    ("compress mask=1234 in=a out=b bits=13 apid=1 robust=2", 1),
    // A mask is looked at after all else.
    ("compress mask=1234 in=a out=b bits=13 apid=1 robust=8", 6),
    ("compress mask=1234 in=a out=b bits=13 apid=1", 6),
    (
        "compress mask=1234 in=a out=b bits=13 apid=1 robust=2 mask=1238",
        7,
    ),
    ("compress", 1),
    ("compress out=b bits=8 apid=1 robust=2", 5),
    ("compress in=a bits=8 apid=1 robust=2", 5),
    ("compress in=a out=b apid=1 robust=2", 5),
    ("compress in=a out=b bits=8 robust=2", 5),
    ("compress in=a out=b bits=8 apid=1", 5),
    ("compress in=a out=b bits=8 apid=1 robust=8", 5),
    ("compress in=a out=b bits=8 apid=1 robust=02", 5),
    ("compress in=a out=b bits=8 apid=1 robust=", 5),
    ("compress in=a out=b bits=8 apid=1 robust=2 report=c", 6),
    ("compress in=a out=b bits=8 apid=1 robust=2 script=s", 6),
    ("compress in=a out=b bits=8 apid=1 robust=2 plan=", 6),
    // A name stands once, and the standard streams once for each direction.
    ("compress in=a plan=a out=b bits=8 apid=1 robust=2", 2),
    ("compress plan=s in=a out=s bits=8 apid=1 robust=2", 3),
    ("compress in=a out=a bits=8 apid=1 robust=2", 2),
    ("compress in=- out=- plan=- bits=8 apid=1 robust=2", 3),
    ("play", 1),
    ("play out=b script=s report=c apid=1", 5),
    ("play in=a script=s report=c apid=1", 5),
    ("play in=a out=b report=c apid=1", 5),
    ("play in=a out=b script=s apid=1", 5),
    ("play in=a out=b script=s report=c", 5),
    ("play in=a out=b script=s report=c apid=2047", 5),
    ("play in=a out=b script=s report=c apid=1 bits=8", 6),
    ("play in=a out=b script=s report=c apid=1 plan=p", 6),
    ("play in=a script=a out=b report=c apid=1", 2),
    ("play in=a script=s out=a report=c apid=1", 3),
    ("play in=a script=s out=s report=c apid=1", 3),
    ("play in=a out=b script=b report=c apid=1", 3),
    ("play in=a script=s out=b report=s apid=1", 4),
    ("play in=a script=s out=b report=b apid=1", 4),
    ("play in=- out=b script=- report=c apid=1", 3),
    ("play in=- out=- script=s report=- apid=1", 4),
    ("show", 1),
    ("show out=b bits=8 apid=1", 4),
    ("show in=a bits=8 apid=1", 4),
    ("show in=a out=b apid=1", 4),
    ("show in=a out=b bits=8", 4),
    ("show in=a out=a bits=8 apid=1", 2),
    ("show in=a out=b bits=0 apid=1", 3),
    ("show in=a out=b bits=8 apid=2047", 4),
    ("show in=a out=b bits=8 apid=1 report=c", 5),
    ("show in=a out=b bits=8 apid=1 script=s", 5),
    ("trial", 1),
    ("trial seed=0 packets=3 bits=8 robust=1", 5),
    ("trial packets=3 bits=8 robust=1 out=b", 5),
    ("trial seed=0 bits=8 robust=1 out=b", 5),
    ("trial seed=0 packets=3 robust=1 out=b", 5),
    ("trial seed=0 packets=3 bits=8 out=b", 5),
    ("trial seed=4294967296", 1),
    ("trial seed=00", 1),
    ("trial seed=-1", 1),
    ("trial seed=", 1),
    ("trial seed=0 seed=0", 2),
    ("trial packets=0", 1),
    ("trial packets=10001", 1),
    ("trial packets=03", 1),
    ("trial packets=3 packets=3", 2),
    // A trial has fewer bits a packet than the other verbs.
    ("trial bits=4097", 1),
    ("trial bits=0", 1),
    ("trial bits=8 bits=8", 2),
    ("trial robust=8", 1),
    ("trial out=", 1),
    ("trial seed=0 in=a", 2),
    ("trial seed=0 apid=100", 2),
    ("trial seed=0 report=c", 2),
    ("trial seed=0 plan=p", 2),
    ("restore seed=0", 1),
    ("compress packets=3", 1),
    ("late", 1),
    ("late out=b report=c bits=8 apid=1 window=1", 6),
    ("late in=a report=c bits=8 apid=1 window=1", 6),
    ("late in=a out=b bits=8 apid=1 window=1", 6),
    ("late in=a out=b report=c apid=1 window=1", 6),
    ("late in=a out=b report=c bits=8 window=1", 6),
    ("late in=a out=b report=c bits=8 apid=1", 6),
    ("late in=a out=b report=c bits=8 apid=1 window=65", 6),
    (
        "late in=a out=b report=c bits=8 apid=1 window=1 window=1",
        7,
    ),
    ("late window=01", 1),
    ("late window=-1", 1),
    ("late window=", 1),
    ("late apid=2047", 1),
    ("late bits=0", 1),
    ("late plan=s", 1),
    ("late in=a out=a", 2),
    ("restore window=1", 1),
    ("lates", 0),
    ("forecast", 1),
    ("forecast out=b packets=0 robust=1 plan=s script=a", 2),
    ("forecast out=b packets=1000001 robust=1 plan=s script=a", 2),
    ("forecast out=b packets=04 robust=1 plan=s script=a", 2),
    ("forecast out=b packets=4 robust=8 plan=s script=a", 3),
    ("forecast packets=4 robust=1 plan=s script=a", 5),
    ("forecast out=b robust=1 plan=s script=a", 5),
    ("forecast out=b packets=4 plan=s script=a", 5),
    ("forecast out=b packets=4 robust=1 script=a", 5),
    ("forecast out=b packets=4 robust=1 plan=s", 5),
    ("forecast out=b packets=4 robust=1 plan=s script=s", 5),
    ("forecast out=b packets=4 robust=1 plan=b script=a", 4),
    ("forecast out=b packets=4 robust=1 plan=s script=b", 5),
    ("forecast out=b packets=4 robust=1 plan=- script=-", 5),
    ("forecast in=c out=b packets=4 robust=1 plan=s script=a", 1),
    (
        "forecast out=b packets=4 robust=1 plan=s script=a report=c",
        6,
    ),
    ("multi", 1),
    ("multi out=b report=c streams=s", 4),
    ("multi in=a report=c streams=s", 4),
    ("multi in=a out=b streams=s", 4),
    ("multi in=a out=b report=c", 4),
    ("multi in=a out=b report=c streams=s bits=8", 5),
    ("multi in=a out=b report=c streams=s apid=1", 5),
    ("multi streams=", 1),
    ("multi in=a streams=a out=b report=c", 2),
    ("multi in=a streams=s out=s report=c", 3),
    ("multi in=a streams=s out=b report=b", 4),
    ("multi in=- streams=- out=b report=c", 2),
    ("restore streams=s", 1),
    ("table", 1),
    ("table out=b report=c fields=s bits=8", 5),
    ("table in=a report=c fields=s bits=8", 5),
    ("table in=a out=b fields=s bits=8", 5),
    ("table in=a out=b report=c bits=8", 5),
    ("table in=a out=b report=c fields=s", 5),
    ("table in=a out=b report=c fields=s bits=8 apid=1", 6),
    ("table in=a out=b report=c fields=s bits=8 plan=p", 6),
    ("table bits=0", 1),
    ("table bits=49153", 1),
    ("table bits=08", 1),
    ("table fields=", 1),
    ("table in=a fields=a out=b report=c bits=8", 2),
    ("table in=a fields=s out=s report=c bits=8", 3),
    ("table in=a fields=s out=b report=b bits=8", 4),
    ("table in=- fields=- out=b report=c bits=8", 2),
    ("restore fields=s", 1),
];

/// Lines that give a command, and the names of all that it opens for reading.
static RIGHT: [(&str, &[&str]); 21] = [
    ("restore in=a out=b report=c bits=8 apid=100", &["a"]),
    ("restore apid=0 bits=1 report=c out=b in=a", &["a"]),
    ("restore in=a out=b report=c bits=49152 apid=2046", &["a"]),
    ("restore in=- out=- report=c bits=8 apid=100", &["-"]),
    ("restore in=- out=b report=- bits=8 apid=100", &["-"]),
    ("restore in=a=b out==b report=8 bits=8 apid=8", &["a=b"]),
    (
        "compress in=a=b out=b bits=13 apid=1 robust=2 mask=1238",
        &["a=b"],
    ),
    ("compress in=- out=- bits=8 apid=1 robust=2", &["-"]),
    (
        "compress in=a out=- plan=- bits=8 apid=1 robust=0",
        &["a", "-"],
    ),
    (
        "compress mask=aBcDeF robust=7 apid=2046 bits=24 out=b plan=s in=a",
        &["a", "s"],
    ),
    ("compress mask=80 in=a out=b bits=1 apid=0 robust=7", &["a"]),
    ("play in=a script=s out=b report=c apid=100", &["a", "s"]),
    ("play apid=0 report=c out=b script=s in=a", &["a", "s"]),
    ("play in=- out=- script=s report=c apid=1", &["-", "s"]),
    ("play in=a out=- script=- report=c apid=1", &["a", "-"]),
    ("play in=- out=b script=s report=- apid=2046", &["-", "s"]),
    ("show in=a out=b bits=8 apid=100", &["a"]),
    ("show apid=2046 bits=49152 out=- in=-", &["-"]),
    ("trial seed=0 packets=1 bits=1 robust=0 out=-", &[]),
    (
        "trial out=b robust=7 bits=4096 packets=2 seed=4294967295",
        &[],
    ),
    ("show in=a out=b bits=4097 apid=0", &["a"]),
];

#[test]
fn wrong_words(rt: HostRuntime) -> Result<(), Fail> {
    assert_wrong_words(&rt, &WRONG)
}

/// What is answered if these inputs exist, with no bytes.
fn answer_with(alloc: Global, line: &str, inputs: &[&str]) -> Result<Status, Fail> {
    answer_at(alloc, line, inputs, &mut new_desk(alloc))
}

// (What has a desk of its own does nothing else: each way out of it is proved to give back all memory.)
fn answer_at(
    alloc: Global,
    line: &str,
    inputs: &[&str],
    desk: &mut MemDesk,
) -> Result<Status, Fail> {
    for name in inputs {
        hold(desk, name, &[])?;
    }
    Ok(answer(alloc, line, desk)?)
}

#[test]
fn right_words(rt: HostRuntime) -> Result<(), Fail> {
    for (line, inputs) in &RIGHT {
        let given = answer_with(rt.alloc(), line, inputs)?;
        assert_eq!(rt; given, Status::Done, "{line}");
    }
    Ok(())
}
