//! A worked trial.

use super::desk::{Tester, assert_in_pieces, done, words_alone};
use bit_vectors::NoMemory;
use desk_ports::MemDesk;
use std::alloc::Global;
use std::test::Fail;
use trial_chain::run_trial;

/// Three packets of eight bits, of which the second does not arrive.
pub const THREE: &str = "trial seed=0 packets=3 bits=8 robust=1 out=b";

pub const SUMMARY: &[u8] =
    b"packets 3\nrecording 3\nstore 29\nplayed 19\ndelivered 2\nwritten 2\nlisted 1\n";

/// The six names, and what this trial holds under each, worked out by hand.
static HELD: [(&str, &[u8]); 6] = [
    ("recording", &[0x00, 0x01, 0x10]),
    (
        "store",
        &[
            0x00, 0x64, 0xC0, 0x00, 0x00, 0x03, 0x85, 0xB8, 0xC0, 0x00, 0x00, 0x64, 0xC0, 0x01,
            0x00, 0x03, 0x42, 0x4B, 0x8C, 0x02, 0x00, 0x64, 0xC0, 0x02, 0x00, 0x02, 0x61, 0x44,
            0xA0,
        ],
    ),
    (
        "played",
        &[
            0x00, 0x64, 0xC0, 0x00, 0x00, 0x03, 0x85, 0xB8, 0xC0, 0x00, 0x00, 0x64, 0xC0, 0x02,
            0x00, 0x02, 0x61, 0x44, 0xA0,
        ],
    ),
    (
        "play",
        b"packets,delivered,dropped,repeats,first,widest\n3,2,1,0,0,2\n",
    ),
    ("restored", &[0x00, 0x10]),
    ("report", b"first,last,cause,value\n1,1,lost,0\nend,2,2,0\n"),
];

/// The desk that holds the worked trial.
fn worked_trial(alloc: Global) -> Result<MemDesk, NoMemory> {
    let mut desk = MemDesk::new(alloc);
    run_trial(alloc, 0, 3, 8, 1, &mut desk)?;
    Ok(desk)
}

fn assert_held(rt: &impl Tester, desk: &MemDesk) {
    for (name, bytes) in &HELD {
        assert_eq!(rt; desk.get(name), *bytes, "{name}");
    }
}

#[test]
fn a_trial(rt: HostRuntime) -> Result<(), Fail> {
    assert_in_pieces(&rt, words_alone(THREE), &done(SUMMARY, &[]))?;
    assert_held(&rt, &worked_trial(rt.alloc())?);
    Ok(())
}
