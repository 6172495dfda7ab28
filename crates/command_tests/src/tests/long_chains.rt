//! Long recordings and large packets through the commands.

use super::chain::{Chain, assert_listed, assert_there_and_back, assert_whole_chain};
use super::desk::{Tester, new_desk};
use desk_ports::MemDesk;
use std::alloc::{AllocError, Global};
use std::test::Fail;

/// So many packets of zeros, of which the last stands alone and those before it are lost.
struct Silence {
    packets: usize,
    plan: &'static str,
    script: &'static str,
    played: &'static str,
    restored: usize,
    report: &'static str,
}

static SILENCES: [Silence; 3] = [
    // The last number is 16,383 above the one before.
    Silence {
        packets: 16_389,
        plan: "16388,16388,1,fr",
        script: "drop,6,16387,1",
        played: "16389,7,16382,0,0,16383\n",
        restored: 7,
        report: "6,16387,lost,0\nend,7,7,0\n",
    },
    // It is 16,384 above, so that its count is the earlier one's, and it is taken for a repeat.
    Silence {
        packets: 16_390,
        plan: "16389,16389,1,fr",
        script: "drop,6,16388,1",
        played: "16390,7,16383,0,0,16384\n",
        restored: 6,
        report: "end,7,6,1\n",
    },
    // The first number is the greatest that a first one can be.
    Silence {
        packets: 16_384,
        plan: "16383,16383,1,fr",
        script: "drop,0,16382,1",
        played: "16384,1,16383,0,16383,0\n",
        restored: 1,
        report: "0,16382,lost,0\nend,1,1,0\n",
    },
];

#[test]
fn long_gaps(rt: HostRuntime) -> Result<(), Fail> {
    for row in &SILENCES {
        let recording = vec![in rt.alloc(); 0; row.packets]?;
        let restored = vec![in rt.alloc(); 0; row.restored]?;
        let chain = Chain {
            recording: &recording,
            flight: "bits=8 robust=0",
            ground: "bits=8",
            plan: row.plan,
            script: row.script,
            played: row.played,
            restored: &restored,
            report: row.report,
        };
        assert_whole_chain(&rt, &chain)?;
    }
    Ok(())
}

/// The bytes of a packet of the most bits.
const MOST_BYTES: usize = 6144;

/// Of a Space Packet with 6,149 data bytes.
const FIRST_HEADER: &[u8] = &[0x00, 0x64, 0xC0, 0x00, 0x18, 0x04];

/// Of one with 36,870 data bytes, which ends the store.
const SECOND_HEADER: &[u8] = &[0x00, 0x64, 0xC0, 0x01, 0x90, 0x05];

fn largest_packets(alloc: Global) -> Result<Vec<u8>, AllocError> {
    let mut bytes = vec![in alloc; 0x00; MOST_BYTES]?;
    bytes.extend_from_slice(&[0xAA; MOST_BYTES])?;
    Ok(bytes)
}

#[test]
fn packets_of_the_most_bits(rt: HostRuntime) -> Result<(), Fail> {
    let recording = largest_packets(rt.alloc())?;
    let chain = Chain {
        recording: &recording,
        flight: "bits=49152 robust=0",
        ground: "bits=49152",
        plan: "1,1,1,fr",
        script: "",
        played: "2,2,0,0,0,1\n",
        restored: &recording,
        report: "end,2,2,0\n",
    };
    assert_largest(&rt, &chain, &mut new_desk(rt.alloc()))
}

/// Such a recording goes there and back, and its store is as long as this.
fn assert_largest(rt: &impl Tester, chain: &Chain<'_>, desk: &mut MemDesk) -> Result<(), Fail> {
    assert_there_and_back(rt, chain, desk)?;
    assert_headers(rt, desk.get("store"));
    assert_listed(rt, chain, desk, &largest_listing(rt.alloc())?)
}

/// The listing of such a store: of both packets the changes, the mask and the content are alike.
fn largest_listing(alloc: Global) -> Result<Vec<u8>, AllocError> {
    let mut text = Vec::new(alloc);
    push_line(&mut text, "0 written 0", "00")?;
    push_line(&mut text, "1 written 1", "aa")?;
    push_all(&mut text, b"end 2 2 0\n")?;
    Ok(text)
}

fn push_line(text: &mut Vec<u8>, front: &str, digits: &str) -> Result<(), AllocError> {
    push_all(text, front.as_bytes())?;
    push_vector(text, digits)?;
    push_vector(text, digits)?;
    push_vector(text, digits)?;
    push_all(text, b"\n")
}

/// A vector of the most places, each of whose bytes has these digits.
fn push_vector(text: &mut Vec<u8>, digits: &str) -> Result<(), AllocError> {
    push_all(text, b" ")?;
    for _ in 0..MOST_BYTES {
        push_all(text, digits.as_bytes())?;
    }
    Ok(())
}

fn assert_headers(rt: &impl Tester, store: &[u8]) {
    assert_eq!(rt; store.len(), 43_031);
    assert_eq!(rt; &store[..6], FIRST_HEADER);
    assert_eq!(rt; &store[6155..6161], SECOND_HEADER);
}

/// A packet of 128 bytes: its number in the first two, the number's hundreds in the eleventh, and a pattern in all others.
fn push_counter(bytes: &mut Vec<u8>, t: u16) -> Result<(), AllocError> {
    push_all(bytes, &t.to_be_bytes())?;
    push_all(bytes, &[0xAA; 8])?;
    push_all(bytes, &[(t / 100 % 10) as u8])?;
    push_all(bytes, &[0xAA; 117])
}

fn push_all(bytes: &mut Vec<u8>, more: &[u8]) -> Result<(), AllocError> {
    bytes.extend_from_slice(more)
}

/// A thousand of them.
fn counters(alloc: Global) -> Result<Vec<u8>, AllocError> {
    let mut bytes = Vec::new(alloc);
    for t in 0..1000 {
        push_counter(&mut bytes, t)?;
    }
    Ok(bytes)
}

/// Those of them that arrive, except for the packets after a loss that is longer than their level.
fn counters_that_are_written(alloc: Global) -> Result<Vec<u8>, AllocError> {
    let mut bytes = Vec::new(alloc);
    for t in 0..999 {
        match t {
            10 | 50..=51 | 190..=199 | 205..=207 | 530..=533 => {}
            _ => push_counter(&mut bytes, t)?,
        }
    }
    Ok(bytes)
}

/// What they are told and must leave, except for their bytes.
static COUNTERS: Chain<'static> = Chain {
    recording: &[],
    flight: "bits=1024 robust=2",
    ground: "bits=1024",
    plan: "20,999,20,p\n50,999,50,f\n100,999,100,r\n",
    script: "drop,10,10,1\ndrop,50,51,1\ndrop,190,194,1\ndrop,205,207,1\nrepeat,300,309,1,2\n\
            drop,530,533,1\ndrop,999,999,1\n",
    played: "1000,984,16,20,0,6\n",
    restored: &[],
    report: "10,10,lost,0\n50,51,lost,0\n190,194,lost,0\n195,195,gap,2\n196,196,gap,3\n\
            197,197,gap,4\n198,198,gap,5\n199,199,gap,6\n205,207,lost,0\n530,533,lost,0\n\
            end,1004,979,20\n",
};

#[test]
fn a_thousand_counters(rt: HostRuntime) -> Result<(), Fail> {
    let recording = counters(rt.alloc())?;
    let restored = counters_that_are_written(rt.alloc())?;
    assert_eq!(rt; restored.len(), 125_312);
    let chain = Chain {
        recording: &recording,
        restored: &restored,
        ..COUNTERS
    };
    assert_whole_chain(&rt, &chain)
}
