//! Stores of several streams that are mixed by chance, beside each stream alone.

use super::desk::{
    HEADER, Tester, assert_done, assert_ending, bytes_of, done, hold, new_desk, with_input,
};
use super::draws::Draws;
use super::streams::MULTI;
use desk_ports::{MemDesk, Outlet};
use std::alloc::{AllocError, Global};
use std::test::Fail;

/// The packets of the worked recording, without their APIDs.
static PACKETS: [&str; 4] = [
    "C0 00 00 03 85 B8 D6 00",
    "C0 01 00 03 42 4B 8D 62",
    "C0 02 00 01 44 C0",
    "C0 03 00 02 C0 85 C0",
];

/// The APIDs of the streams that are mixed.
static APIDS: [u8; 3] = [100, 101, 102];

/// How often a packet arrives, by what is drawn.
static TIMES: [u8; 6] = [0, 2, 1, 1, 1, 1];

/// Streams that are mixed by numbers from a seed, each with the number of its next packet.
#[derive(Clone, Copy)]
struct Mixed {
    draws: Draws,
    numbers: [u8; 3],
}

impl Mixed {
    /// The APID of the next packet, its bytes, and how often it arrives.
    fn next(&mut self) -> (u8, &'static str, u8) {
        let drawn = self.draws.number() as usize;
        let stream = drawn % 3;
        let number = self.numbers[stream];
        let times = TIMES[drawn / 3 % 6];
        self.numbers[stream] = number.saturating_add(1);
        match PACKETS.get(usize::from(number)) {
            None => (APIDS[stream], "", 0),
            Some(packet) => (APIDS[stream], packet, times),
        }
    }
}

/// A store of three streams that are mixed by numbers from a seed, some packets dropped and some repeated; or of the packets
/// of one of them alone.
fn mixed_store(alloc: Global, seed: u32, only: Option<u8>) -> Result<Vec<u8>, AllocError> {
    let mut store = Vec::new(alloc);
    let mut streams = Mixed {
        draws: Draws { state: seed },
        numbers: [0; 3],
    };
    for _ in 0..60 {
        let (apid, packet, times) = streams.next();
        if only.unwrap_or(apid) == apid {
            put_packets(alloc, &mut store, apid, packet, times)?;
        }
    }
    Ok(store)
}

/// Appends a packet so many times.
fn put_packets(
    alloc: Global,
    store: &mut Vec<u8>,
    apid: u8,
    packet: &str,
    times: u8,
) -> Result<(), AllocError> {
    for _ in 0..times {
        store.extend_from_slice(&[0x00, apid])?;
        store.extend_from_slice(&bytes_of(alloc, packet)?)?;
    }
    Ok(())
}

/// The contents on an APID in a store whose packets have one byte of data each.
fn contents_on(alloc: Global, store: &[u8], apid: u8) -> Result<Vec<u8>, AllocError> {
    let mut contents = Vec::new(alloc);
    for packet in store.chunks(7) {
        if packet.get(1) == Some(&apid) {
            contents.extend_from_slice(packet.get(6..).unwrap_or(&[]))?;
        }
    }
    Ok(contents)
}

/// The lines of a report that begin with an APID and a comma, without that, after the header of a report of one stream.
fn rows_on(alloc: Global, report: &[u8], apid: u8) -> Result<String, AllocError> {
    let tag = format!(in alloc; "{apid},")?;
    let mut rows = String::from_str(alloc, HEADER)?;
    for line in str::from_utf8(report).unwrap_or("").lines() {
        if let Some(row) = line.strip_prefix(tag.as_str()) {
            rows.push_str(row)?;
            rows.push_str("\n")?;
        }
    }
    Ok(rows)
}

/// Holds a mixed store and its streams.
fn hold_mixed(alloc: Global, seed: u32, desk: &mut MemDesk) -> Result<(), Fail> {
    let store = mixed_store(alloc, seed, None)?;
    hold(desk, "a", &store)?;
    Ok(hold(desk, "s", b"101,8\n100,8\n102,8\n")?)
}

/// The output and the report of a stream are those that `restore` makes of its packets alone.
fn assert_stream(rt: &impl Tester, desk: &MemDesk, seed: u32, apid: u8) -> Result<(), Fail> {
    let alone = mixed_store(rt.alloc(), seed, Some(apid))?;
    let contents = contents_on(rt.alloc(), desk.seen(Outlet::Main), apid)?;
    let rows = rows_on(rt.alloc(), desk.seen(Outlet::Report), apid)?;
    let words = format!(in rt.alloc(); "restore in=a out=b report=c bits=8 apid={apid}")?;
    let wanted = done(&contents, rows.as_bytes());
    assert_ending(rt, &with_input(&words, &alone), &wanted)
}

/// What `multi` makes of a mixed store has of each stream what `restore` makes of its packets alone.
fn assert_apart(rt: &impl Tester, seed: u32, desk: &mut MemDesk) -> Result<(), Fail> {
    hold_mixed(rt.alloc(), seed, desk)?;
    assert_done(rt, MULTI, desk)?;
    for apid in &APIDS {
        assert_stream(rt, desk, seed, *apid)?;
    }
    Ok(())
}

#[test]
fn mixed_streams(rt: HostRuntime) -> Result<(), Fail> {
    for seed in 0..12 {
        assert_apart(&rt, seed, &mut new_desk(rt.alloc()))?;
    }
    Ok(())
}
