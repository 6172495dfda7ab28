//! Inputs that are read ahead: packets that lie across the end of what is ahead.

use super::chain::{Chain, assert_whole_chain};
use super::desk::{BY_SCRIPT, EIGHT_BITS, assert_in_pieces, bytes_of, done, with_both, with_input};
use super::samples::{FIRST, FOURTH, REPORT, RESTORED, SECOND};
use std::alloc::{AllocError, Global};
use std::test::Fail;

/// The header of a packet of another APID with the longest data.
const LONG_HEADER: &[u8] = &[0x00, 0x05, 0xC0, 0x00, 0xFF, 0xFF];

/// Such a packet, 65,542 bytes.
fn long_packet(alloc: Global) -> Result<Vec<u8>, AllocError> {
    let mut bytes = Vec::new(alloc);
    bytes.extend_from_slice(LONG_HEADER)?;
    for place in 0..65_536u32 {
        bytes.push((place % 251) as u8)?;
    }
    Ok(bytes)
}

/// The packets that arrive, with two long ones after each of the first two.
fn with_long_packets(alloc: Global) -> Result<Vec<u8>, AllocError> {
    let long = long_packet(alloc)?;
    let mut store = bytes_of(alloc, FIRST)?;
    store.extend_from_slice(&long)?;
    store.extend_from_slice(&long)?;
    store.extend_from_slice(&bytes_of(alloc, SECOND)?)?;
    store.extend_from_slice(&long)?;
    store.extend_from_slice(&long)?;
    store.extend_from_slice(&bytes_of(alloc, FOURTH)?)?;
    Ok(store)
}

#[test]
fn packets_of_the_longest_data(rt: HostRuntime) -> Result<(), Fail> {
    let store = with_long_packets(rt.alloc())?;
    assert_eq!(rt; store.len(), 262_197);
    assert_in_pieces(&rt, with_input(EIGHT_BITS, &store), &done(RESTORED, REPORT))?;
    let report = b"packets,delivered,dropped,repeats,first,widest\n3,3,0,0,0,1\n";
    let case = with_both(BY_SCRIPT, &store, b"");
    assert_in_pieces(&rt, case, &done(&store, report))
}

/// Packets of 6,144 bytes, each with its number at its front: the 22nd lies across the byte 131,072.
fn numbered_packets(alloc: Global) -> Result<Vec<u8>, AllocError> {
    let mut bytes = Vec::new(alloc);
    for t in 0..24 {
        bytes.push(t)?;
        bytes.extend_from_slice(&[0xAA; 6143])?;
    }
    Ok(bytes)
}

#[test]
fn a_long_recording(rt: HostRuntime) -> Result<(), Fail> {
    let recording = numbered_packets(rt.alloc())?;
    assert_eq!(rt; recording.len(), 147_456);
    let chain = Chain {
        recording: &recording,
        flight: "bits=49152 robust=2",
        ground: "bits=49152",
        plan: "",
        script: "",
        played: "24,24,0,0,0,1\n",
        restored: &recording,
        report: "end,24,24,0\n",
    };
    assert_whole_chain(&rt, &chain)
}
