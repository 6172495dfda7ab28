//! Stores that are shuffled within a window, beside the same stores in order.

use super::desk::{
    EIGHT_BITS, Tester, assert_done, assert_ending, done, hold, joined, new_desk, with_input,
};
use super::draws::Draws;
use super::late::LATE;
use desk_ports::MemDesk;
use std::alloc::{AllocError, Global};
use std::test::Fail;

/// A recording of as many packets of eight bits, of which each changes at a drawn place.
fn drawn_recording(alloc: Global, draws: &mut Draws, count: u32) -> Result<Vec<u8>, AllocError> {
    let mut recording = Vec::new(alloc);
    let mut packet = 0u8;
    for _made in 0..count {
        packet ^= 1u8.rotate_left(draws.below(3));
        recording.push(packet)?;
    }
    Ok(recording)
}

/// Where the packet ends that begins at a place of a store.
fn end_of(store: &[u8], at: usize) -> usize {
    let high = store.get(at.saturating_add(4)).copied().unwrap_or(0);
    let low = store.get(at.saturating_add(5)).copied().unwrap_or(0);
    let size = usize::from(u16::from_be_bytes([high, low]));
    at.saturating_add(size).saturating_add(7)
}

/// Where each of so many packets of a store begins, and where the last one ends.
fn offsets_of(alloc: Global, store: &[u8], count: u32) -> Result<Vec<usize>, AllocError> {
    let mut offsets = Vec::new(alloc);
    let mut at = 0usize;
    for _packet in 0..count {
        offsets.push(at)?;
        at = end_of(store, at);
    }
    offsets.push(at)?;
    Ok(offsets)
}

/// Swaps two numbers, if both are there.
fn swap(order: &mut [u32], one: u32, other: u32) {
    let (one, other) = (one as usize, other as usize);
    if one < order.len() && other < order.len() {
        order.swap(one, other);
    }
}

/// The numbers below `count`, in blocks of `size` each of which is shuffled, so that none comes late by more than `size - 1`.
fn shuffled(
    alloc: Global,
    draws: &mut Draws,
    count: u32,
    size: u32,
) -> Result<Vec<u32>, AllocError> {
    let mut order: Vec<u32> = (0..count).collect(alloc)?;
    for number in 0..count {
        let place = number.checked_rem(size).unwrap_or(0);
        let other = draws.below(place.saturating_add(1));
        swap(
            &mut order,
            number,
            number.saturating_sub(place).saturating_add(other),
        );
    }
    Ok(order)
}

/// The packets of a store in this order.
fn reordered(
    alloc: Global,
    store: &[u8],
    offsets: &[usize],
    order: &[u32],
) -> Result<Vec<u8>, AllocError> {
    let mut bytes = Vec::new(alloc);
    for number in order {
        let place = *number as usize;
        let first = offsets.get(place).copied().unwrap_or(0);
        let end = offsets
            .get(place.saturating_add(1))
            .copied()
            .unwrap_or(first);
        bytes.extend_from_slice(store.get(first..end).unwrap_or(&[]))?;
    }
    Ok(bytes)
}

/// The store of a recording.
fn store_of(rt: &impl Tester, recording: &[u8], desk: &mut MemDesk) -> Result<Vec<u8>, Fail> {
    hold(desk, "a", recording)?;
    assert_done(rt, "compress in=a out=b bits=8 apid=100 robust=2", desk)?;
    Ok(Vec::from_slice(rt.alloc(), desk.get("b"))?)
}

/// What `late` gives of a shuffled store must be what `restore` gives of the store in order, and no packet too late.
fn assert_same(
    rt: &impl Tester,
    window: &str,
    store: &[u8],
    late: &[u8],
    desk: &mut MemDesk,
) -> Result<(), Fail> {
    hold(desk, "a", store)?;
    assert_done(rt, EIGHT_BITS, desk)?;
    let mut report = Vec::from_slice(rt.alloc(), desk.get("c"))?;
    report.extend_from_slice(b"late,0\n")?;
    let words = joined(rt.alloc(), LATE, window)?;
    let wanted = done(desk.get("b"), &report);
    assert_ending(rt, &with_input(&words, late), &wanted)
}

/// The packets of a store in a drawn order.
fn drawn_order(
    alloc: Global,
    store: &[u8],
    draws: &mut Draws,
    count: u32,
    size: u32,
) -> Result<Vec<u8>, AllocError> {
    let offsets = offsets_of(alloc, store, count)?;
    let order = shuffled(alloc, draws, count, size)?;
    reordered(alloc, store, &offsets, &order)
}

/// A drawn store that is shuffled within a window.
fn assert_shuffled(
    rt: &impl Tester,
    window: &str,
    size: u32,
    seed: u32,
    desk: &mut MemDesk,
) -> Result<(), Fail> {
    let mut draws = Draws { state: seed };
    let recording = drawn_recording(rt.alloc(), &mut draws, 300)?;
    let store = store_of(rt, &recording, desk)?;
    let late = drawn_order(rt.alloc(), &store, &mut draws, 300, size)?;
    assert_same(rt, window, &store, &late, desk)
}

/// Windows, the sizes of the blocks that are shuffled, and seeds.
static SHUFFLES: [(&str, u32, u32); 6] = [
    ("0", 1, 1),
    ("1", 2, 2),
    ("2", 3, 3),
    ("7", 8, 4),
    ("63", 64, 5),
    ("64", 65, 6),
];

#[test]
fn shuffled_stores(rt: HostRuntime) -> Result<(), Fail> {
    for (window, size, seed) in &SHUFFLES {
        assert_shuffled(&rt, window, *size, *seed, &mut new_desk(rt.alloc()))?;
    }
    Ok(())
}
