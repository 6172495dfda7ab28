//! Words worked by hand, each way, and the first wrong bit of others. Only `has_ones` has a loop over places; it
//! looks at each place of a short vector.

use super::bytes::eye;
use bit_vectors::BitFault::{EndsEarly, Wrong};
use bit_vectors::{BitFault, BitPen, Bits, NoMemory};
use run_code::{
    edges, from_edges, match_runs, put_extract, put_inverse_up, put_runs, take_into,
    take_inverse_up, take_runs,
};
use std::alloc::Global;
use std::test::Fail;

/// Ones at both ends of vectors and around the boundaries of words.
const ONES: [u32; 7] = [0, 62, 63, 64, 65, 126, 127];

/// Some of them, and the others.
const SOME: [u32; 3] = [62, 65, 127];

const OTHERS: [u32; 4] = [0, 63, 64, 126];

/// A vector of `f` places with ones at those of the given numbers that are places.
fn vector(alloc: Global, f: u32, ones: &[u32]) -> Result<Bits, NoMemory> {
    if f == 0 || f > 49152 {
        return Err(NoMemory);
    }
    let mut v = Bits::zeros(alloc, f)?;
    for &place in ones {
        if place < v.len() {
            v.set(place, true);
        }
    }
    Ok(v)
}

fn has_ones(v: &Bits, ones: &[u32]) -> bool {
    let mut same = true;
    for place in 0..v.len() {
        same &= v.get(place) == ones.contains(&place);
    }
    same
}

/// Whether the runs of a vector are written as this word.
fn writes(alloc: Global, v: &Bits, word: &[u8]) -> Result<bool, NoMemory> {
    let mut pen = BitPen::with_room(alloc, 4 * v.len() + 2)?;
    put_runs(&mut pen, v);
    Ok(pen.bytes() == word)
}

/// Whether the word is read as the runs of a vector, and matches them.
fn reads(alloc: Global, v: &Bits, word: &[u8]) -> Result<bool, NoMemory> {
    let mut into = Bits::zeros(alloc, v.len())?;
    let taken = take_runs(&mut eye(word), &mut into);
    Ok(taken == Ok(()) && into.same(v) && match_runs(&mut eye(word), v) == Ok(()))
}

fn is_word(alloc: Global, f: u32, ones: &[u32], word: &[u8]) -> Result<bool, NoMemory> {
    let v = vector(alloc, f, ones)?;
    Ok(writes(alloc, &v, word)? && reads(alloc, &v, word)?)
}

/// The places of a vector, its ones, and the word of its runs.
static WORDS: [(u32, &[u32], &[u8]); 14] = [
    (8, &[], &[0x80]),
    (8, &[7], &[0x40]),
    (8, &[0], &[0xc6, 0x80]),
    (8, &[0, 3, 7], &[0x61, 0x60, 0xc0]),
    (1, &[], &[0x80]),
    (1, &[0], &[0x40]),
    (13, &[12, 6], &[0x62, 0x40]),
    (64, &[0], &[0xff, 0x40]),
    (65, &[0], &[0xff, 0xc0]),
    (63, &ONES, &[0x7f, 0x20]),
    (64, &ONES, &[0x3f, 0x90]),
    (65, &ONES, &[0x1f, 0xc8]),
    (127, &ONES, &[0x7e, 0xc7, 0xf2]),
    (128, &ONES, &[0x3f, 0x63, 0xf9, 0x00]),
];

#[test]
fn run_words(rt: HostRuntime) -> Result<(), Fail> {
    for &(f, ones, word) in &WORDS {
        assert!(rt; is_word(rt.alloc(), f, ones, word)?, "{f} {ones:?}");
    }
    Ok(())
}

/// Whether this is wrong with bits that are taken as runs of eight places, and that with those that are matched.
fn are_faults(
    alloc: Global,
    bits: &[u8],
    taken: BitFault,
    matched: BitFault,
) -> Result<bool, NoMemory> {
    let mut into = vector(alloc, 8, &[0])?;
    Ok(
        match_runs(&mut eye(bits), &into) == Err(matched)
            && take_runs(&mut eye(bits), &mut into) == Err(taken),
    )
}

/// Bits, what is wrong with them if they are taken, and if they are matched.
static FAULTS: [(&[u8], BitFault, BitFault); 5] = [
    // a count above eight; a count of three ones; a ninth place
    (&[0xd0], Wrong { bit: 3 }, Wrong { bit: 3 }),
    (&[0xe0], Wrong { bit: 2 }, Wrong { bit: 2 }),
    (&[0x00, 0xc0], Wrong { bit: 9 }, Wrong { bit: 0 }),
    (&[0xc6], EndsEarly { bit: 8 }, EndsEarly { bit: 8 }),
    (&[0xc6, 0xc0], Wrong { bit: 9 }, Wrong { bit: 9 }),
];

#[test]
fn faults_of_run_words(rt: HostRuntime) -> Result<(), Fail> {
    for &(bits, taken, matched) in &FAULTS {
        assert!(rt; are_faults(rt.alloc(), bits, taken, matched)?, "{taken}");
    }
    Ok(())
}

/// A fault that no bits have.
const UNLIKE: BitFault = BitFault::Wrong { bit: u32::MAX };

/// Whether the bits of a vector at few ones of another are put as these bytes.
fn extracts(alloc: Global, a: &Bits, b: &Bits, bytes: &[u8]) -> Result<bool, NoMemory> {
    let ones = b.ones();
    if ones > 7 || a.len() != b.len() {
        return Ok(false);
    }
    let mut pen = BitPen::with_room(alloc, ones)?;
    put_extract(&mut pen, a, b);
    Ok(pen.bytes() == bytes)
}

fn take_extracted(bits: &[u8], into: &mut Bits, b: &Bits) -> Result<(), BitFault> {
    if into.len() != b.len() {
        return Err(UNLIKE);
    }
    take_into(&mut eye(bits), into, b)
}

/// Whether the inverted bits of a mask at few ones of a vector are put as these bytes.
fn inverts(alloc: Global, mask: &Bits, x: &Bits, bytes: &[u8]) -> Result<bool, NoMemory> {
    let ones = x.ones();
    if ones > 7 || mask.len() != x.len() {
        return Ok(false);
    }
    let mut pen = BitPen::with_room(alloc, ones)?;
    put_inverse_up(&mut pen, mask, x);
    Ok(pen.bytes() == bytes)
}

fn take_inverted(bits: &[u8], x: &Bits, mask: &mut Bits) -> Result<(), BitFault> {
    if mask.len() != x.len() || x.is_zero() {
        return Err(UNLIKE);
    }
    take_inverse_up(&mut eye(bits), x, mask)
}

/// Bits end early, or one is wrong: at least one bit is inverted.
fn bits_are_refused(alloc: Global) -> Result<bool, NoMemory> {
    let mut into = vector(alloc, 8, &[0])?;
    let b = vector(alloc, 8, &[0, 3, 7])?;
    let early = Err(EndsEarly { bit: 0 });
    Ok(
        take_extracted(&[], &mut into, &b) == early
            && take_inverted(&[], &b, &mut into) == early
            && take_inverted(&[0x10], &b, &mut into) == Err(Wrong { bit: 2 }),
    )
}

#[test]
fn faults_of_bits(rt: HostRuntime) -> Result<(), Fail> {
    assert!(rt; bits_are_refused(rt.alloc())?);
    Ok(())
}

/// The places, the ones of a vector at which bits stand, those where a bit is one and those where it is none, and the bits
/// as they are extracted and as they are inverted.
type Row = (u32, &'static [u32], &'static [u32], &'static [u32], u8, u8);

/// Whether the bits go both ways through these bytes.
fn go_both_ways(alloc: Global, row: &Row) -> Result<bool, NoMemory> {
    let &(f, ones, some, others, down, up) = row;
    let a = vector(alloc, f, some)?;
    let b = vector(alloc, f, ones)?;
    let mut into = vector(alloc, f, &[])?;
    let is_down = extracts(alloc, &a, &b, &[down])?
        && take_extracted(&[down], &mut into, &b) == Ok(())
        && has_ones(&into, some);
    let is_up = inverts(alloc, &a, &b, &[up])?
        && take_inverted(&[up], &b, &mut into) == Ok(())
        && has_ones(&into, others);
    Ok(is_down && is_up)
}

static BITS: [Row; 7] = [
    (8, &[0, 3, 7], &[0], &[3, 7], 0x20, 0x60),
    (1, &ONES, &SOME, &OTHERS, 0x00, 0x80),
    (63, &ONES, &SOME, &OTHERS, 0x80, 0x80),
    (64, &ONES, &SOME, &OTHERS, 0x40, 0xa0),
    (65, &ONES, &SOME, &OTHERS, 0x20, 0xb0),
    (127, &ONES, &SOME, &OTHERS, 0x48, 0xb4),
    (128, &ONES, &SOME, &OTHERS, 0xa4, 0xb4),
];

/// The bits of a vector at the ones, from the highest place down, and the inverted bits of it as a mask, from the
/// lowest place up, each in one byte.
#[test]
fn bits_both_ways(rt: HostRuntime) -> Result<(), Fail> {
    for row in &BITS {
        assert!(rt; go_both_ways(rt.alloc(), row)?, "{}", row.0);
    }
    Ok(())
}

/// Whether these are the edges of a mask with ones at those places, and give the mask again.
fn are_edges(alloc: Global, f: u32, ones: &[u32], expected: &[u32]) -> Result<bool, NoMemory> {
    let mask = vector(alloc, f, ones)?;
    let mut into = Bits::zeros(alloc, mask.len())?;
    edges(&mask, &mut into);
    let mut again = Bits::zeros(alloc, mask.len())?;
    from_edges(&into, &mut again);
    Ok(has_ones(&into, expected) && again.same(&mask))
}

/// The places, the ones of a mask, and those of its edges.
static EDGES: [(u32, &[u32], &[u32]); 7] = [
    (8, &[4, 5, 6, 7], &[3, 7]),
    (1, &ONES, &[0]),
    (63, &ONES, &[0, 61, 62]),
    (64, &ONES, &[0, 61, 63]),
    (65, &ONES, &[0, 61, 64]),
    (127, &ONES, &[0, 61, 65, 125, 126]),
    (128, &ONES, &[0, 61, 65, 125, 127]),
];

#[test]
fn edges_both_ways(rt: HostRuntime) -> Result<(), Fail> {
    for &(f, ones, expected) in &EDGES {
        assert!(rt; are_edges(rt.alloc(), f, ones, expected)?, "{f}");
    }
    Ok(())
}
