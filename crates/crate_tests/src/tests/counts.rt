//! The words of counts, and the first faults of others, by worked examples.

use super::bytes::eye;
use bit_vectors::{BitEye, BitFault, BitPen, NoMemory};
use count_code::{Count, count_len, match_count, put_count, put_end, take_count};
use std::alloc::Global;
use std::test::Fail;

/// A pen with so many zeros, a count and the end.
fn pen_after(alloc: Global, before: u32, a: u32) -> Result<BitPen, NoMemory> {
    let a = a.clamp(1, 49_152);
    let mut pen = BitPen::with_room(alloc, 128)?;
    pen.put_word(0, before.clamp(1, 64));
    if count_len(a) <= pen.room() - pen.len() {
        put_count(&mut pen, a);
    }
    if 2 <= pen.room() - pen.len() {
        put_end(&mut pen);
    }
    Ok(pen)
}

/// What stands behind so many bits.
fn behind(bits: &[u8], before: u32) -> BitEye<'_> {
    let mut eye = eye(bits);
    let _ = eye.take_word(before.clamp(1, 64));
    eye
}

/// Whether behind so many bits a count is taken, and then the end.
fn is_taken(bits: &[u8], before: u32, a: u32) -> bool {
    let mut eye = behind(bits, before);
    take_count(&mut eye, 49_152) == Ok(Count::Value(a)) && take_count(&mut eye, 0) == Ok(Count::End)
}

/// Whether a count is matched there, and then comes the end.
fn is_matched(bits: &[u8], before: u32, a: u32) -> bool {
    let mut eye = behind(bits, before);
    match_count(&mut eye, a.clamp(1, 49_152)) == Ok(()) && eye.take_number(2) == Ok(0b10)
}

/// Whether they are so many zeros, and then so many bits of this number and the end.
fn has_word(bits: &[u8], before: u32, len: u32, word: u64) -> bool {
    let mut eye = eye(bits);
    eye.take_word(before.clamp(1, 64)) == Ok(0)
        && eye.take_word(len.clamp(1, 64)) == Ok(word)
        && take_count(&mut eye, 0) == Ok(Count::End)
}

/// How many zeros stand before a count, so that the boundary of a word is before, in or after its bits; the count, how many
/// bits it has, and their number.
static WORDS: [(u32, u32, u32, u64); 7] = [
    (62, 1, 1, 0),
    (63, 1, 1, 0),
    (60, 2, 8, 0xc0),
    (56, 33, 8, 0xdf),
    (58, 34, 9, 0x1e0),
    (54, 66, 11, 0x740),
    (50, 49_152, 29, 0x1c00_bffe),
];

/// A count and the end within a word, and across its boundary.
#[test]
fn words_of_counts(rt: HostRuntime) -> Result<(), Fail> {
    for &(across, a, len, word) in &WORDS {
        for before in [8, across] {
            let pen = pen_after(rt.alloc(), before, a)?;
            let bits = pen.bytes();
            assert!(rt;
                is_taken(bits, before, a) && is_matched(bits, before, a),
                "{a}"
            );
            assert!(rt; has_word(bits, before, len, word), "{a}");
        }
    }
    Ok(())
}

/// What is read of a count up to this limit.
fn taken(eye: &mut BitEye<'_>, limit: u32) -> Result<Count, BitFault> {
    take_count(eye, limit.min(49_152))
}

/// Bits, the greatest count, and what is wrong with them.
static FAULTS: [(&[u8], u32, BitFault); 4] = [
    (&[0xd0], 8, BitFault::Wrong { bit: 3 }),
    (&[0xe0], 8, BitFault::Wrong { bit: 2 }),
    (&[0xe8], 66, BitFault::EndsEarly { bit: 8 }),
    (&[], 8, BitFault::EndsEarly { bit: 0 }),
];

#[test]
fn first_faults(rt: HostRuntime) {
    for &(bytes, limit, fault) in &FAULTS {
        assert_eq!(rt; taken(&mut eye(bytes), limit), Err(fault));
    }
    let mut ones = eye(&[0x00, 0xc0]);
    for _ in 0..8 {
        assert_eq!(rt; taken(&mut ones, 8), Ok(Count::Value(1)));
    }
    assert_eq!(rt; taken(&mut ones, 0), Err(BitFault::Wrong { bit: 9 }));
}
