//! Each call that allocates, with ample memory, and the texts of the faults. Zeros are put one by one before the
//! numbers that cross words, so that `put` is tried at each place too.

ghost use Rattle.std.specs.Prelude.{◌≡◌, length};

use bit_vectors::{BitEye, BitFault, BitPen, Bits, NoMemory, SpareBit, byte_len};
use std::alloc::Global;
use std::test::Fail;

/// What is answered to bytes, if they are as many as the vector's.
fn load(vector: &mut Bits, bytes: &[u8]) -> Result<(), SpareBit>
    ensures { length vector.new ≡ length vector.old }
{
    if bytes.len() == byte_len(vector.len()) as usize {
        vector.load(bytes)
    } else {
        Err(SpareBit)
    }
}

/// Whether thirteen places are loaded, found, put and taken, and a spare bit is refused.
fn thirteen_places_are_right(alloc: Global) -> Result<bool, NoMemory> {
    let mut vector = Bits::zeros(alloc, 13)?;
    let mut pen = BitPen::with_room(alloc, 13)?;
    let is_zero = vector.is_zero();
    let is_loaded = load(&mut vector, &[0x12, 0x38]) == Ok(());
    if vector.len() != 13 {
        return Ok(false);
    }
    let are_found = vector.next_one_down(13) == Some(12) && vector.next_one_down(10) == Some(6);
    let is_refused = load(&mut vector, &[0x12, 0x3c]) == Err(SpareBit);
    pen.put_bits(&vector);
    let is_put = pen.bytes() == [0x12, 0x38].as_slice();
    let early = Err(BitFault::EndsEarly { bit: 8 });
    let is_early = BitEye::new(&[0xff]).take_bits(&mut vector) == early;
    let stands = vector.next_one_up(8) == Some(10);
    Ok(is_zero && is_loaded && are_found && is_refused && is_put && is_early && stands)
}

#[test]
fn vector_of_thirteen_places(rt: HostRuntime) -> Result<(), Fail> {
    assert!(rt; thirteen_places_are_right(rt.alloc())?);
    Ok(())
}

/// The first word of thirteen places, or none if there are more words.
fn word_of_thirteen(alloc: Global) -> Result<Option<u64>, NoMemory> {
    let mut vector = Bits::zeros(alloc, 13)?;
    let _ = load(&mut vector, &[0x12, 0x38]);
    let word = vector.word(0);
    Ok((vector.word_count() == 1).then_some(word))
}

/// Whether the place after a whole word is the first one of the next.
fn next_word_is_right(alloc: Global) -> Result<bool, NoMemory> {
    let mut vector = Bits::zeros(alloc, 65)?;
    vector.set(64, true);
    let mut other = Bits::zeros(alloc, 65)?;
    let word = vector.word(1);
    other.set_word(1, word);
    let down = (vector.next_one_down(65), vector.next_one_down(64));
    Ok(word == 1 << 63 && down == (Some(64), None) && other.same(&vector))
}

#[test]
fn words_of_vectors(rt: HostRuntime) -> Result<(), Fail> {
    assert_eq!(rt; word_of_thirteen(rt.alloc())?, Some(0x1238_0000_0000_0000));
    assert!(rt; next_word_is_right(rt.alloc())?);
    Ok(())
}

#[test]
fn pen_with_room(rt: HostRuntime) -> Result<(), Fail> {
    let mut pen = BitPen::with_room(rt.alloc(), 8)?;
    pen.put_number(6, 3);
    assert_eq!(rt; pen.bytes(), [0xc0].as_slice());
    Ok(())
}

/// A pen with so many zeros, put one by one, and ten bits.
fn pen_after(alloc: Global, before: u32) -> Result<BitPen, NoMemory> {
    let mut pen = BitPen::with_room(alloc, 192)?;
    for _ in 0..before {
        if pen.len() < pen.room() {
            pen.put(false);
        }
    }
    if pen.room() == 192 && pen.len() < 128 {
        pen.put_word(0b10_1001_1001, 10);
    }
    Ok(pen)
}

/// Whether these bytes stand from a place on, or zeros after the last one.
fn has_bytes(written: &[u8], place: usize, bytes: [u8; 3]) -> bool {
    let mut same = true;
    for (index, byte) in bytes.into_iter().enumerate() {
        let found = written.get(place.saturating_add(index));
        same &= found.copied().unwrap_or(0) == byte;
    }
    same
}

/// Whether the ten bits are read after so many zeros, and no more than those.
fn reads_ten(bytes: &[u8], before: u32) -> bool {
    let mut eye = BitEye::new(&bytes[..bytes.len().min(65536)]);
    if before > eye.left() {
        return false;
    }
    eye.pass(before);
    let is_ahead = eye.ahead() >> 54 == 0b10_1001_1001;
    let is_taken = eye.take_word(10) == Ok(0b10_1001_1001);
    let early = Err(BitFault::EndsEarly { bit: eye.size() });
    is_ahead && is_taken && eye.take_word(64) == early
}

/// How many zeros stand before the ten bits, and the bytes from the last whole byte of zeros on.
static ACROSS: [(u32, [u8; 3]); 7] = [
    (0, [0xa6, 0x40, 0x00]),
    (1, [0x53, 0x20, 0x00]),
    (53, [0x05, 0x32, 0x00]),
    (54, [0x02, 0x99, 0x00]),
    (55, [0x01, 0x4c, 0x80]),
    (63, [0x01, 0x4c, 0x80]),
    (127, [0x01, 0x4c, 0x80]),
];

/// Ten bits at each place around the boundaries of words, and the bytes that they give.
#[test]
fn numbers_across_words(rt: HostRuntime) -> Result<(), Fail> {
    for &(before, bytes) in &ACROSS {
        let pen = pen_after(rt.alloc(), before)?;
        assert!(rt;
            has_bytes(pen.bytes(), (before / 8) as usize, bytes),
            "{before}"
        );
        assert!(rt; reads_ten(pen.bytes(), before), "{before}");
    }
    Ok(())
}

#[test]
fn texts_of_faults(rt: HostRuntime) -> Result<(), Fail> {
    let (wrong, early) = (BitFault::Wrong { bit: 9 }, BitFault::EndsEarly { bit: 16 });
    let text = format!(in rt.alloc(); "{NoMemory}; {SpareBit}; {wrong}; {early}")?;
    let wanted = "out of memory; a spare bit is set; bit 9 is wrong; the bits end early at 16";
    assert_eq!(rt; text.as_str(), wanted);
    Ok(())
}
