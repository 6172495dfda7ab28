//! Writing counts as bits (CCSDS 124.0-B-1).

ghost use Rattle.std.specs.Prelude.{◌≡◌, ◌+◌, ◌≤◌, ◌++◌, length};
ghost use Rattle.count_code.specs.Code.{count_bits, end_bits};
ghost use Rattle.bit_vectors.specs.Vectors.{IsPlaces};

use crate::word::count_word;
use bit_vectors::BitPen;

/// The number of bits of the word of a count, at most 29. A count is from 1 to 49,152.
pub fn count_len(a: u32) -> u32
    requires valid { IsPlaces a }
    ensures len { result ≡ length (count_bits a) }
    ensures most { result ≤ 29 }
{
    count_word(a).width
}

/// Appends the word of a count, which is from 1 to 49,152.
pub fn put_count(pen: &mut BitPen, a: u32)
    requires valid { IsPlaces a }
    requires room { length pen.old.bits + length (count_bits a) ≤ pen.old.room }
    ensures bits { pen.new.bits ≡ pen.old.bits ++ count_bits a }
    ensures room { pen.new.room ≡ pen.old.room }
{
    let word = count_word(a);
    pen.put_word(u64::from(word.value), word.width);
}

/// Appends the word that ends a list of counts.
pub fn put_end(pen: &mut BitPen)
    requires { length pen.old.bits + 2 ≤ pen.old.room }
    ensures bits { pen.new.bits ≡ pen.old.bits ++ end_bits }
    ensures room { pen.new.room ≡ pen.old.room }
{
    pen.put_word(0b10, 2);
}
