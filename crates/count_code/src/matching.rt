//! Bits against the word of a known count (CCSDS 124.0-B-1).

ghost use Rattle.std.specs.Prelude.{◌≡◌, ◌++◌, List, Bool, IsOk, IfErr, OnOk};
ghost use Rattle.bit_vectors.specs.Reading.{bits_left, MovesOn, Gives, IsFirstFault, parse_word};
ghost use Rattle.count_code.specs.Code.{count_bits};
ghost use Rattle.bit_vectors.specs.Vectors.{IsPlaces};

use crate::word::count_word;
use bit_vectors::{BitEye, BitFault};

/// Takes the word of a count, which is from 1 to 49,152. The first bit that differs from it is wrong, and
/// the bits end early if all that are left are a proper prefix of it.
pub fn match_count(eye: &mut BitEye, a: u32) -> Result<(), BitFault>
    requires valid { IsPlaces a }
    ensures moves { MovesOn eye.old eye.new }
    ensures word { OnOk result (bits_left eye.old ≡ count_bits a ++ bits_left eye.new) }
    ensures only { (rest : List Bool) → bits_left eye.old ≡ count_bits a ++ rest → IsOk result }
    ensures fault { IfErr result
        (λ fault. IsFirstFault (λ word. word ≡ count_bits a) eye.old eye.new fault) }
    ensures reading { Gives (λ _. tt) result eye.new
        (parse_word (count_bits a) (bits_left eye.old)) }
{
    let word = count_word(a);
    eye.match_word(u64::from(word.value), word.width)
}
