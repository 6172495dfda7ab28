//! Bits against the run-length word of a known vector (CCSDS 124.0-B-1).

ghost use Rattle.std.specs.Prelude.{◌≡◌, ◌++◌, List, Bool, IsOk, IfErr, OnOk};
ghost use Rattle.bit_vectors.specs.Reading.{bits_left, MovesOn, Gives, IsFirstFault, parse_word};
ghost use Rattle.run_code.specs.Runs.{run_bits};

use crate::descending::ones_down;
use crate::held::{Held, MANY_BITS};
use bit_vectors::{BitEye, BitFault, Bits};

/// Takes the run word of `v`. The first bit that differs from it is wrong, and the bits end early if all that
/// are left are a proper prefix of it.
pub fn match_runs(eye: &mut BitEye, v: &Bits) -> Result<(), BitFault>
    ensures moves { MovesOn eye.old eye.new }
    ensures word { OnOk result (bits_left eye.old ≡ run_bits v.now ++ bits_left eye.new) }
    ensures only { (rest : List Bool) → bits_left eye.old ≡ run_bits v.now ++ rest → IsOk result }
    ensures fault { IfErr result
        (λ fault. IsFirstFault (λ word. word ≡ run_bits v.now) eye.old eye.new fault) }
    ensures reading { Gives (λ _. tt) result eye.new
        (parse_word (run_bits v.now) (bits_left eye.old)) }
{
    match_words(eye, v)
}

/// Takes the word of each 1 of `v`, from the highest place down, and the end, as many at once as fit in 64 bits.
fn match_words(eye: &mut BitEye, v: &Bits) -> Result<(), BitFault>
    ensures moves { MovesOn eye.old eye.new }
    ensures reading { Gives (λ _. tt) result eye.new
        (parse_word (run_bits v.now) (bits_left eye.old)) }
{
    let mut below = v.len();
    let mut held = Held::none();
    for place in ones_down(v) {
        if held.width > MANY_BITS {
            eye.match_word(held.value, held.width)?;
            held = Held::none();
        }
        held = held.with_count(below - place);
        below = place;
    }
    let all = held.with_end();
    eye.match_word(all.value, all.width)
}
