//! The run-length words of vectors (CCSDS 124.0-B-1).

ghost use Rattle.std.specs.Prelude.{◌≡◌, ◌+◌, ◌*◌, ◌≤◌, ◌++◌, Bool, List, length, IsOk, IfErr, OnOk};
ghost use Rattle.bit_vectors.specs.Reading.{bits_left, MovesOn, Gives, IsFirstFault};
ghost use Rattle.run_code.specs.Runs.{run_bits, IsRunWord, parse_vector};

use crate::descending::ones_down;
use crate::held::{Held, MANY_BITS};
use bit_vectors::{BitEye, BitFault, BitPen, Bits};
use count_code::{Ahead, Count, take_count_with};

/// Appends the run word of a vector: from its highest place down, for each 1 the count of places from the
/// 1 before it, or from the number of places, and then the end. It has at most 4 bits for each place and
/// 2 more, for which the pen has room.
pub fn put_runs(pen: &mut BitPen, v: &Bits)
    requires { length pen.old.bits + (4 * length v.now + 2) ≤ pen.old.room }
    ensures bits { pen.new.bits ≡ pen.old.bits ++ run_bits v.now }
    ensures most { length (run_bits v.now) ≤ 4 * length v.now + 2 }
    ensures room { pen.new.room ≡ pen.old.room }
{
    let mut below = v.len();
    let mut held = Held::none();
    for place in ones_down(v) {
        if held.width > MANY_BITS {
            pen.put_word(held.value, held.width);
            held = Held::none();
        }
        held = held.with_count(below - place);
        below = place;
    }
    let all = held.with_end();
    pen.put_word(all.value, all.width);
}

/// Takes the run word of a vector with as many places as `into`, which is then that vector. The first bit
/// after which no such word can follow is wrong, and the bits end early if they are a proper prefix of one.
/// After a fault `into` may have any bits.
pub fn take_runs(eye: &mut BitEye, into: &mut Bits) -> Result<(), BitFault>
    ensures places { length into.new ≡ length into.old }
    ensures moves { MovesOn eye.old eye.new }
    ensures word { OnOk result (bits_left eye.old ≡ run_bits into.new ++ bits_left eye.new) }
    ensures only { (v rest : List Bool) → length v ≡ length into.old
        → bits_left eye.old ≡ run_bits v ++ rest
        → IsOk result × (into.new ≡ v) }
    ensures fault { IfErr result
        (λ fault. IsFirstFault (IsRunWord (length into.old)) eye.old eye.new fault) }
    ensures reading { Gives (λ _. into.new) result eye.new
        (parse_vector (length into.old) (bits_left eye.old)) }
{
    read_runs(eye, into)
}

/// Takes counts within the places that are left below, and sets a 1 at each.
fn read_runs(eye: &mut BitEye, into: &mut Bits) -> Result<(), BitFault>
    ensures places { length into.new ≡ length into.old }
    ensures moves { MovesOn eye.old eye.new }
    ensures reading { Gives (λ _. into.new) result eye.new
        (parse_vector (length into.old) (bits_left eye.old)) }
{
    into.clear();
    let mut below = into.len();
    let mut ahead = Ahead::none();
    while let Count::Value(distance) = take_count_with(eye, &mut ahead, below)? {
        below -= distance;
        into.set(below, true);
    }
    Ok(())
}
