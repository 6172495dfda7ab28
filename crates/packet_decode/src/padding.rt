//! What follows a packet that is spelled: the zeros that fill its last byte, and nothing else. What follows an
//! opaque front is not looked at.

ghost use Rattle.std.specs.Prelude.{◌≤◌, Bool, List, Option, length};
ghost use Rattle.bit_vectors.specs.Reading.{bits_left, MovesOn, Gives};
ghost use Rattle.packet_decode.specs.PacketReading.{parse_padding, parse_end};
ghost use Rattle.packet_decode.specs.Parts.{outcome_of};

use crate::latest::DataKind;
use bit_vectors::{BitEye, BitFault};

/// Takes the zeros, fewer than eight, up to a whole byte.
#[tactic(auto, unfolding(crate::specs::PacketReading::parse_padding), using(crate::proofs::PaddingBits::zeros_are))]
pub fn take_padding(eye: &mut BitEye, kind: DataKind) -> Result<(), BitFault>
    ensures within { eye.old.place ≤ length eye.old.bits }
    ensures moves { MovesOn eye.old eye.new }
    ensures reading { (deduced : Option (List Bool)) (sent content : List Bool) →
        Gives (λ _. tt) result eye.new
        (parse_padding (outcome_of kind deduced sent content) eye.old.place (bits_left eye.old)) }
{
    let place = eye.at();
    match kind {
        DataKind::Opaque => Ok(()),
        _ => eye.match_word(0, (8 - place % 8) % 8),
    }
}

/// Takes the end. A further bit is wrong.
#[tactic(auto, unfolding(crate::specs::PacketReading::parse_end))]
pub fn take_end(eye: &mut BitEye, kind: DataKind) -> Result<(), BitFault>
    ensures moves { MovesOn eye.old eye.new }
    ensures reading { (deduced : Option (List Bool)) (sent content : List Bool) →
        Gives (λ _. tt) result eye.new
        (parse_end (outcome_of kind deduced sent content) (bits_left eye.old)) }
{
    if !kind.is_opaque() && eye.take().is_some() {
        return Err(BitFault::Wrong { bit: eye.at() - 1 });
    }
    Ok(())
}
