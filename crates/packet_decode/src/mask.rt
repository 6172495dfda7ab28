//! The mask of a packet, by the runs of its edges (CCSDS 124.0-B-1).

ghost use Rattle.std.specs.Prelude.{◌≡◌, length, None, Some};
ghost use Rattle.bit_vectors.specs.Reading.{bits_left, MovesOn, Gives};
ghost use Rattle.packet_decode.specs.PacketReading.{parse_mask};

use bit_vectors::{BitEye, BitFault, Bits};
use run_code::{edges, from_edges, match_runs, take_runs};

/// Takes the runs of the edges of the known mask. `workspace` may have any bits afterwards.
#[tactic(auto, unfolding(crate::specs::PacketReading::parse_mask), using(crate::proofs::EdgeMasks::length_edges))]
pub fn match_mask(eye: &mut BitEye, known: &Bits, workspace: &mut Bits) -> Result<(), BitFault>
    requires { length workspace.old ≡ length known.now }
    ensures workspace_places { length workspace.new ≡ length workspace.old }
    ensures moves { MovesOn eye.old eye.new }
    ensures reading { Gives (λ _. known.now) result eye.new
        (parse_mask (length known.now) (Some known.now) (bits_left eye.old)) }
{
    edges(known, workspace);
    match_runs(eye, workspace)
}

/// Takes the runs of the edges of a mask, and sets `mask` to it. `workspace` may have any bits afterwards; after a fault
/// so may `mask`.
#[tactic(auto, unfolding(crate::specs::PacketReading::parse_mask))]
pub fn read_mask(eye: &mut BitEye, mask: &mut Bits, workspace: &mut Bits) -> Result<(), BitFault>
    requires { length workspace.old ≡ length mask.old }
    ensures mask_places { length mask.new ≡ length mask.old }
    ensures workspace_places { length workspace.new ≡ length workspace.old }
    ensures moves { MovesOn eye.old eye.new }
    ensures reading { Gives (λ _. mask.new) result eye.new
        (parse_mask (length mask.old) None (bits_left eye.old)) }
{
    take_runs(eye, workspace)?;
    from_edges(workspace, mask);
    Ok(())
}
