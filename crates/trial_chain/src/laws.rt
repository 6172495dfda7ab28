//! What the definitions of a trial mean.

ghost use Rattle.std.specs.Prelude.{◌≡◌, ◌≤◌, ℕ, [], ◌∷◌, map};
ghost use Rattle.std.specs.List.{range_with_len};
ghost use Rattle.bit_vectors.specs.Vectors.{bits_of};
ghost use Rattle.mask_update.specs.Histories.{IsValid};
ghost use Rattle.loss_player.specs.Played.{AreGapsShort};
ghost use Rattle.trial_chain.specs.Draws.{next_number};
ghost use Rattle.trial_chain.specs.Trials.{trial_copies, trial_history, trial_inputs};

/// A trial within its bounds is a valid history whose gaps are shorter than the period of the sequence counts, and no packet
/// of it arrives more than twice. So what is restored of it is what the headline says.
pub fn trials_are_valid()
    ensures valid { (seed packets f robust : ℕ) → 1 ≤ f → f ≤ 4096 → packets ≤ 10000 → robust ≤ 7
        → IsValid (trial_history seed packets f robust) }
    ensures gaps { (seed packets : ℕ) → packets ≤ 10000
        → AreGapsShort (trial_copies seed packets) packets }
    ensures copies { (seed packets t : ℕ) → trial_copies seed packets t ≤ 2 }
{}

/// The first numbers that the seed 0 gives, and the first three packets of 8 bits that they make, of which the second does
/// not arrive.
pub fn worked_trial()
    ensures first { next_number 0 ≡ 1013904223 }
    ensures second { next_number 1013904223 ≡ 1196435762 }
    ensures third { next_number 1196435762 ≡ 3519870697 }
    ensures fourth { next_number 3519870697 ≡ 2868466484 }
    ensures inputs { trial_inputs 0 3 8
        ≡ bits_of (0x00 ∷ []) ∷ bits_of (0x01 ∷ []) ∷ bits_of (0x10 ∷ []) ∷ [] }
    ensures copies { map (trial_copies 0 3) (range_with_len 0 3) ≡ 1 ∷ 0 ∷ 1 ∷ [] }
{}
