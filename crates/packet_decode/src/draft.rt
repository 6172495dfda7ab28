//! The room for what reading the next packet fills.

ghost use Rattle.std.specs.Prelude.{◌≡◌, length, IfOk};
ghost use Rattle.std.specs.Vec.{vec_capacity};
ghost use Rattle.bit_vectors.specs.Vectors.{IsPlaces};
ghost use Rattle.bit_vectors.specs.Words.{word_count};

use crate::change::FirstPart;
use bit_vectors::{Bits, NoMemory};
use run_code::{WordMoves, moves_of_zeros};
use std::alloc::Global;

/// The vectors that are filled as the parts after the first one are read, and how the extracted bits move.
#[derive(Debug, Drop)]
pub struct Draft {
    pub content: Bits,
    /// The places of the content that are extracted.
    pub places: Bits,
    /// The edges of a mask, or where a content differs from the known one.
    pub workspace: Bits,
    /// How the latest extracted bits of each word moved. If the next packet extracts the same places, they are not found
    /// anew.
    pub moves: Vec<WordMoves>,
    ghost extracted_places: { length places ≡ length content },
    ghost workspace_places: { length workspace ≡ length content },
    // The moves have the room that `zeros` took.
    ghost moves_taken: { vec_capacity moves ≡ word_count (length content) },
}

impl Draft {
    /// Vectors of `f` places, and the moves of zeros.
    fn zeros(alloc: Global, f: u32) -> Result<Draft, NoMemory>
        requires valid { IsPlaces f }
        ensures { IfOk result (λ draft. length draft.content ≡ f) }
    {
        let content = Bits::zeros(alloc, f)?;
        let places = Bits::zeros(alloc, f)?;
        let workspace = Bits::zeros(alloc, f)?;
        let moves = moves_of_zeros(alloc, f)?;
        Ok(Draft {
            content,
            places,
            workspace,
            moves,
        })
    }
}

/// What the next packet fills: vectors of the same number of places.
#[derive(Debug, Drop)]
pub struct Room {
    pub next: FirstPart,
    /// The mask that is deduced, if there is a change.
    pub deduced: Bits,
    /// The mask that is sent and can't be deduced.
    pub sent: Bits,
    pub draft: Draft,
    ghost next_places: { length next.recent ≡ length draft.content },
    ghost deduced_places: { length deduced ≡ length draft.content },
    ghost sent_places: { length sent ≡ length draft.content },
}

impl Room {
    /// Vectors of `f` places.
    pub fn zeros(alloc: Global, f: u32) -> Result<Room, NoMemory>
        requires valid { IsPlaces f }
        ensures { IfOk result (λ room. length room.draft.content ≡ f) }
    {
        let next = FirstPart::zeros(alloc, f)?;
        let deduced = Bits::zeros(alloc, f)?;
        let sent = Bits::zeros(alloc, f)?;
        let draft = Draft::zeros(alloc, f)?;
        Ok(Room {
            next,
            deduced,
            sent,
            draft,
        })
    }
}
