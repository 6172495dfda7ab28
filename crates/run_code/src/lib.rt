//! Codes of vectors: the words of runs, bits at places, and edges of masks.
#![tactic(auto)]

mod descending;
mod edge;
mod extraction;
mod held;
mod inverse;
mod laws;
mod matching;
mod moves;
mod packing;
mod runs;
mod words;

pub use edge::{edges, from_edges};
pub use extraction::{put_extract, put_extract_with, take_into, take_into_with};
pub use inverse::{put_inverse_up, take_inverse_up};
pub use laws::{
    directions_are_completed, extracted_bits, masks_and_edges, places_of_ones, run_words,
    run_words_are_completed,
};
pub use matching::match_runs;
pub use moves::{WordMoves, moves_of_zeros};
pub use runs::{put_runs, take_runs};
