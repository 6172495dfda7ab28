//! The running mask, build and change vectors, as functions of the whole history.
#![tactic(auto)]

mod laws;
mod masks;
mod saved;

pub use laws::{
    earlier_steps_stay, histories_of_inputs, new_mask_steps, places_of_masks, recurrences,
    worked_masks,
};
pub use masks::Masks;
