//! The recent changes of a mask, the effective robustness level and 'twice', from the latest sixteen changes.
#![tactic(auto)]

mod changes;
mod laws;
mod marks;
mod saved;
mod window;

pub use laws::{
    earlier_steps_stay, effective_level, new_mask_twice, recent_changes, worked_window,
};
pub use window::Window;
