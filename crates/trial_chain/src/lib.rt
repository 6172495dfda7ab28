//! A trial: the three chains over a generated history, in memory.
#![tactic(auto)]

mod generated;
mod generator;
mod laws;
mod run_desk;
mod stages;
mod trial;

pub use laws::{trials_are_valid, worked_trial};
pub use trial::{Summary, run_trial};
