//! The sending end: from a recording of fixed-length packets to the store of its compressed packets.
#![tactic(auto)]

mod compressing;
mod fault;
mod flight;
mod laws;
mod reading;

pub use fault::{FlightFault, RecordFault};
pub use flight::Flight;
pub use laws::{
    fronts_owe_fronts, recording_walks_are_exact, recordings_are_walked,
    schedules_without_robustness, stores_grow, stores_of_histories_are_walked,
    walks_of_front_recordings, whole_recordings_owe_their_store, worked_recordings,
};
pub use reading::read_input;
