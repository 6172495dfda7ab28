//! The link between both ends: from a store to what arrives of it, when a script drops packets and repeats them.
#![tactic(auto)]

mod laws;
mod played;
mod player;
mod playing;
mod report;

pub use laws::{
    fronts_owe_fronts, packets_arrive_by_their_copies, played_stores_are_walked,
    short_gaps_are_told, undisturbed_stores_are_unchanged, whole_stores_owe_their_report,
    worked_reports, worked_stores,
};
pub use packet_store::RunFault as PlayFault;
pub use played::{Played, Tally};
pub use player::Player;
