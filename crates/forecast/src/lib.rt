//! What will be written under a schedule and a loss, whatever the recording is.
#![tactic(auto)]

mod fate;
mod forecast;
mod foreseen;
mod latest;
mod laws;
mod running;
mod stretch;

pub use fate::Fate;
pub use forecast::Forecast;
pub use laws::{
    forecasts_hold, prospects_of_histories, stretches_are_longest, sure_packets, worked_forecasts,
};
pub use stretch::Stretch;
