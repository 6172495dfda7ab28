//! The receiving end of several streams in one store: each APID of a list is restored by itself, in one pass.
#![tactic(auto)]

mod ground;
mod laws;
mod receiving;
mod restorer;
mod writing;

pub use ground::MultiGround;
pub use laws::{
    contents_are_apart, fronts_owe_fronts, played_streams_are_restored, played_streams_arrive,
    rows_are_apart, streams_are_apart, the_output_is_a_store, whole_stores_owe_each_stream,
    worked_streams,
};
pub use restorer::MultiRestorer;
