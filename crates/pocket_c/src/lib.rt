//! The calls of the library for C: senders, receivers and desks in memory, each behind a
//! handle.
#![tactic(auto)]

mod bench;
mod command_desk;
mod desk;
mod handle;
mod held;
mod laws;
mod loose;
mod receiver;
mod sender;
mod state;
mod status;
mod stream;

pub use bench::Bench;
pub use desk::{
    pocket_desk_open, pocket_get, pocket_name_from, pocket_put, pocket_remove, pocket_run,
    pocket_word,
};
pub use handle::pocket_close;
pub use held::{Handle, Held};
pub use laws::handles_pass_between_threads;
pub use receiver::{
    Counts, Finding, pocket_counts, pocket_receive, pocket_receiver_open, pocket_receiver_reset,
};
pub use sender::{pocket_send, pocket_sender_open, pocket_sender_reset};
pub use state::{pocket_load, pocket_save, pocket_state_bytes};
pub use status::CallStatus;
pub use stream::{pocket_bits, pocket_sent};
