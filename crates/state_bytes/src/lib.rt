//! The bytes of a saved state: its frame with a checksum, and the numbers and vectors in it.
#![tactic(auto)]

mod crc;
mod frame;
mod laws;
mod number;
mod room;
mod vector;

pub use crc::crc32;
pub use frame::{FRAME_BYTES, FrameFault, body_of, put_head, seal};
pub use laws::{states_are_of_one_kind, worked_checksums};
pub use number::{put_number, take_number};
pub use room::put;
pub use vector::{pass_vector, put_vector, take_vector};
