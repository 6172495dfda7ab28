//! Packets of compressed housekeeping (CCSDS 124.0-B-1): what forms there are, the bits of each, and the packet of each
//! step of a history.
#![tactic(auto)]

mod changes;
mod data;
mod encoder;
mod laws;

pub use encoder::{Encoder, room};
pub use laws::{
    forced_packets, forms_of_histories, known_masks, known_together, listed_packets,
    no_packet_is_given_up, packets_have_room, packets_of_the_past, worked_forms, worked_packets,
    written_packets,
};
