//! Reading the data of packets of compressed housekeeping (CCSDS 124.0-B-1).
#![tactic(auto)]

mod change;
mod content;
mod data;
mod decoder;
mod draft;
mod latest;
mod laws;
mod mask;
mod packet;
mod padding;
mod remembered;
mod saved;

pub use decoder::{Decoder, Reading};
pub use laws::{
    exact_answers_are_sound, law_of_the_window, no_further_bit, one_exact_answer, one_packet,
    one_reading, opaque_fronts_go_on, packets_of_histories_are_read, parts_are_completed,
    reading_is_exact, sound_answers_agree, states_keep_their_places, viable_bits_begin_data,
    worked_packets,
};
