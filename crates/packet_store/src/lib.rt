//! Space Packets (CCSDS 133.0-B-2), and stores of them one after another.
#![tactic(auto)]

mod fault;
mod header;
mod laws;
mod packet;
mod reader;
mod writer;

pub use fault::{RunFault, StoreFault, StoreKind, WalkFault};
pub use header::{Header, PERIOD, first_header, header_bytes, read_header};
pub use laws::{
    good_packets_are_walked, only_good_packets_are_read, packets_are_told_apart, stores_are_walked,
    walks_are_exact, walks_of_fronts, worked_walks,
};
pub use reader::{MOST_DATA_BYTES, MOST_PACKETS, StoreReader, Taken};
pub use writer::StoreWriter;
