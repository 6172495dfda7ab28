//! What no clause shows: that calls answer with ample memory, worked examples of each crate, and that bytes pass through real
//! files.

mod bytes;
mod counts;
mod decoders;
mod desks;
mod headers;
mod runs;
mod states;
mod trips;
mod vectors;
