//! Vectors of bits, and bits written to and read from bytes.
#![tactic(auto)]

mod bits;
mod eye;
mod fault;
mod flags;
mod front;
mod laws;
mod pen;
mod reading;
mod room;
mod word_bytes;
mod words;

pub use bits::{Bits, MOST_PLACES, byte_len};
pub use eye::BitEye;
pub use fault::{BitFault, NoMemory, SpareBit};
pub use flags::Flags;
pub use laws::{bytes_and_vectors, numbers_and_bits};
pub use pen::BitPen;
pub use room::zero_bytes;
pub use word_bytes::has_spare_bit;
