//! Vectors of eight places as bytes, and bytes to be read.

use bit_vectors::{BitEye, Bits};

/// A vector of 8 places, as a byte.
pub fn byte(vector: &Bits) -> u8 {
    let mut out = [0];
    if vector.len() == 8 {
        vector.store(&mut out);
    }
    out[0]
}

/// An eye over bytes.
pub fn eye(bytes: &[u8]) -> BitEye<'_> {
    BitEye::new(&bytes[..bytes.len().min(65536)])
}
