//! The errors of calls that can't give what was asked for.

use std::alloc::{AllocError, AllocFailed};
use thiserror::Error;

/// Memory could not be allocated.
#[derive(Clone, Copy, Debug, PartialEq, Eq, Error)]
#[error("out of memory")]
pub struct NoMemory;

impl From<AllocError> for NoMemory {
    fn from(_e: AllocError) -> NoMemory {
        NoMemory
    }
}

impl<T: Drop> From<AllocFailed<T>> for NoMemory {
    fn from(_e: AllocFailed<T>) -> NoMemory {
        NoMemory
    }
}

/// The last byte has a 1 in a bit that belongs to no place of the vector.
#[derive(Clone, Copy, Debug, PartialEq, Eq, Error)]
#[error("a spare bit is set")]
pub struct SpareBit;

/// Why the bits of an eye could not be read. Bits are numbered from 0, over all bytes of the eye.
#[derive(Clone, Copy, Debug, PartialEq, Eq, Error)]
pub enum BitFault {
    /// The bit with this number is wrong. The eye is just after it.
    #[error("bit {bit} is wrong")]
    Wrong { bit: u32 },
    /// The bytes end too early. The number is the count of all bits, and the eye is at the end.
    #[error("the bits end early at {bit}")]
    EndsEarly { bit: u32 },
}
