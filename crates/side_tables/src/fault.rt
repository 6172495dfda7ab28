//! Why a text is not a table.

ghost use Rattle.std.specs.Prelude.{◌≡◌};
ghost use Rattle.side_tables.specs.declared.fault.SideFault.TheVariants as fault;

use bit_vectors::NoMemory;
use std::alloc::AllocFailed;
use thiserror::Error;

/// Why a text is not read as a table.
#[derive(Clone, Copy, Debug, PartialEq, Eq, Error)]
pub enum SideFault {
    /// The text has more than 1,048,576 bytes.
    #[error("the text is too long")]
    TooLong,
    /// The record with this number, counted from 1, is the first that is not a row.
    #[error("row {row} is wrong")]
    Row { row: u32 },
    /// Memory could not be allocated.
    #[error("out of memory")]
    NoMemory,
}

/// Which part of a row is wrong, in words.
#[derive(Clone, Copy, Debug, PartialEq, Eq, Error)]
#[error("{0}")]
pub struct RowFault(pub &'static str);

impl From<NoMemory> for SideFault {
    ghost from_gives = { λ _ e. e ≡ fault.NoMemory };

    fn from(_refused: NoMemory) -> SideFault {
        SideFault::NoMemory
    }
}

impl<T: Drop> From<AllocFailed<T>> for SideFault {
    ghost from_gives = { λ _ e. e ≡ fault.NoMemory };

    fn from(_refused: AllocFailed<T>) -> SideFault {
        SideFault::NoMemory
    }
}
