//! Why a call gave nothing. After each of these nothing has changed.

use bit_vectors::NoMemory;
use thiserror::Error;

/// Why a sender or a receiver was not opened, or why a sender did not start anew.
#[derive(Clone, Copy, Debug, PartialEq, Eq, Error)]
pub enum OpenFault {
    /// The number of places is not from 1 to 49,152.
    #[error("a vector has 1 to 49152 places")]
    Places,
    /// The first mask has not as many bytes as its places need.
    #[error("the mask has the wrong length")]
    MaskLength,
    /// A bit of the first mask that belongs to no place is 1.
    #[error("the mask has a spare bit set")]
    MaskSpareBit,
    /// There was no memory for it.
    #[error("out of memory")]
    NoMemory,
}

impl From<NoMemory> for OpenFault {
    ghost use Rattle.std.specs.Prelude.{◌≡◌};
    ghost use Rattle.packet_calls.specs.declared.fault.OpenFault.TheVariants as why;

    ghost from_gives = { λ _ e. e ≡ why.NoMemory };

    fn from(_refused: NoMemory) -> OpenFault {
        OpenFault::NoMemory
    }
}

/// Why an input was not sent.
#[derive(Clone, Copy, Debug, PartialEq, Eq, Error)]
pub enum SendFault {
    /// The input has not as many bytes as its places need.
    #[error("the input has the wrong length")]
    InputLength,
    /// A bit of the input that belongs to no place is 1.
    #[error("the input has a spare bit set")]
    SpareBit,
    /// The required robustness is above 7.
    #[error("the required robustness is above 7")]
    Robust,
    /// The longest packet would not fit into the room for it.
    #[error("the room for the packet is too short")]
    NoRoom,
    /// 4,294,967,296 packets were sent.
    #[error("too many packets")]
    TooMany,
}

/// Why an arrival was not judged.
#[derive(Clone, Copy, Debug, PartialEq, Eq, Error)]
pub enum ReceiveFault {
    /// The sequence count is above 16,383.
    #[error("the sequence count is above 16383")]
    Count,
    /// The packet has more than 65,536 data bytes.
    #[error("the packet is too long")]
    TooLong,
    /// The content would not fit into the room for it.
    #[error("the room for the content is too short")]
    NoRoom,
    /// 4,294,967,296 packets arrived.
    #[error("too many packets")]
    TooMany,
}

/// Why a state was not put in place of what is held.
#[derive(Clone, Copy, Debug, PartialEq, Eq, Error)]
pub enum LoadFault {
    /// The bytes are not the state of any value.
    #[error("the bytes are no state")]
    NoState,
    /// They are a state of another kind or another number of places.
    #[error("the state is of another kind or number of places")]
    OtherState,
}
