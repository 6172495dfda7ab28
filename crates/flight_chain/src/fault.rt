//! Why a recording is not compressed to its end.

ghost use Rattle.std.specs.Prelude.{◌≡◌};
ghost use Rattle.flight_chain.specs.declared.fault.FlightFault.TheVariants as fault;

use desk_ports::Failed;
use thiserror::Error;

/// Why the walk over a recording ends before the recording does. Packets are numbered from 0.
#[derive(Clone, Copy, Debug, PartialEq, Eq)]
pub enum RecordFault {
    /// The recording ends inside this packet.
    CutRecord { t: u32 },
    /// A bit of this packet that belongs to no place of its vector is 1.
    SpareBit { t: u32 },
    /// A byte follows the packet 4,294,967,295.
    TooMany,
}

/// Why a recording is not compressed to its end. Packets are numbered from 0.
#[derive(Clone, Copy, Debug, PartialEq, Eq, Error)]
pub enum FlightFault {
    /// The recording ends inside this packet.
    #[error("recording ends inside packet {t}")]
    CutRecord { t: u32 },
    /// A bit of this packet that belongs to no place of its vector is 1.
    #[error("packet {t} has a spare bit set")]
    SpareBit { t: u32 },
    /// A byte follows the packet 4,294,967,295.
    #[error("too many packets")]
    TooMany,
    /// The desk could not read.
    #[error("reading failed")]
    ReadFault,
    /// The desk could not write.
    #[error("writing failed")]
    WriteFault,
}

impl From<Failed> for FlightFault {
    ghost from_gives = { λ _ e. e ≡ fault.WriteFault };

    fn from(_failed: Failed) -> FlightFault {
        FlightFault::WriteFault
    }
}
