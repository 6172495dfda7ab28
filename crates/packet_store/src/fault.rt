//! Why a store is not read to its end.

ghost use Rattle.std.specs.Prelude.{◌≡◌};
ghost use Rattle.packet_store.specs.declared.fault.StoreFault.TheVariants as fault;
ghost use Rattle.packet_store.specs.declared.fault.RunFault.TheVariants as run;

use desk_ports::Failed;
use thiserror::Error;

/// What is wrong with the bytes of a store at a place.
#[derive(Clone, Copy, Debug, PartialEq, Eq, Error)]
pub enum StoreKind {
    /// They end inside a packet.
    #[error("is cut")]
    Cut,
    /// They begin a packet of another version.
    #[error("has another version")]
    Version,
    /// They begin a packet of the chosen APID that has another shape.
    #[error("has another shape")]
    Shape,
}

/// Why a walk over a store ends before the store does.
#[derive(Clone, Copy, Debug, PartialEq, Eq)]
pub enum WalkFault {
    /// From this byte on there is no good packet.
    Bad { byte: u64, kind: StoreKind },
    /// A byte follows the 4,294,967,296th packet.
    TooMany,
}

/// Why a store is not read on. A byte is identified by its offset in the store.
#[derive(Clone, Copy, Debug, PartialEq, Eq, Error)]
pub enum StoreFault {
    /// The store ends inside the packet that begins with this byte.
    #[error("store packet at byte {byte} is cut")]
    Cut { byte: u64 },
    /// The packet that begins with this byte has a version other than 0.
    #[error("store packet at byte {byte} has another version")]
    Version { byte: u64 },
    /// The packet of the chosen APID that begins with this byte is a telecommand, has a secondary
    /// header, or is segmented.
    #[error("store packet at byte {byte} has another shape")]
    Shape { byte: u64 },
    /// The desk could not read.
    #[error("reading failed")]
    ReadFault,
    /// A byte follows the 4,294,967,296th packet.
    #[error("too many packets")]
    TooMany,
}

impl From<Failed> for StoreFault {
    ghost from_gives = { λ _ e. e ≡ fault.ReadFault };

    fn from(_failed: Failed) -> StoreFault {
        StoreFault::ReadFault
    }
}

/// Why a run that reads a store and writes ends before the store does.
#[derive(Clone, Copy, Debug, PartialEq, Eq, Error)]
pub enum RunFault {
    /// The store is not read on.
    #[error("{0}")]
    Store(StoreFault),
    /// The desk could not write.
    #[error("writing failed")]
    WriteFault,
}

impl From<StoreFault> for RunFault {
    ghost from_gives = { λ f e. e ≡ run.Store f };

    fn from(fault: StoreFault) -> RunFault {
        RunFault::Store(fault)
    }
}

impl From<Failed> for RunFault {
    ghost from_gives = { λ _ e. e ≡ run.WriteFault };

    fn from(_failed: Failed) -> RunFault {
        RunFault::WriteFault
    }
}
