//! How a command ends.
ghost use Rattle.std.specs.Prelude.{◌≡◌};
ghost use Rattle.desk_ports.specs.declared.desk.Inlet.TheVariants as inlet;
ghost use Rattle.pocket_cmd.specs.declared.status.Refusal.TheVariants as why;
ghost use Rattle.packet_store.specs.StoreReader.{stop_by, stop_of};
ghost use Rattle.flight_chain.specs.Compressing.{stop_by as flight_stop};
ghost use Rattle.pocket_cmd.specs.Courses.{of_recording, of_store, stop_with};
ghost use Rattle.pocket_cmd.specs.Status.{exit_number, refusal_at, refusal_by, refusal_in, status_by};

use crate::text::TextFault;
use bit_vectors::NoMemory;
use desk_ports::Inlet;
use flight_chain::FlightFault;
use packet_store::{RunFault, StoreFault, StoreKind};
use side_tables::SideFault;

/// Why a command gave up.
#[derive(Clone, Copy, Debug, PartialEq, Eq)]
pub enum Refusal {
    /// The word at this index, the verb's being 0, is wrong; or a word is missing, and this is their number.
    BadWords { word: u32 },
    /// The side input has more than 1,048,576 bytes.
    SideTooLong,
    /// This record of the side input, counted from 1, is the first that is no row.
    BadSide { row: u32 },
    /// The script of a forecast has more than 1,048,576 bytes.
    ScriptTooLong,
    /// This record of the script of a forecast, counted from 1, is the first that is no row.
    BadScript { row: u32 },
    /// An input could not be opened or read.
    ReadFault,
    /// An output could not be opened, written or finished.
    WriteFault,
    /// The recording ends inside this packet, counted from 0.
    CutRecord { t: u32 },
    /// A bit of this packet that belongs to no place of its vector is 1.
    SpareBit { t: u32 },
    /// The store has no good packet from this byte on, which is the packet's first.
    BadStore { byte: u64, kind: StoreKind },
    /// A byte follows the 4,294,967,296th packet.
    TooMany,
    /// There was no memory for the run.
    NoMemory,
}

/// The refusal if the text that comes over an inlet was not read.
pub fn unread(inlet: Inlet, fault: TextFault) -> Refusal
    ensures { result ≡ refusal_at inlet fault }
{
    match (inlet, fault) {
        (Inlet::Side, TextFault::TooLong) => Refusal::SideTooLong,
        (Inlet::Main, TextFault::TooLong) => Refusal::ScriptTooLong,
        (_, TextFault::ReadFault) => Refusal::ReadFault,
        (_, TextFault::NoMemory) => Refusal::NoMemory,
    }
}

/// The refusal if it is no table.
pub fn no_table(inlet: Inlet, fault: SideFault) -> Refusal
    ensures { result ≡ refusal_in inlet fault }
{
    match (inlet, fault) {
        (Inlet::Side, SideFault::TooLong) => Refusal::SideTooLong,
        (Inlet::Main, SideFault::TooLong) => Refusal::ScriptTooLong,
        (Inlet::Side, SideFault::Row { row }) => Refusal::BadSide { row },
        (Inlet::Main, SideFault::Row { row }) => Refusal::BadScript { row },
        (_, SideFault::NoMemory) => Refusal::NoMemory,
    }
}

impl From<SideFault> for Refusal {
    ghost from_gives = { λ f e. e ≡ refusal_in inlet.Side f };

    fn from(fault: SideFault) -> Refusal {
        no_table(Inlet::Side, fault)
    }
}

impl From<NoMemory> for Refusal {
    ghost from_gives = { λ _ e. e ≡ why.NoMemory };

    fn from(_refused: NoMemory) -> Refusal {
        Refusal::NoMemory
    }
}

impl From<FlightFault> for Refusal {
    ghost from_gives = { λ f e. e ≡ refusal_by (stop_with of_recording (flight_stop f)) };

    fn from(fault: FlightFault) -> Refusal {
        match fault {
            FlightFault::CutRecord { t } => Refusal::CutRecord { t },
            FlightFault::SpareBit { t } => Refusal::SpareBit { t },
            FlightFault::TooMany => Refusal::TooMany,
            FlightFault::ReadFault => Refusal::ReadFault,
            FlightFault::WriteFault => Refusal::WriteFault,
        }
    }
}

impl From<StoreFault> for Refusal {
    ghost from_gives = { λ f e. e ≡ refusal_by (stop_with of_store (stop_of f)) };

    fn from(fault: StoreFault) -> Refusal {
        match fault {
            StoreFault::Cut { byte } => Refusal::BadStore {
                byte,
                kind: StoreKind::Cut,
            },
            StoreFault::Version { byte } => Refusal::BadStore {
                byte,
                kind: StoreKind::Version,
            },
            StoreFault::Shape { byte } => Refusal::BadStore {
                byte,
                kind: StoreKind::Shape,
            },
            StoreFault::TooMany => Refusal::TooMany,
            StoreFault::ReadFault => Refusal::ReadFault,
        }
    }
}

impl From<RunFault> for Refusal {
    ghost from_gives = { λ f e. e ≡ refusal_by (stop_with of_store (stop_by f)) };

    fn from(fault: RunFault) -> Refusal {
        match fault {
            RunFault::Store(fault) => fault.into(),
            RunFault::WriteFault => Refusal::WriteFault,
        }
    }
}

/// How a command ended.
#[derive(Clone, Copy, Debug, PartialEq, Eq)]
pub enum Status {
    /// All of it was done.
    Done,
    /// It gave up.
    Refused(Refusal),
}

impl From<Result<(), Refusal>> for Status {
    ghost from_gives = { λ r e. e ≡ status_by r };

    fn from(ended: Result<(), Refusal>) -> Status {
        match ended {
            Ok(()) => Status::Done,
            Err(refusal) => Status::Refused(refusal),
        }
    }
}

/// The exit number of the program: 0 when done, 1 if the outside failed, 2 for wrong words, 3 for a wrong text,
/// 4 for wrong data, 5 for lack of memory.
pub fn exit_code(status: &Status) -> u8
    ensures { result ≡ exit_number status.now }
{
    match status {
        Status::Done => 0,
        Status::Refused(refusal) => match refusal {
            Refusal::ReadFault | Refusal::WriteFault => 1,
            Refusal::BadWords { .. } => 2,
            Refusal::SideTooLong | Refusal::BadSide { .. } => 3,
            Refusal::ScriptTooLong | Refusal::BadScript { .. } => 3,
            Refusal::CutRecord { .. } | Refusal::SpareBit { .. } => 4,
            Refusal::BadStore { .. } | Refusal::TooMany => 4,
            Refusal::NoMemory => 5,
        },
    }
}
