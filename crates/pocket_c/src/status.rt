//! What a call answers.

ghost use Rattle.std.specs.Prelude.{◌≡◌};
ghost use Rattle.pocket_c.specs.Statuses.{status_number, of_load, of_open, of_receive, of_send};

use packet_calls::{LoadFault, OpenFault, ReceiveFault, SendFault};

/// What a call answers. C sees its number.
#[derive(Clone, Copy, Debug, PartialEq, Eq)]
pub enum CallStatus {
    /// It was done.
    Done,
    /// There was no memory.
    NoMemory,
    /// The handle holds nothing.
    Closed,
    /// The handle holds something already.
    Open,
    /// The handle holds something of another kind.
    OtherKind,
    /// The number of places is not from 1 to 49,152.
    Places,
    /// The first mask has not as many bytes as its places need.
    MaskLength,
    /// The first mask has a spare bit that is 1.
    MaskSpareBit,
    /// The input has not as many bytes as its places need.
    InputLength,
    /// The input has a spare bit that is 1.
    SpareBit,
    /// The required robustness is above 7.
    Robust,
    /// The room for the packet or the content is too short.
    NoRoom,
    /// 4,294,967,296 packets were sent or received.
    TooMany,
    /// The sequence count is above 16,383.
    Count,
    /// The packet has more than 65,536 data bytes.
    TooLong,
    /// A name or a word is no UTF-8.
    NoText,
    /// There are 1,000 words already.
    TooManyWords,
    /// Nothing is kept under the name, or under any that is looked for.
    NotKept,
    /// The bytes are no state.
    NoState,
    /// The state is of another kind or another number of places.
    OtherState,
}

impl CallStatus {
    /// Its number, as C sees it.
    pub fn number(self) -> u32
        ensures { result ≡ status_number self }
    {
        match self {
            CallStatus::Done => 0,
            CallStatus::NoMemory => 1,
            CallStatus::Closed => 2,
            CallStatus::Open => 3,
            CallStatus::OtherKind => 4,
            CallStatus::Places => 5,
            CallStatus::MaskLength => 6,
            CallStatus::MaskSpareBit => 7,
            CallStatus::InputLength => 8,
            CallStatus::SpareBit => 9,
            CallStatus::Robust => 10,
            CallStatus::NoRoom => 11,
            CallStatus::TooMany => 12,
            CallStatus::Count => 13,
            CallStatus::TooLong => 14,
            CallStatus::NoText => 15,
            CallStatus::TooManyWords => 16,
            CallStatus::NotKept => 17,
            CallStatus::NoState => 252,
            CallStatus::OtherState => 253,
        }
    }
}

impl From<OpenFault> for CallStatus {
    ghost from_gives = { λ f e. e ≡ of_open f };

    fn from(fault: OpenFault) -> CallStatus {
        match fault {
            OpenFault::Places => CallStatus::Places,
            OpenFault::MaskLength => CallStatus::MaskLength,
            OpenFault::MaskSpareBit => CallStatus::MaskSpareBit,
            OpenFault::NoMemory => CallStatus::NoMemory,
        }
    }
}

impl From<SendFault> for CallStatus {
    ghost from_gives = { λ f e. e ≡ of_send f };

    fn from(fault: SendFault) -> CallStatus {
        match fault {
            SendFault::InputLength => CallStatus::InputLength,
            SendFault::SpareBit => CallStatus::SpareBit,
            SendFault::Robust => CallStatus::Robust,
            SendFault::NoRoom => CallStatus::NoRoom,
            SendFault::TooMany => CallStatus::TooMany,
        }
    }
}

impl From<ReceiveFault> for CallStatus {
    ghost from_gives = { λ f e. e ≡ of_receive f };

    fn from(fault: ReceiveFault) -> CallStatus {
        match fault {
            ReceiveFault::Count => CallStatus::Count,
            ReceiveFault::TooLong => CallStatus::TooLong,
            ReceiveFault::NoRoom => CallStatus::NoRoom,
            ReceiveFault::TooMany => CallStatus::TooMany,
        }
    }
}

impl From<LoadFault> for CallStatus {
    ghost from_gives = { λ f e. e ≡ of_load f };

    fn from(fault: LoadFault) -> CallStatus {
        match fault {
            LoadFault::NoState => CallStatus::NoState,
            LoadFault::OtherState => CallStatus::OtherState,
        }
    }
}
