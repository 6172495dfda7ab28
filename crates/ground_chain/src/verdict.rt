//! What is said of each arrival.

ghost use Rattle.std.specs.Prelude.{◌≡◌};
ghost use Rattle.ground_chain.specs.Report.{is_written_kind};

use bit_vectors::BitFault;

/// Numbers that did not arrive: all from the first to the last, at least one.
#[derive(Clone, Copy, Debug, PartialEq, Eq)]
pub struct Lost {
    pub first: u64,
    pub last: u64,
}

/// What became of an arrival.
#[derive(Clone, Copy, Debug, PartialEq, Eq)]
pub enum Kind {
    /// Its data spell a packet whose content became known. It is restored.
    Written,
    /// It has the sequence count of the arrival before, and its data are not read.
    Repeat,
    /// Its content didn't become known, and none is known so far. `mask` tells whether its mask became known; if not, no
    /// mask is known so far.
    Unsynced { mask: bool },
    /// Its content didn't become known. `mask` tells whether its mask became known. The content that is known, or the mask
    /// if this one's didn't become known, is of a packet too far back for its effective robustness level.
    Gap { level: u8, mask: bool },
    /// Its data are no packet, from this bit on.
    Refused { fault: BitFault },
}

impl Kind {
    /// Whether the arrival is restored.
    pub fn is_written(&self) -> bool
        ensures { result ≡ is_written_kind self.now }
    {
        matches!(self, Kind::Written)
    }
}

/// An arrival: the numbers that are missing before it, its own number, and what became of it.
#[derive(Clone, Copy, Debug, PartialEq, Eq)]
pub struct Verdict {
    pub lost: Option<Lost>,
    pub t: u64,
    pub kind: Kind,
}
