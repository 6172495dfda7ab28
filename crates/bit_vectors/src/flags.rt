//! The flags of one packet.

/// The flags by which the sender chooses the form of one packet (CCSDS 124.0-B-1).
#[derive(Clone, Copy, Debug, PartialEq, Eq, Default)]
pub struct Flags {
    /// New mask: the mask becomes the build vector.
    pub p: bool,
    /// Send mask: the packet contains the mask.
    pub f: bool,
    /// Uncompressed: the packet contains the whole content.
    pub r: bool,
}
