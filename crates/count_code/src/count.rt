//! The entries of a list of counts.

/// A count, or the end of a list of counts.
#[derive(Clone, Copy, Debug, PartialEq, Eq)]
pub enum Count {
    /// A count, from 1 up.
    Value(u32),
    /// The end of a list of counts.
    End,
}
