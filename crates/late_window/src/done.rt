//! How many packets were restored, and how many came too late.

use ground_chain::Restored;

/// The numbers of a run over late arrivals.
#[derive(Clone, Copy, Debug, PartialEq, Eq)]
pub struct LateDone {
    /// The numbers of the run over the arrivals in order.
    pub restored: Restored,
    /// The arrivals that came too late, and are not part of the run.
    pub late: u64,
}
