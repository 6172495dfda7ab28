//! How often the system failed to read, and why it did so last.

ghost use Rattle.std.specs.Prelude.{◌≡◌, ◌+◌, ◌-◌, ◌^◌, min, Ok, IsErr, IfOk, OnOk, OnErr};

use crate::desk::{Failed, Inlet};
use std::io;

/// A count of failed readings, which ends at 18,446,744,073,709,551,615. Only an error of the system raises it; the last one is
/// kept, with its inlet.
#[derive(Drop)]
pub struct ReadFaults {
    count: u64,
    last: Option<(Inlet, io::Error)>,
}

impl ReadFaults {
    /// No reading failed.
    pub fn none() -> ReadFaults
        ensures { result.count ≡ 0 }
    {
        ReadFaults {
            count: 0,
            last: None,
        }
    }

    /// The error of the last reading that failed, and its inlet.
    pub fn last(&self) -> Option<&(Inlet, io::Error)> {
        self.last.as_ref()
    }

    /// The answer of a call that reads at an inlet: what the system gave, or a fault exactly if that is an error.
    pub fn answer<T>(&mut self, inlet: Inlet, given: io::Result<T>) -> Result<T, Failed>
        ensures given { IfOk given (λ moved. result ≡ Ok moved) }
        ensures same { OnOk given (self.new ≡ self.old) }
        ensures failed { OnErr given (IsErr result) }
        ensures counted { OnErr given
            (self.new.count ≡ min (self.old.count + 1) (2 ^ 64 - 1)) }
    {
        match given {
            Ok(moved) => Ok(moved),
            Err(error) => Err(self.fault((inlet, error))),
        }
    }

    /// Counts a failed reading.
    #[cold]
    fn fault(&mut self, fault: (Inlet, io::Error)) -> Failed
        ensures { self.new.count ≡ min (self.old.count + 1) (2 ^ 64 - 1) }
    {
        self.count = self.count.saturating_add(1);
        self.last = Some(fault);
        Failed
    }
}
