//! How often the system failed to write, why it did so last, and whether that is still to be told.

ghost use Rattle.std.specs.Prelude.{◌≡◌, ◌+◌, ◌-◌, ◌^◌, min, Ok, IsTrue, IsFalse, IsErr, OnOk, OnErr};

use crate::desk::{Failed, Outlet};
use crate::part::refused;
use std::io;
use std::mem::replace;

/// A count of failed writings, which ends at 18,446,744,073,709,551,615, the last error, with its outlet, and whether one is
/// pending: what is handed over while something else is done can fail too, and the next call that writes answers for it.
#[derive(Drop)]
pub struct WriteFaults {
    count: u64,
    pending: bool,
    last: Option<(Outlet, io::Error)>,
}

/// The answer of a call of the system, with the outlet at which it was made if it is an error.
pub fn at(outlet: Outlet, given: io::Result<()>) -> Result<(), (Outlet, io::Error)>
    ensures given { OnOk given (result ≡ Ok tt) }
    ensures failed { OnErr given (IsErr result) }
{
    match given {
        Ok(()) => Ok(()),
        Err(error) => Err((outlet, error)),
    }
}

impl WriteFaults {
    /// No writing failed.
    pub fn none() -> WriteFaults
        ensures count { result.count ≡ 0 }
        ensures pending { IsFalse result.pending }
    {
        WriteFaults {
            count: 0,
            pending: false,
            last: None,
        }
    }

    /// The error of the last writing that failed, and its outlet.
    pub fn last(&self) -> Option<&(Outlet, io::Error)> {
        self.last.as_ref()
    }

    /// The answer of a call that writes at an outlet: a fault exactly if the system gave an error, which is kept.
    #[inline(always)]
    pub fn answer(&mut self, outlet: Outlet, given: &mut io::Result<()>) -> Result<(), Failed>
        ensures given { OnOk given.old (result ≡ Ok tt) }
        ensures same { OnOk given.old (self.new ≡ self.old) }
        ensures failed { OnErr given.old (IsErr result) }
        ensures counted { OnErr given.old
            (self.new.count ≡ min (self.old.count + 1) (2 ^ 64 - 1)) }
        ensures pending { self.new.pending ≡ self.old.pending }
    {
        if given.is_ok() {
            return Ok(());
        }
        self.tell(outlet, given)
    }

    // The same of a call that failed. It stands apart, and takes the error where it is: an `io::Error` is far larger than an answer.
    #[cold]
    #[inline(never)]
    fn tell(&mut self, outlet: Outlet, given: &mut io::Result<()>) -> Result<(), Failed>
        ensures given { OnOk given.old (result ≡ Ok tt) }
        ensures same { OnOk given.old (self.new ≡ self.old) }
        ensures failed { OnErr given.old (IsErr result) }
        ensures counted { OnErr given.old
            (self.new.count ≡ min (self.old.count + 1) (2 ^ 64 - 1)) }
        ensures pending { self.new.pending ≡ self.old.pending }
    {
        match replace(given, Ok(())) {
            Ok(()) => Ok(()),
            Err(error) => Err(self.fault((outlet, error))),
        }
    }

    /// Counts a failed writing.
    #[cold]
    pub fn fault(&mut self, fault: (Outlet, io::Error)) -> Failed
        ensures count { self.new.count ≡ min (self.old.count + 1) (2 ^ 64 - 1) }
        ensures pending { self.new.pending ≡ self.old.pending }
    {
        self.count = self.count.saturating_add(1);
        self.last = Some(fault);
        Failed
    }

    /// Counts a writing that is refused for this reason.
    #[cold]
    #[inline(never)]
    pub fn refuse(&mut self, outlet: Outlet, reason: &'static str) -> Failed
        ensures count { self.new.count ≡ min (self.old.count + 1) (2 ^ 64 - 1) }
        ensures pending { self.new.pending ≡ self.old.pending }
    {
        self.fault((outlet, refused(reason)))
    }

    /// Leaves an error of the system to the next call that writes.
    pub fn put_off(&mut self, outlet: Outlet, handed: io::Result<()>)
        ensures count { self.new.count ≡ self.old.count }
        ensures same { OnOk handed (self.new ≡ self.old) }
        ensures pending { OnErr handed (IsTrue self.new.pending) }
    {
        if let Err(error) = handed {
            self.pending = true;
            self.last = Some((outlet, error));
        }
    }

    /// Answers for a failed writing that is pending, once. If none is, it does nothing.
    pub fn due(&mut self) -> Result<(), Failed>
        ensures told { IsTrue self.old.pending → IsErr result }
        ensures none { OnOk result (IsFalse self.old.pending) }
        ensures same { OnOk result (self.new ≡ self.old) }
        ensures counted { OnErr result
            (self.new.count ≡ min (self.old.count + 1) (2 ^ 64 - 1)) }
        ensures settled { IsFalse self.new.pending }
    {
        if !self.pending {
            return Ok(());
        }
        self.pending = false;
        self.count = self.count.saturating_add(1);
        Err(Failed)
    }
}
