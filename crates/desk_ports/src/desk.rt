//! The desk: the one trait for everything that comes in and goes out.

ghost use Rattle.std.specs.Prelude.{◌≡◌, ◌<◌, ◌≤◌, length, take, IsTrue, IfOk, OnOk, OnErr};
ghost use Rattle.std.specs.Io.KnownBytes.{IsAtEnd};
ghost use Rattle.desk_ports.specs.Meanings.{Meanings, Counts, Opens, Begins, Moves, Adds, Keeps, IsReadyIn, IsReadyOut, HasReadCause, HasWriteCause, left};

use thiserror::Error;

/// A call to the outside failed: the system, or the desk that takes its place, refused.
#[derive(Clone, Copy, Debug, PartialEq, Eq, Error)]
#[error("the desk failed")]
pub struct Failed;

/// Where bytes come in: the side input (a schedule, a script, streams or fields) or the main one.
#[derive(Clone, Copy, Debug, PartialEq, Eq)]
pub enum Inlet {
    Side,
    Main,
}

/// Where bytes go out: the main output or the report.
#[derive(Clone, Copy, Debug, PartialEq, Eq)]
pub enum Outlet {
    Main,
    Report,
}

/// The outside of a command: named inputs are opened and read, named outputs opened, written and finished.
///
/// `meaning` is all that the desk tells about itself, and `counts` are its faults of reading and of writing,
/// which no call decreases. No call changes a meaning that its clauses do not name.
pub trait Desk {
    ghost meaning: { Self → Meanings };

    ghost counts: { Self → Counts };

    /// Opens an input by its name. What is left of it is then what the desk keeps under that name.
    fn open_in(&mut self, inlet: Inlet, name: &str) -> Result<(), Failed>
        requires { IsTrue ((meaning self.old).grants_in name.now) }
        ensures opened { OnOk result (Opens (meaning self.old) (meaning self.new) inlet name.now) }
        ensures unchanged { OnErr result (meaning self.new ≡ meaning self.old) }
        ensures cause { HasReadCause (counts self.old) (counts self.new) result };

    /// Opens an output by its name. Nothing has been written to it then.
    fn open_out(&mut self, outlet: Outlet, name: &str) -> Result<(), Failed>
        requires { IsTrue ((meaning self.old).grants_out name.now) }
        ensures opened { OnOk result
            (Begins (meaning self.old) (meaning self.new) outlet name.now) }
        ensures unchanged { OnErr result (meaning self.new ≡ meaning self.old) }
        ensures cause { HasWriteCause (counts self.old) (counts self.new) result };

    /// Moves the next bytes of an input to the front of `buf`, and tells how many: 0 exactly at the end.
    fn read(&mut self, inlet: Inlet, buf: &mut [u8]) -> Result<usize, Failed>
        requires open { IsReadyIn (meaning self.old) inlet }
        requires room { 0 < length buf.old }
        ensures within { IfOk result (λ n. n ≤ length buf.old) }
        ensures moved { IfOk result
            (λ n. Moves (meaning self.old) (meaning self.new) inlet (take n buf.new)) }
        ensures at_end { IfOk result (λ n. n ≡ 0 → IsAtEnd (left (meaning self.new) inlet)) }
        ensures unchanged { OnErr result (meaning self.new ≡ meaning self.old) }
        ensures cause { HasReadCause (counts self.old) (counts self.new) result };

    /// Appends some of the bytes, at least one, to an output, and tells how many.
    fn write(&mut self, outlet: Outlet, bytes: &[u8]) -> Result<usize, Failed>
        requires open { IsReadyOut (meaning self.old) outlet }
        requires some { 0 < length bytes.now }
        ensures within { IfOk result (λ n. n ≤ length bytes.now) }
        ensures progress { IfOk result (λ n. 0 < n) }
        ensures added { IfOk result
            (λ n. Adds (meaning self.old) (meaning self.new) outlet (take n bytes.now)) }
        ensures unchanged { OnErr result (meaning self.new ≡ meaning self.old) }
        ensures cause { HasWriteCause (counts self.old) (counts self.new) result };

    /// Ends an output: what was written to it is then kept under its name.
    fn finish(&mut self, outlet: Outlet) -> Result<(), Failed>
        requires { IsReadyOut (meaning self.old) outlet }
        ensures kept { OnOk result (Keeps (meaning self.old) (meaning self.new) outlet) }
        ensures unchanged { OnErr result (meaning self.new ≡ meaning self.old) }
        ensures cause { HasWriteCause (counts self.old) (counts self.new) result };
}
