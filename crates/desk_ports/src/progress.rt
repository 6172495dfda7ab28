//! How far a run is, shown on standard error while it goes on.

use std::io::IsTerminal;
use std::time::Instant;

/// After how many bytes the clock is looked at.
const LOOK: u64 = 131_072;

/// The least number of milliseconds before the line is shown again.
const PAUSE: u128 = 100;

/// How many bytes of the main input were read. If standard error is a terminal, this is shown there in one line, at most
/// ten times a second. No clause speaks of it, and a failure here is not a fault.
#[derive(Drop)]
pub struct Progress {
    shown: bool,
    /// The length of the input, if it is a regular file.
    whole: Option<u64>,
    read: u64,
    looked: u64,
    told: Option<Instant>,
}

impl Progress {
    /// Nothing was read.
    pub fn new(rt: &HostRuntime) -> Progress {
        Progress {
            shown: rt.stderr().is_terminal(),
            whole: None,
            read: 0,
            looked: 0,
            told: None,
        }
    }

    /// Begins with an input of this length, if its length is known.
    pub fn begin(&mut self, whole: Option<u64>) {
        self.whole = whole;
        self.read = 0;
        self.looked = 0;
    }

    /// Shows nothing from now on, since the output goes to the terminal.
    pub fn hide(&mut self) {
        self.shown = false;
    }

    /// Counts bytes that were read, and shows how far the run is.
    pub fn count(&mut self, rt: &HostRuntime, bytes: usize) {
        self.read = self.read.saturating_add(bytes as u64);
        if !self.shown || self.read.saturating_sub(self.looked) < LOOK {
            return;
        }
        self.looked = self.read;
        if let Ok(now) = Instant::now(rt) {
            self.tell(rt, now);
        }
    }

    /// Shows how far the run is, if it is time to.
    fn tell(&mut self, rt: &HostRuntime, now: Instant) {
        if let Some(told) = self.told {
            if now.duration_since(told).as_millis() < PAUSE {
                return;
            }
        }
        self.told = Some(now);
        let _ = match self.whole {
            None => eprint!(rt; "\rpocket: {} bytes", self.read),
            Some(whole) => eprint!(rt; "\rpocket: {} of {} bytes", self.read, whole),
        };
    }

    /// Removes the line.
    pub fn end(&mut self, rt: &HostRuntime) {
        if self.told.is_some() {
            let _ = eprint!(rt; "\r\x1b[K");
            self.told = None;
        }
    }
}
