//! The quiet desk, on which no call fails.

ghost use Rattle.std.specs.Prelude.{◌≡◌, ◌≢◌, ◌+◌, ◌-◌, ◌^◌, ◌<◌, ◌≤◌, ◌++◌, [], List, ℕ, Some, IfSome, Ok, IfOk, OnErr, length, min, take};
ghost use Rattle.desk_ports.specs.Meanings.{Adds, HasWriteCause, IsReadyOut, kept_at};
ghost use Rattle.desk_ports.specs.QuietState.{both_kept, quiet_desk, quiet_counts, quiet_held, quiet_meanings};

use crate::desk::{Desk, Failed, Inlet, Outlet};
use std::marker::Model;

// The side input and the main one under their names. Every other name has no bytes.
#[derive(Clone, Copy, Debug)]
struct Inputs<'a> {
    side_name: &'a str,
    side: &'a [u8],
    main_name: &'a str,
    main: &'a [u8],
}

impl<'a> Inputs<'a> {
    ghost use Rattle.desk_ports.specs.QuietDesk.{kept_inputs};

    fn under(&self, name: &str) -> &'a [u8]
        ensures { result.now ≡ kept_at (kept_inputs self.now) name.now }
    {
        if name == self.main_name {
            self.main
        } else if name == self.side_name {
            self.side
        } else {
            &[]
        }
    }
}

// An inlet: the bytes still to come, and whether it was opened.
#[derive(Clone, Copy, Debug)]
struct QuietInput<'a> {
    left: &'a [u8],
    ready: bool,
}

impl<'a> QuietInput<'a> {
    // Moves as many bytes as are left and fit to the front of `buf`.
    fn read(&mut self, buf: &mut [u8]) -> usize
        ensures count { result ≡ min (length buf.old) (length self.old.left.now) }
        ensures moved { self.old.left.now ≡ take result buf.new ++ self.new.left.now }
        ensures ready { self.new.ready ≡ self.old.ready }
    {
        let count = buf.len().min(self.left.len());
        let (front, rest) = self.left.split_at(count);
        buf[..count].copy_from_slice(front);
        self.left = rest;
        count
    }
}

// An outlet: how many bytes it took since it was opened, and whether it was opened.
#[derive(Clone, Copy, Debug)]
struct QuietOutput {
    count: u64,
    ready: bool,
}

impl QuietOutput {
    // Takes all the bytes, and tells how many.
    fn write(&mut self, bytes: &[u8]) -> usize
        ensures all { result ≡ length bytes.now }
        ensures counted { self.new.count ≡ min (self.old.count + length bytes.now) (2 ^ 64 - 1) }
        ensures ready { self.new.ready ≡ self.old.ready }
    {
        self.count = self.count.saturating_add(bytes.len() as u64);
        bytes.len()
    }
}

/// A desk that never fails and allocates no memory. It reads two named inputs, and every other name is an empty input.
///
/// It tells what its inlets have left and, until an output is finished, what it keeps. Its outlets take every byte
/// and keep only a count.
#[derive(Debug, Drop)]
pub struct QuietDesk<'a> {
    inputs: Inputs<'a>,
    side: QuietInput<'a>,
    input: QuietInput<'a>,
    output: QuietOutput,
    report: QuietOutput,
    finished: bool,
}

impl<'a> Model for QuietDesk<'a> {
    ghost use Rattle.desk_ports.specs.QuietState.{QuietState, quiet_code};

    ghost Value = { QuietState };

    ghost coded = { quiet_code };

    ghost use Rattle.desk_ports.specs.QuietDesk.{state_of};

    ghost view = { state_of };
}

impl<'a> QuietDesk<'a> {
    /// A desk on which nothing is open, with these two inputs under these names. If both names are equal
    /// it keeps the main input.
    pub fn new(
        side_name: &'a str,
        side: &'a [u8],
        main_name: &'a str,
        main: &'a [u8],
    ) -> QuietDesk<'a>
        ensures closed { result
            ≡ quiet_desk (both_kept side_name.now side.now main_name.now main.now) }
        ensures main { quiet_held result main_name.now ≡ Some main.now }
        ensures side { side_name.now ≢ main_name.now
            → quiet_held result side_name.now ≡ Some side.now }
        ensures others { (name : List ℕ) → name ≢ side_name.now → name ≢ main_name.now
            → quiet_held result name ≡ Some [] }
        ensures no_faults { quiet_counts result ≡ record { reads = 0; writes = 0 } }
    {
        let unread = QuietInput {
            left: &[],
            ready: false,
        };
        let taken = QuietOutput {
            count: 0,
            ready: false,
        };
        QuietDesk {
            inputs: Inputs {
                side_name,
                side,
                main_name,
                main,
            },
            side: unread,
            input: unread,
            output: taken,
            report: taken,
            finished: false,
        }
    }

    #[tactic(auto, using(crate::proofs::Desks::kept_until))]
    fn kept(&self, name: &str) -> &'a [u8]
        ensures { IfSome self.now.held (λ kept. result.now ≡ kept_at kept name.now) }
    {
        self.inputs.under(name)
    }
}

impl<'a> Desk for QuietDesk<'a> {
    ghost use Rattle.desk_ports.specs.QuietState.{quiet_meanings};

    ghost meaning = { quiet_meanings };

    ghost counts = { quiet_counts };

    fn open_in(&mut self, inlet: Inlet, name: &str) -> Result<(), Failed> {
        let unread = QuietInput {
            left: self.kept(name),
            ready: true,
        };
        match inlet {
            Inlet::Side => self.side = unread,
            Inlet::Main => self.input = unread,
        }
        Ok(())
    }

    fn open_out(&mut self, outlet: Outlet, _name: &str) -> Result<(), Failed> {
        let taken = QuietOutput {
            count: 0,
            ready: true,
        };
        match outlet {
            Outlet::Main => self.output = taken,
            Outlet::Report => self.report = taken,
        }
        Ok(())
    }

    fn read(&mut self, inlet: Inlet, buf: &mut [u8]) -> Result<usize, Failed> {
        Ok(match inlet {
            Inlet::Side => self.side.read(buf),
            Inlet::Main => self.input.read(buf),
        })
    }

    fn write(&mut self, outlet: Outlet, bytes: &[u8]) -> Result<usize, Failed>
        requires open { IsReadyOut (quiet_meanings self.old) outlet }
        requires some { 0 < length bytes.now }
        ensures within { IfOk result (λ n. n ≤ length bytes.now) }
        ensures progress { IfOk result (λ n. 0 < n) }
        ensures added { IfOk result
            (λ n. Adds (quiet_meanings self.old) (quiet_meanings self.new) outlet
            (take n bytes.now)) }
        ensures unchanged { OnErr result (quiet_meanings self.new ≡ quiet_meanings self.old) }
        ensures cause { HasWriteCause (quiet_counts self.old) (quiet_counts self.new) result }

        // Every byte is taken.
        ensures all { result ≡ Ok (length bytes.now) }
    {
        Ok(match outlet {
            Outlet::Main => self.output.write(bytes),
            Outlet::Report => self.report.write(bytes),
        })
    }

    fn finish(&mut self, _outlet: Outlet) -> Result<(), Failed> {
        self.finished = true;
        Ok(())
    }
}
