//! The calls that a desk in memory is told to fail, by their kind and number.

ghost use Rattle.std.specs.Prelude.{◌≡◌, ◌↔◌, IsTrue, OnOk, OnErr};
ghost use Rattle.desk_ports.specs.MemState.{no_calls, one_more, with_failing, IsNextFailing, empty_plan, calls_of, called, also_failing};

use std::alloc::{AllocError, Global};
use std::marker::Model;

/// The kinds of call on a desk.
#[derive(Clone, Copy, Debug, PartialEq, Eq)]
pub enum Call {
    OpenIn,
    OpenOut,
    Read,
    Write,
    Finish,
}

// The calls of one kind: how many were made, and the numbers of those that fail.
#[derive(Debug, Drop)]
struct Calls {
    calls: u64,
    failing: Vec<u64>,
}

impl Model for Calls {
    ghost use Rattle.desk_ports.specs.MemState.{MemCalls, calls_code};

    ghost Value = { MemCalls };

    ghost coded = { calls_code };

    ghost view = { λ c. record { calls = c.calls; failing = c.failing.items } };
}

impl Calls {
    fn none(alloc: Global) -> Calls
        ensures { result ≡ no_calls }
    {
        Calls {
            calls: 0,
            failing: Vec::new(alloc),
        }
    }

    // Numbers the next call, and tells whether it fails.
    fn next(&mut self) -> bool
        ensures numbered { self.new ≡ one_more self.old }
        ensures fails { IsTrue result ↔ IsNextFailing self.old }
    {
        self.calls = self.calls.saturating_add(1);
        self.failing.contains(&self.calls)
    }

    fn fail(&mut self, nth: u32) -> Result<(), AllocError>
        ensures ok { OnOk result (self.new ≡ with_failing self.old nth) }
        ensures err { OnErr result (self.new ≡ self.old) }
    {
        self.failing.push(u64::from(nth))?;
        Ok(())
    }
}

/// The calls of each kind.
#[derive(Debug, Drop)]
pub struct Plan {
    open_in: Calls,
    open_out: Calls,
    read: Calls,
    write: Calls,
    finish: Calls,
}

impl Model for Plan {
    ghost use Rattle.desk_ports.specs.MemState.{MemPlan, plan_code};

    ghost Value = { MemPlan };

    ghost coded = { plan_code };

    ghost view = { λ p. record {
      open_in = p.open_in;
      open_out = p.open_out;
      read = p.read;
      write = p.write;
      finish = p.finish;
    } };
}

impl Plan {
    /// No call was made, and none fails. It allocates no memory.
    pub fn none(alloc: Global) -> Plan
        ensures { result ≡ empty_plan }
    {
        Plan {
            open_in: Calls::none(alloc),
            open_out: Calls::none(alloc),
            read: Calls::none(alloc),
            write: Calls::none(alloc),
            finish: Calls::none(alloc),
        }
    }

    /// Numbers the next call of this kind, and tells whether it fails.
    pub fn next(&mut self, call: Call) -> bool
        ensures numbered { self.new ≡ called self.old call }
        ensures fails { IsTrue result ↔ IsNextFailing (calls_of self.old call) }
    {
        match call {
            Call::OpenIn => self.open_in.next(),
            Call::OpenOut => self.open_out.next(),
            Call::Read => self.read.next(),
            Call::Write => self.write.next(),
            Call::Finish => self.finish.next(),
        }
    }

    /// Makes the call of this kind with this number fail.
    pub fn fail(&mut self, call: Call, nth: u32) -> Result<(), AllocError>
        ensures ok { OnOk result (self.new ≡ also_failing self.old call nth) }
        ensures err { OnErr result (self.new ≡ self.old) }
    {
        match call {
            Call::OpenIn => self.open_in.fail(nth),
            Call::OpenOut => self.open_out.fail(nth),
            Call::Read => self.read.fail(nth),
            Call::Write => self.write.fail(nth),
            Call::Finish => self.finish.fail(nth),
        }
    }
}
