//! What is known of packets before there is a recording.

ghost use Rattle.std.specs.Prelude.{◌≡◌, ◌≤◌, IfOk};
ghost use Rattle.forecast.specs.Outlooks.{IsForeseenAs, foresees};

use bit_vectors::NoMemory;
use side_tables::{CopyLookup, Lookup, Schedule, Script};
use std::alloc::Global;
use std::marker::Model;

/// What is known of a packet before there is a recording.
#[derive(Clone, Copy, Debug, PartialEq, Eq)]
pub struct Foreseen {
    /// Whether its mask is sent, after forcing.
    pub mask: bool,
    /// Whether its whole content is sent, after forcing.
    pub content: bool,
    /// Its required robustness, at most 7.
    pub robust: u8,
    /// How many copies of it arrive, at most 9.
    pub copies: u8,
}

/// A schedule, the required robustness of packets to which it gives none, and a script. Contracts see the rows of both.
#[derive(Debug, Drop)]
pub struct Foresight {
    plan: Lookup,
    robust: u8,
    script: CopyLookup,
}

impl Model for Foresight {
    ghost use Rattle.forecast.specs.Outlooks.{OutlookState};

    ghost Value = { OutlookState };

    ghost view = { λ s. record { plan = s.plan; robust = s.robust; script = s.script } };
}

impl Foresight {
    /// What is foreseen under a schedule, a required robustness and a script. Takes all memory that `at` needs.
    pub fn open(
        alloc: Global,
        robust: u8,
        plan: Schedule,
        script: Script,
    ) -> Result<Foresight, NoMemory>
        ensures { IfOk result
            (λ foresight. foresight ≡ record { plan = plan; robust = robust; script = script }) }
    {
        Ok(Foresight {
            plan: Lookup::open(alloc, plan)?,
            robust,
            script: CopyLookup::open(alloc, script)?,
        })
    }

    /// What is foreseen of the packet `t`. It takes no memory.
    pub fn at(&mut self, t: u32) -> Foreseen
        ensures foreseen { IsForeseenAs (foresees self.old) t result }
        ensures copies { result.copies ≤ 9 }
        ensures same { self.new ≡ self.old }
    {
        let given = self.plan.at(t);
        let robust = given.robust.unwrap_or(self.robust);
        let forced = t <= u32::from(robust);
        Foreseen {
            mask: forced || given.flags.f,
            content: forced || given.flags.r,
            robust,
            copies: self.script.at(t),
        }
    }
}
