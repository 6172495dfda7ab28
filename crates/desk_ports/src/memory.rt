//! The desk in memory, whose calls can be told to fail.

ghost use Rattle.std.specs.Prelude.{◌≡◌, ◌≤◌, ◌<◌, ◌↔◌, ◌⊎◌, length, min, take, is_some, Some, None, IsTrue, IsErr, IfOk, OnOk, OnErr};
ghost use Rattle.std.specs.FinMap as map;
ghost use Rattle.std.specs.Io.KnownBytes.{IsAtEnd};
ghost use Rattle.desk_ports.specs.Meanings.{Opens, Begins, Moves, Adds, Keeps, IsReadyIn, IsReadyOut, HasReadCause, HasWriteCause, left, kept_at};
ghost use Rattle.desk_ports.specs.MemState.{empty_desk, no_faults, mem_left, mem_made, mem_meanings, mem_counts, capped, also_failing, IsNamed, IsCalled, read_fault, write_fault, refusal};

mod counts;
mod names;

use self::counts::Faults;
use crate::calls::{Call, Plan};
use crate::desk::{Desk, Failed, Inlet, Outlet};
use crate::log::{LogEntry, keep, newest};
use crate::written::Written;
use bit_vectors::NoMemory;
use std::alloc::Global;
use std::marker::Model;

// Where an inlet is: before a place in the bytes of an entry of the log.
#[derive(Clone, Copy, Debug)]
enum Cursor {
    Nothing,
    Entry { at: usize, place: usize },
}

#[derive(Clone, Copy, Debug)]
struct Cursors {
    side: Cursor,
    input: Cursor,
}

impl Cursors {
    ghost use Rattle.desk_ports.specs.MemDesk.{cursor_at, with_cursor};

    fn at(&self, inlet: Inlet) -> Cursor
        ensures { result ≡ cursor_at self.now inlet }
    {
        match inlet {
            Inlet::Side => self.side,
            Inlet::Main => self.input,
        }
    }

    fn set(&mut self, inlet: Inlet, cursor: Cursor)
        ensures { self.new ≡ with_cursor self.old inlet cursor }
    {
        match inlet {
            Inlet::Side => self.side = cursor,
            Inlet::Main => self.input = cursor,
        }
    }
}

/// The desk in memory. It tells everything, and its outlets grow.
#[derive(Debug, Drop)]
pub struct MemDesk {
    alloc: Global,
    log: Vec<LogEntry>,
    cursors: Cursors,
    output: Written,
    report: Written,
    pieces: Option<u32>,
    plan: Plan,
    faults: Faults,
}

impl Model for MemDesk {
    ghost use Rattle.desk_ports.specs.MemState.{MemState, state_code};

    ghost Value = { MemState };

    ghost coded = { state_code };

    ghost use Rattle.desk_ports.specs.MemDesk.{state_of, IsSound};

    ghost view = { state_of };

    ghost invariant = { IsSound };
}

impl MemDesk {
    /// A desk with nothing held, no faults and no failing calls. It allocates no memory.
    pub fn new(alloc: Global) -> MemDesk
        ensures { result ≡ empty_desk }
    {
        MemDesk {
            alloc,
            log: Vec::new(alloc),
            cursors: Cursors {
                side: Cursor::Nothing,
                input: Cursor::Nothing,
            },
            output: Written::closed(alloc),
            report: Written::closed(alloc),
            pieces: None,
            plan: Plan::none(alloc),
            faults: Faults::none(),
        }
    }

    /// Keeps the bytes under the name. An inlet that was opened before stays as it is.
    pub fn put(&mut self, name: &str, bytes: &[u8]) -> Result<(), NoMemory>
        ensures ok { OnOk result
            (self.new ≡ record self.old { held = map.insert self.old.held name.now bytes.now }) }
        ensures err { OnErr result (self.new ≡ self.old) }
    {
        Ok(keep(&mut self.log, self.alloc, name.as_bytes(), bytes)?)
    }

    /// What is kept under the name, or no byte if nothing is.
    pub fn get(&self, name: &str) -> &[u8]
        ensures { result.now ≡ kept_at self.now.held name.now }
    {
        match newest(&self.log, name.as_bytes()) {
            Some(at) => self.log[at].bytes(),
            None => &[],
        }
    }

    /// Whether something is kept under the name.
    pub fn holds(&self, name: &str) -> bool
        ensures { result ≡ is_some (map.get self.now.held name.now) }
    {
        newest(&self.log, name.as_bytes()).is_some()
    }

    /// The bytes that were written to an outlet since it was opened.
    pub fn seen(&self, outlet: Outlet) -> &[u8]
        ensures { result.now ≡ mem_made self.now outlet }
    {
        match outlet {
            Outlet::Main => self.output.made(),
            Outlet::Report => self.report.made(),
        }
    }

    /// Limits each later read and write to at most this many bytes.
    pub fn pieces(&mut self, size: u32)
        requires { 1 ≤ size }
        ensures { self.new ≡ record self.old { pieces = Some size } }
    {
        self.pieces = Some(size);
    }

    /// Makes the call of this kind with this number fail. Calls are numbered from 1 since the desk was made.
    pub fn fail(&mut self, call: Call, nth: u32) -> Result<(), NoMemory>
        ensures ok { OnOk result
            (self.new ≡ record self.old { plan = also_failing self.old.plan call nth }) }
        ensures err { OnErr result (self.new ≡ self.old) }
    {
        Ok(self.plan.fail(call, nth)?)
    }

    /// Another desk, which has counted no fault, with all else of this one.
    pub fn with_no_faults(self) -> MemDesk
        ensures { result ≡ record self { faults = no_faults } }
    {
        MemDesk {
            faults: Faults::none(),
            ..self
        }
    }

    /// How often opening an input and reading have failed.
    pub fn read_faults(&self) -> u64
        ensures { result ≡ self.now.faults.reads }
    {
        self.faults.reads
    }

    /// How often opening an output, writing and finishing have failed.
    pub fn write_faults(&self) -> u64
        ensures { result ≡ self.now.faults.writes }
    {
        self.faults.writes
    }

    /// How often an allocation was refused in opening an output, writing and finishing.
    pub fn short(&self) -> u64
        ensures { result ≡ self.now.faults.short }
    {
        self.faults.short
    }
}

impl Desk for MemDesk {
    ghost meaning = { mem_meanings };

    ghost counts = { mem_counts };

    fn open_in(&mut self, inlet: Inlet, name: &str) -> Result<(), Failed>
        requires { IsTrue ((mem_meanings self.old).grants_in name.now) }
        ensures opened { OnOk result
            (Opens (mem_meanings self.old) (mem_meanings self.new) inlet name.now) }
        ensures unchanged { OnErr result (mem_meanings self.new ≡ mem_meanings self.old) }
        ensures cause { HasReadCause (mem_counts self.old) (mem_counts self.new) result }

        // It fails exactly if `fail` named it, or if nothing is kept under the name.
        ensures fails { IsErr result
            ↔ (IsNamed self.old Call.OpenIn ⊎ (map.get self.old.held name.now ≡ None)) }
        ensures still { OnOk result (self.new.faults ≡ self.old.faults) }
        ensures fault { OnErr result (self.new.faults ≡ read_fault self.old.faults) }
        ensures called { IsCalled self.old self.new Call.OpenIn }
    {
        if self.plan.next(Call::OpenIn) {
            return Err(self.faults.read());
        }
        let Some(at) = newest(&self.log, name.as_bytes()) else {
            return Err(self.faults.read());
        };
        self.cursors.set(inlet, Cursor::Entry { at, place: 0 });
        Ok(())
    }

    fn open_out(&mut self, outlet: Outlet, name: &str) -> Result<(), Failed>
        requires { IsTrue ((mem_meanings self.old).grants_out name.now) }
        ensures opened { OnOk result
            (Begins (mem_meanings self.old) (mem_meanings self.new) outlet name.now) }
        ensures unchanged { OnErr result (mem_meanings self.new ≡ mem_meanings self.old) }
        ensures cause { HasWriteCause (mem_counts self.old) (mem_counts self.new) result }

        // It fails if `fail` named it, and otherwise only if an allocation was refused.
        ensures named { IsNamed self.old Call.OpenOut
            → IsErr result × (self.new.faults ≡ write_fault self.old.faults) }
        ensures refused { OnErr result
            (IsNamed self.old Call.OpenOut ⊎ (self.new.faults ≡ refusal self.old.faults)) }
        ensures still { OnOk result (self.new.faults ≡ self.old.faults) }
        ensures called { IsCalled self.old self.new Call.OpenOut }
    {
        if self.plan.next(Call::OpenOut) {
            return Err(self.faults.write());
        }
        let name = name.as_bytes();
        let opened = match outlet {
            Outlet::Main => self.output.open(self.alloc, name),
            Outlet::Report => self.report.open(self.alloc, name),
        };
        match opened {
            Ok(()) => Ok(()),
            Err(_) => Err(self.faults.growth()),
        }
    }

    fn read(&mut self, inlet: Inlet, buf: &mut [u8]) -> Result<usize, Failed>
        requires open { IsReadyIn (mem_meanings self.old) inlet }
        requires room { 0 < length buf.old }
        ensures within { IfOk result (λ n. n ≤ length buf.old) }
        ensures moved { IfOk result
            (λ n. Moves (mem_meanings self.old) (mem_meanings self.new) inlet (take n buf.new)) }
        ensures at_end { IfOk result (λ n. n ≡ 0 → IsAtEnd (left (mem_meanings self.new) inlet)) }
        ensures unchanged { OnErr result (mem_meanings self.new ≡ mem_meanings self.old) }
        ensures cause { HasReadCause (mem_counts self.old) (mem_counts self.new) result }

        // It fails exactly if `fail` named it. It moves as many bytes as are left and fit, up to the size of a piece.
        ensures fails { IsErr result ↔ IsNamed self.old Call.Read }
        ensures count { IfOk result (λ n. n ≡ capped self.old.pieces
            (min (length buf.old) (length (mem_left self.old inlet)))) }
        ensures still { OnOk result (self.new.faults ≡ self.old.faults) }
        ensures fault { OnErr result (self.new.faults ≡ read_fault self.old.faults) }
        ensures called { IsCalled self.old self.new Call.Read }
    {
        if self.plan.next(Call::Read) {
            return Err(self.faults.read());
        }
        let Cursor::Entry { at, place } = self.cursors.at(inlet) else {
            unreachable!()
        };
        let rest = &self.log[at].bytes()[place..];
        let moved = capped(self.pieces, buf.len().min(rest.len()));
        copy_front(buf, rest, moved);
        let place = place + moved;
        self.cursors.set(inlet, Cursor::Entry { at, place });
        Ok(moved)
    }

    fn write(&mut self, outlet: Outlet, bytes: &[u8]) -> Result<usize, Failed>
        requires open { IsReadyOut (mem_meanings self.old) outlet }
        requires some { 0 < length bytes.now }
        ensures within { IfOk result (λ n. n ≤ length bytes.now) }
        ensures progress { IfOk result (λ n. 0 < n) }
        ensures added { IfOk result
            (λ n. Adds (mem_meanings self.old) (mem_meanings self.new) outlet (take n bytes.now)) }
        ensures unchanged { OnErr result (mem_meanings self.new ≡ mem_meanings self.old) }
        ensures cause { HasWriteCause (mem_counts self.old) (mem_counts self.new) result }

        // It takes all the bytes, up to the size of a piece.
        // It fails if `fail` named it, and otherwise only if an allocation was refused.
        ensures count { IfOk result (λ n. n ≡ capped self.old.pieces (length bytes.now)) }
        ensures named { IsNamed self.old Call.Write
            → IsErr result × (self.new.faults ≡ write_fault self.old.faults) }
        ensures refused { OnErr result
            (IsNamed self.old Call.Write ⊎ (self.new.faults ≡ refusal self.old.faults)) }
        ensures still { OnOk result (self.new.faults ≡ self.old.faults) }
        ensures called { IsCalled self.old self.new Call.Write }
    {
        if self.plan.next(Call::Write) {
            return Err(self.faults.write());
        }
        let bytes = &bytes[..capped(self.pieces, bytes.len())];
        let added = match outlet {
            Outlet::Main => self.output.add(bytes),
            Outlet::Report => self.report.add(bytes),
        };
        match added {
            Ok(()) => Ok(bytes.len()),
            Err(_) => Err(self.faults.growth()),
        }
    }

    fn finish(&mut self, outlet: Outlet) -> Result<(), Failed>
        requires { IsReadyOut (mem_meanings self.old) outlet }
        ensures kept { OnOk result (Keeps (mem_meanings self.old) (mem_meanings self.new) outlet) }
        ensures unchanged { OnErr result (mem_meanings self.new ≡ mem_meanings self.old) }
        ensures cause { HasWriteCause (mem_counts self.old) (mem_counts self.new) result }

        // It fails if `fail` named it, and otherwise only if an allocation was refused.
        ensures named { IsNamed self.old Call.Finish
            → IsErr result × (self.new.faults ≡ write_fault self.old.faults) }
        ensures refused { OnErr result
            (IsNamed self.old Call.Finish ⊎ (self.new.faults ≡ refusal self.old.faults)) }
        ensures still { OnOk result (self.new.faults ≡ self.old.faults) }
        ensures called { IsCalled self.old self.new Call.Finish }
    {
        if self.plan.next(Call::Finish) {
            return Err(self.faults.write());
        }
        let kept = match outlet {
            Outlet::Main => self.output.keep_in(&mut self.log, self.alloc),
            Outlet::Report => self.report.keep_in(&mut self.log, self.alloc),
        };
        match kept {
            Ok(()) => Ok(()),
            Err(_) => Err(self.faults.growth()),
        }
    }
}

// The most bytes that one call may move.
fn capped(pieces: Option<u32>, count: usize) -> usize
    ensures { result ≡ capped pieces count }
{
    match pieces {
        Some(size) => count.min(size as usize),
        None => count,
    }
}

fn copy_front(buf: &mut [u8], bytes: &[u8], count: usize)
    requires room { count ≤ length buf.old }
    requires some { count ≤ length bytes.now }
    ensures { take count buf.new ≡ take count bytes.now }
{
    buf[..count].copy_from_slice(&bytes[..count]);
}
