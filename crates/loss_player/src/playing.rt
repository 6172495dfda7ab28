//! A store that is being played, packet by packet.

ghost use Rattle.std.specs.Prelude.{◌≡◌, ◌^◌, ◌-◌, ◌<◌, ◌≤◌, true, length, IfOk};
ghost use Rattle.desk_ports.specs.Meanings.{IsReadyOut};
ghost use Rattle.desk_ports.specs.Courses.{to_output};
ghost use Rattle.desk_ports.specs.Turns.{Writes};
ghost use Rattle.side_tables.specs.Rows.{copies_of};
ghost use Rattle.loss_player.specs.Played.{repeated};

use crate::PlayFault;
use crate::played::{Played, Tally};
use crate::report::write_report;
use bit_vectors::NoMemory;
use desk_ports::{Desk, Failed, Outlet, Run, Turn, write_all};
use packet_store::{StoreReader, WalkFault};
use side_tables::{CopyLookup, Script};
use std::alloc::Global;

/// A reader, the script, and the numbers so far.
#[derive(Debug, Drop)]
pub struct Playing {
    reader: StoreReader,
    script: CopyLookup,
    tally: Tally,
}

impl Run for Playing {
    type Answer = Played;

    type Fault = PlayFault;

    type Data = WalkFault;

    ghost use Rattle.packet_store.specs.StoreReader.{stop_by};
    ghost use Rattle.loss_player.specs.Playing.{Owes};

    ghost owes = { Owes };

    ghost stop_of = { stop_by };

    ghost writes = { λ _. true };

    ghost remaining = { λ p. 2 ^ 32 - p.reader.taken };

    fn turn<D: Desk>(&mut self, desk: &mut D) -> Result<Turn<Played>, PlayFault> {
        let Some(taken) = self.reader.next(desk)? else {
            write_report(desk, &self.tally.played)?;
            return Ok(Turn::Done(self.tally.played));
        };
        self.deliver(desk, taken.chosen)?;
        Ok(Turn::More)
    }
}

impl Playing {
    ghost use Rattle.loss_player.specs.Playing.{HasCounted, IsCounted, next_copies, nothing_read};

    /// Nothing is read. Takes all memory of the run.
    pub fn open(alloc: Global, apid: u16, script: Script) -> Result<Playing, NoMemory>
        requires chosen { apid ≤ 2046 }
        ensures { IfOk result (λ playing. playing ≡ nothing_read apid script) }
    {
        let reader = StoreReader::open(alloc, apid)?;
        Ok(Playing {
            reader,
            script: CopyLookup::open(alloc, script)?,
            tally: Tally::none(),
        })
    }

    /// Writes the packet that was read, which is of the chosen APID or of another one, as often as it arrives.
    fn deliver<D: Desk>(&mut self, desk: &mut D, chosen: bool) -> Result<(), Failed>
        requires some { 0 < length self.old.reader.body }
        requires few { self.old.tally.played.packets < 2 ^ 32 }
        requires counted { IsCounted self.old }
        requires output { IsReadyOut (D.meaning desk.old) Outlet.Main }
        ensures counts { HasCounted self.old self.new chosen }
        ensures counted { IsCounted self.new }
        ensures written { Writes D.meaning D.counts desk.old desk.new
            (to_output (next_copies self.old chosen self.old.reader.packet)) result }
    {
        let times = if chosen { self.count() } else { 1 };
        write_copies(desk, self.reader.packet(), times)
    }

    /// Counts the packet that was read, which is of the chosen APID, and tells how many copies of it arrive.
    fn count(&mut self) -> u8
        requires few { self.old.tally.played.packets < 2 ^ 32 }
        requires counted { IsCounted self.old }
        ensures copies { result ≡ copies_of self.old.script self.old.tally.played.packets }
        ensures counts { HasCounted self.old self.new true }
        ensures counted { IsCounted self.new }
    {
        let copies = self.script.at(self.tally.played.packets as u32);
        self.tally.count(copies);
        copies
    }
}

/// Writes the bytes of a packet so many times.
fn write_copies<D: Desk>(desk: &mut D, packet: &[u8], times: u8) -> Result<(), Failed>
    requires { IsReadyOut (D.meaning desk.old) Outlet.Main }
    ensures { Writes D.meaning D.counts desk.old desk.new (to_output (repeated times packet.now)) result }
{
    for _ in 0..times {
        write_all(desk, Outlet::Main, packet)?;
    }
    Ok(())
}
