//! What `restore` writes of the arrivals: the content of each restored packet, and the rows of the report.

ghost use Rattle.std.specs.Prelude.{◌≡◌, true, length, IfOk};
ghost use Rattle.bit_vectors.specs.Vectors.{IsPlaces, byte_count, vector_bytes};
ghost use Rattle.desk_ports.specs.Meanings.{IsReadyOut};
ghost use Rattle.desk_ports.specs.Courses.{to_output, to_report};
ghost use Rattle.desk_ports.specs.Turns.{Writes};
ghost use Rattle.packet_decode.specs.State.{latest_content};
ghost use Rattle.ground_chain.specs.Report.{verdict_rows};

use crate::account::Account;
use crate::report::{end_row, rows_of};
use crate::restored::Restored;
use crate::verdict::Verdict;
use bit_vectors::{NoMemory, byte_len, zero_bytes};
use desk_ports::{Desk, Failed, Outlet, write_all};
use packet_decode::Decoder;
use std::alloc::Global;

/// A line for a content.
#[derive(Debug, Drop)]
pub struct Reporting {
    line: Vec<u8>,
}

impl Reporting {
    ghost use Rattle.ground_chain.specs.Restoring.{HasContentRoom};

    /// Takes the memory for contents of `f` places.
    pub fn open(alloc: Global, f: u32) -> Result<Reporting, NoMemory>
        requires valid { IsPlaces f }
        ensures { IfOk result (λ reporting. HasContentRoom reporting f) }
    {
        let line = zero_bytes(alloc, byte_len(f) as usize)?;
        Ok(Reporting { line })
    }
}

impl Account for Reporting {
    ghost use Rattle.ground_chain.specs.Restoring.{HasContentRoom, restored_texts};

    ghost texts = { restored_texts };

    ghost writes = { λ _. true };

    ghost has_room = { HasContentRoom };

    fn write<D: Desk>(
        &mut self,
        desk: &mut D,
        verdict: &Verdict,
        decoder: &Decoder,
    ) -> Result<(), Failed> {
        write_rows(desk, verdict)?;
        if verdict.kind.is_written() {
            write_content(desk, decoder, &mut self.line)?;
        }
        Ok(())
    }

    fn end<D: Desk>(&self, desk: &mut D, restored: &Restored) -> Result<(), Failed> {
        write_all(desk, Outlet::Report, end_row(restored).as_bytes())
    }
}

/// Writes the rows of a verdict. A packet that is written after the one before it has none.
fn write_rows<D: Desk>(desk: &mut D, verdict: &Verdict) -> Result<(), Failed>
    requires { IsReadyOut (D.meaning desk.old) Outlet.Report }
    ensures { Writes D.meaning D.counts desk.old desk.new (to_report (verdict_rows verdict.now)) result }
{
    if verdict.lost.is_none() && verdict.kind.is_written() {
        return Ok(());
    }
    write_some_rows(desk, verdict)
}

/// Writes the rows of a verdict, apart from the packets that have none: they would pay for the room of the rows.
#[cold]
fn write_some_rows<D: Desk>(desk: &mut D, verdict: &Verdict) -> Result<(), Failed>
    requires { IsReadyOut (D.meaning desk.old) Outlet.Report }
    ensures { Writes D.meaning D.counts desk.old desk.new (to_report (verdict_rows verdict.now)) result }
{
    write_all(desk, Outlet::Report, rows_of(verdict).as_bytes())
}

/// Writes the content of the latest written packet.
fn write_content<D: Desk>(desk: &mut D, decoder: &Decoder, line: &mut [u8]) -> Result<(), Failed>
    requires line { length line.old ≡ byte_count decoder.now.places }
    requires output { IsReadyOut (D.meaning desk.old) Outlet.Main }
    ensures { Writes D.meaning D.counts desk.old desk.new
        (to_output (vector_bytes (latest_content decoder.now.places decoder.now.state))) result }
{
    decoder.content().store(line);
    write_all(desk, Outlet::Main, line)
}
