//! The command `forecast`: which packets will be written, whatever the recording is.

ghost use Rattle.std.specs.Prelude.{◌≡◌, ◌≤◌, ◌++◌, length, IfOk};
ghost use Rattle.desk_ports.specs.Meanings.{IsReadyOut};
ghost use Rattle.desk_ports.specs.Courses.{to_output};
ghost use Rattle.desk_ports.specs.Turns.{Writes};
ghost use Rattle.forecast.specs.Outlooks.{IsPacketCount, foresees, row_of, closing_rows, end_row, forecast_text, gaps_row, sure_count};

use crate::foreseen::Foresight;
use crate::running::Running;
use crate::stretch::Stretch;
use bit_vectors::NoMemory;
use desk_ports::{Desk, Failed, Outlet, Row, write_all};
use side_tables::{Schedule, Script};
use std::alloc::Global;
use std::marker::Model;

/// The text's first line.
const HEADER: &str = "first,last,state\n";

/// A forecast for packets under a schedule and a script. Contracts see how many packets there are, the required robustness
/// of those to which the schedule gives none, and the rows of both.
#[derive(Debug, Drop)]
pub struct Forecast {
    packets: u32,
    foresight: Foresight,
}

impl Model for Forecast {
    ghost use Rattle.std.specs.Prelude.{◌≡◌};
    ghost use Rattle.forecast.specs.Outlooks.{ForecastState, IsPacketCount};

    ghost Value = { ForecastState };

    ghost view = { λ f. record { packets = f.packets; outlook = f.foresight } };

    ghost invariant = { λ f. IsPacketCount f.packets };
}

impl Forecast {
    /// A forecast for so many packets, 1 to 1,000,000, under a schedule and a script. `robust`, at most 7, is the required
    /// robustness of packets to which the schedule gives none. The memory is taken here.
    pub fn open(
        alloc: Global,
        packets: u32,
        robust: u8,
        plan: Schedule,
        script: Script,
    ) -> Result<Forecast, NoMemory>
        requires count { IsPacketCount packets }
        requires robust { robust ≤ 7 }
        ensures opened { IfOk result (λ forecast. forecast ≡ record {
          packets = packets;
          outlook = record { plan = plan; robust = robust; script = script };
        }) }
    {
        let foresight = Foresight::open(alloc, robust, plan, script)?;
        Ok(Forecast { packets, foresight })
    }

    /// Writes the forecast to the main outlet, and tells how many packets are sure. It takes no memory.
    pub fn write<D: Desk>(self, desk: &mut D) -> Result<u64, Failed>
        requires ready { IsReadyOut (D.meaning desk.old) Outlet.Main }
        ensures written { Writes D.meaning D.counts desk.old desk.new
            (to_output (forecast_text (foresees self.outlook) self.packets)) result }
        ensures sure { IfOk result
            (λ sure. sure ≡ sure_count (foresees self.outlook) self.packets) }
    {
        let mut running = Running::of(self.foresight);
        write_rows(desk, &mut running, self.packets)
    }
}

/// Writes the forecast for so many packets, none of which was taken yet, and tells how many are sure.
fn write_rows<D: Desk>(desk: &mut D, running: &mut Running, packets: u32) -> Result<u64, Failed>
    requires count { IsPacketCount packets }
    requires none { running.old.packets ≡ 0 }
    requires ready { IsReadyOut (D.meaning desk.old) Outlet.Main }
    ensures written { Writes D.meaning D.counts desk.old desk.new
        (to_output (forecast_text (foresees running.old.outlook) packets)) result }
    ensures sure { IfOk result
        (λ sure. sure ≡ sure_count (foresees running.old.outlook) packets) }
{
    write_all(desk, Outlet::Main, HEADER.as_bytes())?;
    for _ in 0..packets {
        write_row(desk, running.take())?;
    }
    write_row(desk, running.stretch())?;
    write_closing(desk, running)?;
    Ok(running.sure())
}

/// Writes the line of a stretch, if there is one.
fn write_row<D: Desk>(desk: &mut D, stretch: Option<Stretch>) -> Result<(), Failed>
    requires { IsReadyOut (D.meaning desk.old) Outlet.Main }
    ensures { Writes D.meaning D.counts desk.old desk.new (to_output (row_of stretch)) result }
{
    let Some(stretch) = stretch else {
        return Ok(());
    };
    write_all(desk, Outlet::Main, stretch.row().as_bytes())
}

/// Writes the last two lines: of the gaps, and of the numbers of the packets.
fn write_closing<D: Desk>(desk: &mut D, running: &Running) -> Result<(), Failed>
    requires { IsReadyOut (D.meaning desk.old) Outlet.Main }
    ensures { Writes D.meaning D.counts desk.old desk.new
        (to_output (closing_rows (foresees running.now.outlook) running.now.packets)) result }
{
    let played = running.played();
    let mut rows = gaps(played.first, played.widest);
    put_end(&mut rows, played.packets, running.sure());
    write_all(desk, Outlet::Main, rows.as_bytes())
}

/// The line of the first number that arrives, or a dash, and of the widest difference of two that do.
fn gaps(first: Option<u64>, widest: u64) -> Row
    ensures text { result ≡ gaps_row first widest }
    ensures few { length result ≤ 64 }
{
    let mut rows = Row::new();
    rows.put_text("gaps,");
    match first {
        None => rows.put_text("-"),
        Some(first) => rows.put_number(first),
    }
    rows.put_text(",");
    rows.put_number(widest);
    rows.put_text("\n");
    rows
}

/// Appends the last line: how many packets there are, and how many are sure.
fn put_end(rows: &mut Row, packets: u64, sure: u64)
    requires { length rows.old ≤ 64 }
    ensures { rows.new ≡ rows.old ++ end_row packets sure }
{
    rows.put_text("end,");
    rows.put_number(packets);
    rows.put_text(",");
    rows.put_number(sure);
    rows.put_text("\n");
}
