//! The command `table`: from a recording to the table of its fields, and the values out of their limits.

ghost use Rattle.std.specs.Prelude.{◌≡◌, IfOk};
ghost use Rattle.desk_ports.specs.Turns.{IsReadyRun};
ghost use Rattle.desk_ports.specs.Courses.{AfterRun, HasCause, by_stop};
ghost use Rattle.flight_chain.specs.Compressing.{stop_by};
ghost use Rattle.param_table.specs.Rows.{AreColumns};
ghost use Rattle.param_table.specs.Tabling.{table_work};
ghost use Rattle.bit_vectors.specs.Vectors.{IsPlaces};

use crate::TableFault;
use crate::fields::Fields;
use crate::line::Line;
use crate::tabling::Tabling;
use crate::writing::write_headers;
use bit_vectors::{Bits, NoMemory};
use desk_ports::{Desk, ReadAhead, drive};
use std::alloc::Global;
use std::marker::Model;

/// Tabulates a recording: reads it from the main inlet of a desk, writes a line for each packet to the main outlet, with
/// the value of each field, and a row for each value out of its limit to the report. Contracts see the places of the
/// packets and the columns.
#[derive(Debug, Drop)]
pub struct Tabler {
    tabling: Tabling,
}

impl Model for Tabler {
    ghost use Rattle.param_table.specs.Tabling.{HasTakenNothing, Tabulation, tabulation_of};

    ghost Value = { Tabulation };

    ghost view = { λ tabler. tabulation_of tabler.tabling };

    ghost invariant = { λ tabler. HasTakenNothing tabler.tabling };
}

impl Tabler {
    /// A tabler of packets of `f` places with these fields, which were read for as many. It takes all memory of the run.
    pub fn open(alloc: Global, f: u32, fields: Fields) -> Result<Tabler, NoMemory>
        requires valid { IsPlaces f }
        requires fit { AreColumns f fields }
        ensures { IfOk result (λ tabler. tabler ≡ record { places = f; columns = fields }) }
    {
        Ok(Tabler {
            tabling: Tabling {
                fields,
                taken: 0,
                found: 0,
                ahead: ReadAhead::open(alloc)?,
                packet: Bits::zeros(alloc, f)?,
                line: Line::open(alloc)?,
            },
        })
    }

    /// Tabulates the recording, and tells the number of its packets. It takes no memory.
    pub fn tabulate<D: Desk>(self, desk: &mut D) -> Result<u64, TableFault>
        requires { IsReadyRun (D.meaning desk.old) }
        // What stands after each answer is what the recording owes, in its order, all of it or up to where its walk or the
        // desk ends it; the number is that of the packets of the same recording, whatever the desk tells.
        ensures ran { AfterRun (table_work self) (D.meaning desk.old) (D.meaning desk.new)
            (by_stop stop_by result) }
        ensures cause { HasCause (D.counts desk.old) (D.counts desk.new) (by_stop stop_by result) }
    {
        let mut tabling = self.tabling;
        write_headers(desk, &mut tabling.line, tabling.fields.columns())?;
        drive(&mut tabling, desk)
    }
}
