//! A recording that is being tabulated, packet by packet.

ghost use Rattle.std.specs.Prelude.{◌-◌, ◌^◌, true};

use crate::TableFault;
use crate::fields::Fields;
use crate::line::Line;
use crate::writing::{write_end, write_packet};
use bit_vectors::Bits;
use desk_ports::{Desk, ReadAhead, Run, Turn};
use flight_chain::{RecordFault, read_input};

/// The fields, how many packets were taken and how many values were found out of their limits; what is read of the
/// recording, a vector for a packet, and a line for a text.
#[derive(Debug, Drop)]
pub struct Tabling {
    pub fields: Fields,
    pub taken: u64,
    pub found: u64,
    pub ahead: ReadAhead,
    pub packet: Bits,
    pub line: Line,
}

impl Run for Tabling {
    type Answer = u64;

    type Fault = TableFault;

    type Data = RecordFault;

    ghost use Rattle.flight_chain.specs.Compressing.{stop_by};
    ghost use Rattle.param_table.specs.Tabling.{Owes};

    ghost owes = { Owes };

    ghost stop_of = { stop_by };

    ghost writes = { λ _. true };

    ghost remaining = { λ tabling. 2 ^ 32 - tabling.taken };

    fn turn<D: Desk>(&mut self, desk: &mut D) -> Result<Turn<u64>, TableFault> {
        let Some(t) = read_input(&mut self.ahead, desk, self.taken, &mut self.packet)? else {
            write_end(desk, &mut self.line, self.taken, self.found)?;
            return Ok(Turn::Done(self.taken));
        };
        let columns = self.fields.columns();
        self.found += write_packet(desk, &mut self.line, columns, &self.packet, t)?;
        self.taken += 1;
        Ok(Turn::More)
    }
}
