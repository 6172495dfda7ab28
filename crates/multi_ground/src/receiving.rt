//! A store of several streams that is being received, packet by packet.

ghost use Rattle.std.specs.Prelude.{◌≡◌, ◌+◌, ◌-◌, ◌^◌, ◌<◌, ◌∷◌, ◌++◌, [], List, length, true, IfOk};
ghost use Rattle.desk_ports.specs.Meanings.{HasWriteCause};
ghost use Rattle.desk_ports.specs.Turns.{AreReady, Writes};
ghost use Rattle.desk_ports.specs.Courses.{to_report};
ghost use Rattle.packet_store.specs.SpacePackets.{Packet};
ghost use Rattle.ground_chain.specs.Run.{IsArrival};

use crate::ground::MultiGround;
use crate::writing::{LINE_BYTES, shape_row, write_arrival, write_tagged};
use bit_vectors::{NoMemory, zero_bytes};
use desk_ports::{Desk, Failed, Outlet, Run, Turn, write_all};
use ground_chain::{RestoreFault, end_row};
use packet_store::{StoreReader, WalkFault, first_header};
use side_tables::Streams;
use std::alloc::Global;

/// A reader, the streams, and their arrivals so far.
#[derive(Debug, Drop)]
pub struct MultiReceiving {
    reader: StoreReader,
    streams: Streams,
    arrivals: MultiGround,
    line: Vec<u8>,
    written: u64,
    shapes: u64,
}

impl Run for MultiReceiving {
    type Answer = u64;

    type Fault = RestoreFault;

    type Data = WalkFault;

    ghost use Rattle.packet_store.specs.StoreReader.{stop_by};
    ghost use Rattle.multi_ground.specs.Receiving.{Owes};

    ghost owes = { Owes };

    ghost stop_of = { stop_by };

    ghost writes = { λ _. true };

    ghost remaining = { λ s. 2 ^ 32 - s.reader.taken };

    fn turn<D: Desk>(&mut self, desk: &mut D) -> Result<Turn<u64>, RestoreFault> {
        let Some(_) = self.reader.next(desk)? else {
            self.end(desk)?;
            return Ok(Turn::Done(self.written));
        };
        self.receive(desk)?;
        Ok(Turn::More)
    }
}

impl MultiReceiving {
    ghost use Rattle.multi_ground.specs.Receiving.{HasRead, HasReceived, IsReceiving, IsUnread, JudgesOne, next_of, outputs_after};
    ghost use Rattle.multi_ground.specs.MultiOutputs.{last_rows, outputs_of};

    /// Nothing is read. Takes all memory of the run.
    pub fn open(alloc: Global, streams: Streams) -> Result<MultiReceiving, NoMemory>
        ensures unread { IfOk result IsUnread }
        ensures streams { IfOk result (λ receiving. receiving.streams ≡ streams) }
    {
        Ok(MultiReceiving {
            reader: StoreReader::open_all(alloc)?,
            arrivals: MultiGround::open(alloc, &streams)?,
            line: zero_bytes(alloc, LINE_BYTES)?,
            streams,
            written: 0,
            shapes: 0,
        })
    }

    /// Takes the packet that was read, and writes what there is to write of it.
    fn receive<D: Desk>(&mut self, desk: &mut D) -> Result<(), Failed>
        requires packet { (p : Packet) × HasRead self.old p }
        requires receiving { IsReceiving self.old }
        requires ready { AreReady (λ _. true) (D.meaning desk.old) }
        ensures received { (p : Packet) (packets : List Packet) → HasRead self.old p → HasReceived self.old packets
            → HasReceived self.new (packets ++ p ∷ []) }
        ensures written { (p : Packet) (packets : List Packet) → HasRead self.old p → HasReceived self.old packets
            → Writes D.meaning D.counts desk.old desk.new
            (outputs_after self.old.streams packets p) result }
        ensures reader { self.new.reader ≡ self.old.reader }
        ensures streams { self.new.streams ≡ self.old.streams }
        ensures cause { HasWriteCause (D.counts desk.old) (D.counts desk.new) result }
    {
        let header = first_header(self.reader.packet());
        let Some(index) = self.streams.find(header.apid) else {
            return Ok(());
        };
        if header.is_misshapen(Some(header.apid)) {
            self.shapes += 1;
            return Ok(());
        }
        self.arrive(desk, index, header.count)
    }

    /// Judges the packet that was read as the next arrival of a stream, and writes what there is to write of it.
    fn arrive<D: Desk>(&mut self, desk: &mut D, index: u32, count: u16) -> Result<(), Failed>
        requires stream { index < length self.old.streams }
        requires receiving { IsReceiving self.old }
        requires arrival { IsArrival count self.old.reader.body }
        requires some { 0 < length self.old.reader.body }
        requires ready { AreReady (λ _. true) (D.meaning desk.old) }
        ensures judges { JudgesOne self.old self.new index count self.old.reader.body }
        ensures written { Writes D.meaning D.counts desk.old desk.new
            (outputs_of (next_of self.old index count self.old.reader.body ∷ [])) result }
    {
        let verdict = self.arrivals.arrive(index, count, self.reader.body());
        self.written += u64::from(verdict.kind.is_written());
        let apid = self.streams.apid(index);
        let decoder = self.arrivals.stream(index).decoder();
        write_arrival(desk, &mut self.line, apid, &verdict, decoder)
    }

    /// Writes the last rows.
    fn end<D: Desk>(&self, desk: &mut D) -> Result<(), Failed>
        requires receiving { (packets : List Packet) × HasReceived self.now packets }
        requires ready { AreReady (λ _. true) (D.meaning desk.old) }
        ensures written { (packets : List Packet) → HasReceived self.now packets
            → Writes D.meaning D.counts desk.old desk.new
            (to_report (last_rows self.now.streams packets)) result }
        ensures cause { HasWriteCause (D.counts desk.old) (D.counts desk.new) result }
    {
        for index in 0..self.streams.count() {
            let row = end_row(self.arrivals.stream(index).restored());
            write_tagged(desk, self.streams.apid(index), &row)?;
        }
        write_all(desk, Outlet::Report, shape_row(self.shapes).as_bytes())
    }
}
