//! A store that is written packet by packet.

ghost use Rattle.std.specs.Prelude.{◌≡◌, ◌<◌, ◌≤◌, length, IfOk};
ghost use Rattle.desk_ports.specs.Meanings.{IsReadyOut};
ghost use Rattle.desk_ports.specs.Courses.{to_output};
ghost use Rattle.desk_ports.specs.Turns.{Writes};
ghost use Rattle.packet_store.specs.SpacePackets.{period, space_packet};

use crate::header::{HEADER_BYTES, header_bytes};
use crate::reader::PACKET_BYTES;
use bit_vectors::{NoMemory, zero_bytes};
use desk_ports::{Desk, Failed, Outlet, write_all};
use std::alloc::Global;
use std::marker::Model;

/// Writes a store packet by packet to the main outlet of a desk: unsegmented telemetry packets of
/// version 0 (CCSDS 133.0-B-2) of one APID, with no secondary header.
#[derive(Debug, Drop)]
pub struct StoreWriter {
    apid: u16,
    room: Vec<u8>,
}

impl Model for StoreWriter {
    ghost use Rattle.std.specs.Prelude.{vec_len};
    ghost use Rattle.std.specs.Vec.{vec_capacity};
    ghost use Rattle.packet_store.specs.StoreWriter.{WriterState, IsWriter};

    ghost Value = { WriterState };

    ghost view = { λ w. record { apid = w.apid } };

    ghost invariant = { λ w. IsWriter w.apid (vec_len w.room) (vec_capacity w.room) };
}

impl StoreWriter {
    /// A writer of the packets of an APID, which is not that of idle packets. It allocates the room for every packet.
    pub fn open(alloc: Global, apid: u16) -> Result<StoreWriter, NoMemory>
        requires { apid ≤ 2046 }
        ensures { IfOk result (λ writer. writer.apid ≡ apid) }
    {
        let room = zero_bytes(alloc, PACKET_BYTES)?;
        Ok(StoreWriter { apid, room })
    }

    /// Appends a packet with this sequence count and these data bytes to the output. At `Failed` a prefix of it
    /// was appended. It allocates no memory.
    pub fn put<D: Desk>(&mut self, desk: &mut D, count: u16, body: &[u8]) -> Result<(), Failed>
        requires open { IsReadyOut (D.meaning desk.old) Outlet.Main }
        requires count_bits { count < period }
        requires some { 1 ≤ length body.now }
        requires most { length body.now ≤ 65536 }
        ensures written { Writes D.meaning D.counts desk.old desk.new
            (to_output (space_packet self.old.apid count body.now)) result }
        ensures same { self.new ≡ self.old }
    {
        let header = header_bytes(self.apid, count, body.len() as u32);
        let packet = &mut self.room[..HEADER_BYTES + body.len()];
        packet[..HEADER_BYTES].copy_from_slice(&header);
        packet[HEADER_BYTES..].copy_from_slice(body);
        write_all(desk, Outlet::Main, packet)
    }
}
