//! A store that is read packet by packet.

ghost use Rattle.std.specs.Prelude.{◌≡◌, ◌<◌, ◌≤◌, [], length, Some, None, IsTrue, IfOk, IfErr};
ghost use Rattle.std.specs.Io.KnownBytes.{IsAtEnd};
ghost use Rattle.desk_ports.specs.Meanings.{Moves, IsReadyIn, left};
ghost use Rattle.packet_store.specs.Answers.{IfGiven, OnEnd, OnStop};
ghost use Rattle.packet_store.specs.StoreReader.{HasStoreCause, BeginsWithPacket, TakesPacket, AfterFault, opened, stopped};

use crate::fault::StoreFault;
use crate::header::HEADER_BYTES;
use crate::packet::hold_packet;
use bit_vectors::NoMemory;
use desk_ports::{Desk, Inlet, ReadAhead};
use std::alloc::Global;
use std::marker::Model;

/// The most data bytes that a Space Packet has.
pub const MOST_DATA_BYTES: usize = 65_536;

/// The bytes of the longest Space Packet.
pub const PACKET_BYTES: usize = HEADER_BYTES + MOST_DATA_BYTES;

/// The most packets of one stream: a reader gives, a sender makes and a receiver judges no more.
pub const MOST_PACKETS: u64 = 1 << 32;

/// A packet that a reader gave.
#[derive(Clone, Copy, Debug, PartialEq, Eq)]
pub struct Taken {
    /// Its APID is the chosen one.
    pub chosen: bool,
    /// Its sequence count, below 16,384.
    pub count: u16,
}

/// Reads a store packet by packet from the main inlet of a desk, along its walk for the chosen APID.
///
/// A packet of the chosen APID is an unsegmented telemetry packet of version 0 (CCSDS 133.0-B-2) with
/// no secondary header. Packets of other APIDs may be of any type and shape; they have version 0 too.
///
/// Up to 131,072 bytes are read ahead of the packets that were given. The rest of the store is these bytes, and then what
/// the desk has left.
#[derive(Debug, Drop)]
pub struct StoreReader {
    chosen: Option<u16>,
    taken: u64,
    offset: u64,
    live: bool,
    held: usize,
    input: ReadAhead,
}

impl Model for StoreReader {
    ghost use Rattle.std.specs.Prelude.{length};
    ghost use Rattle.packet_store.specs.StoreReader.{ReaderState, reader_state, IsReader};

    ghost Value = { ReaderState };

    ghost view = { λ r. reader_state r.chosen r.taken r.offset r.live r.held r.input };

    ghost invariant = { λ r. IsReader r.taken r.offset r.held (length r.input) };
}

impl StoreReader {
    /// A reader of a store for a chosen APID, which is not that of idle packets. Allocates all memory of the reader.
    pub fn open(alloc: Global, apid: u16) -> Result<StoreReader, NoMemory>
        requires { apid ≤ 2046 }
        ensures { IfOk result (λ reader. reader ≡ opened (Some apid)) }
    {
        StoreReader::open_for(alloc, Some(apid))
    }

    /// A reader of a store for no chosen APID: no packet is told to be of the chosen one, and none has a wrong shape.
    /// Allocates all memory of the reader.
    pub fn open_all(alloc: Global) -> Result<StoreReader, NoMemory>
        ensures { IfOk result (λ reader. reader ≡ opened None) }
    {
        StoreReader::open_for(alloc, None)
    }

    /// A reader of a store for a chosen APID or for none.
    fn open_for(alloc: Global, chosen: Option<u16>) -> Result<StoreReader, NoMemory>
        ensures { IfOk result (λ reader. reader ≡ opened chosen) }
    {
        Ok(StoreReader {
            chosen,
            taken: 0,
            offset: 0,
            live: true,
            held: 0,
            input: ReadAhead::open(alloc)?,
        })
    }

    /// Takes the next packet from the input. `None`: the input ends on a packet boundary.
    ///
    /// The packets are those of the walk over the store, in order, those of other APIDs too, and a fault
    /// of the store is how that walk ends. After `None` or a fault the reader is no longer live. It allocates
    /// no memory. A failed read loses no byte.
    #[inline(always)]
    pub fn next<D: Desk>(&mut self, desk: &mut D) -> Result<Option<Taken>, StoreFault>
        requires live { IsTrue self.old.live }
        requires open { IsReadyIn (D.meaning desk.old) Inlet.Main }

        // `Some`: the next packet of the walk was taken.
        ensures some { IfGiven result
            (TakesPacket self.old self.new (D.meaning desk.old) (D.meaning desk.new)) }

        // `None`: nothing was left, neither ahead nor at the desk.
        ensures ahead { OnEnd result (self.old.ahead ≡ []) }
        ensures none { OnEnd result
            (Moves (D.meaning desk.old) (D.meaning desk.new) Inlet.Main []) }
        ensures at_end { OnEnd result (IsAtEnd (left (D.meaning desk.old) Inlet.Main)) }

        // A fault of the store is how its walk ends. `ReadFault` comes if the desk failed to read in this call.
        ensures fault { IfErr result
            (AfterFault self.old self.new.ahead (D.meaning desk.old) (D.meaning desk.new)) }
        ensures cause { HasStoreCause (D.counts desk.old) (D.counts desk.new) result }

        // If a whole packet is ahead, the desk is unchanged.
        ensures whole { BeginsWithPacket self.old.chosen self.old.ahead → desk.new ≡ desk.old }

        ensures stopped { OnStop result (self.new ≡ stopped self.old self.new.ahead) }
    {
        self.live = false;
        self.input.pass(self.held);
        self.held = 0;
        if self.taken == MOST_PACKETS {
            if self.input.hold(desk, 1)? {
                return Err(StoreFault::TooMany);
            }
            return Ok(None);
        }
        let Some(header) = hold_packet(&mut self.input, desk, self.chosen, self.offset)? else {
            return Ok(None);
        };
        self.live = true;
        self.held = HEADER_BYTES + header.size();
        self.taken += 1;
        self.offset += self.held as u64;
        Ok(Some(Taken {
            chosen: header.is_chosen(self.chosen),
            count: header.count,
        }))
    }

    /// Whether every call of `next` so far gave a packet.
    pub fn live(&self) -> bool
        ensures { result ≡ self.now.live }
    {
        self.live
    }

    /// The latest packet, if the latest call of `next` gave one.
    pub fn packet(&self) -> &[u8]
        requires { 0 < length self.now.body }
        ensures { result.now ≡ self.now.packet }
    {
        &self.input.bytes()[..self.held]
    }

    /// The data of the latest packet, if the latest call of `next` gave one.
    pub fn body(&self) -> &[u8]
        requires { 0 < length self.now.body }
        ensures { result.now ≡ self.now.body }
    {
        &self.input.bytes()[HEADER_BYTES..self.held]
    }
}
