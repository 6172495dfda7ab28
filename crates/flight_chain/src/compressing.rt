//! A recording that is being compressed, packet by packet.

ghost use Rattle.std.specs.Prelude.{◌≡◌, ◌+◌, ◌*◌, ◌-◌, ◌^◌, ◌<◌, Bool, List, [], ◌∷◌, ◌++◌, length, replicate, false, IfOk};
ghost use Rattle.desk_ports.specs.Meanings.{IsReadyOut, HasWriteCause};
ghost use Rattle.desk_ports.specs.Courses.{to_output};
ghost use Rattle.desk_ports.specs.Turns.{Writes};
ghost use Rattle.flight_chain.specs.Compressing.{Compression, IsCompression, next_packet, IsStream};
ghost use Rattle.bit_vectors.specs.Vectors.{IsPlaces};
ghost use Rattle.mask_update.specs.Histories.{no_steps};
ghost use Rattle.packet_encode.specs.Encoder.{StandsFor};

use crate::fault::{FlightFault, RecordFault};
use crate::reading::read_input;
use bit_vectors::{BitPen, Bits, NoMemory};
use desk_ports::{Desk, Failed, Outlet, ReadAhead, Run, Turn};
use packet_encode::{Encoder, room};
use packet_store::{PERIOD, StoreWriter};
use side_tables::{Lookup, Schedule};
use std::alloc::Global;

/// An encoder with its schedule, the required robustness of packets to which that gives none, and the writer of its
/// store; what is read of the recording, a vector for an input, and a pen for its packet.
#[derive(Debug, Drop)]
pub struct Compressing {
    encoder: Encoder,
    plan: Lookup,
    robust: u8,
    writer: StoreWriter,
    ahead: ReadAhead,
    input: Bits,
    pen: BitPen,
}

impl Run for Compressing {
    type Answer = u64;

    type Fault = FlightFault;

    type Data = RecordFault;

    ghost use Rattle.flight_chain.specs.Compressing.{Owes, is_main, stop_by};

    ghost owes = { Owes };

    ghost stop_of = { stop_by };

    ghost writes = { is_main };

    ghost remaining = { λ c. 2 ^ 32 - c.encoder.masks.taken };

    fn turn<D: Desk>(&mut self, desk: &mut D) -> Result<Turn<u64>, FlightFault> {
        let number = self.encoder.taken();
        let Some(t) = read_input(&mut self.ahead, desk, number, &mut self.input)? else {
            return Ok(Turn::Done(number));
        };
        self.put(desk, t)?;
        Ok(Turn::More)
    }
}

impl Compressing {
    ghost use Rattle.flight_chain.specs.Compressing.{HasTaken, IsCompressing};

    /// Nothing is read. Takes all memory of the run.
    pub fn open(
        alloc: Global,
        f: u32,
        robust: u8,
        apid: u16,
        mask: &Bits,
        plan: Schedule,
    ) -> Result<Compressing, NoMemory>
        requires { IsCompression f robust apid mask.now }
        ensures right { IfOk result IsCompressing }
        ensures none { IfOk result
            (HasTaken (record {
              places = f;
              robust = robust;
              apid = apid;
              mask = mask.now;
              rows = plan;
            }) []) }
        ensures ahead { IfOk result (λ compressing. compressing.ahead ≡ []) }
    {
        let (ahead, input) = reading(alloc, f)?;
        let (writer, pen) = writing(alloc, f, apid)?;
        let (plan, encoder) = encoding(alloc, f, mask, plan)?;
        Ok(Compressing {
            encoder,
            plan,
            robust,
            writer,
            ahead,
            input,
            pen,
        })
    }

    /// Writes the packet `t`, that of the input that was read.
    fn put<D: Desk>(&mut self, desk: &mut D, t: u32) -> Result<(), Failed>
        requires right { IsCompressing self.old }
        requires output { IsReadyOut (D.meaning desk.old) Outlet.Main }
        requires most { self.old.encoder.masks.taken < 4294967296 }
        // If `t` inputs were taken, this one is now the next of them, and its Space Packet is written.
        ensures taken { (k : Compression) (inputs : List (List Bool)) → HasTaken k inputs self.old
            → length inputs ≡ t → HasTaken k (inputs ++ self.old.input ∷ []) self.new }
        ensures written { (k : Compression) (inputs : List (List Bool)) → HasTaken k inputs self.old
            → length inputs ≡ t → Writes D.meaning D.counts desk.old desk.new
            (to_output (next_packet k inputs self.old.input)) result }
        ensures cause { HasWriteCause (D.counts desk.old) (D.counts desk.new) result }
        ensures right { IsCompressing self.new }
        ensures number { self.new.encoder.masks.taken ≡ self.old.encoder.masks.taken + 1 }
        ensures ahead { self.new.ahead ≡ self.old.ahead }
    {
        self.pen.clear();
        let given = self.plan.at(t);
        let robust = given.robust.unwrap_or(self.robust);
        self.encoder
            .encode(&self.input, given.flags, robust, &mut self.pen);
        let count = (u64::from(t) % PERIOD) as u16;
        self.writer.put(desk, count, self.pen.bytes())
    }
}

/// What a recording is read with: the bytes that are read ahead, and a vector for an input.
fn reading(alloc: Global, f: u32) -> Result<(ReadAhead, Bits), NoMemory>
    requires valid { IsPlaces f }
    ensures ahead { IfOk result (λ made. made.0 ≡ []) }
    ensures input { IfOk result (λ made. made.1 ≡ replicate f false) }
{
    Ok((ReadAhead::open(alloc)?, Bits::zeros(alloc, f)?))
}

/// What a store is written with: its writer, and a pen for a packet.
fn writing(alloc: Global, f: u32, apid: u16) -> Result<(StoreWriter, BitPen), NoMemory>
    requires { IsStream f apid }
    ensures apid { IfOk result (λ made. made.0.apid ≡ apid) }
    ensures bits { IfOk result (λ made. made.1.bits ≡ []) }
    ensures room { IfOk result (λ made. made.1.room ≡ 10 * f + 43) }
{
    Ok((
        StoreWriter::open(alloc, apid)?,
        BitPen::with_room(alloc, room(f))?,
    ))
}

/// What packets are made with: a lookup of the schedule, and an encoder that starts with this mask.
fn encoding(
    alloc: Global,
    f: u32,
    mask: &Bits,
    plan: Schedule,
) -> Result<(Lookup, Encoder), NoMemory>
    requires valid { IsPlaces f }
    requires places { length mask.now ≡ f }
    ensures rows { IfOk result (λ made. made.0 ≡ plan) }
    ensures stands { IfOk result (λ made. StandsFor (no_steps mask.now) made.1) }
    ensures places { IfOk result (λ made. length made.1.masks.mask ≡ f) }
{
    Ok((Lookup::open(alloc, plan)?, Encoder::open(alloc, f, mask)?))
}
