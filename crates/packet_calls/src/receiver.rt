//! The receiving end.

ghost use Rattle.std.specs.Prelude.{◌≡◌, ◌↔◌, ℕ, ◌<◌, ◌≤◌, ◌++◌, ◌∷◌, [], List, None, Err, Ok, length, drop, IfSome, IfOk, OnOk, OnErr};
ghost use Rattle.bit_vectors.specs.Vectors.{IsPlaces, byte_count, most_places};
ghost use Rattle.ground_chain.specs.Reception.{next_judged, HasJudged, Judges, Reckoning, nothing_judged};
ghost use Rattle.ground_chain.specs.Report.{written_bytes};
ghost use Rattle.ground_chain.specs.Run.{Arrival};
ghost use Rattle.packet_calls.specs.States.{AreOfReceiver, IsReceiverState, receiver_kind, receiver_state, receiver_state_room};
ghost use Rattle.state_bytes.specs.Frames.{IsOther};
ghost use Rattle.packet_calls.specs.Refusals.{fault_in, opening_fault, receiving_fault};

use crate::fault::{LoadFault, OpenFault, ReceiveFault};
use bit_vectors::{MOST_PLACES, byte_len};
use ground_chain::{Restored, Tallied, Verdict};
use packet_decode::Decoder;
use packet_store::{MOST_DATA_BYTES, MOST_PACKETS, PERIOD};
use state_bytes::{FRAME_BYTES, FrameFault, body_of, put_head, seal};
use std::alloc::Global;
use std::marker::Model;

/// The kind of a receiver in its state.
pub const RECEIVER_KIND: u8 = 2;

/// The most bytes that the state of a receiver has, with contents of this many places.
pub fn receiver_state_room(places: u32) -> usize
    requires valid { IsPlaces places }
    ensures { result ≡ receiver_state_room places }
{
    FRAME_BYTES + 57 + 3 * (byte_len(places) as usize + 1)
}

/// Judges the packets of a stream as they arrive (CCSDS 124.0-B-1): by its sequence count each arrival has a number, and by
/// its data the content of that number is known or not. Contracts see what is known, and the numbers so far.
#[derive(Debug, Drop)]
pub struct Receiver {
    arrivals: Tallied,
}

impl Model for Receiver {
    ghost use Rattle.ground_chain.specs.Reception.{Reckoning};

    ghost Value = { Reckoning };

    ghost view = { λ r. r.arrivals };
}

impl Receiver {
    /// Nothing has arrived. The vectors have 1 to 49,152 places. Takes all memory that later calls need.
    pub fn open(alloc: Global, places: u32) -> Result<Receiver, OpenFault>
        ensures opened { IfOk result (λ receiver. receiver ≡ nothing_judged places) }
        ensures stands { IfOk result (HasJudged places []) }
        ensures fault { (result ≡ Err OpenFault.NoMemory → ⊥) → fault_in result ≡ opening_fault places None }
        ensures no_memory { result ≡ Err OpenFault.NoMemory → opening_fault places None ≡ None }
    {
        if places == 0 || places > MOST_PLACES {
            return Err(OpenFault::Places);
        }
        let arrivals = Tallied::open(alloc, places)?;
        Ok(Receiver { arrivals })
    }

    /// Starts anew in the memory that it has: nothing has arrived. The vectors have as many places as before.
    pub fn reset(&mut self)
        ensures anew { self.new ≡ nothing_judged self.old.reception.decoder.places }
        ensures stands { HasJudged self.old.reception.decoder.places [] self.new }
    {
        self.arrivals.reset();
    }

    /// Judges and counts the next arrival, with this sequence count and these data bytes. If it is written, its content is in
    /// the first bytes of `out`. It takes no memory.
    pub fn receive(
        &mut self,
        count: u16,
        bytes: &[u8],
        out: &mut [u8],
    ) -> Result<Verdict, ReceiveFault>
        ensures fault { fault_in result ≡ receiving_fault self.old count bytes.now (length out.old) }
        ensures unchanged { OnErr result (self.new ≡ self.old) }
        ensures untouched { OnErr result (out.new ≡ out.old) }
        // The verdict is the run's next one. For every list of arrivals that was judged, now that list and this one is.
        ensures verdict { IfOk result
            (λ verdict. verdict ≡ (next_judged self.old.reception count bytes.now).verdict) }
        ensures judges { OnOk result (Judges self.old self.new count bytes.now) }
        ensures stands { OnOk result ((f : ℕ) (arrivals : List Arrival) → HasJudged f arrivals self.old
            → HasJudged f (arrivals ++ record { count = count; body = bytes.now } ∷ []) self.new) }
        // The content of a written packet, and for any other arrival nothing, is followed by what stood in the room.
        ensures content { OnOk result
            (let content = written_bytes (next_judged self.old.reception count bytes.now) in
            out.new ≡ content ++ drop (length content) out.old) }
        ensures places { self.new.reception.decoder.places ≡ self.old.reception.decoder.places }
    {
        if u64::from(count) >= PERIOD {
            return Err(ReceiveFault::Count);
        }
        if bytes.len() > MOST_DATA_BYTES {
            return Err(ReceiveFault::TooLong);
        }
        let size = self.content_len() as usize;
        if out.len() < size {
            return Err(ReceiveFault::NoRoom);
        }
        if self.arrivals.restored().packets >= MOST_PACKETS {
            return Err(ReceiveFault::TooMany);
        }
        let verdict = self.arrivals.judge(count, bytes);
        if verdict.kind.is_written() {
            self.arrivals.decoder().content().store(&mut out[..size]);
        }
        Ok(verdict)
    }

    /// The most bytes that its state has.
    pub fn state_room(&self) -> usize
        ensures { result ≡ receiver_state_room self.now.reception.decoder.places }
    {
        receiver_state_room(self.places())
    }

    /// Writes its state into the first bytes of `out`, and tells how many they are. None: the longest state would not fit.
    pub fn save(&self, out: &mut [u8]) -> Option<usize>
        ensures room { (result ≡ None) ↔ (length out.old < receiver_state_room self.now.reception.decoder.places) }
        ensures untouched { result ≡ None → out.new ≡ out.old }
        ensures length { IfSome result (λ size. size ≡ length (receiver_state self.now)) }
        ensures state { IfSome result (λ size. out.new ≡ receiver_state self.now ++ drop size out.old) }
        ensures valid { IfSome result (λ _. IsReceiverState self.now.reception.decoder.places self.now) }
    {
        if out.len() < self.state_room() {
            return None;
        }
        let from = put_head(out, RECEIVER_KIND, self.places());
        let end = self.arrivals.save(out, from);
        Some(seal(out, end))
    }

    /// Becomes the receiver with this state, in the memory that it has.
    pub fn load(&mut self, state: &[u8]) -> Result<(), LoadFault>
        // It is done exactly if the bytes are the state of some value within a receiver's bounds, with as many places.
        ensures exact { (result ≡ Ok tt) ↔ AreOfReceiver self.old.reception.decoder.places state.now }
        ensures loaded { OnOk result (receiver_state self.new ≡ state.now) }
        ensures same { (r : Reckoning) → IsReceiverState self.old.reception.decoder.places r
            → state.now ≡ receiver_state r → self.new ≡ r }
        ensures other { (result ≡ Err LoadFault.OtherState)
            ↔ IsOther receiver_kind self.old.reception.decoder.places state.now }
        ensures unchanged { OnErr result (self.new ≡ self.old) }
        ensures places { self.new.reception.decoder.places ≡ self.old.reception.decoder.places }
    {
        let places = self.places();
        match body_of(RECEIVER_KIND, places, state) {
            Err(FrameFault::NoState) => Err(LoadFault::NoState),
            Err(FrameFault::OtherState) => Err(LoadFault::OtherState),
            Ok(body) => {
                if !Tallied::is_saved(places, body) {
                    return Err(LoadFault::NoState);
                }
                self.arrivals.load(body);
                Ok(())
            }
        }
    }

    /// The number of places of the vectors.
    pub fn places(&self) -> u32
        ensures places { result ≡ self.now.reception.decoder.places }
        ensures some { 1 ≤ result }
        ensures most { result ≤ most_places }
    {
        self.arrivals.decoder().content().len()
    }

    /// The number of bytes of a content.
    pub fn content_len(&self) -> u32
        ensures { result ≡ byte_count self.now.reception.decoder.places }
    {
        byte_len(self.places())
    }

    /// The numbers of the arrivals so far.
    pub fn restored(&self) -> &Restored
        ensures { result.now ≡ self.now.restored }
    {
        self.arrivals.restored()
    }

    /// The decoder, whose packet is the latest written one.
    pub fn decoder(&self) -> &Decoder
        ensures { result.now ≡ self.now.reception.decoder }
    {
        self.arrivals.decoder()
    }
}
