//! The sending end.

ghost use Rattle.std.specs.Prelude.{◌≡◌, ◌↔◌, ◌+◌, ◌<◌, ◌≤◌, ◌++◌, Err, Ok, None, length, drop, take, IsTrue, IfSome, IfOk, OnOk, OnErr};
ghost use Rattle.bit_vectors.specs.Vectors.{IsPlaces, byte_count, most_places};
ghost use Rattle.mask_update.specs.Histories.{History, no_steps};
ghost use Rattle.packet_encode.specs.Encoder.{EncoderState, StandsFor};
ghost use Rattle.packet_encode.specs.Forms.{with_next_input};
ghost use Rattle.robust_window.specs.Histories.{level_at};
ghost use Rattle.flight_chain.specs.Compressing.{data_at};
ghost use Rattle.packet_calls.specs.Sending.{first_mask, given_mask, mask_fits, mask_has_spare_bit, room_bits, room_bytes, vector_in};
ghost use Rattle.packet_calls.specs.Refusals.{fault_in, opening_fault, sending_fault};
ghost use Rattle.packet_calls.specs.States.{AreOfSender, IsSenderState, sender_kind, sender_state, sender_state_room};
ghost use Rattle.state_bytes.specs.Frames.{IsOther};

use crate::fault::{LoadFault, OpenFault, SendFault};
use bit_vectors::{BitPen, Bits, Flags, MOST_PLACES, byte_len, has_spare_bit};
use packet_encode::{Encoder, room};
use packet_store::MOST_PACKETS;
use state_bytes::{FRAME_BYTES, FrameFault, body_of, put_head, seal};
use std::alloc::Global;
use std::marker::Model;

/// The kind of a sender in its state.
pub const SENDER_KIND: u8 = 1;

/// The greatest required robustness.
const MOST_ROBUST: u8 = 7;

/// The most bytes that the state of a sender has, with inputs of this many places.
pub fn sender_state_room(places: u32) -> usize
    requires valid { IsPlaces places }
    ensures { result ≡ sender_state_room places }
{
    FRAME_BYTES + 12 + 21 * (byte_len(places) as usize + 1)
}

/// What was sent.
#[derive(Clone, Copy, Debug, PartialEq, Eq)]
pub struct Sent {
    /// The number of data bytes of the packet.
    pub len: usize,
    /// Its effective robustness level, from 0 to 15.
    pub level: u8,
}

/// Makes the packet of each input (CCSDS 124.0-B-1). Contracts see the running vectors and the latest changes, say which
/// histories they stand for, and see the room for a packet's bits, which is taken once.
#[derive(Debug, Drop)]
pub struct Sender {
    encoder: Encoder,
    input: Bits,
    pen: BitPen,
}

impl Model for Sender {
    ghost use Rattle.packet_calls.specs.Sending.{IsSender, SenderState};

    ghost Value = { SenderState };

    ghost view = { λ s. record { encoder = s.encoder; room = s.pen.room } };

    ghost invariant = { λ s. IsSender s.encoder s.input s.pen };
}

impl Sender {
    /// Starts with 1 to 49,152 places, and with the mask that these bytes spell, or one of zeros. Takes all memory that later
    /// calls need.
    pub fn open(alloc: Global, places: u32, mask: Option<&[u8]>) -> Result<Sender, OpenFault>
        ensures stands { IfOk result
            (λ sender. StandsFor (no_steps (first_mask places (given_mask mask.entry))) sender.encoder) }
        ensures places { IfOk result (λ sender. length sender.encoder.masks.mask ≡ places) }
        ensures taken { IfOk result (λ sender. sender.encoder.masks.taken ≡ 0) }
        ensures room { IfOk result (λ sender. sender.room ≡ room_bits places) }
        ensures fault { (result ≡ Err OpenFault.NoMemory → ⊥)
            → fault_in result ≡ opening_fault places (given_mask mask.entry) }
        ensures no_memory { result ≡ Err OpenFault.NoMemory
            → opening_fault places (given_mask mask.entry) ≡ None }
    {
        let input = first_vector(alloc, places, mask)?;
        let pen = BitPen::with_room(alloc, room(places))?;
        let encoder = Encoder::open(alloc, places, &input)?;
        Ok(Sender {
            encoder,
            input,
            pen,
        })
    }

    /// Takes the next input, its flags and its required robustness, at most 7, and writes its packet into the first bytes of
    /// `out`. It takes no memory.
    pub fn send(
        &mut self,
        input: &[u8],
        flags: Flags,
        robust: u8,
        out: &mut [u8],
    ) -> Result<Sent, SendFault>
        ensures fault { fault_in result ≡ sending_fault self.old input.now robust (length out.old) }
        ensures unchanged { OnErr result (self.new ≡ self.old) }
        ensures untouched { OnErr result (out.new ≡ out.old) }
        // If it stood for some history, it now stands for that history with this input, these flags, after forcing, and
        // this required robustness added.
        ensures stands { OnOk result ((h : History) → StandsFor h self.old.encoder
            → StandsFor (with_next_input h robust
            (vector_in (length self.old.encoder.masks.mask) input.now) flags) self.new.encoder) }
        // The packet is that of the history's last step, and is followed by what stood in the room.
        ensures packet { IfOk result (λ sent. (h : History) → StandsFor h self.old.encoder
            → take sent.len out.new ≡ data_at
            (with_next_input h robust (vector_in (length self.old.encoder.masks.mask) input.now) flags)
            (length h.steps)) }
        ensures level { IfOk result (λ sent. (h : History) → StandsFor h self.old.encoder
            → sent.level ≡ level_at
            (with_next_input h robust (vector_in (length self.old.encoder.masks.mask) input.now) flags)
            (length h.steps)) }
        ensures some { IfOk result (λ sent. 1 ≤ sent.len) }
        ensures most { IfOk result (λ sent. sent.len ≤ room_bytes (length self.old.encoder.masks.mask)) }
        ensures rest { IfOk result (λ sent. drop sent.len out.new ≡ drop sent.len out.old) }
        ensures places { length self.new.encoder.masks.mask ≡ length self.old.encoder.masks.mask }
        // No memory is taken: the room stays.
        ensures room { self.new.room ≡ self.old.room }
        ensures counted { OnOk result (self.new.encoder.masks.taken ≡ self.old.encoder.masks.taken + 1) }
    {
        if input.len() != self.input_len() as usize {
            return Err(SendFault::InputLength);
        }
        if self.input.load(input).is_err() {
            return Err(SendFault::SpareBit);
        }
        if robust > MOST_ROBUST {
            return Err(SendFault::Robust);
        }
        if out.len() < self.packet_room() as usize {
            return Err(SendFault::NoRoom);
        }
        if self.encoder.taken() >= MOST_PACKETS {
            return Err(SendFault::TooMany);
        }
        self.pen.clear();
        self.encoder
            .encode(&self.input, flags, robust, &mut self.pen);
        let bytes = self.pen.bytes();
        out[..bytes.len()].copy_from_slice(bytes);
        Ok(Sent {
            len: bytes.len(),
            level: self.encoder.level(),
        })
    }

    /// Starts anew in the memory that it has, with no input sent, and with the mask that these bytes spell, or one of zeros, for
    /// as many places as before.
    pub fn reset(&mut self, mask: Option<&[u8]>) -> Result<(), OpenFault>
        ensures stands { let f = length self.old.encoder.masks.mask in
            OnOk result (StandsFor (no_steps (first_mask f (given_mask mask.entry))) self.new.encoder) }
        ensures taken { OnOk result (self.new.encoder.masks.taken ≡ 0) }
        ensures fault { fault_in result
            ≡ opening_fault (length self.old.encoder.masks.mask) (given_mask mask.entry) }
        ensures unchanged { OnErr result (self.new ≡ self.old) }
        ensures places { length self.new.encoder.masks.mask ≡ length self.old.encoder.masks.mask }
        // No memory is taken: the room stays.
        ensures room { self.new.room ≡ self.old.room }
    {
        if !mask_fits(self.places(), mask) {
            return Err(OpenFault::MaskLength);
        }
        match mask {
            Some(mask) => {
                if self.input.load(mask).is_err() {
                    return Err(OpenFault::MaskSpareBit);
                }
            }
            None => self.input.clear(),
        }
        self.encoder.reset(&self.input);
        Ok(())
    }

    /// The most bytes that its state has.
    pub fn state_room(&self) -> usize
        ensures { result ≡ sender_state_room (length self.now.encoder.masks.mask) }
    {
        sender_state_room(self.places())
    }

    /// Writes its state into the first bytes of `out`, and tells how many they are. None: the longest state would not fit.
    pub fn save(&self, out: &mut [u8]) -> Option<usize>
        ensures room { (result ≡ None) ↔ (length out.old < sender_state_room (length self.now.encoder.masks.mask)) }
        ensures untouched { result ≡ None → out.new ≡ out.old }
        ensures length { IfSome result (λ size. size ≡ length (sender_state self.now.encoder)) }
        ensures state { IfSome result (λ size. out.new ≡ sender_state self.now.encoder ++ drop size out.old) }
        ensures valid { IfSome result
            (λ _. IsSenderState (length self.now.encoder.masks.mask) self.now.encoder) }
    {
        if out.len() < self.state_room() {
            return None;
        }
        let from = put_head(out, SENDER_KIND, self.places());
        let end = self.encoder.save(out, from);
        Some(seal(out, end))
    }

    /// Becomes the sender with this state, in the memory that it has.
    pub fn load(&mut self, state: &[u8]) -> Result<(), LoadFault>
        // It is done exactly if the bytes are the state of some value within a sender's bounds, with as many places.
        ensures exact { (result ≡ Ok tt) ↔ AreOfSender (length self.old.encoder.masks.mask) state.now }
        ensures loaded { OnOk result (sender_state self.new.encoder ≡ state.now) }
        ensures same { (e : EncoderState) → IsSenderState (length self.old.encoder.masks.mask) e
            → state.now ≡ sender_state e → self.new.encoder ≡ e }
        ensures other { (result ≡ Err LoadFault.OtherState)
            ↔ IsOther sender_kind (length self.old.encoder.masks.mask) state.now }
        ensures unchanged { OnErr result (self.new ≡ self.old) }
        ensures places { length self.new.encoder.masks.mask ≡ length self.old.encoder.masks.mask }
        // No memory is taken: the room stays.
        ensures room { self.new.room ≡ self.old.room }
    {
        let places = self.places();
        match body_of(SENDER_KIND, places, state) {
            Err(FrameFault::NoState) => Err(LoadFault::NoState),
            Err(FrameFault::OtherState) => Err(LoadFault::OtherState),
            Ok(body) => {
                if !Encoder::is_saved(places, body) {
                    return Err(LoadFault::NoState);
                }
                self.encoder.load(body);
                Ok(())
            }
        }
    }

    /// The number of places of the vectors.
    pub fn places(&self) -> u32
        ensures places { result ≡ length self.now.encoder.masks.mask }
        ensures some { 1 ≤ result }
        ensures most { result ≤ most_places }
    {
        self.input.len()
    }

    /// The number of bytes of an input.
    pub fn input_len(&self) -> u32
        ensures { result ≡ byte_count (length self.now.encoder.masks.mask) }
    {
        byte_len(self.places())
    }

    /// The room for any packet, in bytes: at most 61,446.
    pub fn packet_room(&self) -> u32
        ensures room { result ≡ room_bytes (length self.now.encoder.masks.mask) }
        ensures most { result ≤ 61446 }
    {
        room(self.places()).div_ceil(8)
    }

    /// The number of packets that were sent, at most 4,294,967,296.
    pub fn taken(&self) -> u64
        ensures inputs { (h : History) → StandsFor h self.now.encoder → result ≡ length h.steps }
        ensures kept { result ≡ self.now.encoder.masks.taken }
        ensures most { result ≤ 4294967296 }
    {
        self.encoder.taken()
    }
}

/// The vector of the first mask, for so many places: the one that these bytes spell, or one of zeros.
fn first_vector(alloc: Global, places: u32, mask: Option<&[u8]>) -> Result<Bits, OpenFault>
    ensures vector { IfOk result (λ vector. vector ≡ first_mask places (given_mask mask.entry)) }
    ensures len { IfOk result (λ vector. length vector ≡ places) }
    ensures fault { (result ≡ Err OpenFault.NoMemory → ⊥)
        → fault_in result ≡ opening_fault places (given_mask mask.entry) }
    ensures no_memory { result ≡ Err OpenFault.NoMemory
        → opening_fault places (given_mask mask.entry) ≡ None }
{
    if places == 0 || places > MOST_PLACES {
        return Err(OpenFault::Places);
    }
    if !mask_fits(places, mask) {
        return Err(OpenFault::MaskLength);
    }
    if mask_has_spare_bit(places, mask) {
        return Err(OpenFault::MaskSpareBit);
    }
    let mut vector = Bits::zeros(alloc, places)?;
    if let Some(mask) = mask {
        let _ = vector.load(mask);
    }
    Ok(vector)
}

/// Whether a mask is given that has a spare bit.
fn mask_has_spare_bit(places: u32, mask: Option<&[u8]>) -> bool
    requires valid { IsPlaces places }
    requires fits { IsTrue (mask_fits places (given_mask mask)) }
    ensures { result ≡ mask_has_spare_bit places (given_mask mask.entry) }
{
    match mask {
        Some(bytes) => has_spare_bit(bytes, places),
        None => false,
    }
}

/// Whether no mask is given, or one that has as many bytes as its places need.
fn mask_fits(places: u32, mask: Option<&[u8]>) -> bool
    requires valid { IsPlaces places }
    ensures { result ≡ mask_fits places (given_mask mask.entry) }
{
    match mask {
        Some(bytes) => bytes.len() == byte_len(places) as usize,
        None => true,
    }
}
