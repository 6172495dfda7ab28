//! A small caller of the encoder and the decoder: an input is encoded, and its packet is read back.
#![tactic(auto)]

ghost use Rattle.std.specs.Prelude.{◌≡◌, ℕ, ◌+◌, ◌*◌, ◌<◌, ◌≤◌, [], false, length, replicate, true, Option, Ok, IfOk};
ghost use Rattle.bit_vectors.specs.Vectors.{IsPlaces, padded};
ghost use Rattle.mask_update.specs.Histories.{History};
ghost use Rattle.mask_update.specs.Masks.{mask_at};
ghost use Rattle.packet_decode.specs.Answers.{IsExactAnswer};
ghost use Rattle.packet_decode.specs.State.{IsAfter, tells_nothing, both_known};
ghost use Rattle.packet_encode.specs.Encoder.{StandsFor};
ghost use Rattle.packet_encode.specs.Forms.{packet_at};
ghost use Rattle.robust_window.specs.Histories.{level_at, recent_at};
ghost use Rattle.round_trip.specs.Carrying.{AreInStep, with_forced_input};

use bit_vectors::{BitFault, BitPen, Bits, Flags, NoMemory};
use packet_decode::{Decoder, Reading};
use packet_encode::{Encoder, room};
use std::alloc::Global;

/// The flags of a packet that carries its mask and whole content.
const WHOLE: Flags = Flags {
    p: false,
    f: true,
    r: true,
};

/// Encodes the next input with its mask and whole content, and reads the packet.
pub fn carry(
    encoder: &mut Encoder,
    input: &Bits,
    pen: &mut BitPen,
    decoder: &mut Decoder,
) -> Result<Reading, BitFault>
    requires places { length input.now ≡ length encoder.old.masks.mask }
    requires decoder_places { decoder.old.places ≡ length input.now }
    requires most { encoder.old.masks.taken < 4294967296 }
    requires later { IsAfter encoder.old.masks.taken decoder.old.state }
    requires empty { pen.old.bits ≡ [] }
    requires room { 10 * length input.now + 43 ≤ pen.old.room }
    // Whatever the decoder knows, the answer is the exact one to this packet.
    ensures exact { (h : History) → StandsFor h encoder.old → let t = length h.steps in
        IsExactAnswer decoder.old.places decoder.old.state t
        (packet_at (with_forced_input h input.now) t) result }
    // Whatever was sent before, and whatever arrived of it, the packet is written.
    ensures written { (h : History) (mask content : Option ℕ)
        → AreInStep h mask content input.now encoder.old decoder.old → result ≡ Ok Reading.Written }
    // The decoder then knows the sender's mask and the input, with the number of the packet.
    ensures known { (h : History) (mask content : Option ℕ)
        → AreInStep h mask content input.now encoder.old decoder.old → decoder.new.state
        ≡ both_known (length h.steps)
        (mask_at (with_forced_input h input.now) (length h.steps)) input.now }
    // And the recent changes and the effective robustness level of the sender.
    ensures recent { (h : History) (mask content : Option ℕ)
        → AreInStep h mask content input.now encoder.old decoder.old
        → decoder.new.recent ≡ recent_at (with_forced_input h input.now) (length h.steps) }
    ensures level { (h : History) (mask content : Option ℕ)
        → AreInStep h mask content input.now encoder.old decoder.old
        → decoder.new.level ≡ level_at (with_forced_input h input.now) (length h.steps) }
    ensures unchanged { tells_nothing result ≡ true → decoder.new ≡ decoder.old }
    ensures places { decoder.new.places ≡ decoder.old.places }
    // Whatever history the encoder stood for, it now stands for that history with this input.
    ensures stands { (h : History) → StandsFor h encoder.old
        → StandsFor (with_forced_input h input.now) encoder.new }
    ensures encoder_places { length encoder.new.masks.mask ≡ length encoder.old.masks.mask }
    ensures taken { encoder.new.masks.taken ≡ encoder.old.masks.taken + 1 }
    // The pen has the packet, in whole bytes.
    ensures packet { (h : History) → StandsFor h encoder.old
        → padded pen.new.bits ≡ packet_at (with_forced_input h input.now) (length h.steps) }
    ensures room { pen.new.room ≡ pen.old.room }
{
    let number = encoder.taken();
    encoder.encode(input, WHOLE, 0, pen);
    decoder.read(number, pen.bytes())
}

/// A decoder that has read the first packet of a sender with this first mask of `f` places and this input.
pub fn carry_first(alloc: Global, f: u32, mask: &Bits, input: &Bits) -> Result<Decoder, NoMemory>
    requires valid { IsPlaces f }
    requires mask { length mask.now ≡ f }
    requires input { length input.now ≡ f }
    ensures known { IfOk result (λ decoder. decoder.state ≡ both_known 0 mask.now input.now) }
    // The first packet has no recent change and the level 0.
    ensures recent { IfOk result (λ decoder. decoder.recent ≡ replicate f false) }
    ensures level { IfOk result (λ decoder. decoder.level ≡ 0) }
    ensures places { IfOk result (λ decoder. decoder.places ≡ f) }
{
    let mut encoder = Encoder::open(alloc, f, mask)?;
    let mut pen = BitPen::with_room(alloc, room(f))?;
    let mut decoder = Decoder::open(alloc, f)?;
    let _ = carry(&mut encoder, input, &mut pen, &mut decoder);
    Ok(decoder)
}
