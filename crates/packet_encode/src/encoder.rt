//! Making packets from inputs.

ghost use Rattle.std.specs.Prelude.{List, [], ◌∷◌, ◌++◌, ◌≡◌, ℕ, ◌↔◌, ◌+◌, ◌*◌, ◌/◌, ◌<◌, ◌≤◌, ◌||◌, nat_le, max, false, length, replicate, IfOk, IsTrue};
ghost use Rattle.std.specs.Bool.{OnTrue};
ghost use Rattle.bit_vectors.specs.Vectors.{IsPlaces, padded};
ghost use Rattle.mask_update.specs.Histories.{History, flags_after, no_steps};
ghost use Rattle.mask_update.specs.Masks.{StandsFor as MasksStandFor};
ghost use Rattle.robust_window.specs.Changes.{MaskStep};
ghost use Rattle.robust_window.specs.Window.{IsNextStep, StandsFor as WindowStandsFor};
ghost use Rattle.packet_encode.specs.Encoder.{EncoderState, HavePlaces, StandsFor, plain_data};
ghost use Rattle.packet_encode.specs.Saved.{AreOfEncoder, IsEncoderState, encoder_bytes, encoder_room};
ghost use Rattle.state_bytes.specs.Parts.{Puts};
ghost use Rattle.packet_encode.specs.Forms.{form_bits, form_at, form_of, packet_at, with_next_input};
ghost use Rattle.robust_window.specs.Histories.{level_at};

use crate::changes::{put_changes, put_level};
use crate::data::{Scratch, put_data, set_plain_data};
use bit_vectors::{BitPen, Bits, Flags, NoMemory};
use mask_update::Masks;
use robust_window::Window;
use std::alloc::Global;
use std::marker::Model;

/// How many bits of data are few for any number of places.
const FEW: u32 = 64;

/// The room for each packet of an input of `f` places: at most 491,563 bits.
pub fn room(f: u32) -> u32
    requires valid { IsPlaces f }
    ensures room { result ≡ 10 * f + 43 }
    ensures most { result ≤ 491563 }
{
    10 * f + 43
}

/// Makes the packet of each input (CCSDS 124.0-B-1). It keeps the running vectors and the latest changes, but not the
/// history. Contracts see them, and say which histories they stand for. It also keeps the data of the latest packet if
/// that has no recent change, no mask and no whole content, which the next such packet takes over if its input is the
/// same, and how the latest extracted bits moved.
#[derive(Debug, Drop)]
pub struct Encoder {
    masks: Masks,
    window: Window,
    scratch: Scratch,
    kept: BitPen,
    is_kept: bool,
}

impl Model for Encoder {
    ghost use Rattle.packet_encode.specs.Encoder.{EncoderState, IsEncoder};

    ghost Value = { EncoderState };

    ghost view = { λ e. record { masks = e.masks; window = e.window } };

    ghost invariant = { λ e. IsEncoder e.masks e.window e.scratch.workspace e.kept e.is_kept };
}

impl Encoder {
    /// Starts with this mask of `f` places and no input taken. Allocates the memory for every vector that `encode` fills,
    /// and for the data and the moves that it keeps.
    pub fn open(alloc: Global, f: u32, mask: &Bits) -> Result<Encoder, NoMemory>
        requires valid { IsPlaces f }
        requires places { length mask.now ≡ f }
        ensures stands { IfOk result (λ encoder. StandsFor (no_steps mask.now) encoder) }
        ensures places { IfOk result (λ encoder. length encoder.masks.mask ≡ f) }
        ensures taken { IfOk result (λ encoder. encoder.masks.taken ≡ 0) }
    {
        let (masks, window) = before_any_input(alloc, f, mask)?;
        let (scratch, kept) = workspaces(alloc, f)?;
        Ok(Encoder {
            masks,
            window,
            scratch,
            kept,
            is_kept: false,
        })
    }

    /// Starts anew in the memory that it has, with this mask, which has as many places as the one before, and no input taken.
    pub fn reset(&mut self, mask: &Bits)
        requires places { length mask.now ≡ length self.old.masks.mask }
        ensures stands { StandsFor (no_steps mask.now) self.new }
        ensures places { length self.new.masks.mask ≡ length self.old.masks.mask }
        ensures taken { self.new.masks.taken ≡ 0 }
    {
        self.masks.reset(mask);
        self.window.reset();
        self.is_kept = false;
    }

    /// Takes the next input, its flags and its required robustness, at most 7, and leaves the packet's bits in `pen`,
    /// which is empty and has room for them. A packet whose number is at most its required robustness is forced to carry
    /// mask and whole content and to take no new mask.
    pub fn encode(&mut self, input: &Bits, flags: Flags, robust: u8, pen: &mut BitPen)
        requires places { length input.now ≡ length self.old.masks.mask }
        requires most { self.old.masks.taken < 4294967296 }
        requires robust { robust ≤ 7 }
        requires empty { pen.old.bits ≡ [] }
        requires room { 10 * length input.now + 43 ≤ pen.old.room }
        // If it stood for some history, it now stands for that history with this input, these flags, after forcing, and
        // this required robustness added.
        ensures stands { (h : History) → StandsFor h self.old
            → StandsFor (with_next_input h robust input.now flags) self.new }
        // The pen has exactly the bits of the form of its last step, which are, filled up to whole bytes, the packet.
        ensures bits { (h : History) → StandsFor h self.old
            → pen.new.bits ≡ form_bits
            (form_at (with_next_input h robust input.now flags) (length h.steps)) }
        ensures packet { (h : History) → StandsFor h self.old
            → padded pen.new.bits
            ≡ packet_at (with_next_input h robust input.now flags) (length h.steps) }
        ensures some { 0 < length pen.new.bits }
        ensures most { length pen.new.bits ≤ 10 * length input.now + 43 }
        ensures room { pen.new.room ≡ pen.old.room }
        ensures places { length self.new.masks.mask ≡ length self.old.masks.mask }
        ensures taken { self.new.masks.taken ≡ self.old.masks.taken + 1 }
    {
        let flags = self.forced(flags, robust);
        self.masks.step(input, flags.p);
        step_window(&mut self.window, &self.masks, flags.p, robust);
        if takes_kept(&self.window, &self.masks, &self.kept, flags) {
            keep(
                &mut self.kept,
                self.is_kept,
                input,
                &self.masks,
                &mut self.scratch,
            );
            put_level(pen, self.window.effective());
            pen.put_pen(&self.kept);
            self.is_kept = true;
        } else {
            write_packet(
                pen,
                input,
                flags,
                &self.masks,
                &self.window,
                &mut self.scratch,
            );
            self.is_kept = false;
        }
    }

    /// Whether these are the bytes of an encoder of inputs of `f` places.
    pub fn is_saved(f: u32, bytes: &[u8]) -> bool
        requires valid { IsPlaces f }
        ensures { IsTrue result ↔ AreOfEncoder f bytes.now }
    {
        match Masks::pass(f, bytes) {
            Some(rest) => Window::is_saved(f, rest),
            None => false,
        }
    }

    /// Writes its bytes at this place, and tells the place after them.
    pub fn save(&self, out: &mut [u8], at: usize) -> usize
        requires { at + encoder_room (length self.now.masks.mask) ≤ length out.old }
        ensures saved { Puts out.old out.new at (encoder_bytes self.now) result }
        ensures valid { IsEncoderState (length self.now.masks.mask) self.now }
    {
        let at = self.masks.save(out, at);
        self.window.save(out, at)
    }

    /// Becomes the encoder with these bytes, in the memory that it has.
    pub fn load(&mut self, bytes: &[u8])
        requires { AreOfEncoder (length self.old.masks.mask) bytes.now }
        ensures loaded { (e : EncoderState) → IsEncoderState (length self.old.masks.mask) e
            → bytes.now ≡ encoder_bytes e → self.new ≡ e }
        ensures places { length self.new.masks.mask ≡ length self.old.masks.mask }
    {
        let rest = self.masks.load(bytes);
        self.window.load(self.masks.taken(), rest);
        self.is_kept = false;
    }

    /// The effective robustness level of the latest packet. At least one input was taken.
    pub fn level(&self) -> u8
        requires { 0 < self.now.masks.taken }
        ensures level { (h : History) (t : ℕ) → StandsFor h self.now → length h.steps ≡ t + 1
            → result ≡ level_at h t }
        ensures most { result ≤ 15 }
    {
        self.window.effective()
    }

    /// The flags of the next packet, which is forced if its number is at most its required robustness.
    fn forced(&self, flags: Flags, robust: u8) -> Flags
        ensures { result ≡ flags_after robust self.now.masks.taken flags }
    {
        let is_forced = self.masks.taken() <= u64::from(robust);
        Flags {
            p: flags.p && !is_forced,
            f: flags.f || is_forced,
            r: flags.r || is_forced,
        }
    }

    /// The number of inputs taken, at most 4,294,967,296.
    pub fn taken(&self) -> u64
        ensures inputs { (h : History) → StandsFor h self.now → result ≡ length h.steps }
        ensures kept { result ≡ self.now.masks.taken }
        ensures most { result ≤ 4294967296 }
    {
        self.masks.taken()
    }
}

/// The running vectors, with this mask of `f` places, and the latest changes, before any input.
fn before_any_input(alloc: Global, f: u32, mask: &Bits) -> Result<(Masks, Window), NoMemory>
    requires valid { IsPlaces f }
    requires places { length mask.now ≡ f }
    ensures masks { IfOk result (λ r. MasksStandFor (no_steps mask.now) r.0) }
    ensures mask { IfOk result (λ r. r.0.mask ≡ mask.now) }
    ensures masks_taken { IfOk result (λ r. r.0.taken ≡ 0) }
    ensures window { IfOk result (λ r. WindowStandsFor [] r.1) }
    ensures recent { IfOk result (λ r. r.1.recent ≡ replicate f false) }
    ensures window_taken { IfOk result (λ r. r.1.taken ≡ 0) }
{
    let masks = Masks::open(alloc, mask)?;
    let window = Window::open(alloc, f)?;
    Ok((masks, window))
}

/// What `encode` works in, for inputs of `f` places, and room for the data of a packet.
fn workspaces(alloc: Global, f: u32) -> Result<(Scratch, BitPen), NoMemory>
    requires valid { IsPlaces f }
    ensures workspace { IfOk result (λ r. length r.0.workspace ≡ f) }
    ensures room { IfOk result (λ r. r.1.room ≡ 10 * f + 43) }
{
    let scratch = Scratch::open(alloc, f)?;
    let kept = BitPen::with_room(alloc, room(f))?;
    Ok((scratch, kept))
}

/// Takes the latest change of the masks. Without one, no vector is looked at.
fn step_window(window: &mut Window, masks: &Masks, new_mask: bool, robust: u8)
    requires places { length masks.now.mask ≡ length window.old.recent }
    requires first_change { window.old.taken ≡ 0
        → masks.now.change ≡ replicate (length masks.now.mask) false }
    requires next { IsNextStep window.old new_mask robust }
    ensures stands { (steps : List MaskStep) (step : MaskStep)
        → WindowStandsFor steps window.old → step.change ≡ masks.now.change
        → step.new_mask ≡ new_mask → step.robust ≡ robust
        → WindowStandsFor (steps ++ step ∷ []) window.new }
    ensures places { length window.new.recent ≡ length window.old.recent }
    ensures taken { window.new.taken ≡ window.old.taken + 1 }
{
    let change = masks.change();
    if masks.is_still() {
        window.step_still(new_mask, robust);
    } else {
        window.step(change, new_mask, robust);
    }
}

/// Writes the packet of this input after masks and window have taken a step. The workspace vector may then have any bits.
fn write_packet(
    pen: &mut BitPen,
    input: &Bits,
    flags: Flags,
    masks: &Masks,
    window: &Window,
    scratch: &mut Scratch,
)
    requires empty { pen.old.bits ≡ [] }
    requires taken { 0 < window.now.taken }
    requires places { HavePlaces (length input.now) masks.now.mask window.now.recent scratch.old.workspace }
    requires room { 10 * length input.now + 43 ≤ pen.old.room }
    ensures bits { let window = window.now in
        pen.new.bits
        ≡ form_bits
        (form_of masks.now.mask window.recent window.level window.twice input.now flags) }
    ensures room { pen.new.room ≡ pen.old.room }
    ensures workspace { length scratch.new.workspace ≡ length scratch.old.workspace }
{
    let mask = masks.mask();
    let wide = put_changes(pen, mask, window);
    put_data(pen, input, flags, mask, window.recent(), wide, scratch);
}

/// Keeps the data of a plain packet of this input. If it came again and data are kept, they are these.
fn keep(kept: &mut BitPen, is_kept: bool, input: &Bits, masks: &Masks, scratch: &mut Scratch)
    requires kept { OnTrue is_kept (OnTrue masks.now.again (kept.old.bits ≡ plain_data masks.now)) }
    requires input { masks.now.previous ≡ input.now }
    requires places { length masks.now.mask ≡ length input.now }
    requires workspace { length scratch.old.workspace ≡ length input.now }
    requires room { length input.now + 1 ≤ kept.old.room }
    ensures bits { kept.new.bits ≡ plain_data masks.now }
    ensures room { kept.new.room ≡ kept.old.room }
    ensures workspace { length scratch.new.workspace ≡ length scratch.old.workspace }
{
    if !(is_kept && masks.is_again()) {
        set_plain_data(kept, input, masks.mask(), scratch);
    }
}

/// Whether a packet with these flags takes its data from those that are kept: it has no recent change, no mask and no whole
/// content, and the input came again, or the data kept now are so few, one word of bits or bits for a fourth of the places at
/// most, that to copy them is cheaper than to find them again.
fn takes_kept(window: &Window, masks: &Masks, kept: &BitPen, flags: Flags) -> bool
    requires { 0 < window.now.taken }
    ensures { IsTrue result ↔ ((flags.f ≡ false) × (flags.r ≡ false)
        × (window.now.recent ≡ replicate (length window.now.recent) false)
        × IsTrue (masks.now.again || nat_le (length kept.now.bits) (max 64 (length masks.now.mask / 4)))) }
{
    !flags.f
        && !flags.r
        && window.is_quiet()
        && (masks.is_again() || kept.len() <= FEW || kept.len() <= masks.mask().len() / 4)
}
