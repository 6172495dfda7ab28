//! The running vectors.

ghost use Rattle.std.specs.Prelude.{◌≡◌, ℕ, List, [], None, IfSome, ◌+◌, ◌-◌, ◌*◌, ◌/◌, ◌%◌, ◌<◌, ◌≤◌, ◌==◌, ◌&&◌, ◌↔◌, true, false, length, replicate, Contains, IsTrue, IfOk};
ghost use Rattle.std.specs.Bool.{OnFalse, OnTrue};
ghost use Rattle.std.specs.Int.{bit_at};
ghost use Rattle.mask_update.specs.Histories.{History, Step, latest_step, no_steps, with_step};
ghost use Rattle.state_bytes.specs.Parts.{Puts};
ghost use Rattle.mask_update.specs.Saved.{BeginsRunning, IsRunning, running_before, running_room};
ghost use Rattle.bit_vectors.specs.Vectors.{IsPlaces, IsVector, NoneIsOne, xor_bits};
ghost use Rattle.bit_vectors.specs.Words.{word_count, HasNoSpareBit};
ghost use Rattle.mask_update.specs.Masks.{Advances, ComesAgain, HaveMoved, Running, StandsFor, Walked, build_at, change_at, mask_at};

use crate::saved::{byte_of, pass_four, take_counted};
use bit_vectors::{Bits, NoMemory};
use state_bytes::{put, put_number, put_vector, take_vector};
use std::alloc::Global;
use std::marker::Model;

/// Keeps the running mask and build vectors (CCSDS 124.0-B-1), the latest change of the mask and the latest
/// input, but not the history. Contracts see these and the number of inputs taken, and say which histories
/// they stand for.
#[derive(Debug, Drop)]
pub struct Masks {
    previous: Bits,
    build: Bits,
    mask: Bits,
    change: Bits,
    /// The change has no 1.
    still: bool,
    again: bool,
    taken: u64,
}

impl Model for Masks {
    ghost use Rattle.mask_update.specs.Masks.{Running, AreRunning};

    ghost Value = { Running };

    ghost view = { λ m. record {
      previous = m.previous;
      build = m.build;
      mask = m.mask;
      change = m.change;
      again = m.again;
      taken = m.taken;
    } };

    ghost invariant = { λ m. AreRunning m.previous m.build m.mask m.change m.still m.taken };
}

impl Masks {
    /// Starts with this mask and no input taken. Allocates the memory for every vector that `step` fills.
    pub fn open(alloc: Global, mask: &Bits) -> Result<Masks, NoMemory>
        ensures stands { IfOk result (λ masks. StandsFor (no_steps mask.now) masks) }
        ensures mask { IfOk result (λ masks. masks.mask ≡ mask.now) }
        ensures build { IfOk result (λ masks. masks.build ≡ replicate (length mask.now) false) }
        ensures change { IfOk result (λ masks. masks.change ≡ replicate (length mask.now) false) }
        ensures taken { IfOk result (λ masks. masks.taken ≡ 0) }
    {
        let places = mask.len();
        let mut first_mask = Bits::zeros(alloc, places)?;
        first_mask.copy_from(mask);
        Ok(Masks {
            previous: Bits::zeros(alloc, places)?,
            build: Bits::zeros(alloc, places)?,
            mask: first_mask,
            change: Bits::zeros(alloc, places)?,
            still: true,
            again: false,
            taken: 0,
        })
    }

    /// Starts anew in the memory that it has, with this mask, which has as many places as the one before, and no input taken.
    pub fn reset(&mut self, mask: &Bits)
        requires places { length mask.now ≡ length self.old.mask }
        ensures stands { StandsFor (no_steps mask.now) self.new }
        ensures mask { self.new.mask ≡ mask.now }
        ensures build { self.new.build ≡ replicate (length mask.now) false }
        ensures change { self.new.change ≡ replicate (length mask.now) false }
        ensures taken { self.new.taken ≡ 0 }
    {
        self.build.clear();
        self.mask.copy_from(mask);
        self.clear_change();
        self.again = false;
        self.taken = 0;
    }

    /// Takes the next input, which has as many places as the mask. With `new_mask` the mask becomes the build
    /// vector; the first input can't ask for that.
    pub fn step(&mut self, input: &Bits, new_mask: bool)
        requires places { length input.now ≡ length self.old.mask }
        requires most { self.old.taken < 4294967296 }
        requires first { self.old.taken ≡ 0 → new_mask ≡ false }
        // If it stood for some history, it now stands for that history with this input and this flag added.
        ensures stands { (h : History) (step : Step) → StandsFor h self.old
            → step.input ≡ input.now → step.flags.p ≡ new_mask
            → StandsFor (with_step h step) self.new }
        // The first input changes nothing.
        ensures first { self.old.taken ≡ 0
            → self.new.change ≡ replicate (length self.new.mask) false }
        // An input that comes again keeps the mask.
        ensures again { IsTrue self.new.again
            ↔ ((0 < self.old.taken) × (new_mask ≡ false) × (self.old.previous ≡ input.now)) }
        ensures kept { OnTrue self.new.again (self.new.mask ≡ self.old.mask) }
        ensures previous { self.new.previous ≡ input.now }
        ensures places { length self.new.mask ≡ length self.old.mask }
        ensures taken { self.new.taken ≡ self.old.taken + 1 }
    {
        let again = if self.taken > 0 {
            self.advance(input, new_mask)
        } else {
            self.previous.copy_from(input);
            self.clear_change();
            false
        };
        self.again = again;
        self.taken += 1;
    }

    /// The standard's recurrences. Without a new mask only the words that changed are written. Returns whether the input is
    /// equal to the previous one, with no new mask.
    fn advance(&mut self, input: &Bits, new_mask: bool) -> bool
        requires places { length input.now ≡ length self.old.mask }
        ensures next { Advances input.now new_mask self.old self.new }
        ensures again { IsTrue result ↔ ((new_mask ≡ false) × (self.old.previous ≡ input.now)) }
    {
        if !new_mask {
            return self.move_places(input);
        }
        self.previous.xor_in(input);
        self.change.copy_from(&self.mask);
        self.mask.copy_from(&self.build);
        self.build.clear();
        self.mask.or_in(&self.previous);
        self.change.xor_in(&self.mask);
        self.previous.copy_from(input);
        self.still = self.change.is_zero();
        false
    }

    /// Makes the change vector zeros, which takes a walk over it only if the input before changed the mask.
    fn clear_change(&mut self)
        ensures { self.new ≡ record self.old { change = replicate (length self.old.mask) false } }
    {
        if !self.still {
            self.change.clear();
            self.still = true;
        }
    }

    /// The recurrences without a new mask, in one walk. Words are compared eight at a time. Returns whether the input is equal
    /// to the previous one.
    fn move_places(&mut self, input: &Bits) -> bool
        requires places { length input.now ≡ length self.old.mask }
        ensures next { Advances input.now false self.old self.new }
        ensures same { IsTrue result ↔ (self.old.previous ≡ input.now) }
    {
        self.clear_change();
        let count = self.mask.word_count();
        let mut same = true;
        for block in 0..count / 8 {
            same = self.move_block(input, 8 * block, 8 * block + 8) & same;
        }
        self.move_words(input, count / 8 * 8, count) & same
    }

    /// The same as `move_words`, after one look at all the words.
    #[inline(always)]
    fn move_block(&mut self, input: &Bits, from: u32, to: u32) -> bool
        requires places { length input.now ≡ length self.old.mask }
        requires order { from ≤ to }
        requires to { to ≤ word_count (length self.old.mask) }
        ensures { Walked input.now from to result self.old self.new }
    {
        if self.is_unmoved(input, from, to) {
            return true;
        }
        self.move_words(input, from, to)
    }

    /// Whether the input differs from the previous one in none of the words from `from` up to, but not including, `to`.
    fn is_unmoved(&self, input: &Bits, from: u32, to: u32) -> bool
        requires places { length input.now ≡ length self.now.mask }
        requires order { from ≤ to }
        requires to { to ≤ word_count (length self.now.mask) }
        ensures { let moved = xor_bits self.now.previous input.now in
            IsTrue result ↔ NoneIsOne moved (64 * from) (64 * to) }
    {
        let mut any = 0;
        for index in from..to {
            any |= self.previous.word(index) ^ input.word(index);
        }
        any == 0
    }

    /// Moves the places of the words from `from` up to, but not including, `to` at which the input differs from the
    /// previous one. Returns whether there is none.
    fn move_words(&mut self, input: &Bits, from: u32, to: u32) -> bool
        requires places { length input.now ≡ length self.old.mask }
        requires order { from ≤ to }
        requires to { to ≤ word_count (length self.old.mask) }
        ensures { Walked input.now from to result self.old self.new }
    {
        let mut same = true;
        for index in from..to {
            let moved = self.previous.word(index) ^ input.word(index);
            if moved != 0 {
                self.move_word(index, moved);
                same = false;
            }
        }
        same
    }

    /// Moves the places that are 1 in the word `moved` with this number.
    fn move_word(&mut self, index: u32, moved: u64)
        requires index { index < word_count (length self.old.mask) }
        requires spare { HasNoSpareBit (length self.old.mask) index moved }
        ensures { HaveMoved (λ place. (place / 64 == index) && (bit_at moved (63 - place % 64) == 1))
            self.old self.new }
    {
        let mask = self.mask.word(index);
        let fresh = moved & !mask;
        self.previous
            .set_word(index, self.previous.word(index) ^ moved);
        self.build.set_word(index, self.build.word(index) | moved);
        self.mask.set_word(index, mask | moved);
        self.change.set_word(index, self.change.word(index) | fresh);
        self.still = self.still && fresh == 0;
    }

    /// The mask vector: 1 at the places that are not predictable. Before the first input it is the first mask.
    pub fn mask(&self) -> &Bits
        ensures mask { (h : History) → StandsFor h self.now
            → result.now ≡ mask_at h (latest_step h) }
        ensures kept { result.now ≡ self.now.mask }
        ensures vector { IsVector result.now }
    {
        &self.mask
    }

    /// The build vector, which is zero before the first input.
    pub fn build(&self) -> &Bits
        ensures build { (h : History) → StandsFor h self.now
            → result.now ≡ build_at h (latest_step h) }
        ensures kept { result.now ≡ self.now.build }
        ensures places { length result.now ≡ length self.now.mask }
    {
        &self.build
    }

    /// The change of the mask at the latest input. It is zero before the first input, and at the first.
    pub fn change(&self) -> &Bits
        ensures change { (h : History) → StandsFor h self.now
            → result.now ≡ change_at h (latest_step h) }
        ensures kept { result.now ≡ self.now.change }
        ensures places { length result.now ≡ length self.now.mask }
    {
        &self.change
    }

    /// Whether the latest input did not change the mask.
    pub fn is_still(&self) -> bool
        ensures zero { OnTrue result (self.now.change ≡ replicate (length self.now.change) false) }
        ensures some { OnFalse result (Contains self.now.change true) }
    {
        self.still
    }

    /// Whether the latest input came again: it is the one before it once more, and took no new mask. Before the first
    /// input it is false, and at the first.
    pub fn is_again(&self) -> bool
        ensures again { (h : History) → StandsFor h self.now
            → IsTrue result ↔ ComesAgain h (latest_step h) }
        ensures kept { result ≡ self.now.again }
    {
        self.again
    }

    /// The number of inputs taken, at most 4,294,967,296.
    pub fn taken(&self) -> u64
        ensures inputs { (h : History) → StandsFor h self.now → result ≡ length h.steps }
        ensures kept { result ≡ self.now.taken }
        ensures most { result ≤ 4294967296 }
    {
        self.taken
    }

    /// What follows the running vectors of `f` places that the bytes begin with. None: they begin with none.
    pub fn pass(f: u32, bytes: &[u8]) -> Option<&[u8]>
        requires valid { IsPlaces f }
        ensures some { IfSome result (λ rest. (m : Running) × BeginsRunning f m bytes.now rest.now) }
        ensures all { (m : Running) (rest : List ℕ) → BeginsRunning f m bytes.now rest
            → IfSome result (λ after. after.now ≡ rest) }
        ensures none { (m : Running) (rest : List ℕ) → BeginsRunning f m bytes.now rest
            → result ≡ None → ⊥ }
    {
        let Some((taken, again, rest)) = take_counted(bytes) else {
            return None;
        };
        if taken > 4294967296 || again > 1 {
            return None;
        }
        pass_four(rest, f)
    }

    /// Writes the bytes of the running vectors at this place, and tells the place after them.
    pub fn save(&self, out: &mut [u8], at: usize) -> usize
        requires { at + running_room (length self.now.mask) ≤ length out.old }
        ensures saved { Puts out.old out.new at (running_before self.now []) result }
        ensures valid { IsRunning (length self.now.mask) self.now }
    {
        let at = put_number(out, at, self.taken);
        let at = put(out, at, &[byte_of(self.again)]);
        let at = put_vector(out, at, &self.previous);
        let at = put_vector(out, at, &self.build);
        let at = put_vector(out, at, &self.mask);
        put_vector(out, at, &self.change)
    }

    /// Become the running vectors that the bytes begin with, and tell what follows them.
    pub fn load<'a>(&mut self, bytes: &'a [u8]) -> &'a [u8]
        requires { (m : Running) × (rest : List ℕ) × BeginsRunning (length self.old.mask) m bytes.now rest }
        ensures loaded { (m : Running) (rest : List ℕ) → BeginsRunning (length self.old.mask) m bytes.now rest
            → (self.new ≡ m) × (result.now ≡ rest) }
        ensures places { length self.new.mask ≡ length self.old.mask }
        ensures most { self.new.taken ≤ 4294967296 }
    {
        let Some((taken, again, rest)) = take_counted(bytes) else {
            unreachable!();
        };
        let rest = take_vector(rest, &mut self.previous);
        let rest = take_vector(rest, &mut self.build);
        let rest = take_vector(rest, &mut self.mask);
        let rest = take_vector(rest, &mut self.change);
        self.still = self.change.is_zero();
        self.again = again == 1;
        self.taken = taken;
        rest
    }
}
