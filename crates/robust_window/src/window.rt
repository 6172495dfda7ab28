//! The window over the latest changes of a mask.

ghost use Rattle.std.specs.Prelude.{◌≡◌, ◌↔◌, ◌*◌, IsTrue, Bool, ◌+◌, ◌-◌, ◌<◌, ◌≤◌, List, [], ◌∷◌, ◌++◌, length, replicate, true, false, Contains, IfOk};
ghost use Rattle.std.specs.Bool.{OnFalse, OnTrue};
ghost use Rattle.robust_window.specs.Changes.{MaskStep, latest_change, level_of, mask_step, recent_of, twice_of};
ghost use Rattle.robust_window.specs.Window.{Advances, IsNextStep, StandsFor, WindowState};
ghost use Rattle.robust_window.specs.Saved.{AreChangesBytes, AreOfWindow, AreSixteen, IsWindowState, window_bytes, window_room};
ghost use Rattle.state_bytes.specs.Parts.{Puts, vector_part, vector_room};
ghost use Rattle.std.specs.List.{flat_map};
ghost use Rattle.bit_vectors.specs.Vectors.{IsPlaces};

use crate::changes::{Changes, KEPT};
use crate::marks;
use crate::saved::{are_changes, take_level};
use bit_vectors::{Bits, NoMemory};
use state_bytes::{put, put_vector, take_vector};
use std::alloc::Global;
use std::marker::Model;

/// The greatest effective robustness level.
const MOST_LEVEL: u64 = 15;

/// Keeps the latest sixteen changes of a mask and their new-mask flags, but not the history (CCSDS 124.0-B-1).
/// Contracts see these and the values at the latest step, and say which changes they stand for.
#[derive(Debug, Drop)]
pub struct Window {
    changes: Changes,
    new_masks: u16,
    recent: Bits,
    /// There is no recent change.
    quiet: bool,
    level: u8,
    taken: u64,
}

impl Model for Window {
    ghost use Rattle.std.specs.Prelude.{◌+◌};
    ghost use Rattle.robust_window.specs.Window.{WindowState, IsWindow, are_two_set, marks_of};

    ghost Value = { WindowState };

    ghost view = { λ w. record {
      changes = w.changes.latest;
      new_masks = marks_of w.new_masks;
      recent = w.recent;
      level = w.level;
      twice = are_two_set (marks_of w.new_masks) (w.level + 1);
      taken = w.taken;
    } };

    ghost invariant = { λ w. IsWindow w.changes w.recent w.quiet w.level w.taken };
}

impl Window {
    /// Starts with no step taken, for vectors of `f` places. Allocates the memory for every vector that `step` fills.
    pub fn open(alloc: Global, f: u32) -> Result<Window, NoMemory>
        requires valid { IsPlaces f }
        ensures stands { IfOk result (λ window. StandsFor [] window) }
        ensures recent { IfOk result (λ window. window.recent ≡ replicate f false) }
        ensures taken { IfOk result (λ window. window.taken ≡ 0) }
    {
        Ok(Window {
            changes: Changes::open(alloc, f)?,
            new_masks: 0,
            recent: Bits::zeros(alloc, f)?,
            quiet: true,
            level: 0,
            taken: 0,
        })
    }

    /// Starts anew in the memory that it has, with no step taken, for vectors of as many places as before.
    pub fn reset(&mut self)
        ensures stands { StandsFor [] self.new }
        ensures recent { self.new.recent ≡ replicate (length self.old.recent) false }
        ensures taken { self.new.taken ≡ 0 }
    {
        self.changes.reset();
        self.new_masks = 0;
        self.recent.clear();
        self.quiet = true;
        self.level = 0;
        self.taken = 0;
    }

    /// Takes the change of the mask at the next step, whether the step takes a new mask, and the required robustness of its
    /// packet, at most 7. The first step does not change the mask and takes no new one.
    pub fn step(&mut self, change: &Bits, new_mask: bool, robust: u8)
        requires places { length change.now ≡ length self.old.recent }
        requires first_change { self.old.taken ≡ 0
            → change.now ≡ replicate (length change.now) false }
        requires next { IsNextStep self.old new_mask robust }
        // If it stood for some changes, it now stands for these and one more.
        ensures stands { (steps : List MaskStep) (step : MaskStep) → StandsFor steps self.old
            → step.change ≡ change.now → step.new_mask ≡ new_mask → step.robust ≡ robust
            → StandsFor (steps ++ step ∷ []) self.new }
        ensures places { length self.new.recent ≡ length self.old.recent }
        ensures taken { self.new.taken ≡ self.old.taken + 1 }
    {
        if change.is_zero() {
            self.step_still(new_mask, robust);
        } else {
            self.changes.push(change);
            self.advance(new_mask, robust);
        }
    }

    /// The same for a step that does not change the mask: it looks at no vector for that.
    #[inline(always)]
    pub fn step_still(&mut self, new_mask: bool, robust: u8)
        requires { IsNextStep self.old new_mask robust }
        // If it stood for some changes, it now stands for these and one more, of zeros.
        ensures stands { (steps : List MaskStep) (step : MaskStep) → StandsFor steps self.old
            → step.change ≡ replicate (length self.old.recent) false → step.new_mask ≡ new_mask
            → step.robust ≡ robust → StandsFor (steps ++ step ∷ []) self.new }
        ensures places { length self.new.recent ≡ length self.old.recent }
        ensures taken { self.new.taken ≡ self.old.taken + 1 }
    {
        self.changes.push_still();
        self.advance(new_mask, robust);
    }

    /// Makes the values at a step whose change is taken already.
    #[inline(always)]
    fn advance(&mut self, new_mask: bool, robust: u8)
        requires { IsNextStep self.old new_mask robust }
        ensures { Advances self.old self.new new_mask robust }
    {
        let most = self.taken.min(MOST_LEVEL) as u8;
        self.new_masks = marks::pushed(self.new_masks, new_mask);
        self.quiet = self
            .changes
            .gather(robust + 1, &mut self.recent, self.quiet);
        self.level = self.changes.quiet_level(robust, most);
        self.taken += 1;
    }

    /// The recent changes: the places that the mask changed at the latest step or at one of the steps before it, of which
    /// the required robustness says how many. At least one step was taken.
    pub fn recent(&self) -> &Bits
        requires { 0 < self.now.taken }
        ensures recent { (steps : List MaskStep) → StandsFor steps self.now
            → result.now ≡ recent_of steps (latest_change steps) }
        ensures kept { result.now ≡ self.now.recent }
    {
        &self.recent
    }

    /// Whether there is no recent change.
    pub fn is_quiet(&self) -> bool
        ensures zero { OnTrue result
            (self.now.recent ≡ replicate (length self.now.recent) false) }
        ensures some { OnFalse result (Contains self.now.recent true) }
    {
        self.quiet
    }

    /// The effective robustness level, at most 15. At least one step was taken.
    pub fn effective(&self) -> u8
        requires { 0 < self.now.taken }
        ensures level { (steps : List MaskStep) → StandsFor steps self.now
            → result ≡ level_of steps (latest_change steps) }
        ensures kept { result ≡ self.now.level }
        ensures most { result ≤ 15 }
    {
        self.level
    }

    /// Whether two or more of the steps within the effective robustness level of the latest one took a new mask. At least
    /// one step was taken.
    pub fn twice(&self) -> bool
        requires { 0 < self.now.taken }
        ensures twice { (steps : List MaskStep) → StandsFor steps self.now
            → result ≡ twice_of steps (latest_change steps) }
        ensures kept { result ≡ self.now.twice }
    {
        marks::has_two(self.new_masks, self.level + 1)
    }

    /// The change of the mask the given number of steps back: at most 15, and below the number of steps taken.
    pub fn past(&self, back: u8) -> &Bits
        requires most { back ≤ 15 }
        requires taken { back < self.now.taken }
        ensures change { (steps : List MaskStep) → StandsFor steps self.now
            → result.now ≡ (mask_step steps (latest_change steps - back)).change }
        ensures places { length result.now ≡ length self.now.recent }
    {
        self.changes.back(back)
    }

    /// Whether these are the bytes of a window of vectors of `f` places.
    pub fn is_saved(f: u32, bytes: &[u8]) -> bool
        requires valid { IsPlaces f }
        ensures { IsTrue result ↔ AreOfWindow f bytes.now }
    {
        let Some((level, _marks, rest)) = take_level(bytes) else {
            return false;
        };
        level <= 15 && are_changes(rest, f)
    }

    /// Writes its bytes at this place, and tells the place after them.
    pub fn save(&self, out: &mut [u8], at: usize) -> usize
        requires { at + window_room (length self.now.recent) ≤ length out.old }
        ensures saved { Puts out.old out.new at (window_bytes self.now) result }
        ensures valid { IsWindowState (length self.now.recent) self.now }
    {
        let [first, second] = self.new_masks.to_be_bytes();
        let at = put(out, at, &[self.level, first, second]);
        let at = self.put_changes(out, at);
        put_vector(out, at, &self.recent)
    }

    /// Writes the latest sixteen changes, the oldest first.
    fn put_changes(&self, out: &mut [u8], at: usize) -> usize
        requires { at + 16 * vector_room (length self.now.recent) ≤ length out.old }
        ensures saved { Puts out.old out.new at (flat_map vector_part self.now.changes) result }
        ensures sixteen { AreSixteen (length self.now.recent) self.now.changes }
    {
        let mut end = at;
        for step in 0..16 {
            end = put_vector(out, end, self.changes.back(15 - step));
        }
        end
    }

    /// Becomes the window with these bytes, in the memory that it has, at which so many steps were taken.
    pub fn load(&mut self, taken: u64, bytes: &[u8])
        requires saved { AreOfWindow (length self.old.recent) bytes.now }
        requires most { taken ≤ 4294967296 }
        ensures loaded { (w : WindowState) → IsWindowState (length self.old.recent) w → w.taken ≡ taken
            → bytes.now ≡ window_bytes w → self.new ≡ w }
        ensures places { length self.new.recent ≡ length self.old.recent }
        ensures taken { self.new.taken ≡ taken }
    {
        let Some((level, marks, rest)) = take_level(bytes) else {
            unreachable!();
        };
        let rest = self.load_changes(rest);
        take_vector(rest, &mut self.recent);
        self.quiet = self.recent.is_zero();
        self.level = level;
        self.new_masks = marks;
        self.taken = taken;
    }

    /// Takes the latest sixteen changes that the bytes begin with, and tells what follows them. The recent changes may then be any.
    fn load_changes<'a>(&mut self, bytes: &'a [u8]) -> &'a [u8]
        requires { AreChangesBytes (length self.old.recent) bytes.now }
        ensures taken { (given : AreChangesBytes (length self.old.recent) bytes.now)
            → (self.new.changes ≡ given.changes) × (result.now ≡ vector_part given.recent) }
        ensures places { length self.new.recent ≡ length self.old.recent }
    {
        let mut rest = bytes;
        for _change in 0..KEPT {
            rest = take_vector(rest, &mut self.recent);
            self.quiet = self.changes.push_any(&self.recent);
        }
        rest
    }
}
