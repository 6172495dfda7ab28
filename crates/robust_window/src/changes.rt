//! The latest sixteen changes, from the latest back: only those that are marked are written and read.

ghost use Rattle.std.specs.Prelude.{◌≡◌, ℕ, ◌+◌, ◌<◌, ◌≤◌, Contains, false, true, [], ◌∷◌, ◌++◌, length, drop, max, replicate, slice_index_or, IfOk};
ghost use Rattle.std.specs.Bool.{OnFalse, OnTrue};
ghost use Rattle.std.specs.List.{list_any, range_with_len};
ghost use Rattle.mask_update.specs.Masks.{vector_by};
ghost use Rattle.robust_window.specs.Window.{IsKeptCount, change_back};
ghost use Rattle.bit_vectors.specs.Vectors.{IsPlaces};

use crate::marks;
use bit_vectors::{Bits, NoMemory};
use circular_buffer::HeapCircularBuffer;
use std::alloc::Global;
use std::marker::Model;

/// How many of the latest changes are kept.
pub(crate) const KEPT: usize = 16;

/// The slot the given number of steps back, at most 15.
fn slot_back(slots: &HeapCircularBuffer<Bits>, back: u8) -> &Bits
    requires full { length slots.now.items ≡ 16 }
    requires most { back ≤ 15 }
    ensures { result.now ≡ change_back slots.now.items back }
{
    match slots.nth_back(usize::from(back)) {
        Some(slot) => slot,
        None => unreachable!(),
    }
}

/// Keeps the latest sixteen changes. A mark says whether a change is nonzero; a slot without a mark stands for zeros,
/// whatever it has.
#[derive(Debug, Drop)]
pub(crate) struct Changes {
    slots: HeapCircularBuffer<Bits>,
    marks: u16,
    zeros: Bits,
}

impl Model for Changes {
    ghost use Rattle.robust_window.specs.Window.{LatestChanges, AreChanges, changes_of};
    ghost use Rattle.std.specs.Prelude.{length};

    ghost Value = { LatestChanges };

    ghost view = { λ c. record {
      places = length c.zeros;
      latest = changes_of (length c.zeros) c.marks c.slots.items;
    } };

    ghost invariant = { λ c. AreChanges c.slots c.marks c.zeros };
}

impl Changes {
    /// Starts with changes of `f` zeros. Allocates the memory for them.
    pub(crate) fn open(alloc: Global, f: u32) -> Result<Changes, NoMemory>
        requires valid { IsPlaces f }
        ensures places { IfOk result (λ changes. changes.places ≡ f) }
        ensures latest { IfOk result (λ changes. changes.latest ≡ replicate 16 (replicate f false)) }
    {
        let mut slots = HeapCircularBuffer::with_capacity(alloc, KEPT)?;
        for _kept in 0..KEPT {
            slots.push_back(Bits::zeros(alloc, f)?);
        }
        Ok(Changes {
            slots,
            marks: 0,
            zeros: Bits::zeros(alloc, f)?,
        })
    }

    /// Starts anew with changes of zeros, by their marks alone.
    pub(crate) fn reset(&mut self)
        ensures { self.new ≡ record self.old { latest = replicate 16 (replicate self.old.places false) } }
    {
        self.marks = 0;
    }

    /// Puts the latest change, which has a 1, in place of the oldest one.
    pub(crate) fn push(&mut self, change: &Bits)
        requires places { length change.now ≡ self.old.places }
        requires some { Contains change.now true }
        ensures { self.new
            ≡ record self.old { latest = drop 1 self.old.latest ++ change.now ∷ [] } }
    {
        let Some(mut oldest) = self.slots.pop_front() else {
            unreachable!()
        };
        oldest.copy_from(change);
        self.slots.push_back(oldest);
        self.marks = marks::pushed(self.marks, true);
    }

    /// Puts a change without a 1 in place of the oldest one, by its mark alone. If no change is marked, all have none
    /// already.
    pub(crate) fn push_still(&mut self)
        ensures { let zeros = replicate self.old.places false in
            self.new ≡ record self.old { latest = drop 1 self.old.latest ++ zeros ∷ [] } }
    {
        if self.marks != 0 {
            let Some(oldest) = self.slots.pop_front() else {
                unreachable!()
            };
            self.slots.push_back(oldest);
            self.marks = marks::pushed(self.marks, false);
        }
    }

    /// Puts the latest change in place of the oldest one, and tells whether it has no 1.
    pub(crate) fn push_any(&mut self, change: &Bits) -> bool
        requires { length change.now ≡ self.old.places }
        ensures pushed { self.new
            ≡ record self.old { latest = drop 1 self.old.latest ++ change.now ∷ [] } }
        ensures zero { OnTrue result (change.now ≡ replicate (length change.now) false) }
        ensures some { OnFalse result (Contains change.now true) }
    {
        let is_zero = change.is_zero();
        if is_zero {
            self.push_still();
        } else {
            self.push(change);
        }
        is_zero
    }

    /// The change the given number of steps back, at most 15.
    pub(crate) fn back(&self, back: u8) -> &Bits
        requires { back ≤ 15 }
        ensures change { result.now ≡ change_back self.now.latest back }
        ensures places { length result.now ≡ self.now.places }
    {
        if marks::is_set(self.marks, back) {
            slot_back(&self.slots, back)
        } else {
            &self.zeros
        }
    }

    /// One less than the distance in steps to the latest change with a 1 that is more than `robust` steps back, but at most
    /// the greater of `robust` and `most`.
    pub(crate) fn quiet_level(&self, robust: u8, most: u8) -> u8
        requires robust { robust ≤ 7 }
        requires most { most ≤ 15 }
        ensures least { robust ≤ result }
        ensures most { result ≤ max robust most }
        ensures quiet { (back : ℕ) → robust < back → back ≤ result
            → change_back self.now.latest back ≡ replicate self.now.places false }
        ensures stops { result < max robust most
            → Contains (change_back self.now.latest (result + 1)) true }
    {
        let earlier = self.marks >> (robust + 1);
        let level = robust + earlier.trailing_zeros() as u8;
        level.min(robust.max(most))
    }

    /// Makes `recent` 1 at each place that one of the latest `count` changes has, from 1 to 16 of them, and tells whether it
    /// is zero then. `quiet` tells that it is zero before: if it is, and no such change is marked, it stays as it is.
    pub(crate) fn gather(&self, count: u8, recent: &mut Bits, quiet: bool) -> bool
        requires places { length recent.old ≡ self.now.places }
        requires kept { IsKeptCount count }
        requires quiet { OnTrue quiet (recent.old ≡ replicate (length recent.old) false) }
        ensures recent { recent.new ≡ vector_by (length recent.old) (λ place.
            list_any (λ back. slice_index_or (change_back self.now.latest back) place false)
            (range_with_len 0 count)) }
        ensures zero { OnTrue result (recent.new ≡ replicate (length recent.old) false) }
        ensures some { OnFalse result (Contains recent.new true) }
    {
        if quiet && marks::are_clear(self.marks, count) {
            return true;
        }
        recent.clear();
        let mut is_zero = true;
        for back in 0..count {
            if marks::is_set(self.marks, back) {
                recent.or_in(slot_back(&self.slots, back));
                is_zero = false;
            }
        }
        is_zero
    }
}
