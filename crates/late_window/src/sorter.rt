//! Arrivals that are held until it is their turn.

ghost use Rattle.std.specs.Prelude.{◌≡◌, ◌+◌, ◌-◌, ◌<◌, ◌≤◌, [], ◌∷◌, length, take, nat_lt, not, slice_index_or, unwrap_or, Some, IsSome, IfOk};
ghost use Rattle.std.specs.Bool.{OnFalse, OnTrue};
ghost use Rattle.std.specs.VecDeque.{deque_capacity};
ghost use Rattle.late_window.specs.Lines.{AreRising, empty_line, given_up, holding, is_below, nothing};
ghost use Rattle.late_window.specs.Order.{placed};

use crate::place::Place;
use bit_vectors::NoMemory;
use std::alloc::Global;
use std::collections::VecDeque;
use std::marker::Model;

/// Holds arrivals in the order of their numbers, equal numbers in the order of arrival, and gives them up one after another.
///
/// There is a ring of places, one more than the window is large: the held arrivals come first, and the place of the one that
/// was given up last is the last one, until it is needed again. So an arrival is copied once.
#[derive(Debug, Drop)]
pub struct Sorter {
    window: u8,
    held: usize,
    released: Option<u64>,
    places: VecDeque<Place>,
}

impl Model for Sorter {
    ghost use Rattle.std.specs.VecDeque.{deque_capacity};
    ghost use Rattle.late_window.specs.Lines.{IsSorter, Sorting, sorting_of};

    ghost Value = { Sorting };

    ghost view = { λ s. sorting_of s.window s.held s.released s.places.items };

    ghost invariant = { λ s. IsSorter s.window s.held s.places.items (deque_capacity s.places) };
}

impl Sorter {
    /// Nothing is held. Takes all memory that `push` needs: one place more than the window is large, of 65,536 bytes each.
    pub fn open(alloc: Global, window: u8) -> Result<Sorter, NoMemory>
        requires { window ≤ 64 }
        ensures { IfOk result (λ sorter. sorter ≡ record { line = empty_line window; out = [] }) }
    {
        let count = usize::from(window) + 1;
        let mut places = VecDeque::with_capacity(alloc, count)?;
        for _made in 0..count {
            places.push_back_reserved(Place::open(alloc)?);
        }
        Ok(Sorter {
            window,
            held: 0,
            released: None,
            places,
        })
    }

    /// How many arrivals are held.
    pub fn held(&self) -> u8
        ensures { result ≡ length self.now.line.held }
    {
        self.held as u8
    }

    /// Whether more arrivals are held than the window is large. Then one is to be given up before the next is held.
    pub fn is_over(&self) -> bool
        ensures { result ≡ nat_lt self.now.line.window (length self.now.line.held) }
    {
        self.held > usize::from(self.window)
    }

    /// The number of the arrival that was given up last. None: none was.
    pub fn released(&self) -> Option<u64>
        ensures { result ≡ self.now.line.released }
    {
        self.released
    }

    /// Holds an arrival with this number and these data bytes, at most 65,536. False: its number is below that of the arrival
    /// that was given up last, so that its turn is over, and nothing changes. It takes no memory.
    pub fn push(&mut self, t: u64, bytes: &[u8]) -> bool
        requires room { length self.old.line.held ≤ self.old.line.window }
        requires size { length bytes.now ≤ 65536 }
        ensures in_time { result ≡ not (is_below t self.old.line.released) }
        ensures held { OnTrue result
            (self.new.line ≡ holding self.old.line (record { number = t; body = bytes.now })) }
        ensures too_late { OnFalse result (self.new ≡ self.old) }
    {
        if self.released.is_some_and(|released| t < released) {
            return false;
        }
        hold(&mut self.places, self.held, t, bytes);
        self.held += 1;
        true
    }

    /// Gives up the held arrival with the least number, the earliest of those with equal numbers. At least one is held. It
    /// takes no memory.
    pub fn release(&mut self)
        requires { 0 < length self.old.line.held }
        ensures given { self.new.line ≡ given_up self.old.line }
        ensures out { take 1 self.old.line.held
            ≡ record { number = unwrap_or self.new.line.released 0; body = self.new.out } ∷ [] }
        ensures some { IsSome self.new.line.released }
    {
        self.places.rotate_left(1);
        self.held -= 1;
        self.released = Some(last(&self.places).number());
    }

    /// The number of the arrival that was given up last. There was one.
    pub fn out_number(&self) -> u64
        requires { IsSome self.now.line.released }
        ensures { Some result ≡ self.now.line.released }
    {
        match self.released {
            Some(number) => number,
            None => unreachable!(),
        }
    }

    /// The data bytes of the arrival that was given up last, if none was held since.
    pub fn out_bytes(&self) -> &[u8]
        ensures bytes { result.now ≡ self.now.out }
        ensures size { length result.now ≤ 65536 }
    {
        last(&self.places).bytes()
    }
}

/// The last of some places.
fn last(places: &VecDeque<Place>) -> &Place
    requires { 0 < length places.now.items }
    ensures { result.now ≡ slice_index_or places.now.items (length places.now.items - 1) nothing }
{
    match places.back() {
        Some(place) => place,
        None => unreachable!(),
    }
}

/// Puts an arrival in order among the first `held` places: into the place after them, which then goes before all whose
/// numbers are greater. It takes no memory.
fn hold(places: &mut VecDeque<Place>, held: usize, t: u64, bytes: &[u8])
    requires place { held < length places.old.items }
    requires rising { AreRising (take held places.old.items) }
    requires size { length bytes.now ≤ 65536 }
    ensures held { take (held + 1) places.new.items
        ≡ placed (record { number = t; body = bytes.now }) (take held places.old.items) }
    ensures places { length places.new.items ≡ length places.old.items }
    ensures room { deque_capacity places.new ≡ deque_capacity places.old }
{
    places[held].fill(t, bytes);
    let mut at = held;
    while at > 0 && t < places[at - 1].number() {
        places.swap(at - 1, at);
        at -= 1;
    }
}
