//! What C holds: a handle, which owns a value on the heap, or nothing.

ghost use Rattle.std.specs.Prelude.{◌≡◌, ◌↔◌, ◌⊎◌, Option, Some, None, true};
ghost use Rattle.std.specs.Coded.{coded_option};
ghost use Rattle.std.specs.Option.{option_map};
ghost use Rattle.pocket_c.specs.Owned.{owned};
ghost use Rattle.pocket_c.specs.contracts.held.Held.{the_row};

use crate::bench::Bench;
use crate::loose::Loose;
use crate::status::CallStatus;
use packet_calls::{Receiver, Sender};
use std::alloc::Global;
use std::marker::{Model, Send};
use std::mem::replace;
use std::ptr::null_mut;

/// What a handle may hold.
#[derive(Debug, Drop)]
pub enum Held {
    Sender(Sender),
    Receiver(Receiver),
    Bench(Bench),
}

/// A handle. Zeros are one that holds nothing. Contracts see what it holds.
#[repr(C)]
pub struct Handle {
    at: *mut u8,
    state: usize,
    pub ghost held: { Option the_row.Denot } by { coded_option the_row.coded },
}

impl Model for Handle {
    ghost also_owns = { λ h. owned the_row h.state h.at h.held };
}

// What a handle owns says the same to every thread (proofs/held/Handle/TheSendSync).
unsafe impl Send for Handle {}

impl Handle {
    /// A handle that holds nothing.
    fn shut() -> Handle
        ensures { result.held ≡ None }
    {
        Handle {
            at: null_mut(),
            state: 0,
        }
    }

    /// A handle that holds what a box holds.
    fn holding(loose: Loose<Held, Global>) -> Handle
        ensures { result.held ≡ Some loose.value }
    {
        let Loose { at, alloc: _ } = loose;
        Handle {
            at: at as *mut u8,
            state: 1,
        }
    }

    /// What it holds, as a pointer.
    fn into_loose(self, alloc: Global) -> Option<Loose<Held, Global>>
        ensures { option_map (λ l. l.value) result ≡ self.held }
    {
        let Handle { at, state } = self;
        if state == 0 {
            None
        } else {
            Some(Loose {
                at: at as *mut Held,
                alloc,
            })
        }
    }

    /// Takes out what it holds.
    pub(crate) fn take(&mut self, alloc: Global) -> Option<Box<Held>>
        ensures took { option_map (λ l. l.value) result ≡ self.old.held }
        ensures shut { self.new.held ≡ None }
    {
        match replace(self, Handle::shut()).into_loose(alloc) {
            Some(loose) => Some(loose.into_box()),
            None => None,
        }
    }

    /// Puts a value in place of what it holds.
    pub(crate) fn put(&mut self, alloc: Global, value: Box<Held>)
        ensures { self.new.held ≡ Some value.value }
    {
        if let Some(loose) = replace(self, Handle::holding(Loose::of(value))).into_loose(alloc) {
            drop(loose.into_box());
        }
    }

    /// Puts a value on the heap in place of what it holds. Where this is called the value is at hand, and is to be moved once.
    #[inline(always)]
    pub(crate) fn hold(&mut self, alloc: Global, value: Held) -> CallStatus
        ensures only { (result ≡ CallStatus.Done) ⊎ (result ≡ CallStatus.NoMemory) }
        ensures done { result ≡ CallStatus.Done → self.new.held ≡ Some value }
        ensures unchanged { result ≡ CallStatus.NoMemory → self.new.held ≡ self.old.held }
    {
        match Box::new(alloc, value).ok() {
            Some(held) => {
                self.put(alloc, held);
                CallStatus::Done
            }
            None => CallStatus::NoMemory,
        }
    }

    /// Whether it holds something.
    pub(crate) fn is_open(&mut self, alloc: Global) -> bool
        ensures told { (result ≡ true) ↔ (self.old.held ≡ None → ⊥) }
        ensures unchanged { self.new.held ≡ self.old.held }
    {
        let Some(held) = self.take(alloc) else {
            return false;
        };
        self.put(alloc, held);
        true
    }
}
