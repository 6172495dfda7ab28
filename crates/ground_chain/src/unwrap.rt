//! The numbers of arrivals, from their sequence counts.

ghost use Rattle.std.specs.Prelude.{◌≡◌, ◌+◌, ◌<◌, ◌≤◌, ◌^◌, None, IfSome};
ghost use Rattle.ground_chain.specs.Run.{number_after, latest_after, expected};

use packet_store::PERIOD;
use std::marker::Model;

/// Numbers the packets that arrive, in order, from their sequence counts.
#[derive(Clone, Copy, Debug)]
pub struct Unwrap {
    latest: Option<u64>,
}

impl Model for Unwrap {
    ghost use Rattle.std.specs.Prelude.{Option, ℕ};

    ghost Value = { Option ℕ };

    ghost view = { λ u. u.latest };

    ghost inverse = { λ latest. record { latest = latest } };
}

impl Unwrap {
    /// Nothing has arrived.
    pub fn new() -> Unwrap
        ensures { result ≡ None }
    {
        Unwrap { latest: None }
    }

    /// The next number is this one, if nothing is lost before it; before 0 nothing has arrived.
    pub(crate) fn after(next: u64) -> Unwrap
        ensures { expected result ≡ next }
    {
        Unwrap {
            latest: next.checked_sub(1),
        }
    }

    /// The number of the next arrival. None: it is a repeat of the latest one, which stays.
    pub fn next(&mut self, count: u16) -> Option<u64>
        requires count_bits { count < PERIOD }
        requires room { IfSome self.old (λ latest. latest < 2 ^ 61) }
        ensures number { result ≡ number_after self.old count }
        ensures latest { self.new ≡ latest_after self.old result }
        ensures near { IfSome result
            (λ t. (expected self.old ≤ t) × (t < expected self.old + PERIOD)) }
    {
        let count = u64::from(count);
        let number = match self.latest {
            None => count,
            Some(latest) => {
                let distance = (count + (PERIOD - latest % PERIOD)) % PERIOD;
                if distance == 0 {
                    return None;
                }
                latest + distance
            }
        };
        self.latest = Some(number);
        Some(number)
    }

    /// The number of the latest arrival. None: nothing has arrived.
    pub fn last(&self) -> Option<u64>
        ensures { result ≡ self.now }
    {
        self.latest
    }

    /// The number that the next arrival has, if nothing is lost before it and it is no repeat.
    pub fn expected(&self) -> u64
        requires { IfSome self.now (λ latest. latest < 2 ^ 61) }
        ensures { result ≡ expected self.now }
    {
        match self.latest {
            None => 0,
            Some(latest) => latest + 1,
        }
    }
}
