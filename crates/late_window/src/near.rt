//! The numbers of arrivals that may come late, from their sequence counts.

ghost use Rattle.std.specs.Prelude.{◌≡◌, ◌+◌, ◌<◌, ◌≤◌, ◌^◌, None, IfSome};
ghost use Rattle.ground_chain.specs.Run.{expected};
ghost use Rattle.late_window.specs.Order.{highest_with, near_number, number_around};

use packet_store::PERIOD;
use std::marker::Model;

/// How far the number of an arrival may be above the greatest number so far, so that no other number with its sequence
/// count is nearer: half a period.
const MOST_ABOVE: u64 = PERIOD / 2;

/// Numbers the packets that arrive, in any order, from their sequence counts. Contracts see the greatest number so far.
#[derive(Clone, Copy, Debug)]
pub struct NearCount {
    highest: Option<u64>,
}

impl Model for NearCount {
    ghost use Rattle.std.specs.Prelude.{Option, ℕ};

    ghost Value = { Option ℕ };

    ghost view = { λ n. n.highest };

    ghost inverse = { λ highest. record { highest = highest } };
}

impl NearCount {
    /// Nothing has arrived.
    pub fn new() -> NearCount
        ensures { result ≡ None }
    {
        NearCount { highest: None }
    }

    /// The number of the next arrival: the one near the greatest number so far that has this sequence count.
    pub fn next(&mut self, count: u16) -> u64
        requires count_bits { count < PERIOD }
        requires room { IfSome self.old (λ highest. highest < 2 ^ 61) }
        ensures number { result ≡ near_number self.old count }
        ensures highest { self.new ≡ highest_with self.old result }
        ensures bound { expected self.new ≤ expected self.old + PERIOD }
    {
        let count = u64::from(count);
        let Some(highest) = self.highest else {
            self.highest = Some(count);
            return count;
        };
        let number = around(highest, (count + (PERIOD - highest % PERIOD)) % PERIOD);
        self.highest = Some(highest.max(number));
        number
    }

    /// The greatest number so far. None: nothing has arrived.
    pub fn highest(&self) -> Option<u64>
        ensures { result ≡ self.now }
    {
        self.highest
    }
}

/// The number that is so far above the greatest one, or if that is too far, one period before it.
fn around(highest: u64, above: u64) -> u64
    requires room { highest < 2 ^ 61 }
    requires above { above < PERIOD }
    ensures number { result ≡ number_around highest above }
    ensures bound { result < highest + PERIOD }
{
    if above <= MOST_ABOVE || highest + above < PERIOD {
        highest + above
    } else {
        highest + above - PERIOD
    }
}
