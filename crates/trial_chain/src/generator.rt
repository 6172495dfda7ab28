//! The numbers that a trial draws, and the packets that they give.

ghost use Rattle.std.specs.Prelude.{◌≡◌, ◌<◌, ◌≤◌, length, replicate, false, IfOk};
ghost use Rattle.trial_chain.specs.Draws.{next_number, drawn};
ghost use Rattle.trial_chain.specs.Trials.{copies_by, inverted_at, next_input};
ghost use Rattle.bit_vectors.specs.Vectors.{IsPlaces};

use bit_vectors::{Bits, NoMemory};
use std::alloc::Global;

/// Draws the packets of a trial one after the other. It keeps the number that the latest draw left, and the input vector of
/// the latest packet.
#[derive(Debug, Drop)]
pub(crate) struct Generator {
    number: u32,
    pub input: Bits,
}

impl Generator {
    /// At the packet 0, whose input vector of `f` places is zero: nothing is drawn.
    pub fn open(alloc: Global, seed: u32, f: u32) -> Result<Generator, NoMemory>
        requires valid { IsPlaces f }
        ensures { IfOk result (λ g. g ≡ record { number = seed; input = replicate f false }) }
    {
        let input = Bits::zeros(alloc, f)?;
        Ok(Generator {
            number: seed,
            input,
        })
    }

    /// Goes on to the next packet, and tells how many copies of it arrive, at most 2.
    pub fn advance(&mut self) -> u8
        ensures number { self.new.number ≡ next_number (next_number self.old.number) }
        ensures input { self.new.input
            ≡ next_input (drawn (next_number self.old.number)) self.old.input }
        ensures places { length self.new.input ≡ length self.old.input }
        ensures copies { result ≡ copies_by (drawn (next_number (next_number self.old.number))) }
        ensures most { result ≤ 2 }
    {
        let place = self.draw();
        let copies = self.draw();
        let f = self.input.len();
        self.invert(f - 1);
        if place % 4 == 0 {
            self.invert(u32::from(place / 4) % f);
        }
        copies_by(copies)
    }

    /// Draws a number of 16 bits.
    fn draw(&mut self) -> u16
        ensures number { self.new.number ≡ next_number self.old.number }
        ensures drawn { result ≡ drawn self.new.number }
        ensures input { self.new.input ≡ self.old.input }
    {
        let number = (1_664_525 * u64::from(self.number) + 1_013_904_223) % 4_294_967_296;
        self.number = number as u32;
        (self.number / 65_536) as u16
    }

    /// Inverts a place of the input vector.
    fn invert(&mut self, place: u32)
        requires { place < length self.old.input }
        ensures input { self.new.input ≡ inverted_at self.old.input place }
        ensures number { self.new.number ≡ self.old.number }
    {
        let bit = self.input.get(place);
        self.input.set(place, !bit);
    }
}

/// How many copies of a packet arrive, by what was drawn for it.
fn copies_by(drawn: u16) -> u8
    ensures copies { result ≡ copies_by drawn }
    ensures most { result ≤ 2 }
{
    match drawn % 16 {
        0 => 0,
        1 => 2,
        _ => 1,
    }
}
