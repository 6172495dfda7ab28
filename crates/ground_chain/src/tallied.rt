//! The arrivals with their numbers.

ghost use Rattle.std.specs.Prelude.{◌≡◌, ◌↔◌, ℕ, ◌+◌, ◌≤◌, ◌∷◌, ◌++◌, [], List, length, IfOk, IsTrue};
ghost use Rattle.ground_chain.specs.Run.{Arrival};
ghost use Rattle.ground_chain.specs.Reception.{AgreesWith, next_judged, HasJudged, IsNextArrival, Judges, Reckoning, nothing_judged};
ghost use Rattle.ground_chain.specs.Saved.{AreOfReckoning, IsReckoning, reckoning_bytes, reckoning_room};
ghost use Rattle.state_bytes.specs.Parts.{Puts};
ghost use Rattle.bit_vectors.specs.Vectors.{IsPlaces};

use crate::arrivals::Ground;
use crate::restored::Restored;
use crate::saved::{are_within, put_counts, take_counts};
use crate::verdict::Verdict;
use bit_vectors::NoMemory;
use packet_decode::Decoder;
use std::alloc::Global;
use std::marker::Model;

/// The arrivals so far, judged one after the other and counted.
#[derive(Debug, Drop)]
pub struct Tallied {
    arrivals: Ground,
    restored: Restored,
}

impl Model for Tallied {
    ghost use Rattle.ground_chain.specs.Reception.{IsWithinLimits, Reckoning};

    ghost Value = { Reckoning };

    ghost view = { λ t. record { reception = t.arrivals; restored = t.restored } };

    ghost invariant = { λ t. IsWithinLimits t.arrivals.latest t.restored };
}

impl Tallied {
    /// Nothing has arrived. The vectors have `f` places. Takes all memory that `judge` needs.
    pub fn open(alloc: Global, f: u32) -> Result<Tallied, NoMemory>
        requires valid { IsPlaces f }
        ensures opened { IfOk result (λ tallied. tallied ≡ nothing_judged f) }
        ensures stands { IfOk result (HasJudged f []) }
    {
        let arrivals = Ground::open(alloc, f)?;
        Ok(Tallied {
            arrivals,
            restored: Restored::none(),
        })
    }

    /// Starts anew in the memory that it has: nothing has arrived. The vectors have as many places as before.
    pub fn reset(&mut self)
        ensures anew { self.new ≡ nothing_judged self.old.reception.decoder.places }
        ensures stands { HasJudged self.old.reception.decoder.places [] self.new }
    {
        self.arrivals.reset();
        self.restored = Restored::none();
    }

    /// Judges and counts the next arrival, with this sequence count and these data bytes. It takes no memory.
    #[inline(always)]
    pub fn judge(&mut self, count: u16, bytes: &[u8]) -> Verdict
        requires { IsNextArrival self.old count bytes.now }
        // The verdict is the run's next one. For every list of arrivals that was judged, now that list and this one is.
        ensures verdict { result ≡ (next_judged self.old.reception count bytes.now).verdict }
        ensures judges { Judges self.old self.new count bytes.now }
        ensures stands { (f : ℕ) (arrivals : List Arrival) → HasJudged f arrivals self.old →
            HasJudged f (arrivals ++ record { count = count; body = bytes.now } ∷ []) self.new }
        ensures shows { AgreesWith self.new.reception.decoder
            (next_judged self.old.reception count bytes.now) }
    {
        let verdict = self.arrivals.arrive(count, bytes);
        self.restored.count(&verdict);
        verdict
    }

    /// Whether these are the bytes of arrivals that were judged, with vectors of `f` places.
    pub fn is_saved(f: u32, bytes: &[u8]) -> bool
        requires valid { IsPlaces f }
        ensures { IsTrue result ↔ AreOfReckoning f bytes.now }
    {
        let Some((next, restored, rest)) = take_counts(bytes) else {
            return false;
        };
        are_within(next, &restored) && Decoder::is_saved(f, next, rest)
    }

    /// Writes its bytes at this place, and tells the place after them.
    pub fn save(&self, out: &mut [u8], at: usize) -> usize
        requires { at + reckoning_room self.now.reception.decoder.places ≤ length out.old }
        ensures saved { Puts out.old out.new at (reckoning_bytes self.now) result }
        ensures valid { IsReckoning self.now.reception.decoder.places self.now }
    {
        let at = put_counts(out, at, self.arrivals.next_number(), &self.restored);
        self.arrivals.decoder().save(out, at)
    }

    /// Becomes what has these bytes, in the memory that it has.
    pub fn load(&mut self, bytes: &[u8])
        requires { AreOfReckoning self.old.reception.decoder.places bytes.now }
        ensures { (r : Reckoning) → IsReckoning self.old.reception.decoder.places r
            → bytes.now ≡ reckoning_bytes r → self.new ≡ r }
    {
        let Some((next, restored, rest)) = take_counts(bytes) else {
            unreachable!();
        };
        self.arrivals.load(next, rest);
        self.restored = restored;
    }

    /// The numbers of the arrivals so far.
    pub fn restored(&self) -> &Restored
        ensures { result.now ≡ self.now.restored }
    {
        &self.restored
    }

    /// The decoder, whose packet is the latest written one.
    pub fn decoder(&self) -> &Decoder
        ensures { result.now ≡ self.now.reception.decoder }
    {
        self.arrivals.decoder()
    }
}
