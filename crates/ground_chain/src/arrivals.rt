//! The arrivals, one after the other, with a verdict for each.

ghost use Rattle.std.specs.Prelude.{◌≡◌, ◌+◌, ◌^◌, ◌<◌, ◌≤◌, ◌↔◌, ◌∷◌, ◌++◌, [], List, true, false, None, IfSome, IfOk};
ghost use Rattle.ground_chain.specs.Run.{expected, number_after, Arrival, IsArrival, answer_kind, lost_from};
ghost use Rattle.ground_chain.specs.Refusals.{IsExactVerdict};
ghost use Rattle.ground_chain.specs.Report.{is_told, tells_mask_alone};
ghost use Rattle.ground_chain.specs.Reception.{AreLost, HasDecoded, HasMasked, AgreesWith, IsReception, Reception, StandsFor, known_of, next_judged, nothing_arrived};
ghost use Rattle.packet_decode.specs.Saved.{AreOfDecoding, IsDecoding, decoding_bytes};
ghost use Rattle.bit_vectors.specs.Vectors.{IsPlaces};

use crate::saved::number_after;
use crate::unwrap::Unwrap;
use crate::verdict::{Kind, Lost, Verdict};
use bit_vectors::{BitFault, NoMemory};
use packet_decode::{Decoder, Reading};
use packet_store::PERIOD;
use std::alloc::Global;
use std::marker::Model;

/// Gives each packet that arrives its number and its verdict, and keeps the latest mask and content. Contracts see
/// the latest number and the decoder, and say for which arrivals it stands.
#[derive(Debug, Drop)]
pub struct Ground {
    numbers: Unwrap,
    decoder: Decoder,
}

impl Model for Ground {
    ghost use Rattle.ground_chain.specs.Reception.{Reception, IsReception};

    ghost Value = { Reception };

    ghost view = { λ g. record { latest = g.numbers; decoder = g.decoder } };

    ghost invariant = { λ g. IsReception g.numbers g.decoder };
}

impl Ground {
    /// Nothing has arrived. The vectors have `f` places. Takes all memory that `arrive` needs.
    pub fn open(alloc: Global, f: u32) -> Result<Ground, NoMemory>
        requires valid { IsPlaces f }
        ensures opened { IfOk result (λ g. g ≡ nothing_arrived f) }
        ensures stands { IfOk result (λ g. StandsFor [] g) }
    {
        let decoder = Decoder::open(alloc, f)?;
        Ok(Ground {
            numbers: Unwrap::new(),
            decoder,
        })
    }

    /// Starts anew in the memory that it has: nothing has arrived. The vectors have as many places as before.
    pub fn reset(&mut self)
        ensures anew { self.new ≡ nothing_arrived self.old.decoder.places }
        ensures stands { StandsFor [] self.new }
    {
        self.numbers = Unwrap::new();
        self.decoder.reset();
    }

    /// Takes the next arrival, with this sequence count and these data bytes, at most 65,536. A repeat changes
    /// nothing, and its data are not read. It takes no memory.
    #[inline(always)]
    pub fn arrive(&mut self, count: u16, bytes: &[u8]) -> Verdict
        requires arrival { IsArrival count bytes.now }
        requires latest { IfSome self.old.latest (λ latest. latest < 2 ^ 61) }
        // The verdict is the run's next one, and what is known is what the run knows after it.
        ensures verdict { result ≡ (next_judged self.old count bytes.now).verdict }
        ensures known { known_of self.new ≡ (next_judged self.old count bytes.now).after }
        ensures stands { (arrivals : List Arrival) → StandsFor arrivals self.old →
            StandsFor (arrivals ++ record { count = count; body = bytes.now } ∷ []) self.new }
        // An arrival that is no repeat gets the exact answer to its data: a refusal names the first wrong bit.
        ensures exact { IfSome (number_after self.old.latest count)
            (IsExactVerdict self.old bytes.now result) }
        // Repeat comes exactly for the count of the latest number.
        ensures repeat { (result.kind ≡ Kind.Repeat) ↔ (number_after self.old.latest count ≡ None) }
        ensures repeated { result.kind ≡ Kind.Repeat → self.new ≡ self.old }
        // Only a packet whose mask or content becomes known changes the decoder; if its mask alone does, the latest
        // written packet stays.
        ensures written { result.kind ≡ Kind.Written
            → HasDecoded self.old.decoder self.new.decoder result.t bytes.now }
        ensures mask_alone { tells_mask_alone result.kind ≡ true
            → HasMasked self.old.decoder self.new.decoder result.t bytes.now }
        ensures shows { AgreesWith self.new.decoder (next_judged self.old count bytes.now) }
        ensures unchanged { is_told result.kind ≡ false → self.new.decoder ≡ self.old.decoder }
        ensures places { self.new.decoder.places ≡ self.old.decoder.places }
        ensures lost { IfSome result.lost AreLost }
        ensures near { expected self.new.latest ≤ expected self.old.latest + PERIOD }
    {
        let expected = self.numbers.expected();
        let Some(t) = self.numbers.next(count) else {
            return Verdict {
                lost: None,
                t: expected - 1,
                kind: Kind::Repeat,
            };
        };
        let lost = lost_from(expected, t);
        let kind = answer_kind(self.decoder.read(t, bytes));
        Verdict { lost, t, kind }
    }

    /// The number of the next arrival, if nothing is lost before it and it is no repeat.
    pub fn next_number(&self) -> u64
        requires { expected self.now.latest < 2 ^ 64 }
        ensures next { result ≡ expected self.now.latest }
        ensures reception { IsReception self.now.latest self.now.decoder }
    {
        number_after(self.numbers.last())
    }

    /// Becomes the one whose next number is this one, with the decoder that has these bytes, in the memory that it has.
    pub fn load(&mut self, next: u64, bytes: &[u8])
        requires saved { AreOfDecoding self.old.decoder.places next bytes.now }
        ensures { (r : Reception) → IsReception r.latest r.decoder → expected r.latest ≡ next
            → IsDecoding self.old.decoder.places r.decoder → bytes.now ≡ decoding_bytes r.decoder
            → self.new ≡ r }
    {
        self.numbers = Unwrap::after(next);
        self.decoder.load(bytes);
    }

    /// The decoder, whose packet is the latest written one.
    pub fn decoder(&self) -> &Decoder
        ensures { result.now ≡ self.now.decoder }
    {
        &self.decoder
    }
}

/// The numbers from the expected one to the one before `t`, if there are any.
fn lost_from(expected: u64, t: u64) -> Option<Lost>
    requires { t < expected + PERIOD }
    ensures is { result ≡ lost_from expected t }
    ensures few { IfSome result AreLost }
{
    if expected < t {
        Some(Lost {
            first: expected,
            last: t - 1,
        })
    } else {
        None
    }
}

/// What an answer to the data says of the arrival.
fn answer_kind(answer: Result<Reading, BitFault>) -> Kind
    ensures { result ≡ answer_kind answer }
{
    match answer {
        Ok(Reading::Written) => Kind::Written,
        Ok(Reading::Unsynced { mask }) => Kind::Unsynced { mask },
        Ok(Reading::Gap { level, mask }) => Kind::Gap { level, mask },
        Err(fault) => Kind::Refused { fault },
    }
}
