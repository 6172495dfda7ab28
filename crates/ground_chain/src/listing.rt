//! What `show` writes of the arrivals: a line for each, with one before it for lost numbers.

ghost use Rattle.std.specs.Prelude.{◌≡◌, ◌++◌, length, IfOk};
ghost use Rattle.desk_ports.specs.Meanings.{IsReadyOut};
ghost use Rattle.desk_ports.specs.Courses.{to_output};
ghost use Rattle.desk_ports.specs.Turns.{Writes};
ghost use Rattle.ground_chain.specs.Listing.{known_with, latest_vectors, mask_text, shown_vectors, vector_digits};
ghost use Rattle.bit_vectors.specs.Vectors.{IsPlaces};

use crate::account::Account;
use crate::digits::write_digits;
use crate::lines::{end_line, front_of};
use crate::restored::Restored;
use crate::verdict::{Kind, Verdict};
use bit_vectors::{Bits, NoMemory, byte_len, zero_bytes};
use desk_ports::{Desk, Failed, Outlet, write_all};
use packet_decode::Decoder;
use std::alloc::Global;

/// Room for the bytes of a vector and for their hexadecimal digits.
#[derive(Debug, Drop)]
pub struct Listing {
    bytes: Vec<u8>,
    digits: Vec<u8>,
}

impl Account for Listing {
    ghost use Rattle.flight_chain.specs.Compressing.{is_main};
    ghost use Rattle.ground_chain.specs.Listing.{HasVectorRoom, listed_texts};

    ghost texts = { listed_texts };

    ghost writes = { is_main };

    ghost has_room = { HasVectorRoom };

    fn write<D: Desk>(
        &mut self,
        desk: &mut D,
        verdict: &Verdict,
        decoder: &Decoder,
    ) -> Result<(), Failed> {
        write_all(
            desk,
            Outlet::Main,
            front_of(verdict, decoder.level()).as_bytes(),
        )?;
        self.write_own(desk, verdict, decoder)
    }

    fn end<D: Desk>(&self, desk: &mut D, restored: &Restored) -> Result<(), Failed> {
        write_all(desk, Outlet::Main, end_line(restored).as_bytes())
    }
}

impl Listing {
    ghost use Rattle.ground_chain.specs.Listing.{HasVectorRoom};

    /// Takes the memory for vectors of `f` places.
    pub fn open(alloc: Global, f: u32) -> Result<Listing, NoMemory>
        requires valid { IsPlaces f }
        ensures { IfOk result (λ listing. HasVectorRoom listing f) }
    {
        let length = byte_len(f) as usize;
        let bytes = zero_bytes(alloc, length)?;
        let digits = zero_bytes(alloc, 2 * length)?;
        Ok(Listing { bytes, digits })
    }

    /// Writes the vectors of an arrival's line, if it has some.
    fn write_own<D: Desk>(
        &mut self,
        desk: &mut D,
        verdict: &Verdict,
        decoder: &Decoder,
    ) -> Result<(), Failed>
        requires room { HasVectorRoom self.old decoder.now.places }
        requires output { IsReadyOut (D.meaning desk.old) Outlet.Main }
        ensures room { HasVectorRoom self.new decoder.now.places }
        ensures written { Writes D.meaning D.counts desk.old desk.new
            (to_output (shown_vectors verdict.now decoder.now)) result }
    {
        match verdict.kind {
            Kind::Written => self.write_vectors(desk, verdict.t, decoder),
            Kind::Unsynced { mask: true } | Kind::Gap { mask: true, .. } => {
                self.write_mask(desk, verdict.t, decoder, "\n")
            }
            _ => Ok(()),
        }
    }

    /// Writes the vectors of the latest written packet, which end its line. A dash stands in place of its mask if that
    /// did not become known with the packet `t`.
    fn write_vectors<D: Desk>(
        &mut self,
        desk: &mut D,
        t: u64,
        decoder: &Decoder,
    ) -> Result<(), Failed>
        requires room { HasVectorRoom self.old decoder.now.places }
        requires output { IsReadyOut (D.meaning desk.old) Outlet.Main }
        ensures room { HasVectorRoom self.new decoder.now.places }
        ensures written { Writes D.meaning D.counts desk.old desk.new
            (to_output (latest_vectors t decoder.now)) result }
    {
        self.write_vector(desk, decoder.recent(), " ")?;
        self.write_mask(desk, t, decoder, " ")?;
        self.write_vector(desk, decoder.content(), "\n")
    }

    /// Writes the mask that became known with the packet `t`, or a dash if none did, and a text after it.
    fn write_mask<D: Desk>(
        &mut self,
        desk: &mut D,
        t: u64,
        decoder: &Decoder,
        after: &str,
    ) -> Result<(), Failed>
        requires room { HasVectorRoom self.old decoder.now.places }
        requires output { IsReadyOut (D.meaning desk.old) Outlet.Main }
        ensures room { HasVectorRoom self.new decoder.now.places }
        ensures written { Writes D.meaning D.counts desk.old desk.new
            (to_output (mask_text (known_with t decoder.now.state.mask) ++ after.now)) result }
    {
        if decoder.last_mask() == Some(t) {
            return self.write_vector(desk, decoder.mask(), after);
        }
        write_all(desk, Outlet::Main, "-".as_bytes())?;
        write_all(desk, Outlet::Main, after.as_bytes())
    }

    /// Writes the bytes of a vector in hexadecimal digits, and a text after them.
    fn write_vector<D: Desk>(
        &mut self,
        desk: &mut D,
        vector: &Bits,
        after: &str,
    ) -> Result<(), Failed>
        requires room { HasVectorRoom self.old (length vector.now) }
        requires output { IsReadyOut (D.meaning desk.old) Outlet.Main }
        ensures room { HasVectorRoom self.new (length vector.now) }
        ensures written { Writes D.meaning D.counts desk.old desk.new
            (to_output (vector_digits vector.now ++ after.now)) result }
    {
        self.spell(vector);
        write_all(desk, Outlet::Main, &self.digits)?;
        write_all(desk, Outlet::Main, after.as_bytes())
    }

    /// Spells the bytes of a vector in hexadecimal digits.
    fn spell(&mut self, vector: &Bits)
        requires room { HasVectorRoom self.old (length vector.now) }
        ensures digits { self.new.digits.items ≡ vector_digits vector.now }
        ensures room { HasVectorRoom self.new (length vector.now) }
    {
        vector.store(&mut self.bytes);
        write_digits(&self.bytes, &mut self.digits);
    }
}
