//! The first part of a packet: the recent changes of the mask, the effective robustness level, and the
//! directions of the changes if they are sent (CCSDS 124.0-B-1).

ghost use Rattle.std.specs.Prelude.{◌≡◌, ◌<◌, ◌↔◌, ℕ, false, Bool, List, length, replicate, None, IfOk, IsTrue};
ghost use Rattle.std.specs.Bool.{OnFalse, OnTrue};
ghost use Rattle.bit_vectors.specs.Reading.{bits_left, MovesOn, Gives};
ghost use Rattle.run_code.specs.Runs.{parse_vector};
ghost use Rattle.packet_encode.specs.Forms.{wide_by};
ghost use Rattle.packet_decode.specs.State.{mask_after};
ghost use Rattle.packet_decode.specs.PacketReading.{parse_change, parse_directions};
ghost use Rattle.bit_vectors.specs.Vectors.{IsPlaces};
ghost use Rattle.state_bytes.specs.Parts.{BeginsVector};

use bit_vectors::{BitEye, BitFault, Bits, NoMemory};
use run_code::{take_inverse_up, take_runs};
use state_bytes::take_vector;
use std::alloc::Global;
use std::marker::Model;
use std::mem::swap;

/// The run word of a vector without a one, in two bits.
const NO_RUN: u32 = 0b10;

/// The first part of a packet.
#[derive(Debug, Drop)]
pub struct FirstPart {
    recent: Bits,
    /// There is no recent change.
    quiet: bool,
    level: u8,
    /// The places that became predictable, if directions are sent.
    predictable: Bits,
    /// Whether all recent changes are extracted, if directions are sent.
    twice: Option<bool>,
}

impl Model for FirstPart {
    ghost use Rattle.std.specs.Prelude.{◌≡◌, ◌<◌, ◌↔◌, false, true, length, replicate, Contains, IsTrue};
    ghost use Rattle.std.specs.Bool.{OnFalse};
    ghost use Rattle.packet_decode.specs.State.{Change, AreRecent, sent_directions};

    ghost Value = { Change };

    ghost view = { λ p. record { recent = p.recent; level = p.level; directions = sent_directions p.twice p.predictable } };

    ghost invariant = { λ p. (length p.predictable ≡ length p.recent) × (p.level < 16)
        × (IsTrue p.quiet ↔ (p.recent ≡ replicate (length p.recent) false))
        × OnFalse p.quiet (Contains p.recent true) × AreRecent p.twice p.predictable p.recent };
}

impl FirstPart {
    /// No change of `f` places, and level 0.
    pub fn zeros(alloc: Global, f: u32) -> Result<FirstPart, NoMemory>
        requires valid { IsPlaces f }
        ensures { IfOk result
            (λ part. part ≡ record { recent = replicate f false; level = 0; directions = None }) }
    {
        let recent = Bits::zeros(alloc, f)?;
        let predictable = Bits::zeros(alloc, f)?;
        Ok(FirstPart {
            recent,
            quiet: true,
            level: 0,
            predictable,
            twice: None,
        })
    }

    /// Becomes no change of as many places, and level 0.
    pub fn reset(&mut self)
        ensures { self.new ≡ record {
          recent = replicate (length self.old.recent) false;
          level = 0;
          directions = None;
        } }
    {
        self.recent.clear();
        self.quiet = true;
        self.level = 0;
        self.twice = None;
    }

    /// Takes the first part of a packet of the same number of places. After a fault it may be any.
    #[tactic(auto, unfolding(crate::specs::PacketReading::parse_change))]
    pub fn take(&mut self, eye: &mut BitEye) -> Result<(), BitFault>
        ensures places { length self.new.recent ≡ length self.old.recent }
        ensures moves { MovesOn eye.old eye.new }
        ensures reading { Gives (λ _. self.new) result eye.new
            (parse_change (length self.old.recent) (bits_left eye.old)) }
    {
        self.take_recent(eye)?;
        self.level = eye.take_number(4)? as u8;
        self.take_directions(eye)
    }

    /// Takes recent changes, and no directions. If there was no change and there is none again, no place is looked at.
    fn take_recent(&mut self, eye: &mut BitEye) -> Result<(), BitFault>
        ensures places { length self.new.recent ≡ length self.old.recent }
        ensures moves { MovesOn eye.old eye.new }
        ensures reading { Gives (λ _. self.new.recent) result eye.new
            (parse_vector (length self.old.recent) (bits_left eye.old)) }
    {
        self.twice = None;
        if eye.comes_next(NO_RUN, 2) {
            eye.pass(2);
            if !self.quiet {
                self.recent.clear();
                self.quiet = true;
            }
            return Ok(());
        }
        match take_runs(eye, &mut self.recent) {
            Ok(()) => {
                self.quiet = false;
                Ok(())
            }
            Err(fault) => {
                self.quiet = self.recent.is_zero();
                Err(fault)
            }
        }
    }

    /// Takes the directions of the recent changes, if they are sent, which they can be if there are changes and the level is
    /// above 0: for each change whether it made its place predictable, and then whether all recent changes are extracted.
    #[tactic(auto, unfolding(crate::specs::PacketReading::parse_directions, crate::specs::PacketReading::parse_named))]
    fn take_directions(&mut self, eye: &mut BitEye) -> Result<(), BitFault>
        ensures recent { self.new.recent ≡ self.old.recent }
        ensures level { self.new.level ≡ self.old.level }
        ensures moves { MovesOn eye.old eye.new }
        ensures reading { Gives (λ _. self.new.directions) result eye.new
            (parse_directions self.old.recent self.old.level (bits_left eye.old)) }
    {
        self.twice = None;
        if self.quiet || self.level == 0 {
            return Ok(());
        }
        if !eye.take_bit()? {
            return Ok(());
        }
        take_inverse_up(eye, &self.recent, &mut self.predictable)?;
        self.twice = Some(eye.take_bit()?);
        Ok(())
    }

    /// Becomes `other`, of the same number of places, which may be any afterwards. If neither has a change, no vector is
    /// moved.
    pub fn take_over(&mut self, other: &mut FirstPart)
        requires { length self.old.recent ≡ length other.old.recent }
        ensures same { self.new ≡ other.old }
        ensures places { length other.new.recent ≡ length other.old.recent }
    {
        if self.quiet && other.quiet && other.twice.is_none() {
            self.level = other.level;
            self.twice = None;
            return;
        }
        swap(self, other);
    }

    /// The recent changes of the mask.
    pub fn recent(&self) -> &Bits
        ensures { result.now ≡ self.now.recent }
    {
        &self.recent
    }

    /// The effective robustness level.
    pub fn level(&self) -> u8
        ensures level { result ≡ self.now.level }
        ensures most { result < 16 }
    {
        self.level
    }

    /// Becomes a first part of this level without directions.
    pub fn set_level(&mut self, level: u8)
        requires { level < 16 }
        ensures { self.new ≡ record { recent = self.old.recent; level = level; directions = None } }
    {
        self.level = level;
        self.twice = None;
    }

    /// Becomes a first part of this level without directions, with the recent changes that the bytes begin with.
    pub fn load(&mut self, bytes: &[u8], level: u8)
        requires level { level < 16 }
        requires recent { (v : List Bool) × (rest : List ℕ) × BeginsVector (length self.old.recent) v bytes.now rest }
        ensures loaded { (v : List Bool) (rest : List ℕ) → BeginsVector (length self.old.recent) v bytes.now rest
            → self.new ≡ record { recent = v; level = level; directions = None } }
        ensures places { length self.new.recent ≡ length self.old.recent }
    {
        take_vector(bytes, &mut self.recent);
        self.quiet = self.recent.is_zero();
        self.level = level;
        self.twice = None;
    }

    /// Whether it has no change, so that the mask stays.
    pub fn is_quiet(&self) -> bool
        ensures zero { IsTrue result
            ↔ (self.now.recent ≡ replicate (length self.now.recent) false) }
        ensures stays { OnTrue result ((mask : List Bool) → length mask ≡ length self.now.recent
            → mask_after mask self.now ≡ mask) }
    {
        self.quiet
    }

    /// Makes `mask` the mask after it. What became predictable is among the changes, so that it can be taken away last.
    pub fn deduce(&self, mask: &mut Bits)
        requires { length mask.old ≡ length self.now.recent }
        ensures mask { mask.new ≡ mask_after mask.old self.now }
        ensures places { length mask.new ≡ length mask.old }
    {
        if self.level == 0 {
            mask.xor_in(&self.recent);
            return;
        }
        mask.or_in(&self.recent);
        if self.twice.is_some() {
            mask.drop_in(&self.predictable);
        }
    }

    /// Whether all recent changes are extracted. If not, only the places of the mask are.
    pub fn is_wide(&self) -> bool
        ensures { OnFalse result
            ((mask : List Bool) → wide_by self.now.directions self.now.recent mask ≡ mask) }
    {
        self.twice == Some(true)
    }

    /// Makes `places`, which are those of the mask, the extracted ones.
    pub fn widen(&self, places: &mut Bits)
        requires { length places.old ≡ length self.now.recent }
        ensures extracted { places.new ≡ wide_by self.now.directions self.now.recent places.old }
        ensures places { length places.new ≡ length places.old }
    {
        if self.twice == Some(true) {
            places.or_in(&self.recent);
        }
    }
}
