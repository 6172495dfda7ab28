//! The latest packets that are sure.

ghost use Rattle.std.specs.Prelude.{◌≡◌, ◌+◌, cond, Some};
ghost use Rattle.packet_encode.specs.Deliveries.{reaches};
ghost use Rattle.forecast.specs.Prospects.{Prospect, fate_by, fate_of, is_mask_sure, is_sure};
ghost use Rattle.forecast.specs.Outlooks.{IsForeseenAs, latest_at};

use crate::fate::Fate;
use crate::foreseen::Foreseen;

/// The number of the latest packet whose mask is sure to be known, and of the latest one that is sure to be written.
#[derive(Clone, Copy, Debug, PartialEq, Eq)]
pub struct LatestSure {
    pub mask: Option<u32>,
    pub packet: Option<u32>,
}

/// Whether the mask of a packet is sure to be known, and the packet sure to be written.
#[derive(Clone, Copy, Debug, PartialEq, Eq)]
struct Surety {
    mask: bool,
    packet: bool,
}

impl LatestSure {
    /// There was no packet yet.
    pub fn none() -> LatestSure
        ensures { (p : Prospect) → result ≡ latest_at p 0 }
    {
        LatestSure {
            mask: None,
            packet: None,
        }
    }

    /// Takes the packet `t`, and tells what becomes of it.
    pub fn take(&mut self, t: u32, foreseen: &Foreseen) -> Fate
        ensures fate { (p : Prospect) → IsForeseenAs p t foreseen.now → self.old ≡ latest_at p t
            → result ≡ fate_of p t }
        ensures taken { (p : Prospect) → IsForeseenAs p t foreseen.now → self.old ≡ latest_at p t
            → self.new ≡ latest_at p (t + 1) }
    {
        let sure = self.surety(t, foreseen);
        self.mask = later(self.mask, t, sure.mask);
        self.packet = later(self.packet, t, sure.packet);
        fate_by(foreseen.copies, sure.packet)
    }

    /// What is sure of the packet `t`.
    fn surety(&self, t: u32, foreseen: &Foreseen) -> Surety
        ensures mask { (p : Prospect) → IsForeseenAs p t foreseen.now → self.now ≡ latest_at p t
            → result.mask ≡ is_mask_sure p t }
        ensures packet { (p : Prospect) → IsForeseenAs p t foreseen.now → self.now ≡ latest_at p t
            → result.packet ≡ is_sure p t }
    {
        let arrives = 0 < foreseen.copies;
        let mask = arrives && (foreseen.mask || reaches(self.mask, t, foreseen.robust));
        let packet = arrives
            && (foreseen.content || mask && reaches(self.packet, t, foreseen.robust));
        Surety { mask, packet }
    }
}

/// What becomes of a packet of which so many copies arrive, by whether it is sure.
fn fate_by(copies: u8, sure: bool) -> Fate
    ensures { result ≡ fate_by copies sure }
{
    if copies == 0 {
        Fate::Lost
    } else if sure {
        Fate::Sure
    } else {
        Fate::Open
    }
}

/// The latest number, with one more that passes or doesn't.
fn later(latest: Option<u32>, t: u32, passes: bool) -> Option<u32>
    ensures { result ≡ cond passes (Some t) latest }
{
    if passes { Some(t) } else { latest }
}

/// Whether the packets between the latest one of some kind and the packet `t` are at most as many as this.
fn reaches(latest: Option<u32>, t: u32, robust: u8) -> bool
    ensures { result ≡ reaches latest t robust }
{
    match latest {
        None => false,
        Some(latest) => t.saturating_sub(1).saturating_sub(latest) <= u32::from(robust),
    }
}
