//! What is kept of the packets so far.

ghost use Rattle.std.specs.Prelude.{◌≡◌, ℕ, ◌+◌, ◌<◌};
ghost use Rattle.loss_player.specs.Played.{played_of};
ghost use Rattle.forecast.specs.Prospects.{fate_of};
ghost use Rattle.forecast.specs.Outlooks.{ended_before, foresees, stretch_at, sure_count};

use crate::fate::Fate;
use crate::foreseen::Foresight;
use crate::latest::LatestSure;
use crate::stretch::Stretch;
use loss_player::{Played, Tally};
use std::marker::Model;

/// What packets are foreseen by, and what is kept of those so far: the latest sure ones, the stretch of the latest one, the
/// numbers of the copies, and how many are sure. Contracts see how many there were, and by what they are foreseen.
#[derive(Debug, Drop)]
pub struct Running {
    foresight: Foresight,
    latest: LatestSure,
    stretch: Option<Stretch>,
    tally: Tally,
    sure: u64,
}

impl Model for Running {
    ghost use Rattle.forecast.specs.Outlooks.{HasForeseen, ForecastState, foresees};

    ghost Value = { ForecastState };

    ghost view = { λ r. record { packets = r.tally.played.packets; outlook = r.foresight } };

    ghost invariant = { λ r. HasForeseen (foresees r.foresight) r.tally.played.packets r.latest r.stretch r.tally r.sure };
}

impl Running {
    /// There was no packet yet.
    pub fn of(foresight: Foresight) -> Running
        ensures { result ≡ record { packets = 0; outlook = foresight } }
    {
        Running {
            foresight,
            latest: LatestSure::none(),
            stretch: None,
            tally: Tally::none(),
            sure: 0,
        }
    }

    /// Takes the next packet, and tells the stretch that ends just before it, if one does.
    pub fn take(&mut self) -> Option<Stretch>
        requires { self.old.packets < 1000000 }
        ensures ended { result ≡ ended_before (fate_of (foresees self.old.outlook)) self.old.packets }
        ensures taken { self.new ≡ record self.old { packets = self.old.packets + 1 } }
    {
        let t = self.tally.played.packets as u32;
        let foreseen = self.foresight.at(t);
        self.tally.count(foreseen.copies);
        let fate = self.latest.take(t, &foreseen);
        if fate.is(Fate::Sure) {
            self.sure += 1;
        }
        go_on(&mut self.stretch, t, fate)
    }

    /// The stretch of the latest packet, as far as it goes.
    pub fn stretch(&self) -> Option<Stretch>
        ensures { result ≡ stretch_at (fate_of (foresees self.now.outlook)) self.now.packets }
    {
        self.stretch
    }

    /// The numbers of the packets and of their copies.
    pub fn played(&self) -> Played
        ensures { result ≡ played_of (foresees self.now.outlook).copies self.now.packets }
    {
        self.tally.played
    }

    /// How many packets are sure.
    pub fn sure(&self) -> u64
        ensures { result ≡ sure_count (foresees self.now.outlook) self.now.packets }
    {
        self.sure
    }
}

/// Goes on with the packet `t`, of this fate: the stretch so far is longer by it, or it ends and another one begins.
fn go_on(stretch: &mut Option<Stretch>, t: u32, fate: Fate) -> Option<Stretch>
    ensures ended { (fates : ℕ → Fate) → fate ≡ fates t → stretch.old ≡ stretch_at fates t
        → result ≡ ended_before fates t }
    ensures stretch { (fates : ℕ → Fate) → fate ≡ fates t → stretch.old ≡ stretch_at fates t
        → stretch.new ≡ stretch_at fates (t + 1) }
{
    if let Some(latest) = stretch {
        if latest.fate.is(fate) {
            latest.last = t;
            return None;
        }
    }
    stretch.replace(Stretch {
        first: t,
        last: t,
        fate,
    })
}
