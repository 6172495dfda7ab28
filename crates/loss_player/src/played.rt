//! How many packets were played.

ghost use Rattle.std.specs.Prelude.{◌≡◌, ◌+◌, ◌^◌, ◌<◌, ◌≤◌};
ghost use Rattle.loss_player.specs.Tallies.{IsTally, no_tally, tally_with};

/// The numbers of a played store. The packets of the chosen APID are numbered from 0, in the order of the store.
#[derive(Clone, Copy, Debug, PartialEq, Eq)]
pub struct Played {
    /// The packets of the chosen APID.
    pub packets: u64,
    /// Those of which at least one copy arrives.
    pub delivered: u64,
    /// Those of which none does.
    pub dropped: u64,
    /// The copies beyond the first of each.
    pub repeats: u64,
    /// The least delivered number. None: no packet is delivered.
    pub first: Option<u64>,
    /// The greatest difference of two delivered numbers with none between, and 0 if fewer than two are delivered.
    pub widest: u64,
}

/// The numbers of the packets so far, and the latest delivered one.
#[derive(Clone, Copy, Debug)]
pub struct Tally {
    pub played: Played,
    latest: Option<u64>,
}

impl Tally {
    /// Nothing was played.
    pub fn none() -> Tally
        ensures none { result ≡ no_tally }
        ensures right { IsTally result }
    {
        Tally {
            played: Played {
                packets: 0,
                delivered: 0,
                dropped: 0,
                repeats: 0,
                first: None,
                widest: 0,
            },
            latest: None,
        }
    }

    /// Counts the next packet of the chosen APID, of which so many copies arrive.
    pub fn count(&mut self, copies: u8)
        requires few { self.old.played.packets < 2 ^ 32 }
        requires most { copies ≤ 9 }
        requires right { IsTally self.old }
        ensures counted { self.new ≡ tally_with self.old copies }
        ensures right { IsTally self.new }
    {
        let t = self.played.packets;
        self.played.packets += 1;
        if copies == 0 {
            self.played.dropped += 1;
            return;
        }
        self.played.delivered += 1;
        self.played.repeats += u64::from(copies) - 1;
        match self.latest {
            None => self.played.first = Some(t),
            Some(latest) => self.played.widest = self.played.widest.max(t - latest),
        }
        self.latest = Some(t);
    }
}
