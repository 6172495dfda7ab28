//! What becomes of a packet, as far as it is known without a recording.

ghost use Rattle.std.specs.Prelude.{◌≡◌};
ghost use Rattle.forecast.specs.Stretches.{same_fate};
ghost use Rattle.forecast.specs.Outlooks.{fate_text};

/// What becomes of a packet.
#[derive(Clone, Copy, Debug, PartialEq, Eq)]
pub enum Fate {
    /// No copy of it arrives.
    Lost,
    /// It is written, whatever the recording is.
    Sure,
    /// It arrives, and whether it is written hangs on the recording.
    Open,
}

impl Fate {
    /// Whether it is this one.
    pub fn is(self, other: Fate) -> bool
        ensures { result ≡ same_fate self other }
    {
        matches!(
            (self, other),
            (Fate::Lost, Fate::Lost) | (Fate::Sure, Fate::Sure) | (Fate::Open, Fate::Open)
        )
    }

    /// Its word in a forecast.
    pub fn text(self) -> &'static str
        ensures { result.now ≡ fate_text self }
    {
        match self {
            Fate::Lost => "lost",
            Fate::Sure => "sure",
            Fate::Open => "open",
        }
    }
}
