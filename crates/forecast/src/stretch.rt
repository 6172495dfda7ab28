//! Stretches of packets that have one fate, and their lines.

ghost use Rattle.std.specs.Prelude.{◌≡◌};
ghost use Rattle.forecast.specs.Outlooks.{stretch_row};

use crate::fate::Fate;
use desk_ports::Row;

/// The packets from the first to the last number, which have one fate.
#[derive(Clone, Copy, Debug, PartialEq, Eq)]
pub struct Stretch {
    pub first: u32,
    pub last: u32,
    pub fate: Fate,
}

impl Stretch {
    /// Its line in a forecast.
    pub(crate) fn row(&self) -> Row
        ensures { result ≡ stretch_row self.now }
    {
        let mut row = Row::new();
        row.put_number(u64::from(self.first));
        row.put_text(",");
        row.put_number(u64::from(self.last));
        row.put_text(",");
        row.put_text(self.fate.text());
        row.put_text("\n");
        row
    }
}
