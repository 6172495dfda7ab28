//! Numbers that are drawn by chance.

/// Numbers that are drawn one after another, each from the one before.
#[derive(Clone, Copy)]
pub struct Draws {
    pub state: u32,
}

impl Draws {
    /// The next number.
    pub fn number(&mut self) -> u32 {
        self.state = self
            .state
            .wrapping_mul(1_664_525)
            .wrapping_add(1_013_904_223);
        self.state >> 8
    }

    /// The next number, below a bound.
    pub fn below(&mut self, bound: u32) -> u32 {
        self.number().checked_rem(bound).unwrap_or(0)
    }
}
