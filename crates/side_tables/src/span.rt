//! Packet numbers in steps.

ghost use Rattle.std.specs.Prelude.{◌≡◌, ℕ, ◌<◌, ◌≤◌, true, false, IfNone, IfSome};
ghost use Rattle.side_tables.specs.Rows.{names};

/// Each `step`-th number from `first` to `last`.
#[derive(Clone, Copy, Debug, PartialEq, Eq)]
pub struct Span {
    pub first: u32,
    pub last: u32,
    pub step: u32,
}

impl Span {
    /// Whether the number is one of them.
    pub fn names(&self, t: u32) -> bool
        requires { 1 ≤ self.now.step }
        ensures { result ≡ names self.now t }
    {
        self.first <= t && t <= self.last && (t - self.first) % self.step == 0
    }

    /// The first number from `t` on that is one of them.
    pub fn next(&self, t: u32) -> Option<u32>
        requires { 1 ≤ self.now.step }
        ensures least { IfSome result (λ next. t ≤ next) }
        ensures named { IfSome result (λ next. names self.now next ≡ true) }
        ensures first { IfSome result
            (λ next. (n : ℕ) → t ≤ n → n < next → names self.now n ≡ false) }
        ensures none { IfNone result ((n : ℕ) → t ≤ n → names self.now n ≡ false) }
    {
        if self.last < t.max(self.first) {
            return None;
        }
        if t <= self.first {
            return Some(self.first);
        }
        let past = (t - self.first) % self.step;
        if past == 0 {
            return Some(t);
        }
        let ahead = self.step - past;
        if self.last - t < ahead {
            return None;
        }
        Some(t + ahead)
    }
}
