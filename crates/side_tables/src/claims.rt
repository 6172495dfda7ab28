//! What rows claim of the numbers that they name.

ghost use Rattle.std.specs.Prelude.{◌≡◌, ◌+◌, ℕ, All, false, IfOk, IfNone, IfSome};
ghost use Rattle.side_tables.specs.Rows.{IsSpan, names};
ghost use Rattle.side_tables.specs.Ranks.{AreClaims, flag_claim, flag_in, row_claim};

use crate::rows::TableRow;
use crate::schedule::Schedule;
use crate::span::Span;
use crate::table::Table;
use bit_vectors::{Flags, NoMemory};
use std::alloc::Global;

/// One of the three flags of a packet.
#[derive(Clone, Copy, Debug, PartialEq, Eq)]
pub enum Flag {
    NewMask,
    SendMask,
    WholeContent,
}

impl Flag {
    /// Whether it is set.
    fn is_set(self, flags: Flags) -> bool
        ensures { result ≡ flag_in self flags }
    {
        match self {
            Flag::NewMask => flags.p,
            Flag::SendMask => flags.f,
            Flag::WholeContent => flags.r,
        }
    }
}

/// What a row claims: a rank for each number that it names.
#[derive(Clone, Copy, Debug)]
pub struct Claim {
    pub span: Span,
    pub rank: usize,
}

impl Claim {
    /// By it claims with one step and one remainder come one after another, and of them the ones of higher rank first.
    pub fn key(&self) -> u128 {
        let remainder = self.span.first.checked_rem(self.span.step).unwrap_or(0);
        let class = u128::from(self.span.step) << 96 | u128::from(remainder) << 64;
        class | u128::from(u64::MAX.saturating_sub(self.rank as u64))
    }

    /// The same claim of numbers that are counted from this one on. None: it names none of them.
    pub fn from(&self, base: u32) -> Option<Claim>
        requires { IsSpan self.now.span }
        ensures names { IfSome result
            (λ claim. (n : ℕ) → names claim.span n ≡ names self.now.span (base + n)) }
        ensures rank { IfSome result (λ claim. claim.rank ≡ self.now.rank) }
        ensures right { IfSome result (λ claim. IsSpan claim.span) }
        ensures none { IfNone result ((n : ℕ) → names self.now.span (base + n) ≡ false) }
    {
        let first = self.span.next(base)?;
        Some(Claim {
            span: Span {
                first: first - base,
                last: self.span.last - base,
                step: self.span.step,
            },
            rank: self.rank,
        })
    }
}

/// A claim for each row of flags: the rank 1 if the flag is set, and otherwise 0.
pub fn flag_claims(alloc: Global, plan: &Schedule, flag: Flag) -> Result<Vec<Claim>, NoMemory>
    ensures claims { IfOk result
        (λ claims. AreClaims (flag_claim flag) plan.now.flags claims.items) }
    ensures right { IfOk result (λ claims. All (λ claim. IsSpan claim.span) claims.items) }
{
    let mut claims = Vec::new(alloc);
    for row in plan.flag_rows() {
        claims.push(Claim {
            span: row.span(),
            rank: usize::from(flag.is_set(row.flags)),
        })?;
    }
    Ok(claims)
}

/// A claim for each row: its place, counted from 1.
pub fn row_claims<R: TableRow>(alloc: Global, table: &Table<R>) -> Result<Vec<Claim>, NoMemory>
    ensures claims { IfOk result
        (λ claims. AreClaims (row_claim R.span_of) table.now claims.items) }
    ensures right { IfOk result (λ claims. All (λ claim. IsSpan claim.span) claims.items) }
{
    let mut claims = Vec::new(alloc);
    for (place, row) in table.rows().iter().enumerate() {
        claims.push(Claim {
            span: row.span(),
            rank: place + 1,
        })?;
    }
    Ok(claims)
}
