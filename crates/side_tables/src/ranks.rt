//! The greatest rank that is claimed of each number.

ghost use Rattle.std.specs.Prelude.{◌≡◌, ℕ, ◌+◌, ◌<◌, ◌≤◌, true, All, IfOk, length};
ghost use Rattle.side_tables.specs.Rows.{IsSpan, names};
ghost use Rattle.side_tables.specs.Ranks.{AreCells, AreRanks, HasRankAtLeast, IsBlock, IsDue, IsRank, IsRunOf, RunHolds, Serves, TakesRank};

use crate::claims::Claim;
use crate::span::Span;
use bit_vectors::NoMemory;
use std::alloc::Global;
use std::marker::Model;

/// Numbers that have at least a rank: in steps from the cell that has the run, up to one that has not.
#[derive(Clone, Copy, Debug)]
pub struct RankRun {
    pub step: u32,
    pub until: u32,
    pub rank: usize,
}

/// The greatest rank that was claimed of a number, and a run from it on.
#[derive(Clone, Copy, Debug)]
pub struct Cell {
    pub rank: usize,
    pub run: RankRun,
}

/// The cell of a number of which nothing was claimed.
const NONE: Cell = Cell {
    rank: 0,
    run: RankRun {
        step: 0,
        until: 0,
        rank: 0,
    },
};

/// How many numbers are looked at together at most: the memory of so many cells stays near.
pub const MOST_NUMBERS: usize = 16_384;

/// Claims, asked about one number after another: the ranks of a block of numbers are found together. Contracts see the
/// claims, and the room for them and for ranks, which is taken when the value is made.
///
/// Claims with one step and one remainder come one after another, those of higher rank first, and a number that has its
/// rank by an earlier one is passed over together with its run. So a number is come to about once for each pair of a step
/// and a remainder that names it, however many claims have that pair.
#[derive(Debug, Drop)]
pub struct Ranks {
    claims: Vec<Claim>,
    base: u32,
    cells: Vec<Cell>,
}

impl Model for Ranks {
    ghost use Rattle.std.specs.Vec.{vec_capacity};
    ghost use Rattle.side_tables.specs.Ranks.{IsRanked, RankState};

    ghost Value = { RankState };

    ghost view = { λ r. record {
      claims = r.claims.items;
      claims_taken = vec_capacity r.claims;
      cells_taken = vec_capacity r.cells;
    } };

    ghost invariant = { λ r. IsRanked r.claims.items r.base r.cells.items };
}

impl Ranks {
    /// The ranks that are claimed, of so many numbers at once, 1 to 16,384. Takes all memory that `at` needs.
    pub fn open(alloc: Global, claims: Vec<Claim>, numbers: usize) -> Result<Ranks, NoMemory>
        requires block { IsBlock numbers }
        requires right { All (λ claim. IsSpan claim.span) claims.items }
        ensures { IfOk result
            (λ ranks. (n rank : ℕ) → IsRank ranks.claims n rank → IsRank claims.items n rank) }
    {
        let mut cells = vec![in alloc; NONE; numbers]?;
        let mut claims = claims;
        claims.sort_unstable_by_key(|claim| claim.key());
        find(&mut cells, &claims, 0);
        Ok(Ranks {
            claims,
            base: 0,
            cells,
        })
    }

    /// The greatest rank that is claimed of the number, or 0 if none is. It takes no memory.
    pub fn at(&mut self, t: u32) -> usize
        ensures rank { IsRank self.old.claims t result }
        ensures same { self.new ≡ self.old }
    {
        if t < self.base || self.cells.len() <= (t - self.base) as usize {
            find(&mut self.cells, &self.claims, t);
            self.base = t;
        }
        self.cells[(t - self.base) as usize].rank
    }
}

/// Finds the ranks of the numbers from this one on, one for each cell.
fn find(cells: &mut [Cell], claims: &[Claim], base: u32)
    requires few { length cells.old ≤ 16384 }
    requires right { All (λ claim. IsSpan claim.span) claims.now }
    ensures { AreRanks claims.now base (length cells.old) cells.new }
{
    cells.fill(NONE);
    for claim in claims {
        take(cells, claim, base);
    }
}

/// Takes a claim: each number that it names has its rank, or a greater one.
fn take(cells: &mut [Cell], claim: &Claim, base: u32)
    requires cells { AreCells cells.old }
    requires right { IsSpan claim.now.span }
    ensures takes { TakesRank (λ n. names claim.now.span (base + n)) claim.now.rank cells.old cells.new }
    ensures cells { AreCells cells.new }
    ensures all { HasRankAtLeast (λ n. names claim.now.span (base + n)) claim.now.rank cells.new }
{
    if claim.rank == 0 {
        return;
    }
    if let Some(claim) = claim.from(base) {
        take_all(cells, &claim);
    }
}

/// Takes a claim of numbers that are counted from the first cell on.
fn take_all(cells: &mut [Cell], claim: &Claim)
    requires cells { AreCells cells.old }
    requires right { IsSpan claim.now.span }
    ensures takes { TakesRank (names claim.now.span) claim.now.rank cells.old cells.new }
    ensures cells { AreCells cells.new }
    ensures all { HasRankAtLeast (names claim.now.span) claim.now.rank cells.new }
{
    let numbers = cells.len() as u32;
    let mut reached = 0;
    while reached < numbers {
        let Some(t) = claim.span.next(reached) else {
            return;
        };
        if numbers <= t {
            return;
        }
        reached = visit(cells, t, claim);
    }
}

/// Comes to a number that a claim names, and tells up to which number all that the claim names have its rank then.
fn visit(cells: &mut [Cell], t: u32, claim: &Claim) -> u32
    requires cells { AreCells cells.old }
    requires right { IsSpan claim.now.span }
    requires due { IsDue claim.now t cells.old }
    ensures takes { TakesRank (names claim.now.span) claim.now.rank cells.old cells.new }
    ensures cells { AreCells cells.new }
    ensures after { t < result }
    ensures holds { RunHolds cells.new t
        (record { step = claim.now.span.step; until = result; rank = claim.now.rank }) }
{
    let cell = cells[t as usize];
    let run = if serves(cell.run, t, claim) {
        longer(cells, t, cell.run, claim)
    } else {
        RankRun {
            step: claim.span.step,
            until: t + 1,
            rank: claim.rank,
        }
    };
    cells[t as usize] = Cell {
        rank: cell.rank.max(claim.rank),
        run,
    };
    run.until
}

/// Whether a run from this number is in a claim's steps, and its numbers have the claim's rank.
fn serves(run: RankRun, t: u32, claim: &Claim) -> bool
    ensures { result ≡ true → Serves claim.now t run }
{
    (run.step == claim.span.step) & (claim.rank <= run.rank) & (t < run.until)
}

/// A run that serves a claim, joined with that from the next number in its steps, if that serves the claim too.
fn longer(cells: &[Cell], t: u32, run: RankRun, claim: &Claim) -> RankRun
    requires cells { AreCells cells.now }
    requires right { IsSpan claim.now.span }
    requires run { IsRunOf claim.now t cells.now run }
    ensures { IsRunOf claim.now t cells.now result }
{
    let steps = Span {
        first: t,
        last: u32::MAX,
        step: run.step,
    };
    let Some(next) = steps.next(run.until) else {
        return run;
    };
    if cells.len() <= next as usize {
        return run;
    }
    let further = cells[next as usize].run;
    if !serves(further, next, claim) {
        return run;
    }
    RankRun {
        until: further.until,
        step: run.step,
        rank: claim.rank,
    }
}
