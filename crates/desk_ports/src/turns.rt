//! A run over a desk, turn by turn: it reads its input to the end, and writes what it owes for that input.

ghost use Rattle.std.specs.Prelude.{◌≡◌, ◌<◌, ℕ, Bool, Ok};
ghost use Rattle.desk_ports.specs.declared.desk.Outlet.{Outlet};
ghost use Rattle.desk_ports.specs.Meanings.{Stop};
ghost use Rattle.desk_ports.specs.declared.turns.Turn.TheVariants as turn;
ghost use Rattle.desk_ports.specs.Courses.{Work, AfterRun, HasCause, by_stop};
ghost use Rattle.desk_ports.specs.Turns.{IsOwed, AreReady, AfterTurn};

use crate::desk::Desk;

/// What a turn of a run tells: the run goes on, or all of it is done, with this answer.
#[derive(Clone, Copy, Debug, PartialEq, Eq)]
pub enum Turn<A> {
    More,
    Done(A),
}

/// A run over a desk: what one turn of it does.
pub trait Run {
    /// What the run answers for a complete input.
    type Answer: Copy;
    /// Why it ends before it is done.
    type Fault: Copy;
    /// What may be wrong with the data of its input.
    type Data: Copy;

    /// This work is still to do.
    ghost owes: { Self → Work Self.Answer Self.Data → Type 0 };

    /// A fault, as a reason to end a run.
    ghost stop_of: { Self.Fault → Stop Self.Data };

    /// The outlets that are written.
    ghost writes: { Outlet → Bool };

    /// An upper bound of how many turns are left.
    ghost remaining: { Self → ℕ };

    /// Takes the next part of the input, and writes what is owed for it; at the end it writes the last part.
    fn turn<D: Desk>(&mut self, desk: &mut D) -> Result<Turn<Self::Answer>, Self::Fault>
        requires owed { IsOwed (owes self.old) }
        requires ready { AreReady writes (D.meaning desk.old) }
        ensures turned { (work : Work Self.Answer Self.Data) → owes self.old work
            → AfterTurn work (owes self.new) (D.meaning desk.old) (D.meaning desk.new)
            (by_stop stop_of result) }
        ensures cause { HasCause (D.counts desk.old) (D.counts desk.new) (by_stop stop_of result) }
        ensures fewer { result ≡ Ok Turn.More → remaining self.new < remaining self.old };
}

/// Makes turns until the run is done, or until a fault ends it.
pub fn drive<R: Run, D: Desk>(run: &mut R, desk: &mut D) -> Result<R::Answer, R::Fault>
    requires owed { IsOwed (R.owes run.old) }
    requires ready { AreReady R.writes (D.meaning desk.old) }
    // What was added to the outputs after each answer is what is owed for the input, in its order, all of it or up to where
    // a fault ends the run; the answer of a run that is done is the one for the same bytes.
    ensures ran { (work : Work R.Answer R.Data) → R.owes run.old work
        → AfterRun work (D.meaning desk.old) (D.meaning desk.new) (by_stop R.stop_of result) }
    ensures cause { HasCause (D.counts desk.old) (D.counts desk.new) (by_stop R.stop_of result) }
{
    'turns: loop {
        match run.turn(desk) {
            Ok(Turn::More) => {}
            Ok(Turn::Done(answer)) => return Ok(answer),
            Err(fault) => return Err(fault),
        }
    }
}
