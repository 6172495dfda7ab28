//! What the definitions of a desk's calls mean together.

ghost use Rattle.std.specs.Prelude.{◌≡◌, ◌+◌, ◌++◌, ◌↔◌, ℕ, List, Option, Some, Ok, Result, IsSome, IfSome, IsOk, OnOk, OnErr};
ghost use Rattle.std.specs.Io.KnownBytes.{append_known};
ghost use Rattle.desk_ports.specs.declared.desk.Failed.{Failed};
ghost use Rattle.desk_ports.specs.declared.desk.Inlet.{Inlet};
ghost use Rattle.desk_ports.specs.declared.desk.Outlet.{Outlet};
ghost use Rattle.desk_ports.specs.Meanings.{Meanings, Counts, Moves, Adds, AddsFront, AreBelowLast, Fails, Keeps, Opens, Rose, faults, HasReadCause, HasWriteCause, left, made, outgoing};
ghost use Rattle.desk_ports.specs.Courses.{Course, Ends, Finishes, Outputs, Work, bytes_for, owed, to_outlet};
ghost use Rattle.desk_ports.specs.Turns.{Writes};
ghost use Rattle.desk_ports.specs.QuietState.{QuietState, quiet_meanings, quiet_counts};

/// Two reads are one read of both pieces, and two writes are one write.
pub fn pieces_join()
    ensures read { (a b c : Meanings) (inlet : Inlet) (xs ys : List ℕ) → Moves a b inlet xs
        → Moves b c inlet ys
        → Moves a c inlet (xs ++ ys) }
    ensures written { (a b c : Meanings) (outlet : Outlet) (xs ys : List ℕ) → Adds a b outlet xs
        → Adds b c outlet ys
        → Adds a c outlet (xs ++ ys) }
{}

/// What a writing call leaves, by its answer: after `Ok` all of the bytes were added and no fault was counted, after an
/// error a prefix of them was added and a fault of writing was counted. Two such calls, one after another, are one.
pub fn writes_go_by_their_answer<D, T, E>()
    ensures meant { (meaning : D → Meanings) (counts : D → Counts) (old new : D) (outlet : Outlet) (bytes : List ℕ) (result : Result T E)
        → Writes meaning counts old new (to_outlet outlet bytes) result
        ↔ (OnOk result (Adds (meaning old) (meaning new) outlet bytes)
        × OnErr result (AddsFront (meaning old) (meaning new) outlet bytes)
        × HasWriteCause (counts old) (counts new) result) }
    ensures joined { (meaning : D → Meanings) (counts : D → Counts) (a b c : D) (first next : Outputs) (done : T) (answer result : Result T E)
        → answer ≡ Ok done → Writes meaning counts a b first answer
        → Writes meaning counts b c next result → Writes meaning counts a c (first ++ next) result }
{}

/// What was written to an output that was finished is what is left of an input that is then opened by the same name.
pub fn finished_is_held()
    ensures { (a b c : Meanings) (outlet : Outlet) (inlet : Inlet) (name bytes : List ℕ)
        → IsSome a.held
        → (outgoing a outlet).name ≡ Some name → made a outlet ≡ Some bytes → Keeps a b outlet
        → Opens b c inlet name
        → IfSome (left c inlet) (λ rest. rest ≡ bytes) }
{}

/// If the desk tells its input, a run to its end has added to the outputs exactly what the course of
/// that input owes, and it ended as that course does; the answer of a run that is done is the one for that input.
pub fn runs_follow_their_course<A, F>()
    ensures written { (course_of : List ℕ → Course F) (a b : Meanings) (ending : Option F) (input : List ℕ)
        → left a Inlet.Main ≡ Some input → Ends course_of a b ending
        → (made b Outlet.Main
        ≡ append_known (made a Outlet.Main) (bytes_for Outlet.Main (owed (course_of input))))
        × (made b Outlet.Report
        ≡ append_known (made a Outlet.Report) (bytes_for Outlet.Report (owed (course_of input))))
        × ((course_of input).ending ≡ ending) }
    ensures answer { (work : Work A F) (a b : Meanings) (answer : A) (input : List ℕ)
        → left a Inlet.Main ≡ Some input → Finishes work a b answer
        → answer ≡ work.answer input }
{}

/// Each fault of a desk is counted once, if neither count is at its last value. So nothing is done after it: if a
/// call failed and another one after it, the counts are not those of one fault.
pub fn faults_count_once()
    ensures one { (old new : Counts) → AreBelowLast old → Fails old new
        → faults new ≡ faults old + 1 }
    ensures last { (a b c : Counts) → AreBelowLast b → Fails a b → Fails b c → ¬ Fails a c }
{}

/// On a quiet desk neither count ever rises, so no call fails there; and the bytes still to come at an inlet are told.
pub fn quiet_desks_never_fail<T>()
    ensures reads { (old new : QuietState) → Rose (quiet_counts old).reads (quiet_counts new).reads
        → ⊥ }
    ensures writes { (old new : QuietState)
        → Rose (quiet_counts old).writes (quiet_counts new).writes → ⊥ }
    ensures read { (old new : QuietState) (answer : Result T Failed)
        → HasReadCause (quiet_counts old) (quiet_counts new) answer → IsOk answer }
    ensures written { (old new : QuietState) (answer : Result T Failed)
        → HasWriteCause (quiet_counts old) (quiet_counts new) answer → IsOk answer }
    ensures told { (desk : QuietState) (inlet : Inlet) → IsSome (left (quiet_meanings desk) inlet) }
{}
