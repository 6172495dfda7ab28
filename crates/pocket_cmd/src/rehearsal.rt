//! A command over a desk that never fails and keeps nothing: what it would answer.
ghost use Rattle.std.specs.Prelude.{◌≡◌, ◌≢◌, ◌<◌, ◌^◌, ◌↔◌, ℕ, List, length, map, Err};
ghost use Rattle.std.specs.String.{string_bytes};
ghost use Rattle.desk_ports.specs.QuietState.{quiet_meanings};
ghost use Rattle.pocket_cmd.specs.Command.{Command as Told, IsCommandOf, command_of, names_of};
ghost use Rattle.pocket_cmd.specs.Delivery.{IsSideRight, IsInputWhole};
ghost use Rattle.pocket_cmd.specs.Openings.{AreTold};
ghost use Rattle.pocket_cmd.specs.Outcome.{answer_to};

use crate::status::{Refusal, Status};
use crate::top::pocket;
use desk_ports::QuietDesk;
use std::alloc::Global;

/// Rehearses what the words say: reads the inputs that the desk has, and keeps nothing of what would be written.
pub fn rehearse(alloc: Global, words: &[String], desk: &mut QuietDesk<'_>) -> Status
    requires few { length words.now < 2 ^ 32 }
    // Reading and writing don't fail.
    ensures reads { result ≢ Status.Refused Refusal.ReadFault }
    ensures writes { result ≢ Status.Refused Refusal.WriteFault }
    // Words that give no command are refused at the first fault.
    ensures bad_words { (word : ℕ) → (result ≡ Status.Refused (Refusal.BadWords word))
        ↔ (command_of (map string_bytes words.now) ≡ Err word) }
    // If both inputs are told and memory was found, the answer is that of the side text and of the input's course.
    ensures ends { (command : Told) (text input : List ℕ) → IsCommandOf words.now command
        → AreTold (names_of command) (quiet_meanings desk.old) text input
        → result ≢ Status.Refused Refusal.NoMemory → result ≡ answer_to command text input }
    // Right words, a right side text and a whole input are done if memory was found.
    ensures complete { (command : Told) (text input : List ℕ) → IsCommandOf words.now command
        → AreTold (names_of command) (quiet_meanings desk.old) text input
        → IsSideRight command text → IsInputWhole command input
        → result ≢ Status.Refused Refusal.NoMemory → result ≡ Status.Done }
{
    pocket(alloc, words, desk)
}
