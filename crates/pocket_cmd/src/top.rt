//! The top call: from the words of the command line to the outputs of a desk.
ghost use Rattle.std.specs.Prelude.{◌≡◌, ◌≢◌, ◌<◌, ◌^◌, ◌↔◌, ℕ, List, Option, length, drop, map, Some, Err};
ghost use Rattle.std.specs.String.{string_bytes};
ghost use Rattle.pocket_cmd.specs.Apart.{AreKeptAsMade};
ghost use Rattle.pocket_cmd.specs.Courses.{DataFault as Fault, bad_row_of};
ghost use Rattle.pocket_cmd.specs.Command.{Command as Told, HasCommand, IsCommandOf, command_of, names_of};
ghost use Rattle.mask_update.specs.Histories.{History};
ghost use Rattle.side_tables.specs.Grammar.{bad_copy_row};
ghost use Rattle.ground_chain.specs.Deliveries.{report_text, restored_bytes};
ghost use Rattle.pocket_cmd.specs.Delivery.{HasWritten, IsPlayedStore, IsSideRight, IsInputWhole};
ghost use Rattle.desk_ports.specs.declared.desk.Inlet.TheVariants as inlet;
ghost use Rattle.desk_ports.specs.Meanings.{Rose, left};
ghost use Rattle.pocket_cmd.specs.Kept.{Leaves};
ghost use Rattle.pocket_cmd.specs.Openings.{AreTold, GrantsNames, side_given};
ghost use Rattle.pocket_cmd.specs.Outcome.{AfterRefusal, IsScriptFirst, IsSideJudged, IsTextBad, IsTextFirst, NoneRose, Stands, answer_to};
ghost use Rattle.pocket_cmd.specs.Status.{BadText, HasStatusCause, status_of};
ghost use Rattle.pocket_cmd.specs.Words.{Words};

use crate::status::{Refusal, Status};
use crate::verbs::Verb;
use crate::words::Command;
use crate::work::perform;
use desk_ports::Desk;
use std::alloc::Global;

/// Does what the words say over a desk, and tells how it ended.
///
/// The words are those after the program's name: a verb, and then `key=value` in any order. All verbs take the key `out`, all
/// but `trial` and `forecast` `in`, and `compress`, `play`, `restore`, `show` and `late` `apid` (0 to 2046).
///
/// - `compress` makes the store of a recording. It takes `bits` (the bits of a packet, 1 to 49,152) and `robust` (the
///   required robustness, 0 to 7) too, and may take `plan` (a schedule) and `mask` (the first mask in hexadecimal digits,
///   two for each byte of a packet; zero without it).
/// - `play` makes a store of the packets that arrive. It takes `script` and `report` too.
/// - `restore` gives back the packets of a store. It takes `report` and `bits` too.
/// - `show` lists what is found for each packet of a store. It takes `bits` too.
/// - `trial` runs `compress`, `play` and `restore` over a history that it generates from a seed, in memory, and writes a
///   summary. It takes `seed` (any number of 32 bits), `packets` (1 to 10,000), `bits` (1 to 4,096) and `robust`.
/// - `multi` gives back the packets of several streams of one store. It takes `report` and `streams`.
/// - `late` gives back the packets of a store in which they may come late. It takes `report`, `bits` and `window` (0 to 64) too.
/// - `table` writes the fields of the packets of a recording as a table, and those out of their limits. It takes `report`,
///   `fields` and `bits`.
/// - `forecast` tells which packets will be written, whatever the recording is. It takes `packets` (1 to 1,000,000), `robust`,
///   `plan` and `script`.
///
/// What the side input, a schedule, a script, streams or fields, says is looked at before any other name is opened; the script
/// of `forecast` is looked at next. A text has at most 1,048,576 bytes.
pub fn pocket<D: Desk>(alloc: Global, words: &[String], desk: &mut D) -> Status
    requires few { length words.now < 2 ^ 32 }

    // The desk grants each name that the words give.
    requires granted { GrantsNames (map string_bytes words.now) (D.meaning desk.old) }

    // Words that give no command are refused at the first fault, and the desk is not called.
    ensures bad_words { (word : ℕ) → (result ≡ Status.Refused (Refusal.BadWords word))
        ↔ (command_of (map string_bytes words.now) ≡ Err word) }
    ensures not_called { (word : ℕ) → result ≡ Status.Refused (Refusal.BadWords word)
        → D.meaning desk.new ≡ D.meaning desk.old }

    // Done, and each fault of the data: the course of the input ends so, and what it owes stands.
    ensures stands { (ending : Option Fault) → result ≡ status_of ending
        → HasCommand words.now (λ c. Stands c (D.meaning desk.old) (D.meaning desk.new) ending) }

    // What stands after each refusal. The side input is looked at, and all memory is taken, before any other name is
    // opened.
    ensures refused { (refusal : Refusal) (command : Told) → result ≡ Status.Refused refusal
        → IsCommandOf words.now command
        → AfterRefusal command (D.meaning desk.old) (D.meaning desk.new) refusal }

    // The same in plain words. Nothing has changed but the side input, or each name has what it had; or, after a failed
    // writing of a command with a report, both outputs are made as far as they are at Done, and the output alone is
    // kept.
    ensures leaves { (refusal : Refusal) (command : Told) → result ≡ Status.Refused refusal
        → IsCommandOf words.now command
        → Leaves command (D.meaning desk.old) (D.meaning desk.new) refusal }

    // After Done what each output made is kept under its name, if the desk tells both. The names of a command are apart.
    ensures kept { (command : Told) → result ≡ Status.Done → IsCommandOf words.now command
        → AreKeptAsMade (names_of command) (D.meaning desk.new) }

    // If the side text is told, memory was found and no reading failed, it is refused exactly if it is too long, and
    // exactly at its first record that is no row, whatever the main input is.
    ensures side_text { (command : Told) (text : List ℕ) → IsCommandOf words.now command
        → side_given (D.meaning desk.old) (names_of command).side ≡ Some text
        → result ≢ Status.Refused Refusal.NoMemory
        → ¬ Rose (D.counts desk.old).reads (D.counts desk.new).reads
        → IsSideJudged command text result }

    // A side text that is too long is read to its limit and one byte, and no further, if it is told.
    ensures read_no_further { (command : Told) (text : List ℕ) → IsCommandOf words.now command
        → side_given (D.meaning desk.old) (names_of command).side ≡ Some text
        → result ≡ Status.Refused Refusal.SideTooLong
        → left (D.meaning desk.new) inlet.Side ≡ Some (drop 1048577 text) }

    // If the side text is told and too long, or has a record that is no row, and memory was found, that is answered at
    // every desk; or ReadFault, and then the desk is as before, or a front of the text was read and nothing else has
    // changed. That may be all of it, since the read that finds the end can fail.
    ensures bad_side { (command : Told) (text : List ℕ) (bad : BadText) → IsCommandOf words.now command
        → side_given (D.meaning desk.old) (names_of command).side ≡ Some text
        → IsTextBad (bad_row_of command) text bad → result ≢ Status.Refused Refusal.NoMemory
        → IsTextFirst inlet.Side (D.meaning desk.old) text bad (D.meaning desk.new) result }

    // The same of the script of a forecast, if both texts are told and nothing is wrong with the schedule: what is wrong
    // with the script is answered; or ReadFault, of the schedule, or of the script once the schedule was read to its
    // end.
    ensures bad_script { (told : Words) (plan script : List ℕ) (bad : BadText)
        → IsCommandOf words.now (Verb.Forecast, told)
        → AreTold (names_of (Verb.Forecast, told)) (D.meaning desk.old) plan script
        → IsSideRight (Verb.Forecast, told) plan → IsTextBad bad_copy_row script bad
        → result ≢ Status.Refused Refusal.NoMemory
        → IsScriptFirst (names_of (Verb.Forecast, told)).side (D.meaning desk.old) plan script bad
        (D.meaning desk.new) result }

    // If both inputs are told, memory was found and no count rose, the answer is that of the side text and of the
    // input's course.
    ensures ends { (command : Told) (text input : List ℕ) → IsCommandOf words.now command
        → AreTold (names_of command) (D.meaning desk.old) text input
        → result ≢ Status.Refused Refusal.NoMemory
        → NoneRose (D.counts desk.old) (D.counts desk.new)
        → result ≡ answer_to command text input }

    // Completeness: right words, a right side text and a whole input, at a desk that doesn't fail, are done if memory
    // was found.
    ensures complete { (command : Told) (text input : List ℕ) → IsCommandOf words.now command
        → AreTold (names_of command) (D.meaning desk.old) text input
        → IsSideRight command text → IsInputWhole command input
        → result ≢ Status.Refused Refusal.NoMemory
        → NoneRose (D.counts desk.old) (D.counts desk.new)
        → result ≡ Status.Done }

    // The headline: whatever was lost or repeated of a history on its way, with gaps that are shorter than the period of the
    // sequence counts, restoring writes each packet up to the last arrival exactly as it was, or lists it.
    ensures headline { (told : Words) (h : History) (copies : ℕ → ℕ)
        → IsCommandOf words.now (Verb.Restore, told)
        → IsPlayedStore told h copies (D.meaning desk.old)
        → result ≡ Status.Done
        → HasWritten (names_of (Verb.Restore, told))
        (record { output = restored_bytes h copies; report = report_text h copies })
        (D.meaning desk.new) }

    // A fault of the desk is answered only if the desk failed in this call; after all other answers no count has
    // changed.
    ensures cause { HasStatusCause (D.counts desk.old) (D.counts desk.new) result }
{
    match Command::of(words) {
        Ok(command) => perform(alloc, &command, desk).into(),
        Err(word) => Status::Refused(Refusal::BadWords { word }),
    }
}
