//! Laws of the definitions that the top call's contract cites.
ghost use Rattle.std.specs.Prelude.{◌≡◌, ◌⊎◌, ◌≤◌, ◌<◌, ◌^◌, ◌++◌, ℕ, [], length, map, All, List, Ok, Some, None};
ghost use Rattle.desk_ports.specs.Courses.{owed, texts_of, to_output};
ghost use Rattle.desk_ports.specs.Meanings.{Meanings};
ghost use Rattle.mask_update.specs.Histories.{History, IsValid};
ghost use Rattle.side_tables.specs.Grammar.{copy_rows_of, schedule_rows_of};
ghost use Rattle.side_tables.specs.Rows.{copies_of};
ghost use Rattle.side_tables.specs.Streams.{stream_at, streams_of};
ghost use Rattle.multi_ground.specs.Apart.{HasStream, arrivals_on, contents_on, rows_on};
ghost use Rattle.packet_encode.specs.Deliveries.{WrittenAt, arrivals};
ghost use Rattle.packet_store.specs.Walks.{walk};
ghost use Rattle.forecast.specs.Prospects.{IsSure, prospect_of};
ghost use Rattle.flight_chain.specs.Recordings.{recording_walk};
ghost use Rattle.flight_chain.specs.Compressing.{store_of};
ghost use Rattle.param_table.specs.Rows.{text_columns};
ghost use Rattle.param_table.specs.Texts.{limit_text, table_text};
ghost use Rattle.loss_player.specs.Played.{AreGapsShort, played_bytes, played_of};
ghost use Rattle.loss_player.specs.Report.{play_report};
ghost use Rattle.ground_chain.specs.Deliveries.{arrival_at, report_text, restored_bytes};
ghost use Rattle.ground_chain.specs.Report.{header_row, run_bytes, run_report};
ghost use Rattle.late_window.specs.Deliveries.{IsLateDelivery};
ghost use Rattle.late_window.specs.Restoring.{late_done, ordered_run, store_arrivals};
ghost use Rattle.late_window.specs.Order.{late_row};
ghost use Rattle.pocket_cmd.specs.Apart.{AreApart};
ghost use Rattle.pocket_cmd.specs.Command.{Command, AreGiven, IsRight, command_of, names_of};
ghost use Rattle.pocket_cmd.specs.Courses.{course_of, forecast_by_texts};
ghost use Rattle.pocket_cmd.specs.Delivery.{HasWritten, IsInputWhole, recorded_history};
ghost use Rattle.pocket_cmd.specs.Openings.{input_given, side_given};
ghost use Rattle.pocket_cmd.specs.Outcome.{AfterRefusal, Stands};
ghost use Rattle.pocket_cmd.specs.Summary.{summary_by};
ghost use Rattle.pocket_cmd.specs.Words.{Words, apid, bits, mask, robust, window};

use crate::status::Refusal;
use crate::verbs::Verb;

/// A command's numbers are within their bounds, its first mask has as many places as a packet has bits, each of its names is one
/// that a word gives, and they are apart: two names to read differ, and two to write, and a name to read that is one to write is
/// `-`.
pub fn commands_are_given()
    ensures right { (words : Words) (command : Command) → command_of words ≡ Ok command
        → IsRight command }
    ensures mask { (words : Words) → length (mask words) ≡ bits words }
    ensures given { (words : Words) (command : Command) → command_of words ≡ Ok command
        → AreGiven words command }
    ensures apart { (words : Words) (command : Command) → command_of words ≡ Ok command
        → AreApart (names_of command) }
{}

/// If the desk tells both inputs, a command that is done has written all that it owes for them.
pub fn done_commands_wrote_all()
    ensures { (command : Command) (old new : Meanings) (text input : List ℕ)
        → Stands command old new None
        → side_given old (names_of command).side ≡ Some text
        → input_given old (names_of command).input ≡ Some input
        → HasWritten (names_of command) (texts_of (owed (course_of command text input))) new }
{}

/// A trial owes its summary, whatever a side text or an input would be, and reads nothing: it is refused only if a
/// writing failed, or if there was not enough memory.
pub fn trials_owe_their_summary()
    ensures summary { (t : Words) (text input : List ℕ)
        → owed (course_of (Verb.Trial, t) text input) ≡ to_output (summary_by t) }
    ensures refused { (t : Words) (old new : Meanings) (refusal : Refusal)
        → AfterRefusal (Verb.Trial, t) old new refusal
        → (refusal ≡ Refusal.WriteFault) ⊎ (refusal ≡ Refusal.NoMemory) }
{}

/// What a whole store owes whose packets may come late is the restored packets and the report of the run over its packets of
/// the APID in order, without those that are too late, and the row of these. If the packets are those of a valid history and come
/// late by no more than the window, that is the inputs of the packets that are written, and the report of all others.
pub fn late_stores_owe_their_order()
    ensures order { (l : Words) (store : List ℕ) → IsInputWhole (Verb.Late, l) store →
        texts_of (owed (course_of (Verb.Late, l) [] store)) ≡ record {
          output = run_bytes (ordered_run (bits l) (apid l) (window l) store);
          report = run_report (ordered_run (bits l) (apid l) (window l) store)
              ++ late_row (late_done (bits l) (apid l) (window l) store).late;
        } }
    ensures restored { (l : Words) (h : History) (copies : ℕ → ℕ) (store numbers : List ℕ)
        → IsInputWhole (Verb.Late, l) store → IsValid h → h.places ≡ bits l
        → IsLateDelivery (window l) (length h.steps) copies numbers
        → store_arrivals (apid l) store ≡ map (arrival_at h) numbers →
        texts_of (owed (course_of (Verb.Late, l) [] store))
        ≡ record { output = restored_bytes h copies; report = report_text h copies ++ late_row 0 } }
{}

/// A table owes the texts of the packets of a whole recording, by its fields: their table, and the report of the values out of
/// their limits.
pub fn tables_owe_their_texts()
    ensures { (t : Words) (fields recording : List ℕ) → IsInputWhole (Verb.Table, t) recording →
        let packets = (recording_walk (bits t) recording).inputs in
        texts_of (owed (course_of (Verb.Table, t) fields recording)) ≡ record {
          output = table_text (text_columns (bits t) fields) packets;
          report = limit_text (text_columns (bits t) fields) packets;
        } }
{}

/// What `multi` owes for a whole store is a store of Space Packets again, and a report. No stream sees another: its contents in
/// that store, and its lines of that report, are those of the run over its own arrivals. If these are the arrivals of the played
/// store of a valid history, that is the inputs of the packets that are written, and the report of all others.
pub fn streams_are_restored_apart()
    ensures whole { (m : Words) (streams store : List ℕ) → All (λ b. b < 256) store
        → IsInputWhole (Verb.Multi, m) store
        → (walk None (texts_of (owed (course_of (Verb.Multi, m) streams store))).output).ending ≡ None }
    ensures each { (m : Words) (streams store : List ℕ) (index : ℕ) → All (λ b. b < 256) store
        → IsInputWhole (Verb.Multi, m) store → index < length (streams_of streams)
        → let all = texts_of (owed (course_of (Verb.Multi, m) streams store)) in
        HasStream (stream_at (streams_of streams) index) store all.output all.report }
    ensures restored { (m : Words) (streams store : List ℕ) (index : ℕ) (h : History)
        (copies : ℕ → ℕ) → All (λ b. b < 256) store → IsInputWhole (Verb.Multi, m) store
        → index < length (streams_of streams) → let stream = stream_at (streams_of streams) index in
        IsValid h → h.places ≡ stream.bits → AreGapsShort copies (length h.steps)
        → length (arrivals copies (length h.steps)) ≤ 2 ^ 32
        → arrivals_on stream.apid store
        ≡ arrivals_on stream.apid (played_bytes copies stream.apid (store_of h stream.apid))
        → let all = texts_of (owed (course_of (Verb.Multi, m) streams store)) in
        (contents_on stream.apid all.output ≡ restored_bytes h copies)
        × (header_row ++ rows_on stream.apid all.report ≡ report_text h copies) }
{}

/// A forecast owes its text for a schedule and a script. What it calls sure is written of any recording of so many packets
/// under that schedule and that required robustness, if copies arrive as the script says.
pub fn forecasts_owe_their_text()
    ensures text { (f : Words) (plan script : List ℕ)
        → owed (course_of (Verb.Forecast, f) plan script) ≡ to_output (forecast_by_texts f plan script) }
    ensures sure { (f c : Words) (plan script recording : List ℕ) (t : ℕ)
        → robust c ≡ robust f → let h = recorded_history c plan recording in
        t < length h.steps
        → IsSure (prospect_of (schedule_rows_of plan) (robust f) (copy_rows_of script)) t
        → WrittenAt h (copies_of (copy_rows_of script)) t }
{}

/// What the commands hand on to one another. The store that `compress` owes for a whole recording is that of a valid history;
/// what `play` owes for such a store is its played store, with a report of the gaps; and what `restore` owes for that is what
/// the headline says.
pub fn commands_compose()
    ensures compress { (c : Words) (plan recording : List ℕ) → IsRight (Verb.Compress, c)
        → All (λ b. b < 256) recording
        → IsInputWhole (Verb.Compress, c) recording
        → IsValid (recorded_history c plan recording)
        × (owed (course_of (Verb.Compress, c) plan recording)
        ≡ to_output (store_of (recorded_history c plan recording) (apid c))) }
    ensures play { (p : Words) (script : List ℕ) (h : History) → IsRight (Verb.Play, p) → IsValid h
        → IsInputWhole (Verb.Play, p) (store_of h (apid p))
        × (texts_of (owed (course_of (Verb.Play, p) script (store_of h (apid p)))) ≡ record {
          output = played_bytes (copies_of (copy_rows_of script)) (apid p) (store_of h (apid p));
          report = play_report (played_of (copies_of (copy_rows_of script)) (length h.steps));
        }) }
    ensures restore { (r : Words) (h : History) (copies : ℕ → ℕ) → IsRight (Verb.Restore, r)
        → IsValid h → h.places ≡ bits r
        → AreGapsShort copies (length h.steps) → length (arrivals copies (length h.steps)) ≤ 2 ^ 32
        → IsInputWhole (Verb.Restore, r) (played_bytes copies (apid r) (store_of h (apid r)))
        × (texts_of (owed (course_of (Verb.Restore, r) [] (played_bytes copies (apid r) (store_of h (apid r)))))
        ≡ record { output = restored_bytes h copies; report = report_text h copies }) }
    // All three, one after the other, for one APID and one number of bits.
    ensures chain { (c p r : Words)
        (plan script recording : List ℕ)
        → IsRight (Verb.Compress, c) → IsRight (Verb.Play, p) → IsRight (Verb.Restore, r) → apid p ≡ apid c
        → apid r ≡ apid c → bits r ≡ bits c
        → All (λ b. b < 256) recording → IsInputWhole (Verb.Compress, c) recording
        → let h = recorded_history c plan recording in let copies = copies_of (copy_rows_of script)
        in
        AreGapsShort copies (length h.steps) → length (arrivals copies (length h.steps)) ≤ 2 ^ 32
        → let store = (texts_of (owed (course_of (Verb.Compress, c) plan recording))).output in
        let played = (texts_of (owed (course_of (Verb.Play, p) script store))).output in
        texts_of (owed (course_of (Verb.Restore, r) [] played))
        ≡ record { output = restored_bytes h copies; report = report_text h copies } }
{}
