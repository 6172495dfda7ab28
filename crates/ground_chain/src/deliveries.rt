//! What the run makes of the packets of a history, of which each arrives so many times.

ghost use Rattle.std.specs.Prelude.{◌≡◌, ◌<◌, ◌≤◌, ◌^◌, ◌∷◌, ◌++◌, ◌+◌, ℕ, [], length, codes, All, List, None, Some, map};
ghost use Rattle.std.specs.List.{flat_map, last_or};
ghost use Rattle.mask_update.specs.Histories.{History, IsValid};
ghost use Rattle.packet_encode.specs.Deliveries.{Lost, arrivals, count_up_to, latest_mask_known, latest_written, listed_numbers};
ghost use Rattle.packet_decode.specs.State.{true_state};
ghost use Rattle.packet_store.specs.Walks.{walk};
ghost use Rattle.flight_chain.specs.Compressing.{store_of};
ghost use Rattle.loss_player.specs.Played.{AreGapsShort, played_bytes};
ghost use Rattle.desk_ports.specs.Courses.{owed, texts_of};
ghost use Rattle.ground_chain.specs.Restoring.{arrivals_of, restore_course, store_run};
ghost use Rattle.ground_chain.specs.Run.{known_after, run};
ghost use Rattle.ground_chain.specs.Report.{header_row, run_bytes, run_rows, run_report, restored_of};
ghost use Rattle.ground_chain.specs.Worked.{four_packets, lost_between, six_packets};
ghost use Rattle.ground_chain.specs.Deliveries.{ListedRow, TellsOf, arrival_at, history_arrivals, restored_bytes, listed_rows, row_numbers, row_text, delivered_numbers, report_text};

use crate::verdict::Kind;
use bit_vectors::BitFault;
use packet_store::WalkFault;

/// The played store of a valid history is whole, and what arrives from it are the packets of the history, each as often as
/// its copies say; more copies than a store may have packets are too many.
pub fn played_histories_arrive()
    ensures whole { (h : History) (copies : ℕ → ℕ) (apid : ℕ) → IsValid h → apid ≤ 2046
        → length (arrivals copies (length h.steps)) ≤ 2 ^ 32
        → (walk (Some apid) (played_bytes copies apid (store_of h apid))).ending ≡ None }
    ensures arrive { (h : History) (copies : ℕ → ℕ) (apid : ℕ) → IsValid h → apid ≤ 2046
        → length (arrivals copies (length h.steps)) ≤ 2 ^ 32
        → arrivals_of (Some apid)
        (walk (Some apid) (played_bytes copies apid (store_of h apid))).packets
        ≡ history_arrivals h copies }
    ensures too_many { (h : History) (copies : ℕ → ℕ) (apid : ℕ) → IsValid h → apid ≤ 2046
        → 2 ^ 32 < length (arrivals copies (length h.steps))
        → (walk (Some apid) (played_bytes copies apid (store_of h apid))).ending
        ≡ Some WalkFault.TooMany }
{}

/// The ground knows where it is in a history, and what it knows of it. After each arrival the latest number is that of the
/// packet, and the state has two parts, each with its number: the mask of the latest packet so far whose mask became known,
/// and the input of the latest packet so far that is written.
pub fn histories_are_known()
    ensures { (h : History) (copies : ℕ → ℕ) → IsValid h → AreGapsShort copies (length h.steps) →
        (front rest : List ℕ) → front ++ rest ≡ arrivals copies (length h.steps) →
        known_after h.places (map (arrival_at h) front)
        ≡ record {
          latest = last_or None front;
          state = true_state h (latest_mask_known h copies (count_up_to (last_or None front)))
              (latest_written h copies (count_up_to (last_or None front)));
        } }
{}

/// No packet of a history is refused.
pub fn no_packet_is_refused()
    ensures { (h : History) (copies : ℕ → ℕ) → IsValid h → AreGapsShort copies (length h.steps) →
        All (λ j. (fault : BitFault) → j.verdict.kind ≡ Kind.Refused fault → ⊥)
        (run h.places (history_arrivals h copies)) }
{}

/// The restored packets are the inputs of the packets of the history that are written, and of no other.
pub fn written_packets_are_restored()
    ensures { (h : History) (copies : ℕ → ℕ) → IsValid h → AreGapsShort copies (length h.steps) →
        run_bytes (run h.places (history_arrivals h copies)) ≡ restored_bytes h copies }
{}

/// The report has a row for each packet up to the last arrival that is not written, and neighbouring lost ones stand
/// as one row, and its last row has the numbers of the history and its copies.
pub fn unwritten_packets_are_reported()
    ensures rows { (h : History) (copies : ℕ → ℕ) → IsValid h → AreGapsShort copies (length h.steps)
        →
        run_rows (run h.places (history_arrivals h copies))
        ≡ flat_map row_text (listed_rows h copies) }
    ensures numbers { (h : History) (copies : ℕ → ℕ) → IsValid h
        → AreGapsShort copies (length h.steps) →
        restored_of (run h.places (history_arrivals h copies)) ≡ delivered_numbers h copies }
    ensures report { (h : History) (copies : ℕ → ℕ) → IsValid h
        → AreGapsShort copies (length h.steps) →
        run_report (run h.places (history_arrivals h copies)) ≡ report_text h copies }
{}

/// The rows tell of each listed packet once, in rising order, and by its own cause. Only lost packets share a row, and
/// all that are neighbours do.
pub fn rows_tell_of_listed_packets()
    ensures numbers { (h : History) (copies : ℕ → ℕ)
        → flat_map row_numbers (listed_rows h copies) ≡ listed_numbers h copies }
    ensures causes { (h : History) (copies : ℕ → ℕ)
        → All (TellsOf h copies) (listed_rows h copies) }
    ensures together { (h : History) (copies : ℕ → ℕ) (before after : List ListedRow)
        (row next : ListedRow) →
        before ++ row ∷ next ∷ after ≡ listed_rows h copies → row.cause ≡ Lost → next.cause ≡ Lost
        → next.first ≡ row.last + 1 → ⊥ }
{}

/// What the played store of a valid history owes, if it is whole: the inputs of the packets that are written, and the
/// report of all others up to the last arrival.
pub fn played_histories_are_restored()
    ensures outputs { (h : History) (copies : ℕ → ℕ) (apid : ℕ) → IsValid h → apid ≤ 2046
        → AreGapsShort copies (length h.steps)
        → (walk (Some apid) (played_bytes copies apid (store_of h apid))).ending ≡ None
        → texts_of (owed (restore_course h.places apid (played_bytes copies apid (store_of h apid))))
        ≡ record { output = restored_bytes h copies; report = report_text h copies } }
    ensures numbers { (h : History) (copies : ℕ → ℕ) (apid : ℕ) → IsValid h → apid ≤ 2046
        → AreGapsShort copies (length h.steps)
        → (walk (Some apid) (played_bytes copies apid (store_of h apid))).ending ≡ None
        → restored_of (store_run h.places apid (played_bytes copies apid (store_of h apid)))
        ≡ delivered_numbers h copies }
{}

/// What is restored of worked histories, of which some packets are lost.
pub fn worked_deliveries()
    // The third is lost, and the level of the fourth reaches over it.
    ensures restored { restored_bytes four_packets (lost_between 2 2) ≡ 0xB0 ∷ 0xB1 ∷ 0xB3 ∷ [] }
    ensures lost { report_text four_packets (lost_between 2 2)
        ≡ header_row ++ codes "2,2,lost,0\nend,3,3,0\n" }
    // The second is lost too: the level of the fourth doesn't reach over both.
    ensures first { restored_bytes four_packets (lost_between 1 2) ≡ 0xB0 ∷ [] }
    ensures gap { report_text four_packets (lost_between 1 2)
        ≡ header_row ++ codes "1,2,lost,0\n3,3,gap,1\nend,2,1,0\n" }
    // The first two are lost, and nothing is known when the third arrives.
    ensures none { restored_bytes four_packets (lost_between 0 1) ≡ [] }
    ensures unsynced { report_text four_packets (lost_between 0 1)
        ≡ header_row ++ codes "0,1,lost,0\n2,2,unsynced,0\n3,3,unsynced,0\nend,2,0,0\n" }
    // Whole content comes before its mask, and both are known apart: all that arrives is written.
    ensures apart { restored_bytes six_packets (lost_between 1 2)
        ≡ 0x00 ∷ 0x03 ∷ 0x02 ∷ 0x02 ∷ [] }
    ensures none_listed { report_text six_packets (lost_between 1 2)
        ≡ header_row ++ codes "1,2,lost,0\nend,4,4,0\n" }
{}
