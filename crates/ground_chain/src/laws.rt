//! What the definitions of numbers and runs mean.

ghost use Rattle.std.specs.Prelude.{◌≡◌, ◌^◌, ◌<◌, ◌≤◌, ◌↔◌, ◌∷◌, [], ◌++◌, ◌+◌, ℕ, length, true, false, All, List, Some, None, map};
ghost use Rattle.std.specs.List.{range_with_len};
ghost use Rattle.bit_vectors.specs.Vectors.{byte_count};
ghost use Rattle.packet_store.specs.SpacePackets.{period};
ghost use Rattle.ground_chain.specs.Run.{HasCount, number_after, expected, Arrival, Judged, judge, known_after, repeat_judged, run, run_from};
ghost use Rattle.ground_chain.specs.Listing.{IsToldAlike, listed_texts, listing_course, run_listing};
ghost use Rattle.ground_chain.specs.Receiving.{store_course};
ghost use Rattle.ground_chain.specs.Report.{HasContent, HasRowNumbers, header_row, is_repeat, is_unwritten, own_row, restored_of, run_bytes, run_report, run_rows, written_bytes, AreArrivals, run_numbers};
ghost use Rattle.ground_chain.specs.Sound.{IsExactRun, IsSoundRun, but_for_faults};
ghost use Rattle.ground_chain.specs.Restoring.{restore_course, restored_texts, store_run};
ghost use Rattle.ground_chain.specs.Worked.{arrival, written_verdict};
ghost use Rattle.desk_ports.specs.Courses.{AreFronts, written_first, owed, texts_of, to_output, to_report};
ghost use Rattle.packet_store.specs.Walks.{walk};

use crate::verdict::Kind;
use bit_vectors::BitFault;

/// The first arrival has its count as its number. Any later one is a repeat exactly if it has the
/// count of the latest number, and otherwise has the least greater number with its count.
pub fn numbers_are_the_next_ones()
    ensures first { (count : ℕ) → count < period
        → (number_after None count ≡ Some count) × HasCount count count }
    ensures repeat { (n count : ℕ) → count < period
        → (number_after (Some n) count ≡ None) ↔ HasCount n count }
    ensures above { (n count t : ℕ) → count < period → number_after (Some n) count ≡ Some t
        → (n < t) × (t < n + period) }
    ensures count { (n count t : ℕ) → count < period → number_after (Some n) count ≡ Some t
        → HasCount t count }
    ensures least { (n count t other : ℕ) → count < period → number_after (Some n) count ≡ Some t
        → n < other
        → HasCount other count → t ≤ other }
{}

/// A run over one more arrival is the run and one more verdict. So in any run the verdict on an arrival is the next one
/// after the arrivals before it.
pub fn runs_grow()
    ensures place { (f : ℕ) (before after : List Arrival) (arrival : Arrival) →
        run f (before ++ arrival ∷ after)
        ≡ run f before ++ judge f (known_after f before) arrival
        ∷ run_from f (judge f (known_after f before) arrival).after after }
    ensures verdicts { (f : ℕ) (arrivals : List Arrival) (arrival : Arrival) →
        run f (arrivals ++ arrival ∷ [])
        ≡ run f arrivals ++ judge f (known_after f arrivals) arrival ∷ [] }
    ensures known { (f : ℕ) (arrivals : List Arrival) (arrival : Arrival) →
        known_after f (arrivals ++ arrival ∷ [])
        ≡ (judge f (known_after f arrivals) arrival).after }
{}

/// The run is exact, and no other run over these arrivals is.
pub fn one_exact_run()
    ensures exact { (f : ℕ) (arrivals : List Arrival) → IsExactRun f arrivals (run f arrivals) }
    ensures only { (f : ℕ) (arrivals : List Arrival) (judged : List Judged)
        → IsExactRun f arrivals judged → judged ≡ run f arrivals }
{}

/// All sound runs over one list of arrivals are the same except for the faults of refused packets: they have the same
/// numbers, lost ranges, written packets and states.
pub fn sound_runs_agree()
    ensures { (f : ℕ) (arrivals : List Arrival) (judged : List Judged)
        → IsSoundRun f arrivals judged →
        map but_for_faults judged ≡ map but_for_faults (run f arrivals) }
{}

/// The written, the unwritten and the lost numbers of a run are together all numbers up to the last arrival, each
/// once and in order.
pub fn every_number_once()
    ensures { (f : ℕ) (arrivals : List Arrival) → AreArrivals arrivals →
        run_numbers (run f arrivals) ≡ range_with_len 0 (expected (known_after f arrivals).latest) }
{}

/// The numbers of a run rise: an arrival that is no repeat has a greater number than all arrivals before it.
pub fn numbers_rise()
    ensures { (f : ℕ) (arrivals : List Arrival) (arrival : Arrival)
        → AreArrivals (arrivals ++ arrival ∷ []) →
        let next = (judge f (known_after f arrivals) arrival).verdict in
        is_repeat next.kind ≡ false → All (λ earlier. earlier.verdict.t < next.t) (run f arrivals) }
{}

/// A repeat has the latest number, nothing lost before it, and changes nothing: what is known, the restored packets
/// and the rows of the report stay.
pub fn repeats_change_nothing()
    ensures { (f : ℕ) (arrivals : List Arrival) (arrival : Arrival) →
        number_after (known_after f arrivals).latest arrival.count ≡ None →
        (judge f (known_after f arrivals) arrival ≡ repeat_judged (known_after f arrivals))
        × (known_after f (arrivals ++ arrival ∷ []) ≡ known_after f arrivals)
        × (run_bytes (run f (arrivals ++ arrival ∷ [])) ≡ run_bytes (run f arrivals))
        × (run_rows (run f (arrivals ++ arrival ∷ [])) ≡ run_rows (run f arrivals)) }
{}

/// The numbers of a run: its arrivals are all that arrived, and the written packets and those that are not written
/// are together as many as there are numbers up to the last arrival.
pub fn numbers_count_the_run()
    ensures packets { (f : ℕ) (arrivals : List Arrival)
        → (restored_of (run f arrivals)).packets ≡ length arrivals }
    ensures listed { (f : ℕ) (arrivals : List Arrival) → AreArrivals arrivals
        → let restored = restored_of (run f arrivals) in
        restored.written + restored.listed ≡ expected (known_after f arrivals).latest }
{}

/// The content of a written arrival has the places of the run, and so its bytes are as many as those of a vector.
pub fn contents_have_the_places()
    ensures places { (f : ℕ) (arrivals : List Arrival) →
        All (λ judged. judged.verdict.kind ≡ Kind.Written → HasContent f judged.after.state)
        (run f arrivals) }
    ensures bytes { (f : ℕ) (arrivals : List Arrival) →
        All (λ judged. judged.verdict.kind ≡ Kind.Written
        → length (written_bytes judged) ≡ byte_count f) (run f arrivals) }
{}

/// The numbers in the rows of a run are numbers of 64 bits, over as many arrivals as a store may have. The data of an
/// arrival are 65,536 bytes at most.
pub fn row_numbers_are_small()
    ensures { (f : ℕ) (arrivals : List Arrival) → AreArrivals arrivals
        → All (λ arrival. length arrival.body ≤ 65536) arrivals → length arrivals ≤ 2 ^ 32
        → All (λ judged. HasRowNumbers judged.verdict) (run f arrivals) }
{}

/// What a store owes before its end is what its run over the packets of the chosen APID writes and lists. What a whole store
/// owes is the restored packets and the report of that run, and as a listing that of the same run.
pub fn whole_stores_owe_their_run()
    ensures before { (f apid : ℕ) (store : List ℕ) →
        texts_of (restore_course f apid store).before
        ≡ record {
          output = run_bytes (store_run f apid store);
          report = header_row ++ run_rows (store_run f apid store);
        } }
    ensures restored { (f apid : ℕ) (store : List ℕ) → (walk (Some apid) store).ending ≡ None →
        texts_of (owed (restore_course f apid store))
        ≡ record {
          output = run_bytes (store_run f apid store);
          report = run_report
              (store_run f apid store);
        } }
    ensures listed { (f apid : ℕ) (store : List ℕ) → (walk (Some apid) store).ending ≡ None →
        owed (listing_course f apid store) ≡ to_output (run_listing (store_run f apid store)) }
{}

/// What a front of a store owes before its end is a front of what the store owes before its end.
pub fn fronts_owe_fronts()
    ensures restored { (f apid : ℕ) (front rest : List ℕ) → All (λ b. b < 256) front →
        AreFronts (restore_course f apid front).before
        (restore_course f apid (front ++ rest)).before }
    ensures listed { (f apid : ℕ) (front rest : List ℕ) → All (λ b. b < 256) front →
        AreFronts (listing_course f apid front).before
        (listing_course f apid (front ++ rest)).before }
{}

/// Report and listing are accounts of one run: what a store owes as either is what is written of the same verdicts.
/// Exactly the arrivals that are not written have a row, and their lines name the same cause and value, and the mask if it
/// became known.
pub fn report_and_listing_agree()
    ensures report { (f apid : ℕ) (store : List ℕ) → restore_course f apid store
        ≡ written_first (to_report header_row) (store_course restored_texts f apid store) }
    ensures listing { (f apid : ℕ) (store : List ℕ) →
        listing_course f apid store ≡ store_course listed_texts f apid store }
    ensures unwritten { (judged : Judged) →
        is_unwritten judged.verdict.kind ≡ true → IsToldAlike judged }
    ensures others { (judged : Judged) → is_unwritten judged.verdict.kind ≡ false →
        own_row judged.verdict.t judged.verdict.kind ≡ [] }
{}

/// Worked runs with vectors of 8 places: the verdicts of arrivals, each with its count and its data.
pub fn worked_runs()
    // Packets 1, 2 and 3 are sent, and 2 did not arrive. Level 2 reaches over it.
    ensures lost { map (λ j. j.verdict)
        (run 8 (arrival 0 (0x85 ∷ 0xB8 ∷ 0xD6 ∷ 0x00 ∷ []) ∷ arrival 2 (0x82 ∷ [])
        ∷ arrival 3 (0x8A ∷ []) ∷ []))
        ≡ written_verdict 0 ∷ record {
          lost = Some
              (record { first = 1; last = 1 });
          t = 2;
          kind = Kind.Gap 0 false;
        } ∷ written_verdict 3 ∷ [] }
    // A packet that comes twice.
    ensures repeat { map (λ j. j.verdict)
        (run 8 (arrival 0 (0x85 ∷ 0xB8 ∷ 0xD6 ∷ 0x00 ∷ [])
        ∷ arrival 0 (0x85 ∷ 0xB8 ∷ 0xD6 ∷ 0x00 ∷ []) ∷ []))
        ≡ written_verdict 0 ∷ record { lost = None; t = 0; kind = Kind.Repeat } ∷ [] }
    // The first arrival comes late, and nothing is known.
    ensures unsynced { map (λ j. j.verdict) (run 8 (arrival 5 (0x82 ∷ []) ∷ []))
        ≡ record { lost = Some (record { first = 0; last = 4 }); t = 5; kind = Kind.Unsynced false }
        ∷ [] }
    // Directions without a place.
    ensures wrong { map (λ j. j.verdict)
        (run 8 (arrival 0 (0x85 ∷ 0xB8 ∷ 0xD6 ∷ 0x00 ∷ []) ∷ arrival 1 (0x43 ∷ 0x00 ∷ []) ∷ []))
        ≡ written_verdict 0 ∷ record { lost = None; t = 1; kind = Kind.Refused (BitFault.Wrong 8) }
        ∷ [] }
{}
