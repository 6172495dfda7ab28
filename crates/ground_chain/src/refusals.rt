//! What the definitions say of hostile stores: the exact run, the first wrong bit, and refused packets.

ghost use Rattle.std.specs.Prelude.{◌≡◌, ◌+◌, ◌≤◌, ◌<◌, ◌^◌, ◌↔◌, ◌∷◌, [], ◌++◌, ℕ, length, take, List, Some, None, codes};
ghost use Rattle.bit_vectors.specs.Vectors.{bits_of, most_places};
ghost use Rattle.desk_ports.specs.Courses.{owed, texts_of, to_output};
ghost use Rattle.packet_decode.specs.State.{IsState};
ghost use Rattle.packet_decode.specs.Answers.{IsExactAnswer};
ghost use Rattle.packet_store.specs.Walks.{walk};
ghost use Rattle.ground_chain.specs.Listing.{listing_course, run_listing};
ghost use Rattle.ground_chain.specs.Refusals.{BeginData, CanBeTakenOut, SaysLine, SaysRow, run_written};
ghost use Rattle.ground_chain.specs.Report.{run_bytes, run_report, AreArrivals};
ghost use Rattle.ground_chain.specs.Restoring.{arrivals_of, restore_course, store_run};
ghost use Rattle.ground_chain.specs.Run.{Arrival, Judged, Known, judge, known_after, run};
ghost use Rattle.ground_chain.specs.Sound.{IsExactRun, IsJudged};
ghost use Rattle.ground_chain.specs.Worked.{arrival, worked_arrival, unmasked};

/// `Ground::arrive`, `restore` and `show` are those of the exact run, whose answers are exact by the definition over
/// completions. One arrival has exactly one exact verdict, and that is the next one of the run. Over the packets of a store
/// exactly one run is exact, and it is the one that is restored and listed; so what a whole store owes as a report and as a
/// listing is a function of its bytes.
pub fn commands_follow_the_exact_run()
    ensures arrive { (f : ℕ) (known : Known) (arrival : Arrival) (judged : Judged)
        → IsState f known.state →
        IsJudged IsExactAnswer f known arrival judged ↔ (judged ≡ judge f known arrival) }
    ensures store { (f apid : ℕ) (store : List ℕ) (judged : List Judged) →
        IsExactRun f (arrivals_of (Some apid) (walk (Some apid) store).packets) judged
        ↔ (judged ≡ store_run f apid store) }
    ensures restore { (f apid : ℕ) (store : List ℕ) (judged : List Judged) →
        (walk (Some apid) store).ending ≡ None →
        IsExactRun f (arrivals_of (Some apid) (walk (Some apid) store).packets) judged →
        texts_of (owed (restore_course f apid store))
        ≡ record { output = run_bytes judged; report = run_report judged } }
    ensures show { (f apid : ℕ) (store : List ℕ) (judged : List Judged) →
        (walk (Some apid) store).ending ≡ None →
        IsExactRun f (arrivals_of (Some apid) (walk (Some apid) store).packets) judged →
        owed (listing_course f apid store) ≡ to_output (run_listing judged) }
{}

/// The first wrong bit is tight. If the report says `t,t,wrong,p` of an arrival, or the listing `t wrong p`, the first p bits
/// of its data begin some data that the ground would take or list at this place, and the first p + 1 begin none. If it says
/// `t,t,early,p` or `t early p`, these are all its bits, and they begin some.
pub fn wrong_bits_are_the_first()
    ensures wrong { (f bit : ℕ) (before : List Arrival) (arrival : Arrival) →
        1 ≤ f → f ≤ most_places → length arrival.body ≤ 65536 → bit < 2 ^ 64 →
        SaysRow (judge f (known_after f before) arrival) (codes "wrong") bit →
        BeginData f before arrival.count (take bit (bits_of arrival.body))
        × (BeginData f before arrival.count (take (bit + 1) (bits_of arrival.body)) → ⊥) }
    ensures early { (f bit : ℕ) (before : List Arrival) (arrival : Arrival) →
        1 ≤ f → f ≤ most_places → length arrival.body ≤ 65536 → bit < 2 ^ 64 →
        SaysRow (judge f (known_after f before) arrival) (codes "early") bit →
        (bit ≡ length (bits_of arrival.body))
        × BeginData f before arrival.count (bits_of arrival.body) }
    ensures listed_wrong { (f bit : ℕ) (before : List Arrival) (arrival : Arrival) →
        1 ≤ f → f ≤ most_places → length arrival.body ≤ 65536 → bit < 2 ^ 64 →
        SaysLine (judge f (known_after f before) arrival) (codes "wrong") bit →
        BeginData f before arrival.count (take bit (bits_of arrival.body))
        × (BeginData f before arrival.count (take (bit + 1) (bits_of arrival.body)) → ⊥) }
    ensures listed_early { (f bit : ℕ) (before : List Arrival) (arrival : Arrival) →
        1 ≤ f → f ≤ most_places → length arrival.body ≤ 65536 → bit < 2 ^ 64 →
        SaysLine (judge f (known_after f before) arrival) (codes "early") bit →
        (bit ≡ length (bits_of arrival.body))
        × BeginData f before arrival.count (bits_of arrival.body) }
{}

/// A refused packet acts as a lost one, and so does one of which neither mask nor content became known. If it is taken out
/// with the repeats that follow it at once, and the next number is still told by its count, then the run writes the same
/// packets: the same numbers with the same contents, and with the same masks known. So it leaves what the decoder knows.
pub fn refused_means_lost()
    ensures written { (f : ℕ) (before repeats after : List Arrival) (arrival : Arrival) →
        AreArrivals (before ++ arrival ∷ (repeats ++ after)) →
        CanBeTakenOut f before arrival repeats after →
        run_written (run f (before ++ arrival ∷ (repeats ++ after)))
        ≡ run_written (run f (before ++ after)) }
    ensures bytes { (f : ℕ) (before repeats after : List Arrival) (arrival : Arrival) →
        AreArrivals (before ++ arrival ∷ (repeats ++ after)) →
        CanBeTakenOut f before arrival repeats after →
        run_bytes (run f (before ++ arrival ∷ (repeats ++ after)))
        ≡ run_bytes (run f (before ++ after)) }
    ensures state { (f : ℕ) (before repeats after : List Arrival) (arrival : Arrival) →
        AreArrivals (before ++ arrival ∷ (repeats ++ after)) →
        CanBeTakenOut f before arrival repeats after →
        (known_after f (before ++ arrival ∷ (repeats ++ after))).state
        ≡ (known_after f (before ++ after)).state }
{}

/// A worked refusal with vectors of 8 places: after the first packet the data `43 00` come, and then twice the next packet.
pub fn worked_refusals()
    // The report says `1,1,wrong,8`, and the listing `1 wrong 8`. The first 8 bits begin the data `43 A0`, which would be written.
    ensures row { SaysRow
        (judge 8 (known_after 8 worked_arrival) (arrival 1 (0x43 ∷ 0x00 ∷ []))) (codes "wrong") 8 }
    ensures line { SaysLine
        (judge 8 (known_after 8 worked_arrival) (arrival 1 (0x43 ∷ 0x00 ∷ []))) (codes "wrong") 8 }
    ensures begins { BeginData 8 worked_arrival 1 (take 8 (bits_of (0x43 ∷ 0x00 ∷ []))) }
    // It can be taken out with its repeat: packet 2 is still told by its count.
    ensures taken_out { CanBeTakenOut 8 worked_arrival (arrival 1 (0x43 ∷ 0x00 ∷ []))
        (arrival 1 (0x8A ∷ []) ∷ []) (arrival 2 (0x8A ∷ []) ∷ []) }
    // With it and without it the packets 0 and 2 are written.
    ensures with_it { run_written (run 8 (worked_arrival ++ arrival 1 (0x43 ∷ 0x00 ∷ [])
        ∷ arrival 1 (0x8A ∷ []) ∷ arrival 2 (0x8A ∷ []) ∷ []))
        ≡ unmasked 0 0xB0 ∷ unmasked 2 0xB0 ∷ [] }
    ensures without_it { run_written (run 8 (worked_arrival ++ arrival 2 (0x8A ∷ []) ∷ []))
        ≡ unmasked 0 0xB0 ∷ unmasked 2 0xB0 ∷ [] }
{}
