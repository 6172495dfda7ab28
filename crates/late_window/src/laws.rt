//! What the definitions of late arrivals and of their order mean.

ghost use Rattle.std.specs.Prelude.{◌≡◌, ◌-◌, ◌<◌, ℕ, List, length, map, take, drop, codes, [], ◌∷◌, ◌++◌, None, Some};
ghost use Rattle.packet_store.specs.SpacePackets.{period};
ghost use Rattle.packet_store.specs.Walks.{walk};
ghost use Rattle.desk_ports.specs.Courses.{owed, texts_of};
ghost use Rattle.mask_update.specs.Histories.{History, IsValid};
ghost use Rattle.loss_player.specs.Played.{AreGapsShort};
ghost use Rattle.ground_chain.specs.Deliveries.{arrival_at, history_arrivals, report_text, restored_bytes};
ghost use Rattle.ground_chain.specs.Run.{Arrival};
ghost use Rattle.ground_chain.specs.Worked.{four_packets, lost_between};
ghost use Rattle.late_window.specs.Deliveries.{IsLateDelivery};
ghost use Rattle.ground_chain.specs.Report.{header_row, run_bytes, run_report, run_rows};
ghost use Rattle.late_window.specs.Order.{IsNear, Numbered, near_number, numbered, IsSorting, AreWithinWindow, arrival_of, in_order, kept, late_count, ordered, sorted, late_row};
ghost use Rattle.late_window.specs.Lines.{empty_line, given_from, late_from, line_after};
ghost use Rattle.late_window.specs.Restoring.{judged_before, late_course, late_done, ordered_run, store_arrivals};
ghost use Rattle.late_window.specs.Worked.{swapped};

/// The first arrival has its sequence count as its number. Any other has the one number near the greatest number so far that
/// has its count.
pub fn numbers_are_near()
    ensures first { (count : ℕ) → near_number None count ≡ count }
    ensures near { (n count : ℕ) → count < period → IsNear n count (near_number (Some n) count) }
    ensures only { (n count t : ℕ) → IsNear n count t → t ≡ near_number (Some n) count }
{}

/// The sorted list is in order, with equal numbers in the order of arrival, and no other list is.
pub fn one_order()
    ensures sorting { (arrivals : List Numbered) → IsSorting arrivals (sorted arrivals) }
    ensures only { (arrivals order : List Numbered) → IsSorting arrivals order
        → order ≡ sorted arrivals }
{}

/// A sorter with one place more than the window is large gives exactly the order of the definition: after any arrivals it has
/// given up all but the last ones of those that are not too late, in order; as many as the window is large, or all if there are
/// no more, are held; and all others were too late for it.
pub fn sorters_put_in_order()
    ensures given { (window : ℕ) (arrivals : List Numbered) →
        given_from (empty_line window) arrivals
        ≡ take (length (in_order window arrivals) - window) (in_order window arrivals) }
    ensures held { (window : ℕ) (arrivals : List Numbered) →
        (line_after (empty_line window) arrivals).held
        ≡ drop (length (in_order window arrivals) - window) (in_order window arrivals) }
    ensures late { (window : ℕ) (arrivals : List Numbered) →
        late_from (empty_line window) arrivals ≡ late_count window arrivals }
{}

/// If no arrival comes later than the window allows, then none is too late, and all are judged in order.
pub fn within_the_window_all_are_kept()
    ensures kept { (window : ℕ) (arrivals : List Numbered) → AreWithinWindow window arrivals
        → kept window arrivals ≡ arrivals }
    ensures none { (window : ℕ) (arrivals : List Numbered) → AreWithinWindow window arrivals
        → late_count window arrivals ≡ 0 }
    ensures ordered { (window : ℕ) (arrivals : List Arrival) → AreWithinWindow window (numbered arrivals)
        → ordered window arrivals ≡ map arrival_of (sorted (numbered arrivals)) }
{}

/// What a store owes before its end is what the run over its arrivals in order writes and lists of all but the last ones, as
/// many as the window is large. What a whole store owes is the restored packets and the report of that run, and then the row of
/// those that are too late.
pub fn whole_stores_owe_their_order()
    ensures before { (f apid window : ℕ) (store : List ℕ) →
        let judged = ordered_run f apid window store in
        let early = take (judged_before window judged) judged in
        texts_of (late_course f apid window store).before
        ≡ record { output = run_bytes early; report = header_row ++ run_rows early } }
    ensures whole { (f apid window : ℕ) (store : List ℕ) → (walk (Some apid) store).ending ≡ None →
        texts_of (owed (late_course f apid window store))
        ≡ record {
          output = run_bytes (ordered_run f apid window store);
          report = run_report (ordered_run f apid window store)
              ++ late_row (late_done f apid window store).late;
        } }
{}

/// If the packets of a valid history come late by no more than the window, and none is far from those before it, then the
/// run over the arrivals in order is that over the history's packets, each as often as it arrives, none is too late, and the gaps
/// are short. So a whole store of them owes the inputs of the packets that are written, and the report of all others.
pub fn late_deliveries_are_restored()
    ensures order { (h : History) (copies : ℕ → ℕ) (window : ℕ) (numbers : List ℕ)
        → IsLateDelivery window (length h.steps) copies numbers
        → ordered window (map (arrival_at h) numbers) ≡ history_arrivals h copies }
    ensures none { (h : History) (copies : ℕ → ℕ) (window : ℕ) (numbers : List ℕ)
        → IsLateDelivery window (length h.steps) copies numbers
        → late_count window (numbered (map (arrival_at h) numbers)) ≡ 0 }
    ensures gaps { (n : ℕ) (copies : ℕ → ℕ) (window : ℕ) (numbers : List ℕ)
        → IsLateDelivery window n copies numbers → AreGapsShort copies n }
    ensures restored { (h : History) (copies : ℕ → ℕ) (apid window : ℕ) (store numbers : List ℕ)
        → IsValid h → IsLateDelivery window (length h.steps) copies numbers
        → store_arrivals apid store ≡ map (arrival_at h) numbers
        → (walk (Some apid) store).ending ≡ None
        → texts_of (owed (late_course h.places apid window store))
        ≡ record { output = restored_bytes h copies; report = report_text h copies ++ late_row 0 } }
{}

/// Worked numbers and orders.
pub fn worked_orders()
    // A late arrival has a smaller number than the greatest so far, also across the period of the counts.
    ensures back { near_number (Some 20000) 3000 ≡ 19384 }
    ensures across { near_number (Some 16390) 16383 ≡ 16383 }
    // From 8,191 below to 8,192 above.
    ensures above { near_number (Some 10000) 1808 ≡ 18192 }
    ensures below { near_number (Some 10000) 1809 ≡ 1809 }
    // No number is below 0.
    ensures positive { near_number (Some 100) 16383 ≡ 16383 }
    // Within the window the packet that comes late is judged in its turn, and all four are restored.
    ensures in_turn { ordered 1 swapped ≡ history_arrivals four_packets (λ _. 1) }
    ensures none_late { late_count 1 (numbered swapped) ≡ 0 }
    ensures restored { restored_bytes four_packets (λ _. 1)
        ≡ 0xB0 ∷ 0xB1 ∷ 0xB1 ∷ 0xB3 ∷ [] }
    ensures reported { report_text four_packets (λ _. 1) ≡ header_row ++ codes "end,4,4,0\n" }
    // With the window 0 it is too late, and lost to the run.
    ensures left_out { ordered 0 swapped ≡ history_arrivals four_packets (lost_between 1 1) }
    ensures one_late { late_count 0 (numbered swapped) ≡ 1 }
    ensures others { restored_bytes four_packets (lost_between 1 1) ≡ 0xB0 ∷ 0xB1 ∷ 0xB3 ∷ [] }
    ensures lost { report_text four_packets (lost_between 1 1)
        ≡ header_row ++ codes "1,1,lost,0\nend,3,3,0\n" }
{}
