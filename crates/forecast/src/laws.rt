//! What the definitions of a forecast mean.

ghost use Rattle.std.specs.Prelude.{◌≡◌, ℕ, ◌↔◌, ◌+◌, ◌<◌, true, List, Bool, length, codes, Contains, Some};
ghost use Rattle.mask_update.specs.Histories.{History, history_of, robust_at};
ghost use Rattle.robust_window.specs.Histories.{level_at};
ghost use Rattle.side_tables.specs.declared.rows.CopyRow.{CopyRow};
ghost use Rattle.side_tables.specs.Rows.{ScheduleRows, flags_of};
ghost use Rattle.packet_encode.specs.Deliveries.{IsLatest, MaskKnownAt, WrittenAt, count_to_last};
ghost use Rattle.forecast.specs.Prospects.{IsForeseen, IsMaskSure, IsSure, Prospect, is_mask_sure, is_sure, latest_mask_sure, latest_sure, prospect_of, robust_by};
ghost use Rattle.forecast.specs.Stretches.{IsLongest, stretches};
ghost use Rattle.forecast.specs.Outlooks.{forecast_text};
ghost use Rattle.forecast.specs.Worked.{worked_plan, worked_script};
ghost use Rattle.forecast.specs.declared.fate.Fate.{Fate};
ghost use Rattle.forecast.specs.declared.stretch.Stretch.{Stretch};

/// A packet is sure exactly if it arrives and either it carries the whole content, or its mask is sure and the number of
/// packets since the latest sure one is at most its required robustness; and the latest sure one is the greatest number
/// before it that is sure. A mask is sure likewise.
pub fn sure_packets()
    ensures is { (p : Prospect) (t : ℕ) → (is_sure p t ≡ true) ↔ IsSure p t }
    ensures latest { (p : Prospect) (t latest : ℕ)
        → (latest_sure p t ≡ Some latest) ↔ IsLatest (IsSure p) t latest }
    ensures mask { (p : Prospect) (t : ℕ) → (is_mask_sure p t ≡ true) ↔ IsMaskSure p t }
    ensures latest_mask { (p : Prospect) (t latest : ℕ)
        → (latest_mask_sure p t ≡ Some latest) ↔ IsLatest (IsMaskSure p) t latest }
{}

/// A forecast holds for each history with the flags and the required robustness that were foreseen: what is sure is
/// written, and it is one up to the last arrival. If each later level is the required robustness, what is written is sure.
pub fn forecasts_hold()
    ensures written { (p : Prospect) (h : History) (t : ℕ) → IsForeseen p h → t < length h.steps
        → IsSure p t → WrittenAt h p.copies t }
    ensures mask { (p : Prospect) (h : History) (t : ℕ) → IsForeseen p h → t < length h.steps
        → IsMaskSure p t → MaskKnownAt h p.copies t }
    ensures heard { (p : Prospect) (h : History) (t : ℕ) → IsForeseen p h → t < length h.steps
        → IsSure p t → t < count_to_last p.copies (length h.steps) }
    ensures sure { (p : Prospect) (h : History) (t : ℕ) → IsForeseen p h → t < length h.steps
        → ((s : ℕ) → s < length h.steps → robust_at h s + 1 < s → level_at h s ≡ robust_at h s)
        → WrittenAt h p.copies t → IsSure p t }
{}

/// The history of any inputs under a schedule is foreseen by the prospect of that schedule, whatever the places of the
/// vectors and the first mask are.
pub fn prospects_of_histories()
    ensures { (plan : ScheduleRows) (robust : ℕ) (script : List CopyRow) (inputs : List (List Bool))
        (f : ℕ) (mask : List Bool) → IsForeseen (prospect_of plan robust script)
        (history_of inputs (flags_of plan.flags) (robust_by plan robust) f mask) }
{}

/// The stretches of packets are exactly the longest ones of one fate.
pub fn stretches_are_longest()
    ensures { (fate : ℕ → Fate) (n : ℕ) (s : Stretch)
        → Contains (stretches fate n) s ↔ IsLongest fate n s }
{}

/// A worked forecast: of six packets with a required robustness of 1 the first two are forced, two are lost, one can be
/// written or not, and the last one carries its mask and its whole content.
pub fn worked_forecasts()
    ensures { forecast_text (prospect_of worked_plan 1 worked_script) 6
        ≡ codes "first,last,state\n0,1,sure\n2,3,lost\n4,4,open\n5,5,sure\ngaps,0,3\nend,6,3\n" }
{}
