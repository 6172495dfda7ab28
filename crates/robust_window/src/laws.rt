//! What the definitions of recent changes, effective robustness level and 'twice' mean.

ghost use Rattle.std.specs.Prelude.{◌≡◌, ℕ, ◌+◌, ◌-◌, ◌<◌, ◌≤◌, ◌↔◌, IsTrue, Contains, true, false, [], ◌∷◌, length, map};
ghost use Rattle.std.specs.List.{range_with_len};
ghost use Rattle.bit_vectors.specs.Vectors.{IsOne};
ghost use Rattle.mask_update.specs.Histories.{History, IsValid, Step, robust_at, with_step};
ghost use Rattle.mask_update.specs.Masks.{change_at};
ghost use Rattle.mask_update.specs.Worked.{last, none};
ghost use Rattle.robust_window.specs.Changes.{most_level};
ghost use Rattle.robust_window.specs.Histories.{IsLevel, Twice, level_at, recent_at, twice_at};
ghost use Rattle.robust_window.specs.Worked.{worked};

/// The recent changes of a step are the places of the mask that it changes, or one of the steps before it, of which
/// its required robustness says how many.
pub fn recent_changes()
    ensures recent { (h : History) (t place : ℕ) → t < length h.steps → place < h.places →
        IsOne (recent_at h t) place
        ↔ ((s : ℕ) × (t - robust_at h t ≤ s) × (s ≤ t) × IsOne (change_at h s) place) }
    ensures places { (h : History) (t : ℕ) → t < length h.steps
        → length (recent_at h t) ≡ h.places }
{}

/// The effective robustness level of a step is the greatest level that it can have: the required robustness, and one
/// more for each step just before those of the recent changes that does not change the mask, up to 15.
pub fn effective_level()
    ensures level { (h : History) (t : ℕ) → t < length h.steps → IsLevel h t (level_at h t) }
    ensures greatest { (h : History) (t level : ℕ) → t < length h.steps → IsLevel h t level
        → level ≤ level_at h t }
    // If it is not the greatest that it can be, the step before changes the mask.
    ensures stops { (h : History) (t : ℕ) → t < length h.steps
        → level_at h t < most_level (robust_at h t) t →
        Contains (change_at h (t - (level_at h t + 1))) true }
    ensures start { (h : History) (t : ℕ) → t < length h.steps → t ≤ robust_at h t
        → level_at h t ≡ robust_at h t }
    ensures most { (h : History) (t : ℕ) → IsValid h → t < length h.steps → level_at h t ≤ 15 }
{}

/// 'Twice' holds if two steps within the effective robustness level take a new mask.
pub fn new_mask_twice()
    ensures { (h : History) (t : ℕ) → t < length h.steps → IsTrue (twice_at h t) ↔ Twice h t }
{}

/// One more step leaves the recent changes, the effective robustness level and 'twice' of the earlier steps unchanged.
pub fn earlier_steps_stay()
    ensures recent { (h : History) (step : Step) (t : ℕ) → t < length h.steps →
        recent_at (with_step h step) t ≡ recent_at h t }
    ensures level { (h : History) (step : Step) (t : ℕ) → t < length h.steps →
        level_at (with_step h step) t ≡ level_at h t }
    ensures twice { (h : History) (step : Step) (t : ℕ) → t < length h.steps →
        twice_at (with_step h step) t ≡ twice_at h t }
{}

/// A worked history: place 7 enters the mask at step 1 and leaves it at step 5, the second new mask.
pub fn worked_window()
    ensures valid { IsValid worked }
    ensures recent { map (recent_at worked) (range_with_len 0 6)
        ≡ none ∷ last ∷ last ∷ none ∷ none ∷ last ∷ [] }
    ensures levels { map (level_at worked) (range_with_len 0 6) ≡ 1 ∷ 1 ∷ 2 ∷ 1 ∷ 2 ∷ 3 ∷ [] }
    ensures twice { map (twice_at worked) (range_with_len 0 6)
        ≡ false ∷ false ∷ false ∷ false ∷ false ∷ true ∷ [] }
{}
