//! What the definitions of histories and masks mean.

ghost use Rattle.std.specs.Prelude.{◌≡◌, ◌≢◌, ℕ, ◌+◌, ◌<◌, ◌≤◌, ◌↔◌, ◌⊎◌, Bool, true, false, List, [], ◌∷◌, ◌++◌, All, length, map, replicate, slice_index_or};
ghost use Rattle.std.specs.List.{range_with_len};
ghost use Rattle.bit_vectors.specs.declared.flags.Flags.{Flags};
ghost use Rattle.bit_vectors.specs.Vectors.{IsOne, IsVector, xor_bits};
ghost use Rattle.mask_update.specs.Histories.{History, IsValid, Step, flags_at, forced_flags, history_of, input_at, latest_step, robust_at, step_of, with_step};
ghost use Rattle.mask_update.specs.Masks.{MovedBetween, NoNewMask, build_at, change_at, latest_new_mask, mask_at, new_mask_at, next_build, next_mask, second_latest_new_mask};
ghost use Rattle.mask_update.specs.Worked.{last, none, worked};

/// The recurrences of CCSDS 124.0-B-1 hold for every valid history.
pub fn recurrences()
    ensures first_build { (h : History) → IsValid h → build_at h 0 ≡ replicate h.places false }
    ensures first_mask { (h : History) → IsValid h → mask_at h 0 ≡ h.first_mask }
    ensures build { (h : History) (t : ℕ) → IsValid h → t + 1 < length h.steps →
        let moved = xor_bits (input_at h t) (input_at h (t + 1)) in
        build_at h (t + 1) ≡ next_build (new_mask_at h (t + 1)) moved (build_at h t) }
    ensures mask { (h : History) (t : ℕ) → IsValid h → t + 1 < length h.steps →
        let moved = xor_bits (input_at h t) (input_at h (t + 1)) in
        mask_at h (t + 1) ≡ next_mask (new_mask_at h (t + 1)) moved (build_at h t) (mask_at h t) }
{}

/// One more step leaves mask, build and change of the earlier steps unchanged.
pub fn earlier_steps_stay()
    ensures mask { (h : History) (step : Step) (t : ℕ) → t ≤ latest_step h →
        mask_at (with_step h step) t ≡ mask_at h t }
    ensures build { (h : History) (step : Step) (t : ℕ) → t ≤ latest_step h →
        build_at (with_step h step) t ≡ build_at h t }
    ensures change { (h : History) (step : Step) (t : ℕ) → t ≤ latest_step h →
        change_at (with_step h step) t ≡ change_at h t }
{}

/// Which bits of mask, build and change are 1, in terms of the steps at which a place moves.
pub fn places_of_masks()
    ensures mask { (h : History) (t place : ℕ) → t ≤ latest_step h → place < h.places →
        IsOne (mask_at h t) place ↔ ((MovedBetween h (second_latest_new_mask h t) t place)
        ⊎ (NoNewMask h t × IsOne h.first_mask place)) }
    ensures build { (h : History) (t place : ℕ) → t ≤ latest_step h → place < h.places →
        IsOne (build_at h t) place ↔ MovedBetween h (latest_new_mask h t) t place }
    ensures change { (h : History) (t place : ℕ) → place < h.places →
        IsOne (change_at h (t + 1)) place
        ↔ (slice_index_or (mask_at h t) place false ≢ slice_index_or
        (mask_at h (t + 1)) place false) }
{}

/// Which steps the latest and the second latest new-mask steps are.
pub fn new_mask_steps()
    ensures latest { (h : History) (t : ℕ) → 0 < latest_new_mask h t →
        new_mask_at h (latest_new_mask h t) ≡ true }
    ensures latest_within { (h : History) (t : ℕ) → latest_new_mask h t ≤ t }
    ensures none_after { (h : History) (t step : ℕ) → latest_new_mask h t < step → step ≤ t →
        new_mask_at h step ≡ false }
    ensures second { (h : History) (t : ℕ) → 0 < second_latest_new_mask h t →
        new_mask_at h (second_latest_new_mask h t) ≡ true }
    ensures second_below { (h : History) (t : ℕ) → 0 < latest_new_mask h t →
        second_latest_new_mask h t < latest_new_mask h t }
    ensures none_between { (h : History) (t step : ℕ) → second_latest_new_mask h t < step →
        step < latest_new_mask h t → new_mask_at h step ≡ false }
    ensures no_second { (h : History) (t : ℕ) → latest_new_mask h t ≡ 0 →
        second_latest_new_mask h t ≡ 0 }
{}

/// The history of inputs has the given flags after the required robustness, the forced flags up to it, and is
/// valid.
pub fn histories_of_inputs()
    ensures steps { (inputs : List (List Bool)) (flags : ℕ → Flags) (robust : ℕ → ℕ) (f : ℕ)
        (first_mask : List Bool) →
        length (history_of inputs flags robust f first_mask).steps ≡ length inputs }
    ensures input { (inputs : List (List Bool)) (flags : ℕ → Flags) (robust : ℕ → ℕ) (f : ℕ)
        (first_mask : List Bool)
        (t : ℕ) → t < length inputs →
        input_at (history_of inputs flags robust f first_mask) t ≡ slice_index_or inputs t [] }
    ensures robust { (inputs : List (List Bool)) (flags : ℕ → Flags) (robust : ℕ → ℕ) (f : ℕ)
        (first_mask : List Bool)
        (t : ℕ) → t < length inputs →
        robust_at (history_of inputs flags robust f first_mask) t ≡ robust t }
    ensures flags { (inputs : List (List Bool)) (flags : ℕ → Flags) (robust : ℕ → ℕ) (f : ℕ)
        (first_mask : List Bool)
        (t : ℕ) → t < length inputs → robust t < t →
        flags_at (history_of inputs flags robust f first_mask) t ≡ flags t }
    ensures forced { (inputs : List (List Bool)) (flags : ℕ → Flags) (robust : ℕ → ℕ) (f : ℕ)
        (first_mask : List Bool)
        (t : ℕ) → t < length inputs → t ≤ robust t →
        flags_at (history_of inputs flags robust f first_mask) t ≡ forced_flags }
    ensures valid { (inputs : List (List Bool)) (flags : ℕ → Flags) (robust : ℕ → ℕ) (f : ℕ)
        (first_mask : List Bool) →
        IsVector first_mask → length first_mask ≡ f → length inputs ≤ 4294967296 →
        All (λ input. length input ≡ f) inputs → ((t : ℕ) → robust t ≤ 7) →
        IsValid (history_of inputs flags robust f first_mask) }
    ensures one_more { (inputs : List (List Bool)) (flags : ℕ → Flags) (robust : ℕ → ℕ) (f : ℕ)
        (first_mask input : List Bool) → history_of (inputs ++ input ∷ []) flags robust f first_mask
        ≡ with_step (history_of inputs flags robust f first_mask)
        (step_of flags robust (length inputs, input)) }
{}

/// The masks of a worked history: a place that moved at step 1 leaves the mask at the second new mask.
pub fn worked_masks()
    ensures valid { IsValid worked }
    ensures masks { map (mask_at worked) (range_with_len 0 6)
        ≡ none ∷ last ∷ last ∷ last ∷ last ∷ none ∷ [] }
    ensures builds { map (build_at worked) (range_with_len 0 6)
        ≡ none ∷ last ∷ last ∷ none ∷ none ∷ none ∷ [] }
    ensures changes { map (change_at worked) (range_with_len 0 6)
        ≡ none ∷ last ∷ none ∷ none ∷ none ∷ last ∷ [] }
{}
