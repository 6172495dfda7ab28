//! What the definitions of packets mean.

ghost use Rattle.std.specs.Prelude.{◌≡◌, ℕ, ◌↔◌, ◌⊎◌, ◌+◌, ◌*◌, ◌<◌, ◌≤◌, true, [], ◌∷◌, length, Contains, Some, None};
ghost use Rattle.bit_vectors.specs.Vectors.{bits_of, byte_count, padded};
ghost use Rattle.mask_update.specs.Histories.{History, IsValid, Step, input_at, robust_at, with_step};
ghost use Rattle.mask_update.specs.Masks.{mask_at};
ghost use Rattle.packet_encode.specs.Forms.{Fits, IsForm, Whole, Part, form_bits, AgreeUpTo, form_at, packet_at};
ghost use Rattle.packet_encode.specs.Deliveries.{IsLatest, KnownTogetherAt, Listed, MaskKnownAt, WrittenAt, count_to_last, is_known_together, is_mask_known, is_written, latest_known_together, latest_mask_known, latest_written, listed_numbers, written_numbers};
ghost use Rattle.robust_window.specs.Worked.{worked};

/// The packet of each step of a valid history has a form, which fits the mask.
pub fn forms_of_histories()
    ensures is_form { (h : History) (t : ℕ) → IsValid h → t < length h.steps
        → IsForm h.places (form_at h t) }
    ensures fits { (h : History) (t : ℕ) → IsValid h → t < length h.steps
        → Fits (form_at h t) (mask_at h t) }
{}

/// The bits of each packet of a valid history are at most 10 for each place and 43 more, and so at most 65,536 bytes.
pub fn packets_have_room()
    ensures bits { (h : History) (t : ℕ) → IsValid h → t < length h.steps →
        length (form_bits (form_at h t)) ≤ 10 * h.places + 43 }
    ensures bytes { (h : History) (t : ℕ) → IsValid h → t < length h.steps →
        byte_count (length (form_bits (form_at h t))) ≤ 65536 }
{}

/// The packet of a forced step of a valid history carries the mask and the whole content.
pub fn forced_packets()
    ensures mask { (h : History) (t : ℕ) → IsValid h → t < length h.steps → t ≤ robust_at h t →
        (form_at h t).sent ≡ Some (mask_at h t) }
    ensures content { (h : History) (t : ℕ) → IsValid h → t < length h.steps → t ≤ robust_at h t →
        (form_at h t).content ≡ Whole (input_at h t) }
{}

/// What comes later does not change a packet: two histories that agree up to a step have the same packet there.
pub fn packets_of_the_past()
    ensures more { (h : History) (step : Step) (t : ℕ) → t < length h.steps →
        packet_at (with_step h step) t ≡ packet_at h t }
    ensures same { (h other : History) (t : ℕ) → t < length h.steps → AgreeUpTo h other t →
        packet_at h t ≡ packet_at other t }
{}

/// The mask of a packet becomes known exactly if the packet arrives and either carries it, or the number of unknown masks
/// since the latest known one is at most its effective robustness level; and the latest known one is the greatest number
/// before it whose mask became known.
pub fn known_masks()
    ensures is { (h : History) (copies : ℕ → ℕ) (t : ℕ)
        → (is_mask_known h copies t ≡ true) ↔ MaskKnownAt h copies t }
    ensures latest { (h : History) (copies : ℕ → ℕ) (t latest : ℕ) →
        (latest_mask_known h copies t ≡ Some latest) ↔ IsLatest (MaskKnownAt h copies) t latest }
    ensures none { (h : History) (copies : ℕ → ℕ) (t : ℕ) →
        (latest_mask_known h copies t ≡ None) ↔ ((s : ℕ) → s < t → MaskKnownAt h copies s → ⊥) }
{}

/// A packet is written exactly if it arrives and either it carries the whole content, or its mask becomes known and the
/// number of unwritten packets since the latest written one is at most its effective robustness level; and the latest
/// written one is the greatest number before it that is written.
pub fn written_packets()
    ensures is { (h : History) (copies : ℕ → ℕ) (t : ℕ)
        → (is_written h copies t ≡ true) ↔ WrittenAt h copies t }
    ensures latest { (h : History) (copies : ℕ → ℕ) (t latest : ℕ) →
        (latest_written h copies t ≡ Some latest) ↔ IsLatest (WrittenAt h copies) t latest }
    ensures none { (h : History) (copies : ℕ → ℕ) (t : ℕ) →
        (latest_written h copies t ≡ None) ↔ ((s : ℕ) → s < t → WrittenAt h copies s → ⊥) }
{}

/// If mask and content could be known only together, those of a packet would be exactly if it arrives and either carries
/// both, or the number of packets since the latest one of which they would be is at most its effective robustness level;
/// and the latest one is the greatest number before it of which they would be.
pub fn known_together()
    ensures is { (h : History) (copies : ℕ → ℕ) (t : ℕ)
        → (is_known_together h copies t ≡ true) ↔ KnownTogetherAt h copies t }
    ensures latest { (h : History) (copies : ℕ → ℕ) (t latest : ℕ) →
        (latest_known_together h copies t ≡ Some latest)
        ↔ IsLatest (KnownTogetherAt h copies) t latest }
    ensures none { (h : History) (copies : ℕ → ℕ) (t : ℕ) →
        (latest_known_together h copies t ≡ None)
        ↔ ((s : ℕ) → s < t → KnownTogetherAt h copies s → ⊥) }
{}

/// Tracking mask and content separately loses no packet: each packet of which both would be known if they could be known
/// only together is written, and its mask becomes known.
pub fn no_packet_is_given_up()
    ensures written { (h : History) (copies : ℕ → ℕ) (t : ℕ)
        → KnownTogetherAt h copies t → WrittenAt h copies t }
    ensures mask { (h : History) (copies : ℕ → ℕ) (t : ℕ)
        → KnownTogetherAt h copies t → MaskKnownAt h copies t }
{}

/// A packet is listed exactly if it is one up to the last arrival and not written; so each of these is either written
/// or listed, and no other packet is either.
pub fn listed_packets()
    ensures written { (h : History) (copies : ℕ → ℕ) (t : ℕ) →
        Contains (written_numbers h copies) t ↔ ((t < length h.steps) × WrittenAt h copies t) }
    ensures listed { (h : History) (copies : ℕ → ℕ) (t : ℕ)
        → Contains (listed_numbers h copies) t ↔ Listed h copies t }
    ensures heard { (h : History) (copies : ℕ → ℕ) (t : ℕ) → t < length h.steps
        → WrittenAt h copies t →
        t < count_to_last copies (length h.steps) }
    ensures each { (h : History) (copies : ℕ → ℕ) (t : ℕ)
        → t < count_to_last copies (length h.steps) →
        WrittenAt h copies t ⊎ Listed h copies t }
{}

/// A packet of a worked history: place 7 leaves the mask at the second new mask, and is extracted all the same.
pub fn worked_packets()
    ensures { packet_at worked 5 ≡ bits_of (0x47 ∷ 0xF0 ∷ []) }
{}

/// Worked packets of 8 places.
pub fn worked_forms()
    // Level 1, a mask of zeros, the content B0.
    ensures first { bits_of (0x85 ∷ 0xB8 ∷ 0xD6 ∷ 0x00 ∷ []) ≡ padded (form_bits (record {
      recent = bits_of (0x00 ∷ []);
      level = 1;
      directions = None;
      sent = Some (bits_of (0x00 ∷ []));
      content = Whole (bits_of (0xB0 ∷ []));
    })) }
    // Place 7 changed: the mask 01 and the content B1 are sent.
    ensures changed { bits_of (0x42 ∷ 0x4B ∷ 0x8D ∷ 0x62 ∷ []) ≡ padded (form_bits (record {
      recent = bits_of (0x01 ∷ []);
      level = 1;
      directions = None;
      sent = Some (bits_of (0x01 ∷ []));
      content = Whole (bits_of (0xB1 ∷ []));
    })) }
    // The same change, level 2; one bit of the content is sent.
    ensures part { bits_of (0x44 ∷ 0xC0 ∷ []) ≡ padded (form_bits (record {
      recent = bits_of (0x01 ∷ []);
      level = 2;
      directions = None;
      sent = None;
      content = Part (true ∷ []);
    })) }
    // Place 6 changed; two bits of the content are sent.
    ensures next { bits_of (0xC0 ∷ 0x85 ∷ 0xC0 ∷ []) ≡ padded (form_bits (record {
      recent = bits_of (0x02 ∷ []);
      level = 1;
      directions = None;
      sent = None;
      content = Part (true ∷ true ∷ []);
    })) }
    // Place 7 became predictable, and is extracted all the same.
    ensures predictable { bits_of (0x47 ∷ 0xF0 ∷ []) ≡ padded (form_bits (record {
      recent = bits_of (0x01 ∷ []);
      level = 3;
      directions = Some (record { predictable = bits_of (0x01 ∷ []); twice = true });
      sent = None;
      content = Part (true ∷ []);
    })) }
{}
