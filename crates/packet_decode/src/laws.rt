//! What the definitions mean.

ghost use Rattle.std.specs.Prelude.{◌≡◌, ℕ, ◌*◌, ◌-◌, ◌<◌, ◌≤◌, ◌||◌, Bool, true, false, List, [], ◌∷◌, ◌++◌, length, count_by, Option, Some, None, IfSome, Result, Ok, Err};
ghost use Rattle.bit_vectors.specs.Reading.{IsExact};
ghost use Rattle.bit_vectors.specs.Vectors.{bits_of, most_places};
ghost use Rattle.run_code.specs.Extraction.{SameOutside};
ghost use Rattle.mask_update.specs.Histories.{History, IsValid, flags_at, input_at};
ghost use Rattle.mask_update.specs.Masks.{mask_at};
ghost use Rattle.robust_window.specs.Histories.{level_at};
ghost use Rattle.packet_encode.specs.Forms.{Form, Part, Whole, data_bits, wide, form_at, packet_at};
ghost use Rattle.packet_decode.specs.State.{Change, State, IsState, both_known, deduced_mask, known_if, next_state, no_vectors, is_content_told, is_mask_told, true_state};
ghost use Rattle.packet_decode.specs.Spelling.{IsFilled, Spells, HasOpaqueFront};
ghost use Rattle.packet_decode.specs.PartWords.{KeepsOutside, AllPlaces, IsContent, IsData, IsFirstWord, IsMaskWord, places_of};
ghost use Rattle.packet_decode.specs.Answers.{SpellsPacket, Viable, Says, IsSoundAnswer, IsExactAnswer, BeginReadable};
ghost use Rattle.packet_decode.specs.PacketReading.{Opaque, Spelled, answer_of, missed, parse_change, parse_content, parse_data, parse_mask};

use crate::decoder::Reading;
use bit_vectors::BitFault;

/// The answer that reading from left to right gives is exact, for every list of bits: what it says holds, and its
/// fault is the first bit at which the bits can't be those of a packet nor of an opaque front.
pub fn reading_is_exact()
    ensures { (f t : ℕ) (state : State) (bits : List Bool) → IsState f state →
        IsExactAnswer f state t bits (answer_of f state t bits) }
{}

/// No other answer is exact.
pub fn one_exact_answer()
    ensures { (f t : ℕ) (state : State) (bits : List Bool) (answer : Result Reading BitFault)
        → IsState f state →
        IsExactAnswer f state t bits answer → answer ≡ answer_of f state t bits }
{}

/// An exact answer is sound.
pub fn exact_answers_are_sound()
    ensures { (f t : ℕ) (state : State) (bits : List Bool) (answer : Result Reading BitFault) →
        IsExactAnswer f state t bits answer → IsSoundAnswer f state t bits answer }
{}

/// Sound answers differ only in faults: if one of them says that bits are written, unsynced or after a gap, each other
/// one says the same.
pub fn sound_answers_agree()
    ensures { (f t : ℕ) (state : State) (bits : List Bool) (reading : Reading)
        (answer : Result Reading BitFault) →
        IsState f state → IsSoundAnswer f state t bits (Ok reading)
        → IsSoundAnswer f state t bits answer → answer ≡ Ok reading }
{}

/// Each part of a packet is read exactly by what the parts before it leave: a first part, a deduced mask or none, a known
/// content or none, and no state. So some word begins with the bits before a first wrong one, and with bits that end
/// early.
pub fn parts_are_completed()
    ensures first { (f : ℕ) → IsExact (IsFirstWord f) (parse_change f) }
    ensures mask { (f : ℕ) (deduced : Option (List Bool)) →
        IsExact (IsMaskWord f deduced) (parse_mask f deduced) }
    ensures content { (f : ℕ) (change : Change) (mask : List Bool) (known : Option (List Bool)) →
        length change.recent ≡ f → length mask ≡ f → AllPlaces f known →
        IsExact (IsContent f change mask known) (parse_content f change mask known) }
    ensures others { (f : ℕ) (change : Change) (deduced known : Option (List Bool)) →
        length change.recent ≡ f → AllPlaces f deduced → AllPlaces f known →
        IsExact (IsData f change deduced known) (parse_data f change deduced known) }
    // With a deduced mask, sent or not: each whole content that agrees with the known one, if one is known.
    ensures deduced_whole { (f : ℕ) (change : Change) (mask content : List Bool)
        (known sent : Option (List Bool)) →
        IfSome sent (λ m. m ≡ mask) → KeepsOutside f (places_of change mask) known content →
        IsData f change (Some mask) known (Spelled (Some mask) (Some content))
        (data_bits sent (Whole content)) }
    // The extracted bits, with which the known content is filled; if none is known, any, as many as are extracted.
    ensures deduced_part { (f : ℕ) (change : Change) (mask known bits content : List Bool)
        (sent : Option (List Bool)) →
        IfSome sent (λ m. m ≡ mask) → IsFilled (places_of change mask) known bits content →
        IsData f change (Some mask) (Some known) (Spelled (Some mask) (Some content))
        (data_bits sent (Part bits)) }
    ensures deduced_mask_alone { (f : ℕ) (change : Change) (mask bits : List Bool)
        (sent : Option (List Bool)) → IfSome sent (λ m. m ≡ mask) →
        length bits ≡ count_by (λ bit. bit) (places_of change mask) →
        IsData f change (Some mask) None (Spelled (Some mask) None) (data_bits sent (Part bits)) }
    // Without a deduced one: the same under any mask that is sent.
    ensures sent_whole { (f : ℕ) (change : Change) (mask content : List Bool)
        (known : Option (List Bool)) →
        length mask ≡ f → KeepsOutside f (places_of change mask) known content →
        IsData f change None known (Spelled (Some mask) (Some content))
        (data_bits (Some mask) (Whole content)) }
    ensures sent_part { (f : ℕ) (change : Change) (mask known bits content : List Bool) →
        length mask ≡ f → IsFilled (places_of change mask) known bits content →
        IsData f change None (Some known) (Spelled (Some mask) (Some content))
        (data_bits (Some mask) (Part bits)) }
    ensures sent_mask_alone { (f : ℕ) (change : Change) (mask bits : List Bool) →
        length mask ≡ f → length bits ≡ count_by (λ bit. bit) (places_of change mask) →
        IsData f change None None (Spelled (Some mask) None) (data_bits (Some mask) (Part bits)) }
    // Any bits fill the extracted places of a content, if there are as many.
    ensures filled { (places known bits : List Bool) →
        length known ≡ length places → length bits ≡ count_by (λ bit. bit) places →
        (content : List Bool) × IsFilled places known bits content }
    // Any whole content without a mask, and an opaque front.
    ensures content_alone { (f : ℕ) (change : Change) (content : List Bool)
        (known : Option (List Bool)) → length content ≡ f →
        IsData f change None known (Spelled None (Some content)) (data_bits None (Whole content)) }
    ensures opaque { (f : ℕ) (change : Change) (known : Option (List Bool)) →
        IsData f change None known Opaque (true ∷ []) }
{}

/// The bits that are viable are those with which data of at most 65,536 bytes can begin that are written or listed. So the
/// bits before a wrong one begin such data, and with it they begin none.
pub fn viable_bits_begin_data()
    ensures data { (f t : ℕ) (state : State) (bits : List Bool) → 1 ≤ f → f ≤ most_places
        → IsState f state → length bits ≤ 8 * 65536 →
        Viable f state t bits → BeginReadable f state t bits }
    ensures viable { (f t : ℕ) (state : State) (bits : List Bool) → IsState f state →
        BeginReadable f state t bits → Viable f state t bits }
{}

/// The bits and the state determine the reading: at most one of Written, Unsynced and Gap is what they say, with one level
/// and one value of `mask`.
pub fn one_reading()
    ensures { (f t : ℕ) (state : State) (bits : List Bool) (reading other : Reading)
        → IsState f state →
        Says f state t bits reading → Says f state t bits other → reading ≡ other }
{}

/// The bits and the state determine the form, and the mask and the content that become known.
pub fn one_packet()
    ensures { (f t : ℕ) (state : State) (bits : List Bool)
        (mask content other_mask other_content : Option (List Bool)) (form other : Form) →
        IsState f state →
        Spells f state t bits form mask content
        → Spells f state t bits other other_mask other_content →
        (form ≡ other) × (mask ≡ other_mask) × (content ≡ other_content) }
{}

/// What becomes known has as many places as what was known.
pub fn states_keep_their_places()
    ensures { (f t : ℕ) (state : State) (bits : List Bool) (form : Form)
        (mask content : Option (List Bool)) →
        IsState f state → Spells f state t bits form mask content →
        IsState f (next_state state t mask content) }
{}

/// If bits spell a packet, the first bit after them is wrong, whatever it is and whatever follows.
pub fn no_further_bit()
    ensures { (f t : ℕ) (state : State) (bits more : List Bool) (bit : Bool) → IsState f state
        → SpellsPacket f state t bits →
        answer_of f state t (bits ++ bit ∷ more) ≡ Err (BitFault.Wrong (length bits)) }
{}

/// What follows an opaque front is not looked at.
pub fn opaque_fronts_go_on()
    ensures { (f t level : ℕ) (state : State) (bits more : List Bool) →
        HasOpaqueFront f state t bits level → HasOpaqueFront f state t (bits ++ more) level }
{}

/// The law of the window. Let at most as many packets be missing between an earlier packet and that of a step as the
/// effective robustness level of the step says. Then the mask that is deduced from the earlier packet's is the mask of the
/// step, and at each place that is not extracted the input of the step is that of the earlier one: a place that is
/// neither masked nor extracted again has not moved since.
pub fn law_of_the_window()
    ensures mask { (h : History) (earlier t : ℕ) → earlier < t → t < length h.steps →
        t - 1 - earlier ≤ level_at h t →
        deduced_mask (mask_at h earlier) (form_at h t) ≡ mask_at h t }
    ensures content { (h : History) (earlier t : ℕ) → IsValid h → earlier < t → t < length h.steps →
        t - 1 - earlier ≤ level_at h t →
        SameOutside (wide (form_at h t) (mask_at h t)) (input_at h earlier) (input_at h t) }
{}

/// What a decoder reads of the packets of a valid history, when the latest mask and the latest content that it knows are
/// those of earlier steps, or it knows none. What the packet of a step tells becomes known: its mask, if the packet carries it
/// or its effective robustness level reaches the latest known one; its content, if the packet carries the whole content, or
/// tells its mask and the level reaches the latest known content. A packet that neither tells its mask nor carries the whole
/// content has an opaque front.
pub fn packets_of_histories_are_read()
    ensures state { (h : History) (mask content : Option ℕ) → IsValid h
        → IfSome mask (λ s. s < length h.steps) → IfSome content (λ s. s < length h.steps) →
        IsState h.places (true_state h mask content) }
    ensures spelled { (h : History) (mask content : Option ℕ) (t : ℕ) → IsValid h
        → IfSome mask (λ s. s < t) → IfSome content (λ s. s < t) → t < length h.steps →
        (is_mask_told h mask t || (flags_at h t).r) ≡ true →
        Spells h.places (true_state h mask content) t (packet_at h t) (form_at h t)
        (known_if (is_mask_told h mask t) (mask_at h t))
        (known_if (is_content_told h mask content t) (input_at h t)) }
    ensures opaque { (h : History) (mask content : Option ℕ) (t : ℕ) → IsValid h → t < length h.steps →
        (is_mask_told h mask t || (flags_at h t).r) ≡ false →
        HasOpaqueFront h.places (true_state h mask content) t (packet_at h t) (level_at h t) }
    // So it writes the packets whose content is told, and misses the others.
    ensures written { (h : History) (mask content : Option ℕ) (t : ℕ) → IsValid h
        → IfSome mask (λ s. s < t) → IfSome content (λ s. s < t) → t < length h.steps →
        is_content_told h mask content t ≡ true →
        answer_of h.places (true_state h mask content) t (packet_at h t) ≡ Ok Reading.Written }
    ensures mask_alone { (h : History) (mask content : Option ℕ) (t : ℕ) → IsValid h
        → IfSome mask (λ s. s < t) → IfSome content (λ s. s < t) → t < length h.steps →
        is_content_told h mask content t ≡ false → is_mask_told h mask t ≡ true →
        answer_of h.places (true_state h mask content) t (packet_at h t)
        ≡ Ok (missed (true_state h mask content).content (level_at h t) true) }
    ensures neither { (h : History) (mask content : Option ℕ) (t : ℕ) → IsValid h
        → IfSome mask (λ s. s < t) → IfSome content (λ s. s < t) → t < length h.steps →
        is_content_told h mask content t ≡ false → is_mask_told h mask t ≡ false →
        answer_of h.places (true_state h mask content) t (packet_at h t)
        ≡ Ok (missed (true_state h mask content).mask (level_at h t) false) }
{}

/// Worked packets of 8 places.
pub fn worked_packets()
    // In reach of a packet with the mask 01, one bit of the content spells the rest too.
    ensures follows { Spells 8
        (both_known 1 (bits_of (0x01 ∷ [])) (bits_of (0xB1 ∷ []))) 2
        (bits_of (0x44 ∷ 0xC0 ∷ []))
        (record {
          recent = bits_of
              (0x01 ∷ []);
          level = 2;
          directions = None;
          sent = None;
          content = Part (true ∷ []);
        })
        (Some (bits_of (0x01 ∷ []))) (Some (bits_of (0xB1 ∷ []))) }
    // With nothing known they can't be understood.
    ensures opaque { HasOpaqueFront 8 no_vectors 2 (bits_of (0x44 ∷ 0xC0 ∷ [])) 2 }
    ensures unsynced { answer_of 8 no_vectors 2 (bits_of (0x44 ∷ 0xC0 ∷ [])) ≡ Ok (Reading.Unsynced false) }
    // Level 0, the mask 0F, the content A5.
    ensures alone { answer_of 8 no_vectors 0 (bits_of (0x81 ∷ 0x61 ∷ 0x5C ∷ 0x6A ∷ 0x50 ∷ []))
        ≡ Ok Reading.Written }
    // The number of places is 9 and not 8.
    ensures places { answer_of 8 no_vectors 0 (bits_of (0x85 ∷ 0xB8 ∷ 0xF6 ∷ 0x00 ∷ []))
        ≡ Err (BitFault.Wrong 18) }
    // Two packets before this one are missing, which level 0 doesn't reach over and level 2 does.
    ensures gap { answer_of 8
        (both_known 0 (bits_of (0x00 ∷ [])) (bits_of (0xB0 ∷ []))) 3
        (bits_of (0x82 ∷ [])) ≡ Ok (Reading.Gap 0 false) }
    ensures no_gap { answer_of 8
        (both_known 0 (bits_of (0x00 ∷ [])) (bits_of (0xB0 ∷ []))) 3
        (bits_of (0x8A ∷ [])) ≡ Ok Reading.Written }
    // Place 7 became predictable, and is extracted again.
    ensures predictable { answer_of 8
        (both_known 4 (bits_of (0x01 ∷ [])) (bits_of (0x01 ∷ []))) 5
        (bits_of (0x47 ∷ 0xF0 ∷ [])) ≡ Ok Reading.Written }
    // A one in its padding, a byte after it, the end before its directions, no byte.
    ensures padding { answer_of 8
        (both_known 4 (bits_of (0x01 ∷ [])) (bits_of (0x01 ∷ []))) 5
        (bits_of (0x47 ∷ 0xF8 ∷ [])) ≡ Err (BitFault.Wrong 12) }
    ensures further { answer_of 8
        (both_known 4 (bits_of (0x01 ∷ [])) (bits_of (0x01 ∷ []))) 5
        (bits_of (0x47 ∷ 0xF0 ∷ 0x00 ∷ [])) ≡ Err (BitFault.Wrong 16) }
    ensures early { answer_of 8
        (both_known 4 (bits_of (0x01 ∷ [])) (bits_of (0x01 ∷ []))) 5
        (bits_of (0x47 ∷ [])) ≡ Err (BitFault.EndsEarly 8) }
    ensures empty { answer_of 8
        (both_known 4 (bits_of (0x01 ∷ [])) (bits_of (0x01 ∷ []))) 5
        (bits_of []) ≡ Err (BitFault.EndsEarly 0) }
    // Directions without a place, and neither a mask nor a content after the bit that promises one of them.
    ensures no_direction { answer_of 8
        (both_known 0 (bits_of (0x00 ∷ [])) (bits_of (0xB0 ∷ []))) 1
        (bits_of (0x43 ∷ 0x00 ∷ [])) ≡ Err (BitFault.Wrong 8) }
    ensures neither { answer_of 8
        (both_known 0 (bits_of (0x00 ∷ [])) (bits_of (0xB0 ∷ []))) 1
        (bits_of (0x84 ∷ 0x00 ∷ [])) ≡ Err (BitFault.Wrong 8) }
    // Mask and content are sent as they must be, the mask is another one, and the content differs at place 0.
    ensures sent { answer_of 8
        (both_known 0 (bits_of (0x00 ∷ [])) (bits_of (0xB0 ∷ []))) 1
        (bits_of (0x42 ∷ 0x4B ∷ 0x8D ∷ 0x62 ∷ [])) ≡ Ok Reading.Written }
    ensures other_mask { answer_of 8
        (both_known 0 (bits_of (0x00 ∷ [])) (bits_of (0xB0 ∷ []))) 1
        (bits_of (0x42 ∷ 0x5B ∷ 0x8D ∷ 0x62 ∷ [])) ≡ Err (BitFault.Wrong 11) }
    ensures other_content { answer_of 8
        (both_known 0 (bits_of (0x00 ∷ [])) (bits_of (0xB0 ∷ []))) 1
        (bits_of (0x42 ∷ 0x4B ∷ 0x8C ∷ 0x62 ∷ [])) ≡ Err (BitFault.Wrong 23) }
    // A content without a mask after two packets that are missing, and then a mask under which that content is known.
    ensures content_alone { answer_of 8
        (both_known 0 (bits_of (0x00 ∷ [])) (bits_of (0x00 ∷ []))) 3
        (bits_of (0x80 ∷ 0xE3 ∷ 0x01 ∷ 0x80 ∷ [])) ≡ Ok Reading.Written }
    ensures mask_then { answer_of 8
        (record {
          mask = Some (record { number = 0; vector = bits_of (0x00 ∷ []) });
          content = Some (record { number = 3; vector = bits_of (0x03 ∷ []) });
        })
        4 (bits_of (0x85 ∷ 0x60 ∷ 0x44 ∷ [])) ≡ Ok Reading.Written }
    // A mask whose extracted bits tell no content, with a content too far back and with none.
    ensures mask_alone { answer_of 8
        (both_known 0 (bits_of (0x00 ∷ [])) (bits_of (0x00 ∷ []))) 3
        (bits_of (0x81 ∷ 0x60 ∷ 0x4C ∷ [])) ≡ Ok (Reading.Gap 0 true) }
    ensures mask_first { answer_of 8 no_vectors 5 (bits_of (0x85 ∷ 0x60 ∷ 0x44 ∷ []))
        ≡ Ok (Reading.Unsynced true) }
    // A one in the padding after it, and no whole content when neither a mask is sent nor one is known.
    ensures mask_padding { answer_of 8 no_vectors 5 (bits_of (0x85 ∷ 0x60 ∷ 0x45 ∷ []))
        ≡ Err (BitFault.Wrong 23) }
    ensures not_whole { answer_of 8 no_vectors 5 (bits_of (0x84 ∷ 0x00 ∷ []))
        ≡ Err (BitFault.Wrong 8) }
{}
