//! What the definitions of recordings and their stores mean.

ghost use Rattle.std.specs.Prelude.{◌≡◌, ◌%◌, ◌≤◌, ◌<◌, ◌∷◌, [], ◌++◌, ℕ, Bool, List, Option, None, All, length, map, take};
ghost use Rattle.std.specs.List.{range_with_len};
ghost use Rattle.bit_vectors.specs.Vectors.{bits_of};
ghost use Rattle.desk_ports.specs.Courses.{AreFronts, owed, to_output};
ghost use Rattle.mask_update.specs.Histories.{History, IsValid, Step, history_of, with_step};
ghost use Rattle.side_tables.specs.Rows.{flags_of, robust_of};
ghost use Rattle.packet_store.specs.SpacePackets.{period, plain_packet, space_packet};
ghost use Rattle.packet_store.specs.Walks.{walk};
ghost use Rattle.flight_chain.specs.Recordings.{ending_at, recording_of, recording_walk, walked, input_first, stopped_at};
ghost use Rattle.flight_chain.specs.Compressing.{data_at, store_of, Compression, compress_course, history_by};
ghost use Rattle.flight_chain.specs.declared.fault.RecordFault.TheVariants.{CutRecord, SpareBit};

/// A recording of inputs is whole, and its walk has these inputs.
pub fn recordings_are_walked()
    ensures { (f : ℕ) (inputs : List (List Bool)) → 1 ≤ f → All (λ input. length input ≡ f) inputs
        → length inputs ≤ 4294967296 →
        recording_walk f (recording_of inputs)
        ≡ record { inputs = inputs; rest = []; ending = None } }
{}

/// The inputs of a walk are vectors of `f` places, and not too many. The recording of them, with the rest after it, is
/// the bytes, and the walk ends as that rest says.
pub fn recording_walks_are_exact()
    ensures places { (f : ℕ) (bytes : List ℕ) → 1 ≤ f → All (λ b. b < 256) bytes
        → All (λ input. length input ≡ f) (recording_walk f bytes).inputs }
    ensures few { (f : ℕ) (bytes : List ℕ) → 1 ≤ f → All (λ b. b < 256) bytes
        → length (recording_walk f bytes).inputs ≤ 4294967296 }
    ensures joined { (f : ℕ) (bytes : List ℕ) → 1 ≤ f → All (λ b. b < 256) bytes →
        recording_of (recording_walk f bytes).inputs ++ (recording_walk f bytes).rest ≡ bytes }
    ensures ends { (f : ℕ) (bytes : List ℕ) → 1 ≤ f → All (λ b. b < 256) bytes →
        (recording_walk f bytes).ending
        ≡ ending_at f (length (recording_walk f bytes).inputs) (recording_walk f bytes).rest }
{}

/// The walk of a front of some bytes has a front of their inputs.
pub fn walks_of_front_recordings()
    ensures { (f : ℕ) (front rest : List ℕ) → 1 ≤ f →
        (later : List (List Bool))
        × ((recording_walk f (front ++ rest)).inputs ≡ (recording_walk f front).inputs ++ later) }
{}

/// One more step is one more Space Packet after the same store: what comes later changes no packet.
pub fn stores_grow()
    ensures { (h : History) (step : Step) (apid : ℕ) → store_of (with_step h step) apid
        ≡ store_of h apid ++ space_packet apid (length h.steps % period)
        (data_at (with_step h step) (length h.steps)) }
{}

/// The store of a valid history is whole: its walk has a Space Packet of the one shape for each step, with the step's number
/// as its count and the packet's bytes as its data.
pub fn stores_of_histories_are_walked()
    ensures { (chosen : Option ℕ) (h : History) (apid : ℕ) → IsValid h → apid ≤ 2046
        → walk chosen (store_of h apid)
        ≡ record {
          packets = map (λ t. plain_packet apid (t % period) (data_at h t))
              (range_with_len 0 (length h.steps));
          rest = [];
          ending = None;
        } }
{}

/// What a whole recording owes is the store of the history of its inputs.
pub fn whole_recordings_owe_their_store()
    ensures { (k : Compression) (inputs : List (List Bool)) → 1 ≤ k.places
        → All (λ input. length input ≡ k.places) inputs →
        length inputs ≤ 4294967296 →
        owed (compress_course k (recording_of inputs))
        ≡ to_output (store_of (history_by k inputs) k.apid) }
{}

/// If no row of the schedule gives a packet a required robustness, that of the command holds for all: the history and
/// the store are those of a schedule without such rows.
pub fn schedules_without_robustness()
    ensures history { (k : Compression) (inputs : List (List Bool))
        → ((t : ℕ) → t < length inputs → robust_of k.rows.robust t ≡ None) →
        history_by k inputs
        ≡ history_of inputs (flags_of k.rows.flags) (λ _. k.robust) k.places k.mask }
    ensures store { (k : Compression) (inputs : List (List Bool))
        → ((t : ℕ) → t < length inputs → robust_of k.rows.robust t ≡ None) →
        store_of (history_by k inputs) k.apid
        ≡ store_of (history_of inputs (flags_of k.rows.flags)
        (λ _. k.robust) k.places k.mask) k.apid }
{}

/// What a front of a recording owes is a front of what the recording owes before its end.
pub fn fronts_owe_fronts()
    ensures { (k : Compression) (front rest : List ℕ) → 1 ≤ k.places →
        AreFronts (compress_course k front).before (compress_course k (front ++ rest)).before }
{}

/// Walks over worked recordings.
pub fn worked_recordings()
    ensures whole { recording_walk 8 (0xB0 ∷ 0xB1 ∷ [])
        ≡ input_first (bits_of (0xB0 ∷ [])) (input_first (bits_of (0xB1 ∷ [])) walked) }
    ensures empty { recording_walk 13 [] ≡ walked }
    // 13 places have two bytes, whose last three bits are spare.
    ensures cut { recording_walk 13 (0x12 ∷ 0x38 ∷ 0x12 ∷ [])
        ≡ input_first (take 13 (bits_of (0x12 ∷ 0x38 ∷ [])))
        (stopped_at (CutRecord 1) (0x12 ∷ [])) }
    ensures spare { recording_walk 13 (0x12 ∷ 0x39 ∷ 0x12 ∷ [])
        ≡ stopped_at (SpareBit 0) (0x12 ∷ 0x39 ∷ 0x12 ∷ []) }
{}
