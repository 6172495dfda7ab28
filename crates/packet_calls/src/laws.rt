//! What the calls mean for the two ends of a link: the packets are those of a store, and the verdicts those of its restoring.

ghost use Rattle.std.specs.Prelude.{◌≡◌, ◌<◌, ◌%◌, ◌++◌, ◌∷◌, [], ℕ, Bool, true, List, Option, Some, None, length, map, IfSome};
ghost use Rattle.bit_vectors.specs.declared.flags.Flags.{Flags as Given};
ghost use Rattle.bit_vectors.specs.Vectors.{AreBytes, vector_bytes};
ghost use Rattle.mask_update.specs.Histories.{History, IsValid, history_of, input_at, no_steps};
ghost use Rattle.packet_decode.specs.State.{is_content_told, true_state};
ghost use Rattle.packet_encode.specs.Deliveries.{WrittenAt, arrivals};
ghost use Rattle.packet_encode.specs.Encoder.{EncoderState, StandsFor};
ghost use Rattle.packet_encode.specs.Forms.{with_next_input};
ghost use Rattle.packet_store.specs.SpacePackets.{period, space_packet};
ghost use Rattle.packet_store.specs.Walks.{walk};
ghost use Rattle.desk_ports.specs.Courses.{owed, texts_of};
ghost use Rattle.flight_chain.specs.Compressing.{data_at, store_of};
ghost use Rattle.loss_player.specs.Played.{AreGapsShort};
ghost use Rattle.ground_chain.specs.Deliveries.{arrival_at};
ghost use Rattle.ground_chain.specs.Run.{number_after, Arrival, run};
ghost use Rattle.ground_chain.specs.Reception.{next_judged, HasJudged, Reckoning, next_run};
ghost use Rattle.packet_calls.specs.States.{AreOfReceiver, AreOfSender, IsReceiverState, IsSenderState, receiver_state, sender_state};
ghost use Rattle.ground_chain.specs.Report.{restored_of, run_bytes, run_report, run_rows, verdict_rows, written_bytes};
ghost use Rattle.ground_chain.specs.Restoring.{arrivals_of, restore_course};
ghost use Rattle.packet_calls.specs.Sending.{HasByteCount, HasSpareBit, vector_in};

use ground_chain::Kind;

/// The packets that a sender makes are those of a store: what it is given is a history, to which each input adds a step, and
/// the store of a history has the Space Packets of all its packets in order. Inputs that take their flags and required
/// robustness from a schedule are the history that `compress` makes the store of.
pub fn sent_packets_are_stored()
    ensures none { (mask : List Bool) (apid : ℕ) → store_of (no_steps mask) apid ≡ [] }
    ensures one_more { (h : History) (robust : ℕ) (input : List Bool) (flags : Given) (apid : ℕ) →
        store_of (with_next_input h robust input flags) apid
        ≡ store_of h apid ++ space_packet apid (length h.steps % period)
        (data_at (with_next_input h robust input flags) (length h.steps)) }
    ensures first { (flags : ℕ → Given) (robust : ℕ → ℕ) (f : ℕ) (mask : List Bool) → length mask ≡ f
        → history_of [] flags robust f mask ≡ no_steps mask }
    ensures by_schedule { (inputs : List (List Bool)) (flags : ℕ → Given) (robust : ℕ → ℕ) (f : ℕ)
        (mask input : List Bool) → let t = length inputs in
        history_of (inputs ++ input ∷ []) flags robust f mask
        ≡ with_next_input (history_of inputs flags robust f mask) (robust t) input (flags t) }
{}

/// The verdicts of a receiver are those of restoring: each is the next one of the run over what arrived, and adds its rows to
/// the report, its content to the restored packets and itself to the numbers.
pub fn verdicts_are_those_of_restoring()
    ensures next { (f count : ℕ) (body : List ℕ) (arrivals : List Arrival) (r : Reckoning)
        → HasJudged f arrivals r →
        run f (arrivals ++ record { count = count; body = body } ∷ [])
        ≡ run f arrivals ++ next_judged r.reception count body ∷ [] }
    ensures rows { (f count : ℕ) (body : List ℕ) (arrivals : List Arrival) (r : Reckoning)
        → HasJudged f arrivals r →
        run_rows (run f (arrivals ++ record { count = count; body = body } ∷ []))
        ≡ run_rows (run f arrivals) ++ verdict_rows (next_judged r.reception count body).verdict }
    ensures contents { (f count : ℕ) (body : List ℕ) (arrivals : List Arrival) (r : Reckoning)
        → HasJudged f arrivals r →
        run_bytes (run f (arrivals ++ record { count = count; body = body } ∷ []))
        ≡ run_bytes (run f arrivals) ++ written_bytes (next_judged r.reception count body) }
    ensures numbers { (f : ℕ) (arrivals : List Arrival) (r : Reckoning) → HasJudged f arrivals r →
        r.restored ≡ restored_of (run f arrivals) }
    ensures restore { (f apid : ℕ) (store : List ℕ) → (walk (Some apid) store).ending ≡ None →
        let judged = run f (arrivals_of (Some apid) (walk (Some apid) store).packets) in
        texts_of (owed (restore_course f apid store))
        ≡ record { output = run_bytes judged; report = run_report judged } }
{}

/// What is received of what was sent is what was put in. A receiver that knows the mask and the content of earlier packets of
/// a history writes each packet that carries its whole content, or whose mask is known and whose effective robustness level
/// reaches the known content: its number is that of the packet, and its content the input.
pub fn sent_inputs_are_received()
    ensures { (h : History) (mask content : Option ℕ) (t : ℕ) (r : Reckoning) → IsValid h
        → t < length h.steps → IfSome mask (λ s. s < t) → IfSome content (λ s. s < t)
        → r.reception.decoder.places ≡ h.places
        → r.reception.decoder.state ≡ true_state h mask content
        → number_after r.reception.latest (t % period) ≡ Some t
        → is_content_told h mask content t ≡ true →
        let next = next_judged r.reception (t % period) (data_at h t) in
        (next.verdict.t ≡ t) × (next.verdict.kind ≡ Kind.Written)
        × (next.after.latest ≡ Some t) × (written_bytes next ≡ vector_bytes (input_at h t)) }
{}

/// The same of a whole link, on which each packet arrives so many times, with gaps that are shorter than the period of the
/// sequence counts: after all arrivals before it, the first copy of each packet that can be written is written as its input.
pub fn deliveries_are_received()
    ensures { (h : History) (copies : ℕ → ℕ) (t : ℕ) (r : Reckoning) → IsValid h
        → AreGapsShort copies (length h.steps) → t < length h.steps → WrittenAt h copies t
        → HasJudged h.places (map (arrival_at h) (arrivals copies t)) r →
        let next = next_judged r.reception (t % period) (data_at h t) in
        (next.verdict.t ≡ t) × (next.verdict.kind ≡ Kind.Written)
        × (written_bytes next ≡ vector_bytes (input_at h t)) }
{}

/// The bytes of a vector that fit, with no spare bit, are those that were given.
pub fn vectors_are_their_bytes()
    ensures { (f : ℕ) (bytes : List ℕ) → AreBytes bytes → HasByteCount f bytes
        → (HasSpareBit f bytes → ⊥) → vector_bytes (vector_in f bytes) ≡ bytes }
{}

/// A state of a receiver is that of one value: receivers with one state hold the same, and each state of a receiver is taken up.
pub fn receivers_are_their_states()
    ensures same { (f : ℕ) (a b : Reckoning) → IsReceiverState f a → IsReceiverState f b
        → receiver_state a ≡ receiver_state b → a ≡ b }
    ensures taken { (f : ℕ) (r : Reckoning) → IsReceiverState f r → AreOfReceiver f (receiver_state r) }
{}

/// A receiver that took up a state goes on as the saved one would: it answers any arrivals alike, and the verdicts are those of
/// a run over all arrivals, before the state was saved and after it was taken up.
pub fn loaded_receivers_go_on()
    ensures answers { (f : ℕ) (saved loaded : Reckoning) (arrivals : List Arrival) → IsReceiverState f saved
        → IsReceiverState f loaded → receiver_state loaded ≡ receiver_state saved
        → next_run loaded arrivals ≡ next_run saved arrivals }
    ensures judged { (f : ℕ) (saved loaded : Reckoning) (arrivals : List Arrival) → IsReceiverState f saved
        → IsReceiverState f loaded → receiver_state loaded ≡ receiver_state saved
        → HasJudged f arrivals saved → HasJudged f arrivals loaded }
    ensures after { (f : ℕ) (before after : List Arrival) (saved : Reckoning) → HasJudged f before saved
        → run f (before ++ after) ≡ run f before ++ next_run saved after }
{}

/// A state of a sender is that of one value: senders with one state hold the same, and each state of a sender is taken up.
pub fn senders_are_their_states()
    ensures same { (f : ℕ) (a b : EncoderState) → IsSenderState f a → IsSenderState f b
        → sender_state a ≡ sender_state b → a ≡ b }
    ensures taken { (f : ℕ) (e : EncoderState) → IsSenderState f e → AreOfSender f (sender_state e) }
{}

/// A sender that took up a state goes on as the saved one would: it holds the same (`senders_are_their_states`), and stands for
/// each history for which that one stood.
pub fn loaded_senders_go_on()
    ensures { (f : ℕ) (saved loaded : EncoderState) (h : History) → IsSenderState f saved
        → IsSenderState f loaded → sender_state loaded ≡ sender_state saved
        → StandsFor h saved → StandsFor h loaded }
{}
