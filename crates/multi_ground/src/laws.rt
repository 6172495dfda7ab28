//! What the definitions of the streams in a store mean.

ghost use Rattle.std.specs.Prelude.{◌≡◌, ◌^◌, ◌<◌, ◌≤◌, ◌∷◌, ◌++◌, [], codes, ℕ, All, List, None, Some, length};
ghost use Rattle.desk_ports.specs.Courses.{AreFronts, owed, texts_of};
ghost use Rattle.std.specs.List.{flat_map};
ghost use Rattle.packet_store.specs.SpacePackets.{Packet};
ghost use Rattle.packet_store.specs.Walks.{IsGood, walk};
ghost use Rattle.side_tables.specs.declared.rows.StreamRow.{StreamRow};
ghost use Rattle.side_tables.specs.Streams.{AreStreams, stream_at};
ghost use Rattle.packet_encode.specs.Deliveries.{arrivals};
ghost use Rattle.flight_chain.specs.Compressing.{store_of};
ghost use Rattle.loss_player.specs.Played.{AreGapsShort, played_bytes};
ghost use Rattle.mask_update.specs.Histories.{History, IsValid};
ghost use Rattle.ground_chain.specs.Deliveries.{history_arrivals, report_text, restored_bytes};
ghost use Rattle.ground_chain.specs.Report.{end_row, header_row, restored_of, run_bytes, run_rows};
ghost use Rattle.ground_chain.specs.Run.{run};
ghost use Rattle.multi_ground.specs.Apart.{HasStream, arrivals_on, contents_on, judged_with, multi_report, packets_from, rows_on};
ghost use Rattle.multi_ground.specs.MultiOutputs.{multi_course, multi_header, multi_work, tagged_rows, written_packet};
ghost use Rattle.multi_ground.specs.MultiRun.{multi_run, stream_arrivals};
ghost use Rattle.multi_ground.specs.Worked.{two_streams, two_stream_store};

use packet_store::WalkFault;

/// No stream sees another: what is said of the arrivals of a stream is the run over these arrivals alone.
pub fn streams_are_apart()
    ensures { (streams : List StreamRow) (packets : List Packet) (index : ℕ) → AreStreams streams
        → index < length streams
        → judged_with (stream_at streams index).apid (multi_run streams packets)
        ≡ run (stream_at streams index).bits
        (stream_arrivals (stream_at streams index).apid packets) }
{}

/// The output is a store of Space Packets again: it is whole, and has one packet for each written arrival, in their order,
/// with the APID, the number by the period as the count, and the content as the data.
pub fn the_output_is_a_store()
    ensures { (streams : List StreamRow) (packets : List Packet) → AreStreams streams
        → All (IsGood None) packets → length packets ≤ 2 ^ 32
        → walk None (flat_map written_packet (multi_run streams packets))
        ≡ record {
          packets = packets_from (multi_run streams packets);
          rest = [];
          ending = None;
        } }
{}

/// The contents on the APID of a stream in the output are those of the run over its arrivals alone.
pub fn contents_are_apart()
    ensures { (streams : List StreamRow) (packets : List Packet) (index : ℕ) → AreStreams streams
        → All (IsGood None) packets → length packets ≤ 2 ^ 32 → index < length streams
        → contents_on (stream_at streams index).apid (flat_map written_packet (multi_run streams packets))
        ≡ run_bytes (run (stream_at streams index).bits
        (stream_arrivals (stream_at streams index).apid packets)) }
{}

/// The lines of a stream in the report of whole stores, without the APID and the comma, are the rows of the run over its
/// arrivals alone and its last row.
pub fn rows_are_apart()
    ensures { (streams : List StreamRow) (packets : List Packet) (index : ℕ) → AreStreams streams
        → All (IsGood None) packets → length packets ≤ 2 ^ 32 → index < length streams
        → let judged = run (stream_at streams index).bits
        (stream_arrivals (stream_at streams index).apid packets) in
        rows_on (stream_at streams index).apid (multi_report streams packets)
        ≡ run_rows judged ++ end_row (restored_of judged) }
{}

/// What a store owes before its end is the Space Packets of its written arrivals and, after the header, the rows of all. What a
/// whole store owes is these packets, a store again, and the report with its last rows, which have each stream by itself.
pub fn whole_stores_owe_each_stream()
    ensures before { (streams : List StreamRow) (store : List ℕ) →
        let judged = multi_run streams (walk None store).packets in
        texts_of (multi_course streams store).before
        ≡ record {
          output = flat_map written_packet judged;
          report = multi_header ++ flat_map tagged_rows judged;
        } }
    ensures texts { (streams : List StreamRow) (store : List ℕ) → (walk None store).ending ≡ None →
        let packets = (walk None store).packets in
        texts_of (owed (multi_course streams store))
        ≡ record {
          output = flat_map written_packet (multi_run streams packets);
          report = multi_report streams packets;
        } }
    ensures whole { (streams : List StreamRow) (store : List ℕ) → AreStreams streams
        → All (λ b. b < 256) store → (walk None store).ending ≡ None
        → (walk None (texts_of (owed (multi_course streams store))).output).ending ≡ None }
    ensures each { (streams : List StreamRow) (store : List ℕ) (index : ℕ) → AreStreams streams
        → All (λ b. b < 256) store → (walk None store).ending ≡ None → index < length streams
        → HasStream (stream_at streams index) store
        (texts_of (owed (multi_course streams store))).output
        (texts_of (owed (multi_course streams store))).report }
{}

/// What a front of a store owes before its end is a front of what the store owes before its end.
pub fn fronts_owe_fronts()
    ensures { (streams : List StreamRow) (front rest : List ℕ) → All (λ b. b < 256) front →
        AreFronts (multi_course streams front).before
        (multi_course streams (front ++ rest)).before }
{}

/// The played store of a valid history is whole in the walk for no APID too, and the arrivals on its APID are the packets of
/// the history, each as often as its copies say; more copies than a store may have packets are too many.
pub fn played_streams_arrive()
    ensures whole { (h : History) (copies : ℕ → ℕ) (apid : ℕ) → IsValid h → apid ≤ 2046
        → length (arrivals copies (length h.steps)) ≤ 2 ^ 32
        → (walk None (played_bytes copies apid (store_of h apid))).ending ≡ None }
    ensures arrive { (h : History) (copies : ℕ → ℕ) (apid : ℕ) → IsValid h → apid ≤ 2046
        → length (arrivals copies (length h.steps)) ≤ 2 ^ 32
        → arrivals_on apid (played_bytes copies apid (store_of h apid)) ≡ history_arrivals h copies }
    ensures too_many { (h : History) (copies : ℕ → ℕ) (apid : ℕ) → IsValid h → apid ≤ 2046
        → 2 ^ 32 < length (arrivals copies (length h.steps))
        → (walk None (played_bytes copies apid (store_of h apid))).ending ≡ Some WalkFault.TooMany }
{}

/// If the arrivals of a stream in a store, whatever other packets stand in it, are those of the played store of a valid
/// history, with gaps that are shorter than the period of the sequence counts, it is restored as that store alone would be:
/// its contents are the inputs of the packets that are written, and its lines, after the header of a report, the report of all
/// others.
pub fn played_streams_are_restored()
    ensures { (stream : StreamRow) (store output report : List ℕ) (h : History) (copies : ℕ → ℕ)
        → HasStream stream store output report → stream.apid ≤ 2046 → IsValid h
        → h.places ≡ stream.bits → AreGapsShort copies (length h.steps)
        → length (arrivals copies (length h.steps)) ≤ 2 ^ 32
        → arrivals_on stream.apid store
        ≡ arrivals_on stream.apid (played_bytes copies stream.apid (store_of h stream.apid))
        → (contents_on stream.apid output ≡ restored_bytes h copies)
        × (header_row ++ rows_on stream.apid report ≡ report_text h copies) }
{}

/// A worked store of two streams of 8 bits, with the APIDs 100 and 101: the second one's first packet comes late, and its
/// second one is segmented.
pub fn worked_streams()
    ensures output { (texts_of (owed (multi_course two_streams two_stream_store))).output
        ≡ 0x00 ∷ 0x64 ∷ 0xC0 ∷ 0x00 ∷ 0x00 ∷ 0x00 ∷ 0xB0 ∷ 0x00 ∷ 0x64 ∷ 0xC0 ∷ 0x01 ∷ 0x00 ∷ 0x00
        ∷ 0xB0 ∷ [] }
    ensures report { (texts_of (owed (multi_course two_streams two_stream_store))).report
        ≡ multi_header ++ codes
        "101,0,4,lost,0\n101,5,5,unsynced,0\n100,end,2,2,0\n101,end,1,0,0\nshape,1\n" }
    ensures written { (multi_work two_streams).answer two_stream_store ≡ 2 }
{}
