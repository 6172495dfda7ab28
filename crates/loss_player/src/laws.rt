//! What the definitions of played stores and their reports mean.

ghost use Rattle.std.specs.Prelude.{◌≡◌, ◌↔◌, ◌^◌, ◌≤◌, ◌<◌, ◌++◌, ◌∷◌, ℕ, List, [], length, not, None, Some, All, codes};
ghost use Rattle.std.specs.List.{filter};
ghost use Rattle.desk_ports.specs.Courses.{AreFronts, owed, to_output, to_report};
ghost use Rattle.side_tables.specs.Rows.{copies_of};
ghost use Rattle.packet_store.specs.SpacePackets.{is_chosen};
ghost use Rattle.packet_store.specs.Walks.{walk};
ghost use Rattle.loss_player.specs.Played.{played_bytes, played_of, played_packets, store_numbers, AreGapsShort, TellsShortGaps};
ghost use Rattle.loss_player.specs.Copied.{copied_from};
ghost use Rattle.loss_player.specs.Report.{header_row, play_report};
ghost use Rattle.loss_player.specs.Playing.{play_course};
ghost use Rattle.loss_player.specs.Worked.{copies_row, worked_store};

use packet_store::WalkFault;

/// If each packet arrives once, the played store is the store, up to where its walk ends. A script without rows
/// says so.
pub fn undisturbed_stores_are_unchanged()
    ensures unchanged { (copies : ℕ → ℕ) (apid : ℕ) (store : List ℕ) → ((t : ℕ) → copies t ≡ 1)
        → All (λ b. b < 256) store →
        played_bytes copies apid store ++ (walk (Some apid) store).rest ≡ store }
    ensures no_rows { (t : ℕ) → copies_of [] t ≡ 1 }
{}

/// The packets of the chosen APID arrive in their order, each as often as its number says, and all others once.
pub fn packets_arrive_by_their_copies()
    ensures chosen { (copies : ℕ → ℕ) (apid : ℕ) (store : List ℕ) →
        filter (λ p. is_chosen (Some apid) p.header) (played_packets copies apid store)
        ≡ copied_from copies 0
        (filter (λ p. is_chosen (Some apid) p.header) (walk (Some apid) store).packets) }
    ensures others { (copies : ℕ → ℕ) (apid : ℕ) (store : List ℕ) →
        filter (λ p. not (is_chosen (Some apid) p.header)) (played_packets copies apid store)
        ≡ filter (λ p. not (is_chosen (Some apid) p.header)) (walk (Some apid) store).packets }
{}

/// A played store is whole, and its walk has the packets that arrive, in their order. More packets than a store may have
/// are too many.
pub fn played_stores_are_walked()
    ensures whole { (copies : ℕ → ℕ) (apid : ℕ) (store : List ℕ) → All (λ b. b < 256) store
        → length (played_packets copies apid store) ≤ 2 ^ 32
        → walk (Some apid) (played_bytes copies apid store)
        ≡ record { packets = played_packets copies apid store; rest = []; ending = None } }
    ensures too_many { (copies : ℕ → ℕ) (apid : ℕ) (store : List ℕ) → All (λ b. b < 256) store
        → 2 ^ 32 < length (played_packets copies apid store)
        → (walk (Some apid) (played_bytes copies apid store)).ending ≡ Some WalkFault.TooMany }
{}

/// What a whole store owes is the played store, and then the report of its numbers.
pub fn whole_stores_owe_their_report()
    ensures { (copies : ℕ → ℕ) (apid : ℕ) (store : List ℕ) → (walk (Some apid) store).ending ≡ None
        →
        owed (play_course copies apid store)
        ≡ to_output (played_bytes copies apid store)
        ++ to_report (play_report (store_numbers copies apid store)) }
{}

/// What a front of a store owes before its end is a front of what the store owes before its end.
pub fn fronts_owe_fronts()
    ensures { (copies : ℕ → ℕ) (apid : ℕ) (front rest : List ℕ) → All (λ b. b < 256) front →
        AreFronts (play_course copies apid front).before
        (play_course copies apid (front ++ rest)).before }
{}

/// The report tells whether each gap is shorter than the period of the sequence counts: exactly then the first delivered
/// number and the widest difference are below it.
pub fn short_gaps_are_told()
    ensures { (copies : ℕ → ℕ) (n : ℕ)
        → AreGapsShort copies n ↔ TellsShortGaps (played_of copies n) }
{}

/// Worked reports: of some packets, by the rows of a script.
pub fn worked_reports()
    // Four packets, of which the third is dropped.
    ensures dropped { play_report (played_of (copies_of (copies_row 2 2 0 ∷ [])) 4)
        ≡ header_row ++ codes "4,3,1,0,0,2\n" }
    // Nine copies of each.
    ensures repeated { play_report (played_of (copies_of (copies_row 0 3 9 ∷ [])) 4)
        ≡ header_row ++ codes "4,4,0,32,0,1\n" }
    // No packet.
    ensures empty { play_report (played_of (copies_of []) 0) ≡ header_row ++ codes "0,0,0,0,-,0\n" }
    // A gap that is one less than the period of the sequence counts.
    ensures short { play_report (played_of (copies_of (copies_row 6 16387 0 ∷ [])) 16389)
        ≡ header_row ++ codes "16389,7,16382,0,0,16383\n" }
    // One that is as long as the period.
    ensures long { play_report (played_of (copies_of (copies_row 6 16388 0 ∷ [])) 16390)
        ≡ header_row ++ codes "16390,7,16383,0,0,16384\n" }
    // The last packet alone arrives.
    ensures late { play_report (played_of (copies_of (copies_row 0 16382 0 ∷ [])) 16384)
        ≡ header_row ++ codes "16384,1,16383,0,16383,0\n" }
{}

/// A worked store for the APID 100, with packets of other APIDs and with a sequence count that comes again: its second
/// packet is dropped, and the third arrives twice.
pub fn worked_stores()
    ensures played { played_bytes
        (copies_of (copies_row 1 1 0 ∷ copies_row 2 2 2 ∷ [])) 100 worked_store
        ≡ (0x00 ∷ 0x64 ∷ 0xC0 ∷ 0x07 ∷ 0x00 ∷ 0x00 ∷ 0xA0
        ∷ 0x00 ∷ 0x65 ∷ 0xC0 ∷ 0x07 ∷ 0x00 ∷ 0x00 ∷ 0xB0
        ∷ 0x07 ∷ 0xFF ∷ 0xC0 ∷ 0x00 ∷ 0x00 ∷ 0x00 ∷ 0xB1
        ∷ 0x00 ∷ 0x64 ∷ 0xC0 ∷ 0x09 ∷ 0x00 ∷ 0x00 ∷ 0xA2
        ∷ 0x00 ∷ 0x64 ∷ 0xC0 ∷ 0x09 ∷ 0x00 ∷ 0x00 ∷ 0xA2 ∷ []) }
    ensures numbers { store_numbers
        (copies_of (copies_row 1 1 0 ∷ copies_row 2 2 2 ∷ [])) 100 worked_store
        ≡ record {
          packets = 3;
          delivered = 2;
          dropped = 1;
          repeats = 1;
          first = Some 0;
          widest = 2;
        } }
{}
