//! What the definitions of packets and walks mean.

ghost use Rattle.std.specs.Prelude.{◌≡◌, ◌+◌, ◌^◌, ◌<◌, ◌≤◌, ◌∷◌, [], ◌++◌, ℕ, List, Option, Some, None, All, length, map};
ghost use Rattle.packet_store.specs.SpacePackets.{Packet, IsPacket, packet_bytes, plain_packet, store_bytes};
ghost use Rattle.packet_store.specs.Walks.{IsGood, Good, front, walk, walk_from, packet_first, stopped_at, packets_bytes, ending_at};
ghost use Rattle.packet_store.specs.declared.fault.StoreKind.TheVariants.{Cut, Version, Shape};
ghost use Rattle.packet_store.specs.declared.fault.WalkFault.TheVariants.{Bad};

/// A good packet is read back, whatever follows it, and the walk goes on after it.
pub fn good_packets_are_walked()
    ensures read { (chosen : Option ℕ) (p : Packet) (rest : List ℕ) → IsGood chosen p
        → front chosen (packet_bytes p ++ rest) ≡ Good p rest }
    ensures walked { (chosen : Option ℕ) (taken offset : ℕ) (p : Packet) (rest : List ℕ)
        → IsGood chosen p → taken < 2 ^ 32
        → walk_from chosen taken offset (packet_bytes p ++ rest)
        ≡ packet_first p (walk_from chosen (taken + 1) (offset + length (packet_bytes p)) rest) }
{}

/// Bytes that are read as a good packet begin with that packet.
pub fn only_good_packets_are_read()
    ensures { (chosen : Option ℕ) (bytes : List ℕ) (p : Packet) (rest : List ℕ)
        → All (λ b. b < 256) bytes
        → front chosen bytes ≡ Good p rest → IsGood chosen p × (bytes ≡ packet_bytes p ++ rest) }
{}

/// No good packet begins another one: what follows two packets says nothing about them.
pub fn packets_are_told_apart()
    ensures { (chosen : Option ℕ) (p q : Packet) (rest other_rest : List ℕ) → IsGood chosen p
        → IsGood chosen q
        → packet_bytes p ++ rest ≡ packet_bytes q ++ other_rest → (p ≡ q) × (rest ≡ other_rest) }
{}

/// A store of packets of this one shape is whole, and its walk has these packets in their order.
pub fn stores_are_walked()
    ensures { (chosen : Option ℕ) (apid : ℕ) (packets : List (ℕ × List ℕ))
        → All (λ p. IsPacket apid p.0 p.1) packets
        → length packets ≤ 2 ^ 32
        → walk chosen (store_bytes apid packets)
        ≡ record {
          packets = map
              (λ p. plain_packet apid p.0 p.1) packets;
          rest = [];
          ending = None;
        } }
{}

/// The packets of a walk are good ones, and not too many. Joined again, with the rest after them, they
/// are the bytes, and the walk ends as that rest says, at the offset of its first byte.
pub fn walks_are_exact()
    ensures good { (chosen : Option ℕ) (bytes : List ℕ) → All (λ b. b < 256) bytes
        → All (IsGood chosen) (walk chosen bytes).packets }
    ensures few { (chosen : Option ℕ) (bytes : List ℕ) → All (λ b. b < 256) bytes
        → length (walk chosen bytes).packets ≤ 2 ^ 32 }
    ensures joined { (chosen : Option ℕ) (bytes : List ℕ) → All (λ b. b < 256) bytes
        → packets_bytes (walk chosen bytes).packets ++ (walk chosen bytes).rest ≡ bytes }
    ensures ends { (chosen : Option ℕ) (bytes : List ℕ) → All (λ b. b < 256) bytes
        → (walk chosen bytes).ending ≡ ending_at chosen (length (walk chosen bytes).packets)
        (length (packets_bytes (walk chosen bytes).packets)) (walk chosen bytes).rest }
{}

/// The walk over a prefix of some bytes has a prefix of their packets.
pub fn walks_of_fronts()
    ensures { (chosen : Option ℕ) (bytes more : List ℕ) → All (λ b. b < 256) bytes
        → (later : List Packet)
        × ((walk chosen (bytes ++ more)).packets ≡ (walk chosen bytes).packets ++ later) }
{}

/// Walks over worked stores, for the APID 100.
pub fn worked_walks()
    // a packet, and a header that is cut
    ensures cut { walk (Some 100)
        (0x00 ∷ 0x64 ∷ 0xC0 ∷ 0x00 ∷ 0x00 ∷ 0x03 ∷ 0x85 ∷ 0xB8 ∷ 0xC0 ∷ 0x00 ∷ 0x00 ∷ 0x64 ∷ 0xC0
        ∷ [])
        ≡ packet_first (plain_packet 100 0 (0x85 ∷ 0xB8 ∷ 0xC0 ∷ 0x00 ∷ []))
        (stopped_at (Bad 10 Cut) (0x00 ∷ 0x64 ∷ 0xC0 ∷ [])) }

    // a packet that claims one byte more than there is
    ensures cut_by_one { walk (Some 100) (0x00 ∷ 0x64 ∷ 0xC0 ∷ 0x00 ∷ 0x00 ∷ 0x01 ∷ 0x85 ∷ [])
        ≡ stopped_at (Bad 0 Cut) (0x00 ∷ 0x64 ∷ 0xC0 ∷ 0x00 ∷ 0x00 ∷ 0x01 ∷ 0x85 ∷ []) }
    ensures version { walk (Some 100) (0x20 ∷ 0x64 ∷ 0xC0 ∷ 0x00 ∷ 0x00 ∷ 0x00 ∷ 0x00 ∷ [])
        ≡ stopped_at (Bad 0 Version) (0x20 ∷ 0x64 ∷ 0xC0 ∷ 0x00 ∷ 0x00 ∷ 0x00 ∷ 0x00 ∷ []) }

    // a segment, which is cut too
    ensures shape { walk (Some 100) (0x00 ∷ 0x64 ∷ 0x00 ∷ 0x00 ∷ 0x00 ∷ 0x00 ∷ [])
        ≡ stopped_at (Bad 0 Shape) (0x00 ∷ 0x64 ∷ 0x00 ∷ 0x00 ∷ 0x00 ∷ 0x00 ∷ []) }

    // the same if no APID is chosen
    ensures any_shape { walk None (0x00 ∷ 0x64 ∷ 0x00 ∷ 0x00 ∷ 0x00 ∷ 0x00 ∷ [])
        ≡ stopped_at (Bad 0 Cut) (0x00 ∷ 0x64 ∷ 0x00 ∷ 0x00 ∷ 0x00 ∷ 0x00 ∷ []) }

    // a segmented telecommand packet of another APID with a secondary header, an idle packet, and a packet of another
    // version
    ensures passed { (walk (Some 100)
        (0x18 ∷ 0x65 ∷ 0x40 ∷ 0x05 ∷ 0x00 ∷ 0x00 ∷ 0xFF ∷ 0x07 ∷ 0xFF ∷ 0xC0 ∷ 0x00 ∷ 0x00 ∷ 0x00
        ∷ 0x00 ∷ 0x27 ∷ 0xFF ∷ 0xC0 ∷ 0x00 ∷ 0x00 ∷ 0x00 ∷ 0x00 ∷ [])).ending
        ≡ Some (Bad 14 Version) }
{}
