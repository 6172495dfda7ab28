//! What the definitions of checksums and frames mean.

ghost use Rattle.std.specs.Prelude.{◌≡◌, ℕ, List, codes};
ghost use Rattle.state_bytes.specs.Crc.{crc32};
ghost use Rattle.state_bytes.specs.Frames.{IsFrame};

/// The checksums of no byte and of the nine digits from 1 to 9.
pub fn worked_checksums()
    ensures none { crc32 (codes "") ≡ 0 }
    ensures digits { crc32 (codes "123456789") ≡ 3421780262 }
{}

/// Bytes are a state of at most one kind and one number of places, with one body.
pub fn states_are_of_one_kind()
    ensures { (bytes body other : List ℕ) (kind f k g : ℕ) → IsFrame bytes kind f body
        → IsFrame bytes k g other → (kind ≡ k) × (f ≡ g) × (body ≡ other) }
{}
