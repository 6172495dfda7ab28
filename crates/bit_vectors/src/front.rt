//! The front of bytes as a word of 64 bits.

ghost use Rattle.std.specs.Prelude.{◌≡◌, ◌<◌, length, slice_index};
ghost use Rattle.bit_vectors.specs.Vectors.{bits_of};
ghost use Rattle.bit_vectors.specs.Reading.{Shows};

/// The first 64 bits, with zeros after the end.
pub fn front_word(bytes: &[u8]) -> u64
    ensures { Shows (bits_of bytes.now) result }
{
    match bytes.first_chunk::<8>() {
        Some(front) => u64::from_be_bytes(*front),
        None => short_word(bytes),
    }
}

/// The bits of fewer than eight bytes, with zeros after them.
fn short_word(bytes: &[u8]) -> u64
    requires { length bytes.now < 8 }
    ensures { Shows (bits_of bytes.now) result }
{
    u64::from_be_bytes([
        byte_or_zero(bytes, 0),
        byte_or_zero(bytes, 1),
        byte_or_zero(bytes, 2),
        byte_or_zero(bytes, 3),
        byte_or_zero(bytes, 4),
        byte_or_zero(bytes, 5),
        byte_or_zero(bytes, 6),
        0,
    ])
}

/// The byte with this number, or 0 after the end.
fn byte_or_zero(bytes: &[u8], index: usize) -> u8
    ensures { result ≡ slice_index bytes.now index }
{
    bytes.get(index).copied().unwrap_or(0)
}
