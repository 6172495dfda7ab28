//! The first mask, which hexadecimal digits denote.
ghost use Rattle.std.specs.Prelude.{◌≡◌, ◌≤◌, false, length, take, IfOk, IfSome};
ghost use Rattle.std.specs.Option.{option_map};
ghost use Rattle.bit_vectors.specs.Vectors.{IsPlaces, byte_count, has_spare_bit};
ghost use Rattle.pocket_cmd.specs.Masks.{first_mask, mask_bytes};

use bit_vectors::{BitEye, Bits, NoMemory, byte_len};
use std::alloc::Global;

/// The bytes of a vector of the most places.
const MOST_MASK_BYTES: usize = 6144;

/// The vector of so many places that a text denotes, zero if there is no text or it denotes none.
pub fn first_mask(alloc: Global, bits: u32, text: Option<&str>) -> Result<Bits, NoMemory>
    requires { IsPlaces bits }
    ensures mask { IfOk result
        (λ mask. mask ≡ first_mask bits (option_map (λ text. text.now) text.entry)) }
    ensures places { IfOk result (λ mask. length mask ≡ bits) }
{
    let mut mask = Bits::zeros(alloc, bits)?;
    let Some(text) = text else {
        return Ok(mask);
    };
    if let Some(bytes) = mask_bytes(bits, text) {
        let _ = mask.load(&bytes[..byte_len(bits) as usize]);
    }
    Ok(mask)
}

/// The bytes of the vector of so many places that a text denotes, two digits of either case for each, whose spare bits are
/// 0; and zeros after them.
pub fn mask_bytes(bits: u32, text: &str) -> Option<[u8; MOST_MASK_BYTES]>
    requires { IsPlaces bits }
    ensures bytes { option_map (take (byte_count bits)) result ≡ mask_bytes bits text.now }
    ensures spare { IfSome result
        (λ bytes. has_spare_bit bits (take (byte_count bits) bytes) ≡ false) }
{
    let mut bytes = [0; MOST_MASK_BYTES];
    let front = &mut bytes[..byte_len(bits) as usize];
    hex::decode_to_slice(text, front).ok()?;
    if has_spare_bit(bits, front) {
        return None;
    }
    Some(bytes)
}

/// Whether a bit after the first `f` is 1.
fn has_spare_bit(f: u32, bytes: &[u8]) -> bool
    requires few { length bytes.now ≤ 65536 }
    ensures { result ≡ has_spare_bit f bytes.now }
{
    let mut eye = BitEye::new(bytes);
    'bits: while let Some(bit) = eye.take() {
        if bit && eye.at() > f {
            return true;
        }
    }
    false
}
