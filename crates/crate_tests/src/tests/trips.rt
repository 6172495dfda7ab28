//! A first packet, read back.

ghost use Rattle.std.specs.Prelude.{◌≡◌, length, IfOk};

use super::bytes::byte;
use bit_vectors::{Bits, NoMemory};
use round_trip::carry_first;
use std::alloc::Global;
use std::test::Fail;

/// A vector of 8 places, from a byte.
fn vector(alloc: Global, byte: u8) -> Result<Bits, NoMemory>
    ensures { IfOk result (λ vector. length vector ≡ 8) }
{
    let mut vector = Bits::zeros(alloc, 8)?;
    let _ = vector.load(&[byte]);
    Ok(vector)
}

/// What a decoder shows that has read the first packet of this input: the content and its mask.
fn shown(alloc: Global, mask: &Bits, input: &Bits) -> Result<(u8, u8), NoMemory>
    requires mask { length mask.now ≡ 8 }
    requires input { length input.now ≡ 8 }
{
    let decoder = carry_first(alloc, 8, mask, input)?;
    Ok((byte(decoder.content()), byte(decoder.mask())))
}

fn carried(alloc: Global, mask: u8, input: u8) -> Result<(u8, u8), NoMemory> {
    let mask = vector(alloc, mask)?;
    let input = vector(alloc, input)?;
    shown(alloc, &mask, &input)
}

#[test]
fn a_first_packet(rt: HostRuntime) -> Result<(), Fail> {
    assert_eq!(rt; carried(rt.alloc(), 0x0F, 0xB0)?, (0xB0, 0x0F));
    Ok(())
}
