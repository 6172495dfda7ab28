//! Numbers out of vectors.

ghost use Rattle.std.specs.Prelude.{◌≡◌, ◌^◌, ◌<◌, length, unsigned_abs};
ghost use Rattle.param_table.specs.Cells.{cell_in};
ghost use Rattle.param_table.specs.Rows.{IsField};

use bit_vectors::Bits;

/// The number of `width` bits, 1 to 64, that begins at a place of a packet's vector, the bit of the greatest weight first.
/// A signed one whose first bit is 1 is less by 2 to the power `width`. It looks at the one or two words of the vector that
/// have the bits, and takes no memory.
pub fn cell(packet: &Bits, place: u32, width: u32, signed: bool) -> i128
    requires { IsField (length packet.now) place width }
    ensures value { result ≡ cell_in packet.now place width signed }
    ensures small { unsigned_abs result < 2 ^ 64 }
{
    let skipped = place % 64;
    let first = packet.word(place / 64) << skipped;
    let word = if skipped + width <= 64 {
        first
    } else {
        first | (packet.word(place / 64 + 1) >> (64 - skipped))
    };
    let number = word >> (64 - width);
    if signed && word >> 63 == 1 {
        i128::from(number) - 2 * i128::from(1u64 << (width - 1))
    } else {
        i128::from(number)
    }
}
