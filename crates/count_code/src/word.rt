//! The word of a count as one number (CCSDS 124.0-B-1).

ghost use Rattle.std.specs.Prelude.{◌≡◌, ◌-◌, ◌+◌, ◌*◌, ◌^◌, ◌<◌, ◌≤◌};
ghost use Rattle.bit_vectors.specs.Vectors.{IsPlaces, number_bits};
ghost use Rattle.count_code.specs.Code.{digits, count_bits};

/// The bits of a number in some width, the bit of the greatest weight first.
#[derive(Clone, Copy, Debug)]
pub struct CountWord {
    pub value: u32,
    pub width: u32,
}

/// The most bits that the word of a count has.
pub const MOST_BITS: u32 = 29;

/// The word of a count, which is from 1 to 49,152.
pub fn count_word(a: u32) -> CountWord
    requires valid { IsPlaces a }
    ensures bits { number_bits result.width result.value ≡ count_bits a }
    ensures fits { result.value < 2 ^ result.width }
    ensures some { 1 ≤ result.width }
    ensures most { result.width ≤ 29 }
{
    match a {
        1 => CountWord { value: 0, width: 1 },
        2..=33 => CountWord {
            value: (0b110 << 5) + (a - 2),
            width: 8,
        },
        _ => {
            let width = number_width(a - 2);
            CountWord {
                value: (0b111 << width) + (a - 2),
                width: 3 + width,
            }
        }
    }
}

/// The width in which a number of six binary digits or more is written.
fn number_width(number: u32) -> u32
    requires least { 32 ≤ number }
    requires most { number ≤ 49150 }
    ensures width { result ≡ 2 * digits number - 6 }
    ensures fits { number < 2 ^ result }
    ensures most { result ≤ 26 }
{
    2 * (number.ilog2() + 1) - 6
}
