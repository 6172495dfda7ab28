//! The hexadecimal digits of bytes.

ghost use Rattle.std.specs.Prelude.{◌≡◌, ◌*◌, ◌/◌, ◌%◌, length, slice_index};
ghost use Rattle.hex.specs.Hex.{encode_lower, lower_digits};

/// Writes bytes in hexadecimal digits, two for each byte, of which the letters are small.
pub fn write_digits(bytes: &[u8], digits: &mut [u8])
    requires { length digits.old ≡ 2 * length bytes.now }
    ensures { digits.new ≡ encode_lower bytes.now }
{
    for index in 0..bytes.len() {
        let [high, low] = digits_of(bytes[index]);
        digits[2 * index] = high;
        digits[2 * index + 1] = low;
    }
}

/// The two hexadecimal digits of a byte. They are reckoned in one number and not looked up, so that many can be made at once.
fn digits_of(byte: u8) -> [u8; 2]
    ensures high { slice_index result 0 ≡ slice_index lower_digits (byte / 16) }
    ensures low { slice_index result 1 ≡ slice_index lower_digits (byte % 16) }
{
    let halves = u16::from(byte >> 4) + 256 * u16::from(byte & 15);
    let letters = (halves + 0x0606) >> 4 & 0x0101;
    (halves + 0x3030 + 39 * letters).to_le_bytes()
}
