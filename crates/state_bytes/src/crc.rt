//! The checksum of bytes.

ghost use Rattle.std.specs.Prelude.{◌≡◌};
ghost use Rattle.state_bytes.specs.Crc.{crc32, crc_byte, crc_step};

/// The polynomial of the checksum, the coefficient of the greatest power but one in the lowest bit.
const POLYNOMIAL: u32 = 0xedb8_8320;

/// The CRC-32 of these bytes, as zlib reckons it.
pub fn crc32(bytes: &[u8]) -> u32
    ensures { result ≡ crc32 bytes.now }
{
    let mut sum = u32::MAX;
    for byte in bytes {
        sum = with_byte(sum, *byte);
    }
    sum ^ u32::MAX
}

/// The sum with a byte more.
fn with_byte(sum: u32, byte: u8) -> u32
    ensures { result ≡ crc_byte sum byte }
{
    let sum = two_steps(two_steps(sum ^ u32::from(byte)));
    two_steps(two_steps(sum))
}

/// The sum two bits on.
fn two_steps(sum: u32) -> u32
    ensures { result ≡ crc_step (crc_step sum) }
{
    step(step(sum))
}

/// The sum a bit on.
fn step(sum: u32) -> u32
    ensures { result ≡ crc_step sum }
{
    if sum % 2 == 1 {
        sum / 2 ^ POLYNOMIAL
    } else {
        sum / 2
    }
}
