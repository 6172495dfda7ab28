//! The primary header of a Space Packet.

ghost use Rattle.std.specs.Prelude.{◌≡◌, ◌+◌, ◌<◌, ◌≤◌, length, take};
ghost use Rattle.packet_store.specs.SpacePackets.{IsHeader, header_of, header_bytes, is_chosen, is_misshapen, period};

/// The bytes of a primary header.
pub const HEADER_BYTES: usize = 6;

/// The period of the sequence counts: they run from 0 to 16,383, and after the last comes 0 again.
pub const PERIOD: u64 = 16_384;

/// The value of the sequence flags for a packet that is not segmented.
pub const UNSEGMENTED: u8 = 3;

/// The primary header of a Space Packet (CCSDS 133.0-B-2): 48 bits, the most significant first.
#[derive(Clone, Copy, Debug, PartialEq, Eq)]
pub struct Header {
    /// The packet version number, 3 bits.
    pub version: u8,
    /// The packet type: telecommand or telemetry.
    pub telecommand: bool,
    /// A secondary header is at the front of the data.
    pub secondary: bool,
    /// The application process identifier, 11 bits.
    pub apid: u16,
    /// The sequence flags, 2 bits.
    pub sequence: u8,
    /// The packet sequence count, 14 bits.
    pub count: u16,
    /// The number of data bytes less one.
    pub length: u16,
}

impl Header {
    /// The number of data bytes.
    pub fn size(&self) -> usize
        ensures { result ≡ self.now.length + 1 }
    {
        usize::from(self.length) + 1
    }

    /// Whether it has the chosen APID, if one is chosen.
    pub fn is_chosen(&self, chosen: Option<u16>) -> bool
        ensures { result ≡ is_chosen chosen self.now }
    {
        match chosen {
            Some(apid) => self.apid == apid,
            None => false,
        }
    }

    /// Whether it has the chosen APID and is not the header of an unsegmented telemetry packet with no
    /// secondary header.
    pub fn is_misshapen(&self, chosen: Option<u16>) -> bool
        ensures { result ≡ is_misshapen chosen self.now }
    {
        self.is_chosen(chosen)
            && (self.telecommand || self.secondary || self.sequence != UNSEGMENTED)
    }
}

/// The primary header of an unsegmented telemetry packet of version 0, with no secondary header
/// and `size` data bytes.
pub fn header_bytes(apid: u16, count: u16, size: u32) -> [u8; HEADER_BYTES]
    requires apid_bits { apid ≤ 2047 }
    requires count_bits { count < period }
    requires some { 1 ≤ size }
    requires most { size ≤ 65536 }
    ensures { result ≡ header_bytes apid count size }
{
    let [apid_high, apid_low] = apid.to_be_bytes();
    let [count_high, count_low] = count.to_be_bytes();
    let [length_high, length_low] = ((size - 1) as u16).to_be_bytes();
    [
        apid_high,
        apid_low,
        UNSEGMENTED << 6 | count_high,
        count_low,
        length_high,
        length_low,
    ]
}

/// The fields of a primary header.
pub fn read_header(bytes: &[u8; HEADER_BYTES]) -> Header
    ensures fields { IsHeader result }
    ensures spelled { header_of result ≡ bytes.now }
{
    Header {
        version: bytes[0] >> 5,
        telecommand: bytes[0] >> 4 & 1 == 1,
        secondary: bytes[0] >> 3 & 1 == 1,
        apid: u16::from_be_bytes([bytes[0] & 0b111, bytes[1]]),
        sequence: bytes[2] >> 6,
        count: u16::from_be_bytes([bytes[2] & 0b11_1111, bytes[3]]),
        length: u16::from_be_bytes([bytes[4], bytes[5]]),
    }
}

/// The header that some bytes begin with.
pub fn first_header(bytes: &[u8]) -> Header
    requires { 6 ≤ length bytes.now }
    ensures fields { IsHeader result }
    ensures spelled { take 6 bytes.now ≡ header_of result }
{
    read_header(&[bytes[0], bytes[1], bytes[2], bytes[3], bytes[4], bytes[5]])
}
