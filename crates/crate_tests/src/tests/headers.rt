//! Headers of Space Packets, worked out by hand.

use packet_store::{PERIOD, header_bytes, read_header};

// Headers: an APID, a count, a number of data bytes, and the six bytes.
const HEADERS: [(u16, u16, u32, [u8; 6]); 4] = [
    (100, 0, 4, [0x00, 0x64, 0xC0, 0x00, 0x00, 0x03]),
    (100, 1, 4, [0x00, 0x64, 0xC0, 0x01, 0x00, 0x03]),
    (100, 1, 1, [0x00, 0x64, 0xC0, 0x01, 0x00, 0x00]),
    (2047, 16_383, 65_536, [0x07, 0xFF, 0xFF, 0xFF, 0xFF, 0xFF]),
];

/// Whether the six bytes and the numbers of a row are each other's.
fn is_right(apid: u16, count: u16, size: u32, bytes: [u8; 6]) -> bool {
    let header = read_header(&bytes);
    apid <= 2047
        && u64::from(count) < PERIOD
        && size > 0
        && size <= 65_536
        && header_bytes(apid, count, size) == bytes
        && (header.version, header.sequence) == (0, 3)
        && !header.telecommand
        && !header.secondary
        && (header.apid, header.count) == (apid, count)
        && header.size() as u32 == size
}

#[test]
fn headers_both_ways(rt: HostRuntime) {
    for (apid, count, size, bytes) in HEADERS {
        assert!(rt; is_right(apid, count, size, bytes), "{bytes:?}");
    }
}
