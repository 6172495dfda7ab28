//! The worked recording of eight bits a packet, and the Space Packets that carry it at robustness 1.

/// A recording of four packets.
pub const RECORDING: &[u8] = &[0xB0, 0xB1, 0xB1, 0xB3];

/// Its first packet carries mask and whole content, as the second does.
pub const FIRST: &str = "00 64 C0 00 00 03 85 B8 D6 00";

pub const SECOND: &str = "00 64 C0 01 00 03 42 4B 8D 62";

pub const THIRD: &str = "00 64 C0 02 00 01 44 C0";

pub const FOURTH: &str = "00 64 C0 03 00 02 C0 85 C0";

/// Packets by their names: those of the recording; one with the mask and the whole content of the first, and the count
/// 16,383; packets that change nothing; an idle packet; a telecommand of another APID; a first segment of another APID,
/// with a secondary header; and one of the chosen APID with no data that `restore` would take.
static NAMED: [(&str, &str); 12] = [
    ("FIRST", FIRST),
    ("SECOND", SECOND),
    ("THIRD", THIRD),
    ("FOURTH", FOURTH),
    ("LAST_COUNT", "00 64 FF FF 00 03 85 B8 D6 00"),
    ("COUNT_0", "00 64 C0 00 00 00 82"),
    ("COUNT_1", "00 64 C0 01 00 00 82"),
    ("SAME_LAST_COUNT", "00 64 FF FF 00 00 82"),
    ("IDLE", "07 FF C0 00 00 00 00"),
    ("TELECOMMAND", "18 05 C0 00 00 01 AA BB"),
    ("SEGMENT", "08 05 40 07 00 00 CC"),
    ("SENSELESS", "00 64 C0 00 00 01 FF FF"),
];

/// The digits of the packet that a word names; or those that it is.
pub fn digits_of(word: &str) -> &str {
    for (name, digits) in &NAMED {
        if *name == word {
            return digits;
        }
    }
    word
}

/// Its store.
pub const STORE: &[u8] = &[
    0x00, 0x64, 0xC0, 0x00, 0x00, 0x03, 0x85, 0xB8, 0xD6, 0x00, //
    0x00, 0x64, 0xC0, 0x01, 0x00, 0x03, 0x42, 0x4B, 0x8D, 0x62, //
    0x00, 0x64, 0xC0, 0x02, 0x00, 0x01, 0x44, 0xC0, //
    0x00, 0x64, 0xC0, 0x03, 0x00, 0x02, 0xC0, 0x85, 0xC0,
];

/// The store without the third packet.
pub const PLAYED: &[u8] = &[
    0x00, 0x64, 0xC0, 0x00, 0x00, 0x03, 0x85, 0xB8, 0xD6, 0x00, //
    0x00, 0x64, 0xC0, 0x01, 0x00, 0x03, 0x42, 0x4B, 0x8D, 0x62, //
    0x00, 0x64, 0xC0, 0x03, 0x00, 0x02, 0xC0, 0x85, 0xC0,
];

/// What is restored of it, and the report.
pub const RESTORED: &[u8] = &[0xB0, 0xB1, 0xB3];

pub const REPORT: &[u8] = b"first,last,cause,value\n2,2,lost,0\nend,3,3,0\n";

/// What `play` reports if the third is dropped.
pub const PLAY_REPORT: &[u8] = b"packets,delivered,dropped,repeats,first,widest\n4,3,1,0,0,2\n";

/// The first line of a play report.
pub const PLAY_HEADER: &str = "packets,delivered,dropped,repeats,first,widest\n";

/// The listing of the store without the third packet.
pub const LISTING: &[u8] =
    b"0 written 1 00 00 b0\n1 written 1 01 01 b1\n2-2 lost\n3 written 1 02 03 b3\nend 3 3 0\n";
