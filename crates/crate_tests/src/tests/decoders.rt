//! Packets of 8 places, with their data and answers worked out by hand, and by an external script that asks which forms
//! and fronts begin with the bits.

use super::bytes::byte;
use bit_vectors::BitFault;
use packet_decode::{Decoder, Reading};
use std::alloc::{AllocError, Global};
use std::test::Fail;

/// What decoders read, and what each shows at the end: the numbers of the last packets that told a content and a mask, the
/// level of the last, and the mask, the content and the recent changes. Before that stand the packets in their order, each
/// with its number, its data, a colon and the answer that it must have; `fronts` is written, and each shorter front of the
/// data ends early.
static RUNS: [&str; 11] = [
    // Every front of each packet of a recording `B0 B1 B1 B3`, and the packet: mask and content, mask and content
    // again, one extracted bit, two.
    "0 85B8D600: fronts|1 424B8D62: fronts|2 44C0: fronts|3 C085C0: fronts|content 3, mask 3, level 1: 03 B3 02",
    // Every front of each packet of a recording `00 01 01 01 01 01` with a new mask at 3 and 5. In the last one a place
    // became predictable and is extracted again: its padding with a one, and a byte after it, are wrong.
    "0 85B8C000: fronts|1 424B8C02: fronts|2 44C0: fronts|3 87: fronts|4 8B: fronts|5 47F8: wrong 12|\
        5 47F000: wrong 16|5 47F0: fronts|content 5, mask 5, level 3: 00 01 01",
    // A recording `00 01 03 03 03 03 03`, which begins with the same packets; 2 and 3 are lost. Every front of two that
    // can't be understood, and of one that stands alone.
    "0 85B8C000: written|1 424B8C02: written|4 : early 0|4 87: gap 1|4 8780: gap 1|5 : early 0|5 8B: gap 2|\
        5 8B80: gap 2|6 8D605C6030: fronts|content 6, mask 6, level 3: 03 03 00",
    // A count above eight, a count of 34 or more, a ninth place, a ninth place; directions without a place; neither
    // a mask nor a content; another mask; another content; and the packet.
    "0 85B8D600: written|1 D0: wrong 3|1 E0: wrong 2|1 0000: wrong 8|1 00C0: wrong 9|1 4300: wrong 8|\
        1 43: early 8|1 8400: wrong 8|1 425B8D62: wrong 11|1 424B8C62: wrong 23|1 424B8D62: written|\
        content 1, mask 1, level 1: 01 B1 01",
    // A packet out of reach, and one whose level reaches back over it.
    "0 85B8D600: written|2 82: gap 0|3 8A: written|content 3, mask 3, level 2: 00 B0 00",
    // With nothing known: a content of nine places, and a packet that doesn't stand alone.
    "0 85B8F600: wrong 18|5 82: unsynced|content -, mask -, level 0: 00 00 00",
    // A recording `00 01 03 03 02 02`, of which 1 and 2 are lost. Whole content without a mask; then a mask under which the
    // content is known.
    "0 81B8C000: written|3 8000: wrong 8|3 80E30180: fronts|4 856044: written|5 8A80: written|\
        content 5, mask 5, level 2: 03 02 00",
    // The content of 3 leaves the mask of 0.
    "0 81B8C000: written|3 80E30180: written|content 3, mask 0, level 0: 00 03 00",
    // The same recording. A mask whose extracted bits tell no content; then whole content; then extracted bits under both.
    "0 81B8C000: written|3 81: early 8|3 8160: early 16|3 81604D: wrong 23|3 81604C00: wrong 24|\
        3 81604C: gap 0 mask|4 8400: wrong 8|4 84E30100: written|5 8A80: written|\
        content 5, mask 5, level 2: 03 02 00",
    // The mask of 3 leaves the content of 0, with its recent changes and its level.
    "0 81B8C000: written|3 81604C: gap 0 mask|content 0, mask 3, level 0: 03 00 00",
    // The first packet that arrives tells its mask alone. One that tells nothing is then after a gap if its mask can't be
    // deduced; if it can, the content is missing.
    "5 856045: wrong 23|5 856044: unsynced mask|6 8A80: unsynced mask|9 82: gap 0|\
        content -, mask 6, level 0: 03 00 00",
];

/// The text of an answer.
fn text_of(alloc: Global, answer: Result<Reading, BitFault>) -> Result<String, AllocError> {
    match answer {
        Ok(Reading::Written) => format!(in alloc; "written"),
        Ok(Reading::Unsynced { mask }) => format!(in alloc; "unsynced{}", mask_text(mask)),
        Ok(Reading::Gap { level, mask }) => format!(in alloc; "gap {level}{}", mask_text(mask)),
        Err(BitFault::EndsEarly { bit }) => format!(in alloc; "early {bit}"),
        Err(BitFault::Wrong { bit }) => format!(in alloc; "wrong {bit}"),
    }
}

/// The end of an answer's text if the mask became known.
fn mask_text(mask: bool) -> &'static str {
    if mask { " mask" } else { "" }
}

/// Whether the data have their answer, if they may be read.
fn answers(
    alloc: Global,
    decoder: &mut Decoder,
    t: u64,
    data: &[u8],
    answer: &str,
) -> Result<bool, AllocError> {
    if let Some(last) = decoder.last() {
        if last >= t {
            return Ok(false);
        }
    }
    if let Some(last) = decoder.last_mask() {
        if last >= t {
            return Ok(false);
        }
    }
    if t > 9 || data.len() > 9 {
        return Ok(false);
    }
    Ok(text_of(alloc, decoder.read(t, data))?.as_str() == answer)
}

/// Whether each shorter front of the data ends early.
fn fronts_end_early(
    alloc: Global,
    decoder: &mut Decoder,
    t: u64,
    data: &[u8],
) -> Result<bool, AllocError> {
    for len in 0..data.len() {
        let early = format!(in alloc; "early {}", len.saturating_mul(8))?;
        if !answers(alloc, decoder, t, &data[..len], &early)? {
            return Ok(false);
        }
    }
    Ok(true)
}

/// Whether a packet, with its number, its data and its answer, is answered so.
fn is_answered(alloc: Global, decoder: &mut Decoder, packet: &str) -> Result<bool, Fail> {
    let (given, answer) = packet.split_once(": ").unwrap_or((packet, ""));
    let (number, digits) = given.split_once(' ').unwrap_or((given, ""));
    let (t, data) = (number.parse()?, hex::decode(alloc, digits)?);
    if answer != "fronts" {
        return Ok(answers(alloc, decoder, t, &data, answer)?);
    }
    Ok(fronts_end_early(alloc, decoder, t, &data)? && answers(alloc, decoder, t, &data, "written")?)
}

/// A number, or a dash.
fn number_text(alloc: Global, number: Option<u64>) -> Result<String, AllocError> {
    match number {
        None => format!(in alloc; "-"),
        Some(number) => format!(in alloc; "{number}"),
    }
}

/// What a decoder shows.
fn shown(alloc: Global, decoder: &Decoder) -> Result<String, AllocError> {
    let content = number_text(alloc, decoder.last())?;
    let mask = number_text(alloc, decoder.last_mask())?;
    format!(in alloc;
        "content {content}, mask {mask}, level {}: {:02X} {:02X} {:02X}",
        decoder.level(),
        byte(decoder.mask()),
        byte(decoder.content()),
        byte(decoder.recent())
    )
}

/// Whether the packets of a run have their answers, and the decoder shows then what stands at its end.
fn follows(alloc: Global, decoder: &mut Decoder, run: &str) -> Result<bool, Fail> {
    let (packets, end) = run.rsplit_once('|').unwrap_or(("", run));
    for packet in packets.split('|') {
        if !is_answered(alloc, decoder, packet)? {
            return Ok(false);
        }
    }
    Ok(shown(alloc, decoder)?.as_str() == end)
}

// (What has a decoder of its own does nothing else: each way out of it is proved to give back all memory.)
fn is_right(alloc: Global, run: &str) -> Result<bool, Fail> {
    let mut decoder = Decoder::open(alloc, 8)?;
    follows(alloc, &mut decoder, run)
}

#[test]
fn worked_data(rt: HostRuntime) -> Result<(), Fail> {
    for run in &RUNS {
        assert!(rt; is_right(rt.alloc(), run)?, "{run}");
    }
    Ok(())
}
