//! Recordings of few packets through the three commands, one of them in reads and writes of one byte too.

use super::chain::{Chain, assert_chain, assert_whole_chain};
use super::desk::{Tester, bytes_of, in_pieces, new_desk};
use std::test::Fail;

/// One packet is lost, which the level of the next reaches over.
const ONE_LOST: &str =
    "B0 B1 B1 B3|B0 B1 B3|bits=8 robust=1|bits=8||drop,2,2,1|4,3,1,0,0,2\n|2,2,lost,0\nend,3,3,0\n";

/// Recordings, what is restored, what is told of the packets in flight and on ground, schedules, scripts, the second line
/// of each play report, and the reports after their first lines. One recording ends with a new mask that clears a place,
/// three quiet packets after the one with the change.
static CHAINS: [&str; 16] = [
    "||bits=8 robust=1|bits=8|||0,0,0,0,-,0\n|end,0,0,0\n",
    ONE_LOST,
    // The packets that stand alone are lost.
    "B0 B1 B1 B3||bits=8 robust=1|bits=8||drop,0,1,1|4,2,2,0,2,1\n|\
        0,1,lost,0\n2,2,unsynced,0\n3,3,unsynced,0\nend,2,0,0\n",
    // Nine copies of each packet.
    "B0 B1 B1 B3|B0 B1 B1 B3|bits=8 robust=1|bits=8||repeat,0,3,1,8|4,4,0,32,0,1\n|end,36,4,32\n",
    // Two lost packets: the level of the next doesn't reach over them, but if it requires more it does.
    "00 01 03 03|00|bits=8 robust=0|bits=8||drop,1,2,1|4,2,2,0,0,3\n|1,2,lost,0\n3,3,gap,0\nend,2,1,0\n",
    "00 01 03 03|00 03|bits=8 robust=0|bits=8|robust,2,3,1,2|drop,1,2,1|4,2,2,0,0,3\n|1,2,lost,0\nend,2,2,0\n",
    // Two lost packets, then whole content without its mask, and a mask under which that content is known.
    "00 01 03 03 02 02|00 03 02 02|bits=8 robust=0|bits=8|3,3,1,r\n4,4,1,f\n|drop,1,2,1|6,4,2,0,0,3\n|\
        1,2,lost,0\nend,4,4,0\n",
    // The mask first: its packet is not written.
    "00 01 03 03 02 02|00 02 02|bits=8 robust=0|bits=8|3,3,1,f\n4,4,1,r\n|drop,1,2,1|6,4,2,0,0,3\n|\
        1,2,lost,0\n3,3,gap,0\nend,4,3,0\n",
    // Rows of both kinds over the same packets.
    "00 01 01 03 03 03 03 03|00 01 01 03 03 03|bits=8 robust=1|bits=8|\
        0,9,1,f\nrobust,2,9,1,3\n4,5,1,p\nrobust,4,6,2,0\n5,5,1,r|drop,3,4,1|8,6,2,0,0,3\n|3,4,lost,0\nend,6,6,0\n",
    // A mask is cleared: after no loss, after three lost packets, which its level reaches over, and after four.
    "00 01 01 01 01 01|00 01 01 01 01 01|bits=8 robust=1|bits=8|3,5,2,p||6,6,0,0,0,1\n|end,6,6,0\n",
    "00 01 01 01 01 01|00 01 01|bits=8 robust=1|bits=8|3,5,2,p|drop,2,4,1|6,3,3,0,0,4\n|2,4,lost,0\nend,3,3,0\n",
    "00 01 01 01 01 01|00|bits=8 robust=1|bits=8|3,5,2,p|drop,1,4,1|6,2,4,0,0,5\n|\
        1,4,lost,0\n5,5,gap,3\nend,2,1,0\n",
    // Levels too small for what was lost, up to a packet that stands alone.
    "00 01 03 03 03 03 03|00 01 03|bits=8 robust=1|bits=8|6,6,1,fr|drop,2,3,1|7,5,2,0,0,3\n|\
        2,3,lost,0\n4,4,gap,1\n5,5,gap,2\nend,5,3,0\n",
    // A first mask.
    "A5 A6|A5 A6|bits=8 robust=0 mask=0f|bits=8|||2,2,0,0,0,1\n|end,2,2,0\n",
    // Level 0, so that a change after a loss is out of reach.
    "00 01 03|00|bits=8 robust=0|bits=8||drop,1,1,1|3,2,1,0,0,2\n|1,1,lost,0\n2,2,gap,0\nend,2,1,0\n",
    "80 00 80|80 00 80|bits=1 robust=0|bits=1||repeat,1,1,1,1|3,3,0,1,0,1\n|end,4,3,1\n",
];

/// The chain of a row goes there and back; or, by single bytes, there.
fn assert_row(rt: &impl Tester, row: &str, single: bool) -> Result<(), Fail> {
    let mut fields = row.split('|');
    let recording = bytes_of(rt.alloc(), fields.next().unwrap_or(""))?;
    let restored = bytes_of(rt.alloc(), fields.next().unwrap_or(""))?;
    let chain = Chain {
        recording: &recording,
        restored: &restored,
        flight: fields.next().unwrap_or(""),
        ground: fields.next().unwrap_or(""),
        plan: fields.next().unwrap_or(""),
        script: fields.next().unwrap_or(""),
        played: fields.next().unwrap_or(""),
        report: fields.next().unwrap_or(""),
    };
    assert!(rt; fields.next().is_none(), "{row}");
    if single {
        assert_by_single_bytes(rt, &chain)
    } else {
        assert_whole_chain(rt, &chain)
    }
}

fn assert_by_single_bytes(rt: &impl Tester, chain: &Chain<'_>) -> Result<(), Fail> {
    let mut desk = new_desk(rt.alloc());
    in_pieces(&mut desk, 1);
    assert_chain(rt, chain, &mut desk)
}

#[test]
fn short_chains(rt: HostRuntime) -> Result<(), Fail> {
    for row in &CHAINS {
        assert_row(&rt, row, false)?;
    }
    assert_row(&rt, ONE_LOST, true)
}
