//! Worked scripts over stores, and stores that are refused.

use super::desk::BY_SCRIPT;
use super::rows::{Form, Table, assert_rows};
use super::samples::PLAY_HEADER;
use std::test::Fail;

/// Stores, what is played, the report after its first line, and the script.
const STORES: Table = Table {
    words: BY_SCRIPT,
    input: Form::Packets,
    output: Form::Packets,
    header: PLAY_HEADER,
};

static WHOLE: [&str; 11] = [
    "||0,0,0,0,-,0\n||",
    "FIRST SECOND THIRD FOURTH|FIRST SECOND THIRD FOURTH|4,4,0,0,0,1\n||",
    "FIRST SECOND THIRD FOURTH|FIRST SECOND FOURTH|4,3,1,0,0,2\n||drop,2,2,1",
    "FIRST SECOND THIRD FOURTH|FIRST FIRST FIRST FIRST FIRST FIRST FIRST FIRST FIRST SECOND SECOND SECOND SECOND \
        SECOND SECOND SECOND SECOND SECOND THIRD THIRD THIRD THIRD THIRD THIRD THIRD THIRD THIRD FOURTH FOURTH \
        FOURTH FOURTH FOURTH FOURTH FOURTH FOURTH FOURTH|4,4,0,32,0,1\n||repeat,0,3,1,8",
    // Nothing is delivered, or one packet alone.
    "FIRST SECOND THIRD FOURTH||4,0,4,0,-,0\n||drop,0,3,1",
    "FIRST SECOND THIRD FOURTH|FOURTH|4,1,3,0,3,0\n||drop,0,2,1",
    // The last row that names a packet decides.
    "FIRST SECOND THIRD FOURTH|THIRD THIRD|4,1,3,1,2,0\n||drop,0,3,1\nrepeat,2,3,1,1\ndrop,3,3,1\n",
    // Packets of other APIDs have no number, and are played once.
    "IDLE FIRST TELECOMMAND SECOND SEGMENT IDLE THIRD|IDLE FIRST FIRST TELECOMMAND SEGMENT IDLE THIRD|\
        3,2,1,1,0,2\n||repeat,0,0,1,1\ndrop,1,1,1",
    "TELECOMMAND IDLE SEGMENT|TELECOMMAND IDLE SEGMENT|0,0,0,0,-,0\n||drop,0,9,1",
    // Packets are numbered by their places: sequence counts that repeat, fall or leap are not looked at.
    "FIRST FIRST IDLE FIRST|FIRST IDLE FIRST FIRST FIRST FIRST|3,2,1,3,0,2\n||drop,1,1,1\nrepeat,2,2,1,3",
    "FOURTH SENSELESS SECOND FOURTH|SENSELESS SECOND FOURTH|4,3,1,0,1,1\n||drop,0,0,1",
];

/// Of a store that is wrong, the packets before the fault are played, and nothing is reported.
static FAULTY: [&str; 6] = [
    "cut 10: FIRST 00 64 C0|FIRST FIRST|||repeat,0,0,1,1",
    "cut 27: IDLE FIRST SECOND 07 FF C0 00 00 01 00|IDLE FIRST FIRST SECOND|||repeat,0,0,1,1",
    // Another version is refused on another APID too.
    "version 10: FIRST 27 FF C0 00 00 00 00|FIRST FIRST|||repeat,0,0,1,1",
    "shape 7: IDLE 10 64 C0 00 00 00 82|IDLE|||repeat,0,0,1,1",
    "shape 20: FIRST SECOND 08 64 C0 02 00 00 82|FIRST FIRST SECOND|||repeat,0,0,1,1",
    // The shape is looked at before the length.
    "shape 10: FIRST 00 64 80 01 00 09 82 IDLE|FIRST FIRST|||repeat,0,0,1,1",
];

#[test]
fn played_stores(rt: HostRuntime) -> Result<(), Fail> {
    assert_rows(&rt, &STORES, &WHOLE)?;
    let header = "";
    assert_rows(&rt, &Table { header, ..STORES }, &FAULTY)
}
