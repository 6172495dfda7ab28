//! Worked forecasts: of a thousand packets and of few, scripts and schedules that are refused, and a desk that fails.

use super::desk::{Case, Tester, assert_ending, done, refused, with_both, words_alone};
use super::faults::{Faults, assert_faults};
use super::rows::{Form, Table, assert_refused, assert_rows};
use desk_ports::Call;
use pocket_cmd::Refusal;
use std::test::Fail;

/// The script is held as `a`, the schedule as `s`.
const FOUR: &str = "forecast out=b packets=4 robust=1 plan=s script=a";

/// Scripts and the texts that are written, the words from the number of packets on, and the schedules.
const FORECASTS: Table = Table {
    words: "forecast out=b packets=",
    input: Form::Text,
    output: Form::Text,
    header: "",
};

static WORKED: [&str; 10] = [
    "drop,10,10,1\ndrop,50,51,1\ndrop,190,194,1\ndrop,205,207,1\nrepeat,300,309,1,2\ndrop,530,533,1\n\
        drop,999,999,1\n|first,last,state\n0,9,sure\n10,10,lost\n11,49,sure\n50,51,lost\n52,189,sure\n\
        190,194,lost\n195,199,open\n200,204,sure\n205,207,lost\n208,299,open\n300,529,sure\n530,533,lost\n\
        534,599,open\n600,998,sure\n999,999,lost\ngaps,0,6\nend,1000,821\n||1000 robust=2 plan=s script=a|\
        20,999,20,p\n50,999,50,f\n100,999,100,r\n",
    "|first,last,state\n0,3,sure\ngaps,0,1\nend,4,4\n||4 robust=1 plan=s script=a|",
    // Nothing is delivered.
    "drop,0,9,1|first,last,state\n0,3,lost\ngaps,-,0\nend,4,0\n||4 robust=1 plan=s script=a|0,9,1,fr",
    // The first two are forced, and the loss of both leaves nothing sure.
    "drop,0,1,1|first,last,state\n0,1,lost\n2,3,open\ngaps,2,1\nend,4,0\n||4 robust=1 plan=s script=a|",
    "repeat,0,0,1,8|first,last,state\n0,0,sure\ngaps,0,0\nend,1,1\n||1 robust=0 plan=s script=a|",
    // Whole content and no mask: the packet is sure, and the next one is not.
    "drop,1,2,1|first,last,state\n0,0,sure\n1,2,lost\n3,3,sure\n4,5,open\ngaps,0,3\nend,6,2\n||\
        6 robust=0 plan=s script=a|3,3,1,r\n5,5,1,f",
    // The mask two packets after it: the content reaches no further.
    "drop,1,2,1|first,last,state\n0,0,sure\n1,2,lost\n3,5,sure\ngaps,0,3\nend,6,4\n||6 robust=0 plan=s script=a|\
        3,3,1,r\n4,4,1,f",
    // The last row that names a packet decides, of the required robustness and of the copies.
    "drop,1,4,1\nrepeat,2,2,2,1|\
        first,last,state\n0,0,sure\n1,1,lost\n2,2,sure\n3,4,lost\n5,5,sure\ngaps,0,3\nend,6,3\n||\
        6 robust=0 plan=s script=a|robust,0,9,1,7\nrobust,0,9,3,0",
    // The same packets by many rows.
    "repeat,0,9,1,8\ndrop,0,5,1\nrepeat,0,0,1,1\ndrop,1,1,1\nrepeat,2,2,1,2\ndrop,3,3,1\ndrop,4,4,1\nrepeat,5,5,1,3\n\
        drop,7,7,1|first,last,state\n0,0,sure\n1,1,lost\n2,2,sure\n3,4,lost\n5,5,sure\ngaps,0,3\nend,6,3\n||\
        6 robust=0 plan=s script=a|robust,0,9,1,7\nrobust,0,0,1,0\nrobust,1,1,1,3\nrobust,2,2,1,0\nrobust,2,2,1,7\n\
        robust,3,5,1,0\n5,9,4,f\n1,5,4,r\n3,4,1,p\nrobust,7,7,1,1\nrobust,8,8,1,1\nrobust,9,9,2,1",
    // No row is about these packets.
    "drop,2,4294967295,4294967295|first,last,state\n0,1,sure\ngaps,0,1\nend,2,2\n||2 robust=7 plan=s script=a|\
        8,4294967295,1,p\nrobust,9,9,1,0",
];

#[test]
fn forecasts(rt: HostRuntime) -> Result<(), Fail> {
    assert_rows(&rt, &FORECASTS, &WORKED)
}

/// A schedule, a script, and what is answered to them.
static REFUSED: [(&str, &str, Refusal); 9] = [
    ("", "drop,0,3", Refusal::BadScript { row: 1 }),
    ("", "drop,0,3,1\nDrop,0,3,1", Refusal::BadScript { row: 2 }),
    ("", "repeat,0,3,1,9", Refusal::BadScript { row: 1 }),
    ("", "0,3,1,p", Refusal::BadScript { row: 1 }),
    ("drop,0,3,1", "", Refusal::BadSide { row: 1 }),
    ("0,3,1,p\n3,0,1,p", "", Refusal::BadSide { row: 2 }),
    // What is wrong with the schedule is said first.
    ("0,3,1,P", "drop,0,3", Refusal::BadSide { row: 1 }),
    ("robust,0,9,1,8", "Drop", Refusal::BadSide { row: 1 }),
    ("0,3,1", "drop,0,3", Refusal::BadSide { row: 1 }),
];

/// No output is opened.
static NO_OUTPUT: [(Call, u32); 1] = [(Call::OpenOut, 1)];

#[test]
fn refusals(rt: HostRuntime) -> Result<(), Fail> {
    for (plan, script, refusal) in &REFUSED {
        assert_script(&rt, plan.as_bytes(), script.as_bytes(), *refusal)?;
    }
    Ok(())
}

/// Refused before the script is opened, and without one.
fn assert_first(
    rt: &impl Tester,
    plan: &[u8],
    script: &[u8],
    refusal: Refusal,
) -> Result<(), Fail> {
    let case = with_both(FOUR, script, plan);
    assert_refused(rt, case, refusal)?;
    let without = Case {
        input: None,
        ..case
    };
    assert_refused(rt, without, refusal)
}

/// Refused before an output is opened.
fn assert_script(
    rt: &impl Tester,
    plan: &[u8],
    script: &[u8],
    refusal: Refusal,
) -> Result<(), Fail> {
    let case = Case {
        fails: &NO_OUTPUT,
        ..with_both(FOUR, script, plan)
    };
    assert_ending(rt, &case, &refused(refusal, &[], &[]))
}

#[test]
fn texts_of_the_most_bytes(rt: HostRuntime) -> Result<(), Fail> {
    let lines = vec![in rt.alloc(); b'\n'; 1_048_577]?;
    let letters = vec![in rt.alloc(); b'p'; 1_048_577]?;
    let sure = done(b"first,last,state\n0,3,sure\ngaps,0,1\nend,4,4\n", &[]);
    assert_ending(&rt, &with_both(FOUR, &lines[1..], &lines[1..]), &sure)?;
    assert_script(&rt, b"", &lines, Refusal::ScriptTooLong)?;
    assert_script(&rt, b"", &letters, Refusal::ScriptTooLong)?;
    assert_script(&rt, b"", &letters[1..], Refusal::BadScript { row: 1 })?;
    assert_first(&rt, &lines, &lines, Refusal::SideTooLong)?;
    assert_first(&rt, b"0,3,1", &lines, Refusal::BadSide { row: 1 })
}

#[test]
fn schedules_before_scripts(rt: HostRuntime) -> Result<(), Fail> {
    assert_first(&rt, b"0,3,1", b"drop,0,3,1", Refusal::BadSide { row: 1 })?;
    let no_script = Case {
        input: None,
        side: Some(b""),
        fails: &NO_OUTPUT,
        ..words_alone(FOUR)
    };
    assert_ending(&rt, &no_script, &refused(Refusal::ReadFault, &[], &[]))?;
    let no_plan = Case {
        fails: &NO_OUTPUT,
        ..words_alone(FOUR)
    };
    assert_ending(&rt, &no_plan, &refused(Refusal::ReadFault, &[], &[]))
}

const PLAN: &[u8] = b"3,3,1,fr";

const SCRIPT: &[u8] = b"drop,2,2,1";

/// The lines end at the bytes 17, 26, 35, 44, 53 and 61.
const TEXT: &[u8] = b"first,last,state\n0,1,sure\n2,2,lost\n3,3,sure\ngaps,0,2\nend,4,3\n";

/// The calls that fail.
static FAILING: [Faults; 1] = [Faults {
    words: FOUR,
    input: Some(SCRIPT),
    side: Some(PLAN),
    output: TEXT,
    report: &[],
    // Two readings are of the schedule, and two of the script; the last two lines are one piece.
    whole: "open_in 1 open_out 1: unread 0 0|open_in 2 open_out 1: unread 0 0|open_in 3: done|\
        read 1 open_in 2: unread 0 0|read 2 open_in 2: unread 0 0|read 3 open_out 1: unread 0 0|\
        read 4 open_out 1: unread 0 0|read 5: done|open_out 1: unwritten 0 0|open_out 2: done|\
        write 1: unwritten 0 0|write 2: unwritten 17 0|write 3: unwritten 26 0|write 4: unwritten 35 0|\
        write 5: unwritten 44 0|write 6: done|finish 1: unwritten 61 0|finish 2: done",
    single: "read 9 open_in 2: unread 0 0|read 20 open_out 1: unread 0 0|read 21: done|write 20: unwritten 19 0|\
        write 61: unwritten 60 0|write 62: done",
}];

#[test]
fn a_forecast_at_each_fault(rt: HostRuntime) -> Result<(), Fail> {
    assert_faults(&rt, &FAILING)
}
