//! Schedules, scripts and recordings that are drawn: a forecast is what the definition says, packet by packet, and
//! what it calls sure is written.

use super::desk::{Tester, assert_done, hold, new_desk};
use super::draws::Draws;
use bit_vectors::NoMemory;
use desk_ports::MemDesk;
use side_tables::{Schedule, Script};
use std::alloc::{AllocError, Global};
use std::test::Fail;

/// How many packets there are.
const PACKETS: u32 = 40;

/// The required robustness of packets to which the schedule gives none.
const ROBUST: u8 = 1;

const FORECAST: &str = "forecast out=forecast packets=40 robust=1 plan=plan script=script";

/// What is done with a recording, so that the last one lists what was written.
static COMMANDS: [&str; 3] = [
    "compress in=recording plan=plan out=store apid=100 bits=8 robust=1",
    "play in=store script=script out=played report=report apid=100",
    "show in=played out=listing apid=100 bits=8",
];

/// The flags of a row.
fn letters(draw: u32) -> &'static str {
    match draw {
        1 => "r",
        2 => "f",
        3 => "p",
        _ => "prf",
    }
}

/// A row of a schedule.
fn plan_row(alloc: Global, draws: &mut Draws) -> Result<String, Fail> {
    let first = draws.below(40);
    let last = first.saturating_add(draws.below(40));
    let step = draws.below(9).saturating_add(1);
    match draws.below(5) {
        0 => {
            let value = draws.below(8);
            Ok(format!(in alloc; "robust,{first},{last},{step},{value}\n")?)
        }
        draw => {
            let flags = letters(draw);
            Ok(format!(in alloc; "{first},{last},{step},{flags}\n")?)
        }
    }
}

/// A schedule of a few rows of both kinds.
fn plan_of(alloc: Global, draws: &mut Draws) -> Result<String, Fail> {
    let mut text = String::new(alloc);
    for _ in 0..draws.below(8) {
        let row = plan_row(alloc, draws)?;
        text.push_str(&row)?;
    }
    Ok(text)
}

/// A row of a script.
fn script_row(alloc: Global, draws: &mut Draws) -> Result<String, Fail> {
    let first = draws.below(40);
    let last = first.saturating_add(draws.below(12));
    let step = draws.below(4).saturating_add(1);
    match draws.below(3) {
        0 => {
            let copies = draws.below(8).saturating_add(1);
            Ok(format!(in alloc; "repeat,{first},{last},{step},{copies}\n")?)
        }
        _ => Ok(format!(in alloc; "drop,{first},{last},{step}\n")?),
    }
}

/// A script of a few rows of both kinds.
fn script_of(alloc: Global, draws: &mut Draws) -> Result<String, Fail> {
    let mut text = String::new(alloc);
    for _ in 0..draws.below(8) {
        let row = script_row(alloc, draws)?;
        text.push_str(&row)?;
    }
    Ok(text)
}

/// Packets of one byte, in which few places change.
fn recording_of(alloc: Global, draws: &mut Draws) -> Result<Vec<u8>, AllocError> {
    let mut bytes = Vec::new(alloc);
    let mut byte = 0;
    for _ in 0..PACKETS {
        if draws.below(3) == 0 {
            byte ^= 1u8.rotate_left(draws.below(8));
        }
        bytes.push(byte)?;
    }
    Ok(bytes)
}

/// A packet's number, the latest number before it that passed, and how far a packet reaches.
fn is_reached(t: u32, latest: Option<u32>, robust: u8) -> bool {
    match latest {
        None => false,
        Some(latest) => t.saturating_sub(1).saturating_sub(latest) <= u32::from(robust),
    }
}

/// What becomes of each packet, by the rows that name it, one after another.
fn states_of(
    alloc: Global,
    plan: &Schedule,
    script: &Script,
) -> Result<Vec<&'static str>, AllocError> {
    let mut states = Vec::new(alloc);
    let (mut latest_mask, mut latest) = (None, None);
    for t in 0..PACKETS {
        let robust = plan.robust(t).unwrap_or(ROBUST);
        let forced = t <= u32::from(robust);
        let arrives = 0 < script.times(t);
        let mask = arrives && (forced || plan.flags(t).f || is_reached(t, latest_mask, robust));
        let sure = arrives && (forced || plan.flags(t).r || mask && is_reached(t, latest, robust));
        if mask {
            latest_mask = Some(t);
        }
        if sure {
            latest = Some(t);
        }
        states.push(state_by(arrives, sure))?;
    }
    Ok(states)
}

fn state_by(arrives: bool, sure: bool) -> &'static str {
    match (arrives, sure) {
        (false, _) => "lost",
        (true, true) => "sure",
        (true, false) => "open",
    }
}

/// The first of the packets from this number on, and the state of the packet before it, if that has another one.
fn ends_before(states: &[&'static str], t: usize) -> bool {
    match (states.get(t.wrapping_sub(1)), states.get(t)) {
        (Some(one), Some(other)) => one != other,
        _ => true,
    }
}

/// The lines of the states' runs, and their header.
fn lines_of(alloc: Global, states: &[&'static str]) -> Result<String, Fail> {
    let mut text = String::from_str(alloc, "first,last,state\n")?;
    let mut first = 0;
    for (t, state) in states.iter().enumerate() {
        if ends_before(states, t) {
            first = t;
        }
        if ends_before(states, t.wrapping_add(1)) {
            text.push_str(&format!(in alloc; "{first},{t},{state}\n")?)?;
        }
    }
    Ok(text)
}

/// Holds what was drawn.
fn hold_drawn(
    desk: &mut MemDesk,
    plan: &str,
    script: &str,
    recording: &[u8],
) -> Result<(), NoMemory> {
    hold(desk, "plan", plan.as_bytes())?;
    hold(desk, "script", script.as_bytes())?;
    hold(desk, "recording", recording)
}

/// A schedule and a script, both held at a desk with a recording.
fn drawn_by(alloc: Global, seed: u32, desk: &mut MemDesk) -> Result<(String, String), Fail> {
    let mut draws = Draws { state: seed };
    let plan = plan_of(alloc, &mut draws)?;
    let script = script_of(alloc, &mut draws)?;
    let recording = recording_of(alloc, &mut draws)?;
    hold_drawn(desk, &plan, &script, &recording)?;
    Ok((plan, script))
}

/// What becomes of each packet, by two texts.
fn states_by(alloc: Global, plan: &str, script: &str) -> Result<Vec<&'static str>, Fail> {
    let plan = Schedule::read(alloc, plan.as_bytes())?;
    let script = Script::read(alloc, script.as_bytes())?;
    Ok(states_of(alloc, &plan, &script)?)
}

/// The number of a packet, if the line of a listing says that it was written.
fn number_written(line: &str) -> Option<usize> {
    let mut words = line.split(' ');
    let number = words.next()?;
    if words.next()? != "written" {
        return None;
    }
    number.parse().ok()
}

/// The numbers of the packets that were written, by a listing.
fn written_by(alloc: Global, listing: &str) -> Result<Vec<usize>, AllocError> {
    let mut numbers = Vec::new(alloc);
    for line in listing.lines() {
        if let Some(number) = number_written(line) {
            numbers.push(number)?;
        }
    }
    Ok(numbers)
}

/// Each packet that is sure is written.
fn assert_written(rt: &impl Tester, states: &[&'static str], written: &[usize]) {
    for (t, state) in states.iter().enumerate() {
        if *state == "sure" {
            assert!(rt; written.contains(&t), "{t} in {written:?}");
        }
    }
}

/// Makes the forecast, and then the listing of what was written.
fn assert_all_done(rt: &impl Tester, desk: &mut MemDesk) -> Result<(), Fail> {
    assert_done(rt, FORECAST, desk)?;
    for words in &COMMANDS {
        assert_done(rt, words, desk)?;
    }
    Ok(())
}

/// The text that a desk keeps under a name.
fn text_at<'a>(desk: &'a MemDesk, name: &str) -> &'a str {
    str::from_utf8(desk.get(name)).unwrap_or("")
}

/// What is forecast begins with the lines of these states.
fn assert_forecast(rt: &impl Tester, text: &str, states: &[&'static str]) -> Result<(), Fail> {
    let lines = lines_of(rt.alloc(), states)?;
    assert!(rt; text.starts_with(lines.as_str()), "{text}\n{lines}");
    Ok(())
}

/// What is forecast begins with the lines of the definition, and what it calls sure is written of the recording.
fn assert_foreseen(rt: &impl Tester, seed: u32, desk: &mut MemDesk) -> Result<(), Fail> {
    let (plan, script) = drawn_by(rt.alloc(), seed, desk)?;
    assert_all_done(rt, desk)?;
    let states = states_by(rt.alloc(), &plan, &script)?;
    assert_forecast(rt, text_at(desk, "forecast"), &states)?;
    let written = written_by(rt.alloc(), text_at(desk, "listing"))?;
    assert_written(rt, &states, &written);
    Ok(())
}

#[test]
fn what_is_sure_is_written(rt: HostRuntime) -> Result<(), Fail> {
    for seed in 0..20u32 {
        let seed = seed.wrapping_mul(2_654_435_761);
        assert_foreseen(&rt, seed, &mut new_desk(rt.alloc()))?;
    }
    Ok(())
}
