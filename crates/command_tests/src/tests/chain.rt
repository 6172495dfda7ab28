//! The commands one after the other at one desk.

use super::desk::{HEADER, Tester, assert_done, hold, joined, new_desk};
use super::samples::PLAY_HEADER;
use bit_vectors::NoMemory;
use desk_ports::MemDesk;
use std::test::Fail;

const COMPRESS: &str = "compress in=recording plan=plan out=store apid=100 ";

const PLAY: &str = "play in=store script=script out=played report=play_report apid=100";

const RESTORE: &str = "restore in=played out=restored report=report apid=100 ";

/// Restores the store as it is, without a loss.
const GIVE_BACK: &str = "restore in=store out=given_back report=whole_report apid=100 ";

/// Lists the store as it is.
const SHOW: &str = "show in=store out=listing apid=100 ";

/// A recording with what the three commands are told, and what they must keep.
#[derive(Clone, Copy)]
pub struct Chain<'a> {
    pub recording: &'a [u8],
    /// What `compress` is told of the packets.
    pub flight: &'a str,
    /// What `restore` is told of them.
    pub ground: &'a str,
    /// The text of the schedule.
    pub plan: &'a str,
    /// The text of the script.
    pub script: &'a str,
    /// The second line of the play report.
    pub played: &'a str,
    pub restored: &'a [u8],
    /// The report after its first line.
    pub report: &'a str,
}

/// Does what the words in two parts say, which must end well.
fn assert_joined(
    rt: &impl Tester,
    front: &str,
    back: &str,
    desk: &mut MemDesk,
) -> Result<(), Fail> {
    let line = joined(rt.alloc(), front, back)?;
    assert_done(rt, &line, desk)
}

/// What is kept under a name must be these bytes.
fn assert_kept(rt: &impl Tester, chain: &Chain<'_>, desk: &MemDesk, name: &str, wanted: &[u8]) {
    let (plan, script) = (chain.plan, chain.script);
    assert_eq!(rt;
        desk.get(name),
        wanted,
        "{name} after {plan:?} and {script:?}"
    );
}

fn hold_chain(desk: &mut MemDesk, chain: &Chain<'_>) -> Result<(), NoMemory> {
    hold(desk, "recording", chain.recording)?;
    hold(desk, "plan", chain.plan.as_bytes())?;
    hold(desk, "script", chain.script.as_bytes())
}

/// The recording is compressed, its store is played, and what was played is restored.
pub fn assert_chain(rt: &impl Tester, chain: &Chain<'_>, desk: &mut MemDesk) -> Result<(), Fail> {
    hold_chain(desk, chain)?;
    assert_joined(rt, COMPRESS, chain.flight, desk)?;
    assert_done(rt, PLAY, desk)?;
    assert_joined(rt, RESTORE, chain.ground, desk)?;
    let play_report = joined(rt.alloc(), PLAY_HEADER, chain.played)?;
    let report = joined(rt.alloc(), HEADER, chain.report)?;
    assert_kept(rt, chain, desk, "play_report", play_report.as_bytes());
    assert_kept(rt, chain, desk, "restored", chain.restored);
    assert_kept(rt, chain, desk, "report", report.as_bytes());
    Ok(())
}

/// The store gives the recording back.
fn assert_given_back(rt: &impl Tester, chain: &Chain<'_>, desk: &mut MemDesk) -> Result<(), Fail> {
    assert_joined(rt, GIVE_BACK, chain.ground, desk)?;
    assert_kept(rt, chain, desk, "given_back", chain.recording);
    Ok(())
}

/// The listing of the store is this text.
pub fn assert_listed(
    rt: &impl Tester,
    chain: &Chain<'_>,
    desk: &mut MemDesk,
    listing: &[u8],
) -> Result<(), Fail> {
    assert_joined(rt, SHOW, chain.ground, desk)?;
    assert_kept(rt, chain, desk, "listing", listing);
    Ok(())
}

/// The recording goes through the three commands, and its store gives it back.
pub fn assert_there_and_back(
    rt: &impl Tester,
    chain: &Chain<'_>,
    desk: &mut MemDesk,
) -> Result<(), Fail> {
    assert_chain(rt, chain, desk)?;
    assert_given_back(rt, chain, desk)
}

/// The same at a desk of its own.
pub fn assert_whole_chain(rt: &impl Tester, chain: &Chain<'_>) -> Result<(), Fail> {
    assert_there_and_back(rt, chain, &mut new_desk(rt.alloc()))
}
