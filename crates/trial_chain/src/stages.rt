//! The three runs of a trial, each over a desk in memory that holds its input, and its outputs after it.

ghost use Rattle.std.specs.Prelude.{◌≡◌, Ok, None, IfOk, OnOk};
ghost use Rattle.std.specs.FinMap as map;
ghost use Rattle.desk_ports.specs.Courses.{owed, texts_of};
ghost use Rattle.desk_ports.specs.Meanings.{kept_at};
ghost use Rattle.side_tables.specs.Rows.{copies_of};
ghost use Rattle.flight_chain.specs.Compressing.{compress_course};
ghost use Rattle.loss_player.specs.Played.{store_numbers};
ghost use Rattle.loss_player.specs.Playing.{play_course};
ghost use Rattle.ground_chain.specs.Report.{restored_of};
ghost use Rattle.ground_chain.specs.Restoring.{restore_course, store_run};
ghost use Rattle.trial_chain.specs.Stages.{HoldsJust, HoldsWhole, IsRunDesk, run_meanings, run_opened, run_reported, recording_name, store_name, played_name, play_name, restored_name, report_name, with_outputs};

use crate::run_desk::RunDesk;
use bit_vectors::NoMemory;
use desk_ports::{MemDesk, Outlet};
use flight_chain::{Flight, FlightFault};
use ground_chain::{RestoreFault, Restored, Restorer};
use loss_player::{PlayFault, Played, Player};

/// Compresses the recording to the store.
pub(crate) fn compress(desk: MemDesk, flight: Flight) -> Result<MemDesk, NoMemory>
    requires { HoldsWhole desk recording_name (compress_course flight) }
    ensures { IfOk result (λ after. HoldsJust after
        (map.insert desk.held store_name
        (texts_of (owed (compress_course flight (kept_at desk.held recording_name)))).output)) }
{
    let (mut run, flight) = with_chain(RunDesk::open(desk, "recording", "store"), flight)?;
    let done = compress_on(&mut run, flight);
    let (after, ()) = ended(run, done)?;
    Ok(after)
}

/// Compresses the recording at the desk of a run, and finishes the store.
fn compress_on(run: &mut RunDesk, flight: Flight) -> Result<(), NoMemory>
    requires opened { run_meanings run.old ≡ run_opened run.old.desk recording_name store_name }
    requires whole { (compress_course flight (kept_at run.old.desk.held recording_name)).ending ≡ None }
    ensures { OnOk result (run.new.desk.held ≡ map.insert run.old.desk.held store_name
        (texts_of (owed (compress_course flight (kept_at run.old.desk.held recording_name)))).output) }
{
    match flight.compress(run) {
        Ok(_) => {}
        Err(FlightFault::WriteFault) => return Err(NoMemory),
        Err(FlightFault::CutRecord { .. }) => unreachable!(),
        Err(FlightFault::SpareBit { .. }) => unreachable!(),
        Err(FlightFault::TooMany) => unreachable!(),
        Err(FlightFault::ReadFault) => unreachable!(),
    }
    run.keep(Outlet::Main)
}

/// Plays the store to the played store and the play report.
pub(crate) fn play(desk: MemDesk, player: Player) -> Result<(MemDesk, Played), NoMemory>
    requires { HoldsWhole desk store_name (play_course (copies_of player.rows) player.apid) }
    ensures held { IfOk result (λ after. HoldsJust after.0
        (with_outputs desk.held played_name play_name
        (texts_of (owed (play_course (copies_of player.rows) player.apid (kept_at desk.held store_name)))))) }
    ensures numbers { IfOk result
        (λ after. after.1 ≡ store_numbers (copies_of player.rows) player.apid
        (kept_at desk.held store_name)) }
{
    let (mut run, player) = with_chain(reported(desk, "store", "played", "play"), player)?;
    let played = play_on(&mut run, player);
    ended(run, played)
}

/// Plays the store at the desk of a run, and finishes both outputs.
fn play_on(run: &mut RunDesk, player: Player) -> Result<Played, NoMemory>
    requires opened { run_meanings run.old ≡ run_reported run.old.desk store_name played_name play_name }
    requires whole { (play_course (copies_of player.rows) player.apid (kept_at run.old.desk.held store_name)).ending ≡ None }
    ensures held { OnOk result (run.new.desk.held ≡ with_outputs run.old.desk.held played_name play_name
        (texts_of (owed (play_course (copies_of player.rows) player.apid (kept_at run.old.desk.held store_name))))) }
    ensures numbers { IfOk result
        (λ played. played ≡ store_numbers (copies_of player.rows) player.apid
        (kept_at run.old.desk.held store_name)) }
{
    let played = match player.play(run) {
        Ok(played) => played,
        Err(PlayFault::WriteFault) => return Err(NoMemory),
        Err(PlayFault::Store(_)) => unreachable!(),
    };
    run.keep(Outlet::Main)?;
    run.keep(Outlet::Report)?;
    Ok(played)
}

/// Restores the played store to the restored packets and the report.
pub(crate) fn restore(desk: MemDesk, restorer: Restorer) -> Result<(MemDesk, Restored), NoMemory>
    requires { HoldsWhole desk played_name (restore_course restorer.places restorer.apid) }
    ensures held { IfOk result (λ after. after.0.held
        ≡ with_outputs desk.held restored_name report_name
        (texts_of (owed (restore_course restorer.places restorer.apid (kept_at desk.held played_name))))) }
    ensures numbers { IfOk result
        (λ after. after.1 ≡ restored_of
        (store_run restorer.places restorer.apid (kept_at desk.held played_name))) }
{
    let (mut run, restorer) = with_chain(reported(desk, "played", "restored", "report"), restorer)?;
    let restored = restore_on(&mut run, restorer);
    ended(run, restored)
}

/// Restores the played store at the desk of a run, and finishes both outputs.
fn restore_on(run: &mut RunDesk, restorer: Restorer) -> Result<Restored, NoMemory>
    requires opened { run_meanings run.old ≡ run_reported run.old.desk played_name restored_name report_name }
    requires whole { (restore_course restorer.places restorer.apid (kept_at run.old.desk.held played_name)).ending ≡ None }
    ensures held { OnOk result (run.new.desk.held ≡ with_outputs run.old.desk.held restored_name report_name
        (texts_of (owed (restore_course restorer.places restorer.apid (kept_at run.old.desk.held played_name))))) }
    ensures numbers { IfOk result
        (λ restored. restored ≡ restored_of
        (store_run restorer.places restorer.apid (kept_at run.old.desk.held played_name))) }
{
    let restored = match restorer.restore(run) {
        Ok(restored) => restored,
        Err(RestoreFault::WriteFault) => return Err(NoMemory),
        Err(RestoreFault::Store(_)) => unreachable!(),
    };
    run.keep(Outlet::Main)?;
    run.keep(Outlet::Report)?;
    Ok(restored)
}

/// A desk at which the input and both outputs of a run are opened.
fn reported(
    desk: MemDesk,
    input: &'static str,
    output: &'static str,
    report: &'static str,
) -> Result<RunDesk, NoMemory>
    requires { IsRunDesk desk input.now }
    ensures { IfOk result (λ run. run_meanings run ≡ run_reported desk input.now output.now report.now) }
{
    let mut run = RunDesk::open(desk, input, output)?;
    run.begin(Outlet::Report, report)?;
    Ok(run)
}

/// The desk of a run, if there was memory to open it, with the chain that runs over it.
fn with_chain<C: Drop>(run: Result<RunDesk, NoMemory>, chain: C) -> Result<(RunDesk, C), NoMemory>
    ensures run { IfOk result (λ opened. run ≡ Ok opened.0) }
    ensures chain { IfOk result (λ opened. opened.1 ≡ chain) }
{
    let run = run?;
    Ok((run, chain))
}

/// The desk after a run, with what the run answered.
fn ended<A>(run: RunDesk, answer: Result<A, NoMemory>) -> Result<(MemDesk, A), NoMemory>
    ensures desk { IfOk result (λ after. HoldsJust after.0 run.desk.held) }
    ensures answer { IfOk result (λ after. answer ≡ Ok after.1) }
{
    let answer = answer?;
    Ok((run.into_desk(), answer))
}
