//! A command whose texts are read and whose memory is taken.
ghost use Rattle.std.specs.Prelude.{◌≡◌, ◌⊎◌, None, map, IsTrue, IfSome, IfOk, IfErr, OnOk};
ghost use Rattle.std.specs.Option.{option_map};
ghost use Rattle.std.specs.String.{string_bytes};
ghost use Rattle.desk_ports.specs.Meanings.{IsReadyOut};
ghost use Rattle.desk_ports.specs.Courses.{to_output};
ghost use Rattle.desk_ports.specs.Turns.{Writes};
ghost use Rattle.side_tables.specs.Grammar.{bad_copy_row, bad_schedule_row, copy_rows_of, schedule_rows_of};
ghost use Rattle.side_tables.specs.Streams.{bad_stream_row, streams_of};
ghost use Rattle.param_table.specs.Rows.{bad_text_row};
ghost use Rattle.pocket_cmd.specs.Command.{IsRight, names_of, view_command};
ghost use Rattle.pocket_cmd.specs.Courses.{compression_by, tabulation_by};
ghost use Rattle.pocket_cmd.specs.Jobs.{AfterJob, AfterMaking, HasMakingCause, IsScriptRead, job_course, reads_input, writes_report};
ghost use Rattle.pocket_cmd.specs.Openings.{AreGranted, IsReadyFor};
ghost use Rattle.pocket_cmd.specs.Outcome.{IsRowRefused, IsTextRefused};
ghost use Rattle.pocket_cmd.specs.Status.{HasStatusCause, IsEnded, class_of, status_by};
ghost use Rattle.pocket_cmd.specs.Words.{apid, bits, packets, robust, window};

use crate::mask::first_mask;
use crate::status::{Refusal, no_table, unread};
use crate::summary::summary_text;
use crate::text::{Text, text_at};
use crate::verbs::Verb;
use crate::words::{Command, number_at, text_of};
use bit_vectors::NoMemory;
use desk_ports::{Desk, Failed, Inlet, Outlet, write_all};
use flight_chain::Flight;
use forecast::Forecast;
use ground_chain::{Lister, Restorer};
use late_window::LateRestorer;
use loss_player::Player;
use multi_ground::MultiRestorer;
use param_table::{Fields, Tabler};
use side_tables::{Schedule, Script, Streams};
use std::alloc::Global;

/// What reads the main input to its end, if there is one, and writes the outputs. It owns all memory of its run.
#[derive(Drop)]
pub enum Job {
    Compress(Flight),
    Play(Player),
    Restore(Restorer),
    Show(Lister),
    /// The text of a trial's summary.
    Trial(Vec<u8>),
    Multi(MultiRestorer),
    Late(LateRestorer),
    Table(Tabler),
    Forecast(Forecast),
}

impl Job {
    /// The job of a command whose side input has this text, once a text that is its input is read.
    pub fn of<D: Desk>(
        alloc: Global,
        command: &Command<'_>,
        text: &Text,
        desk: &mut D,
    ) -> Result<Job, Refusal>
        requires { AreGranted (names_of (view_command command.now)) (D.meaning desk.old) }
        ensures after { AfterMaking (view_command command.now) text.now.bytes.items
            (D.meaning desk.old) (D.meaning desk.new) result }
        ensures cause { HasMakingCause (D.counts desk.old) (D.counts desk.new) result }
    {
        let words = command.words;
        match command.verb {
            Verb::Compress => Ok(Job::Compress(flight(alloc, words, text)?)),
            Verb::Play => Ok(Job::Play(player(alloc, words, text)?)),
            Verb::Restore => Ok(Job::Restore(restorer(alloc, words)?)),
            Verb::Show => Ok(Job::Show(lister(alloc, words)?)),
            Verb::Trial => Ok(Job::Trial(summary_text(alloc, words)?)),
            Verb::Multi => Ok(Job::Multi(multi_restorer(alloc, text)?)),
            Verb::Late => Ok(Job::Late(late_restorer(alloc, words)?)),
            Verb::Table => Ok(Job::Table(tabler(alloc, words, text)?)),
            Verb::Forecast => Ok(Job::Forecast(forecast(
                alloc,
                words,
                text,
                command.names().input,
                desk,
            )?)),
        }
    }

    /// Runs over a desk at which the input and the outputs are opened. It takes no memory.
    pub fn run<D: Desk>(self, desk: &mut D) -> Result<(), Refusal>
        requires { IsReadyFor (reads_input self) (writes_report self) (D.meaning desk.old) }
        ensures ran { IsEnded
            (AfterJob (reads_input self) (job_course self) (D.meaning desk.old)
            (D.meaning desk.new))
            result }
        ensures cause { HasStatusCause (D.counts desk.old) (D.counts desk.new) (status_by result) }
        ensures ready_out { OnOk result (IsReadyOut (D.meaning desk.new) Outlet.Main) }
        ensures ready_report { IsReadyOut (D.meaning desk.old) Outlet.Report
            → OnOk result (IsReadyOut (D.meaning desk.new) Outlet.Report) }
    {
        match self {
            Job::Compress(flight) => match flight.compress(desk) {
                Ok(_) => Ok(()),
                Err(fault) => Err(fault.into()),
            },
            Job::Play(player) => match player.play(desk) {
                Ok(_) => Ok(()),
                Err(fault) => Err(fault.into()),
            },
            Job::Restore(restorer) => match restorer.restore(desk) {
                Ok(_) => Ok(()),
                Err(fault) => Err(fault.into()),
            },
            Job::Show(lister) => match lister.list(desk) {
                Ok(_) => Ok(()),
                Err(fault) => Err(fault.into()),
            },
            Job::Trial(text) => match write_text(text, desk) {
                Ok(()) => Ok(()),
                Err(_) => Err(Refusal::WriteFault),
            },
            Job::Multi(restorer) => match restorer.restore(desk) {
                Ok(_) => Ok(()),
                Err(fault) => Err(fault.into()),
            },
            Job::Late(restorer) => match restorer.restore(desk) {
                Ok(_) => Ok(()),
                Err(fault) => Err(fault.into()),
            },
            Job::Table(tabler) => match tabler.tabulate(desk) {
                Ok(_) => Ok(()),
                Err(fault) => Err(fault.into()),
            },
            Job::Forecast(forecast) => match forecast.write(desk) {
                Ok(_) => Ok(()),
                Err(_) => Err(Refusal::WriteFault),
            },
        }
    }
}

/// Writes a text to the main output.
fn write_text<D: Desk>(text: Vec<u8>, desk: &mut D) -> Result<(), Failed>
    requires { IsReadyOut (D.meaning desk.old) Outlet.Main }
    ensures { Writes D.meaning D.counts desk.old desk.new (to_output text.items) result }
{
    write_all(desk, Outlet::Main, &text)
}

/// The flight of `compress`, whose schedule has this text.
fn flight(alloc: Global, words: &[String], text: &Text) -> Result<Flight, Refusal>
    requires { IsRight (Verb.Compress, map string_bytes words.now) }
    ensures flight { IfOk result
        (λ flight. flight ≡ compression_by (map string_bytes words.now) text.now.bytes.items) }
    ensures rows { OnOk result (bad_schedule_row text.now.bytes.items ≡ None) }
    ensures refused { IfErr result
        (λ refusal. IsRowRefused (bad_schedule_row text.now.bytes.items) (class_of refusal)) }
{
    let plan = Schedule::read(alloc, &text.bytes)?;
    let f = number_at(words, "bits");
    let (robust, apid) = (
        number_at(words, "robust") as u8,
        number_at(words, "apid") as u16,
    );
    let mask = first_mask(alloc, f, text_of(words, "mask"))?;
    Ok(Flight::open(alloc, f, robust, apid, &mask, plan)?)
}

/// The player of `play`, whose script has this text.
fn player(alloc: Global, words: &[String], text: &Text) -> Result<Player, Refusal>
    requires { IsRight (Verb.Play, map string_bytes words.now) }
    ensures player { let words = map string_bytes words.now in
        IfOk result
        (λ player. player ≡ record { apid = apid words; rows = copy_rows_of text.now.bytes.items }) }
    ensures rows { OnOk result (bad_copy_row text.now.bytes.items ≡ None) }
    ensures refused { IfErr result
        (λ refusal. IsRowRefused (bad_copy_row text.now.bytes.items) (class_of refusal)) }
{
    let script = Script::read(alloc, &text.bytes)?;
    Ok(Player::open(alloc, number_at(words, "apid") as u16, script)?)
}

/// The restorer of `restore`.
fn restorer(alloc: Global, words: &[String]) -> Result<Restorer, NoMemory>
    requires { IsRight (Verb.Restore, map string_bytes words.now) }
    ensures { let words = map string_bytes words.now in
        IfOk result (λ restorer. restorer ≡ record { places = bits words; apid = apid words }) }
{
    Restorer::open(
        alloc,
        number_at(words, "bits"),
        number_at(words, "apid") as u16,
    )
}

/// The lister of `show`.
fn lister(alloc: Global, words: &[String]) -> Result<Lister, NoMemory>
    requires { IsRight (Verb.Show, map string_bytes words.now) }
    ensures { let words = map string_bytes words.now in
        IfOk result (λ lister. lister ≡ record { places = bits words; apid = apid words }) }
{
    Lister::open(
        alloc,
        number_at(words, "bits"),
        number_at(words, "apid") as u16,
    )
}

/// The restorer of `multi`, whose streams have this text.
fn multi_restorer(alloc: Global, text: &Text) -> Result<MultiRestorer, Refusal>
    ensures restorer { IfOk result (λ restorer. restorer ≡ streams_of text.now.bytes.items) }
    ensures rows { OnOk result (bad_stream_row text.now.bytes.items ≡ None) }
    ensures refused { IfErr result
        (λ refusal. IsRowRefused (bad_stream_row text.now.bytes.items) (class_of refusal)) }
{
    let streams = Streams::read(alloc, &text.bytes)?;
    Ok(MultiRestorer::open(alloc, streams)?)
}

/// The restorer of `late`.
fn late_restorer(alloc: Global, words: &[String]) -> Result<LateRestorer, NoMemory>
    requires { IsRight (Verb.Late, map string_bytes words.now) }
    ensures { let words = map string_bytes words.now in
        IfOk result (λ restorer. restorer ≡
        record { places = bits words; apid = apid words; window = window words }) }
{
    LateRestorer::open(
        alloc,
        number_at(words, "bits"),
        number_at(words, "apid") as u16,
        number_at(words, "window") as u8,
    )
}

/// The tabler of `table`, whose fields have this text.
fn tabler(alloc: Global, words: &[String], text: &Text) -> Result<Tabler, Refusal>
    requires { IsRight (Verb.Table, map string_bytes words.now) }
    ensures tabler { IfOk result
        (λ tabler. tabler ≡ tabulation_by (map string_bytes words.now) text.now.bytes.items) }
    ensures rows { let words = map string_bytes words.now in
        OnOk result (bad_text_row (bits words) text.now.bytes.items ≡ None) }
    ensures refused { let words = map string_bytes words.now in
        IfErr result
        (λ refusal. IsRowRefused (bad_text_row (bits words) text.now.bytes.items) (class_of refusal)) }
{
    let f = number_at(words, "bits");
    let fields = Fields::read(alloc, &text.bytes, f)?;
    Ok(Tabler::open(alloc, f, fields)?)
}

/// The forecast of `forecast`, whose schedule has this text. Its script, of this name, is opened and read after the schedule.
fn forecast<D: Desk>(
    alloc: Global,
    words: &[String],
    text: &Text,
    name: Option<&str>,
    desk: &mut D,
) -> Result<Forecast, Refusal>
    requires right { IsRight (Verb.Forecast, map string_bytes words.now) }
    requires input { IfSome name (λ name. IsTrue ((D.meaning desk.old).grants_in name.now)) }
    ensures rows { OnOk result (bad_schedule_row text.now.bytes.items ≡ None) }
    ensures read { let words = map string_bytes words.now in
        let name = option_map (λ name. name.now) name.entry in
        IfOk result (λ forecast. IsScriptRead name bad_copy_row (D.meaning desk.old)
        (D.meaning desk.new)
        (λ script. forecast ≡ record {
          packets = packets words;
          outlook = record {
            plan = schedule_rows_of text.now.bytes.items;
            robust = robust words;
            script = copy_rows_of script;
          };
        })) }
    ensures refused { let name = option_map (λ name. name.now) name.entry in
        IfErr result (λ refusal.
        (IsRowRefused (bad_schedule_row text.now.bytes.items) (class_of refusal)
        × (D.meaning desk.new ≡ D.meaning desk.old))
        ⊎ ((bad_schedule_row text.now.bytes.items ≡ None)
        × IsTextRefused bad_copy_row name (D.meaning desk.old) (D.meaning desk.new)
        (class_of refusal))) }
    ensures cause { HasMakingCause (D.counts desk.old) (D.counts desk.new) result }
{
    let schedule = Schedule::read(alloc, &text.bytes)?;
    let script = script(alloc, desk, name)?;
    let packets = number_at(words, "packets");
    let robust = number_at(words, "robust") as u8;
    Ok(Forecast::open(alloc, packets, robust, schedule, script)?)
}

/// The script of this name, which is opened and read.
fn script<D: Desk>(alloc: Global, desk: &mut D, name: Option<&str>) -> Result<Script, Refusal>
    requires { IfSome name (λ name. IsTrue ((D.meaning desk.old).grants_in name.now)) }
    ensures read { let name = option_map (λ name. name.now) name.entry in
        IfOk result (λ script. IsScriptRead name bad_copy_row (D.meaning desk.old)
        (D.meaning desk.new) (λ text. script ≡ copy_rows_of text)) }
    ensures refused { let name = option_map (λ name. name.now) name.entry in
        IfErr result (λ refusal. IsTextRefused bad_copy_row name (D.meaning desk.old)
        (D.meaning desk.new) (class_of refusal)) }
    ensures cause { HasMakingCause (D.counts desk.old) (D.counts desk.new) result }
{
    match text_at(alloc, desk, Inlet::Main, name) {
        Err(fault) => Err(unread(Inlet::Main, fault)),
        Ok(text) => match Script::read(alloc, &text.bytes) {
            Ok(script) => Ok(script),
            Err(fault) => Err(no_table(Inlet::Main, fault)),
        },
    }
}
