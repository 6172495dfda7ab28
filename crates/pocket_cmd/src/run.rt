//! A run over a desk: opening the names of a command, running its job, and finishing its outputs.
ghost use Rattle.std.specs.Prelude.{◌≡◌, ℕ, List, false, is_some, IsTrue, IfSome, IsSome, IfErr, OnOk, OnErr};
ghost use Rattle.std.specs.Option.{option_map};
ghost use Rattle.desk_ports.specs.Meanings.{Meanings, IsReadyIn, IsReadyOut, HasReadCause, HasWriteCause};
ghost use Rattle.pocket_cmd.specs.Jobs.{AreNamesOf, job_course, reads_input, writes_report};
ghost use Rattle.pocket_cmd.specs.Openings.{view_names, AfterOpening, AreGranted, HasOpeningCause, IsReadyFor, AfterFinishing, AreKeptUnder, with_input, with_report};
ghost use Rattle.pocket_cmd.specs.Outcome.{AfterNames, AreOpened};
ghost use Rattle.pocket_cmd.specs.Status.{HasStatusCause, IsEnded, status_by};
ghost use Rattle.pocket_cmd.specs.declared.run.Unopened.TheVariants as unopened;

use crate::job::Job;
use crate::status::Refusal;
use desk_ports::{Desk, Failed, Inlet, Outlet};

/// The names that a command opens. Only the name of an output is one that every command has.
#[derive(Clone, Copy, Debug)]
pub struct Names<'a> {
    pub side: Option<&'a str>,
    pub input: Option<&'a str>,
    pub output: &'a str,
    pub report: Option<&'a str>,
}

/// What could not be opened.
#[derive(Clone, Copy, Debug, PartialEq, Eq)]
enum Unopened {
    Input,
    Output,
}

/// Opens the names, runs the job, and finishes the outputs.
pub fn run<D: Desk>(desk: &mut D, names: &Names<'_>, job: Job) -> Result<(), Refusal>
    requires granted { AreGranted (view_names names.now) (D.meaning desk.old) }
    requires named { AreNamesOf job (view_names names.now) }
    ensures ran { let names = view_names names.now in
        IsEnded (AfterNames names (job_course job) (D.meaning desk.old)
        (D.meaning desk.new)) result }
    ensures cause { HasStatusCause (D.counts desk.old) (D.counts desk.new) (status_by result) }
{
    match open_all(desk, names) {
        Ok(()) => run_opened(desk, names, job),
        Err(Unopened::Input) => {
            let_go(job);
            Err(Refusal::ReadFault)
        }
        Err(Unopened::Output) => {
            let_go(job);
            Err(Refusal::WriteFault)
        }
    }
}

/// Gives back the memory of a job that does not run.
fn let_go<T: Drop>(_job: T) {}

/// Runs the job at a desk at which the names are opened, and finishes the outputs.
fn run_opened<D: Desk>(desk: &mut D, names: &Names<'_>, job: Job) -> Result<(), Refusal>
    requires ready { IsReadyFor (reads_input job) (writes_report job) (D.meaning desk.old) }
    requires named { AreNamesOf job (view_names names.now) }
    ensures ran { let names = view_names names.now in
        (old : Meanings) → AreOpened names old (D.meaning desk.old)
        → IsEnded (AfterNames names (job_course job) old (D.meaning desk.new)) result }
    ensures cause { HasStatusCause (D.counts desk.old) (D.counts desk.new) (status_by result) }
{
    match job.run(desk) {
        Ok(()) => {}
        Err(refusal) => return Err(refusal),
    }
    match finish_all(desk, names.report) {
        Ok(()) => Ok(()),
        Err(_) => Err(Refusal::WriteFault),
    }
}

/// Opens the input if there is one, the output, and the report if there is one.
fn open_all<D: Desk>(desk: &mut D, names: &Names<'_>) -> Result<(), Unopened>
    requires { AreGranted (view_names names.now) (D.meaning desk.old) }
    ensures opened { AfterOpening (view_names names.now) (D.meaning desk.old)
        (D.meaning desk.new) result }
    ensures cause { HasOpeningCause (D.counts desk.old) (D.counts desk.new) result }
    ensures ready { let names = view_names names.now in
        OnOk result
        (IsReadyFor (is_some names.input) (is_some names.report) (D.meaning desk.new)) }
{
    open_input(desk, names.input)?;
    let Ok(()) = desk.open_out(Outlet::Main, names.output) else {
        return Err(Unopened::Output);
    };
    open_report(desk, names.report)
}

/// Opens the input, if there is one.
fn open_input<D: Desk>(desk: &mut D, name: Option<&str>) -> Result<(), Unopened>
    requires { IfSome name (λ name. IsTrue ((D.meaning desk.old).grants_in name.now)) }
    ensures opened { let input = option_map (λ name. name.now) name.entry in
        OnOk result ((bytes : List ℕ) × AreKeptUnder (D.meaning desk.old) input bytes
        × (D.meaning desk.new ≡ with_input (D.meaning desk.old) input bytes)) }
    ensures only { IfErr result (λ fault. fault ≡ unopened.Input) }
    ensures ready { OnOk result
        (IsSome name.entry → IsReadyIn (D.meaning desk.new) Inlet.Main) }
    ensures input { OnErr result (IsSome name.entry) }
    ensures unchanged { OnErr result (D.meaning desk.new ≡ D.meaning desk.old) }
    ensures cause { HasReadCause (D.counts desk.old) (D.counts desk.new) result }
{
    let Some(name) = name else {
        return Ok(());
    };
    match desk.open_in(Inlet::Main, name) {
        Ok(()) => Ok(()),
        Err(_) => Err(Unopened::Input),
    }
}

/// Opens the report, if there is one.
fn open_report<D: Desk>(desk: &mut D, name: Option<&str>) -> Result<(), Unopened>
    requires { IfSome name (λ name. IsTrue ((D.meaning desk.old).grants_out name.now)) }
    ensures opened { OnOk result
        (D.meaning desk.new ≡ with_report (D.meaning desk.old)
        (option_map (λ name. name.now) name.entry)) }
    ensures only { IfErr result (λ fault. fault ≡ unopened.Output) }
    ensures ready { OnOk result
        (IsSome name.entry → IsReadyOut (D.meaning desk.new) Outlet.Report) }
    ensures ready_in { IsReadyIn (D.meaning desk.old) Inlet.Main
        → IsReadyIn (D.meaning desk.new) Inlet.Main }
    ensures ready_out { IsReadyOut (D.meaning desk.old) Outlet.Main
        → IsReadyOut (D.meaning desk.new) Outlet.Main }
    ensures report { OnErr result (IsSome name.entry) }
    ensures unchanged { OnErr result (D.meaning desk.new ≡ D.meaning desk.old) }
    ensures cause { HasWriteCause (D.counts desk.old) (D.counts desk.new) result }
{
    let Some(name) = name else {
        return Ok(());
    };
    match desk.open_out(Outlet::Report, name) {
        Ok(()) => Ok(()),
        Err(_) => Err(Unopened::Output),
    }
}

/// Finishes the output, and then the report, if there is one.
fn finish_all<D: Desk>(desk: &mut D, report: Option<&str>) -> Result<(), Failed>
    requires { IsReadyFor false (is_some report) (D.meaning desk.old) }
    ensures finished { AfterFinishing (option_map (λ name. name.now) report.entry)
        (D.meaning desk.old) (D.meaning desk.new) result }
    ensures cause { HasWriteCause (D.counts desk.old) (D.counts desk.new) result }
{
    desk.finish(Outlet::Main)?;
    match report {
        None => Ok(()),
        Some(_) => desk.finish(Outlet::Report),
    }
}
