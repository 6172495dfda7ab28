//! The work of a command.
ghost use Rattle.pocket_cmd.specs.Command.{names_of, view_command};
ghost use Rattle.pocket_cmd.specs.Openings.{AreGranted};
ghost use Rattle.pocket_cmd.specs.Outcome.{AfterCommand, AfterText, IsAnswered, IsAnsweredBy};
ghost use Rattle.pocket_cmd.specs.Status.{HasStatusCause, status_by};

use crate::job::Job;
use crate::run::run;
use crate::status::{Refusal, unread};
use crate::text::{Text, text_at};
use crate::words::Command;
use desk_ports::{Desk, Inlet};
use std::alloc::Global;

/// Reads the side input of a command, takes the memory of its run, and runs it.
pub fn perform<D: Desk>(alloc: Global, command: &Command<'_>, desk: &mut D) -> Result<(), Refusal>
    requires { AreGranted (names_of (view_command command.now)) (D.meaning desk.old) }
    ensures after { AfterCommand (view_command command.now) (D.meaning desk.old)
        (D.meaning desk.new) result }
    ensures cause { HasStatusCause (D.counts desk.old) (D.counts desk.new) (status_by result) }
    ensures ends { IsAnswered (view_command command.now) (D.meaning desk.old) (D.counts desk.old)
        (D.counts desk.new) result }
{
    match text_at(alloc, desk, Inlet::Side, command.names().side) {
        Ok(text) => perform_with(alloc, command, &text, desk),
        Err(fault) => Err(unread(Inlet::Side, fault)),
    }
}

/// Reads what else a command reads before its run, whose side input has this text, takes the memory of the run, and runs it.
fn perform_with<D: Desk>(
    alloc: Global,
    command: &Command<'_>,
    text: &Text,
    desk: &mut D,
) -> Result<(), Refusal>
    requires { AreGranted (names_of (view_command command.now)) (D.meaning desk.old) }
    ensures after { AfterText (view_command command.now) text.now.bytes.items (D.meaning desk.old)
        (D.meaning desk.new) result }
    ensures cause { HasStatusCause (D.counts desk.old) (D.counts desk.new) (status_by result) }
    ensures ends { IsAnsweredBy (view_command command.now) text.now.bytes.items
        (D.meaning desk.old) (D.counts desk.old) (D.counts desk.new) result }
{
    match Job::of(alloc, command, text, desk) {
        Ok(job) => run(desk, &command.names_left(), job),
        Err(refusal) => Err(refusal),
    }
}
