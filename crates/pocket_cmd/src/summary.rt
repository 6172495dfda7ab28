//! The summary of a trial, which is run in memory.
ghost use Rattle.std.specs.Prelude.{◌≡◌, ◌≤◌, ◌++◌, length, map, IfOk, OnOk};
ghost use Rattle.std.specs.String.{string_bytes};
ghost use Rattle.trial_chain.specs.Trials.{trial_summary};
ghost use Rattle.pocket_cmd.specs.Command.{IsRight};
ghost use Rattle.pocket_cmd.specs.Summary.{summary_by, summary_line, summary_lines};
ghost use Rattle.pocket_cmd.specs.Words.{bits, packets, robust, seed};

use crate::verbs::Verb;
use crate::words::number_at;
use bit_vectors::NoMemory;
use desk_ports::{MemDesk, Row};
use std::alloc::Global;
use trial_chain::{Summary, run_trial};

/// Runs a trial at a desk of its own, and gives its summary as a text.
pub fn summary_text(alloc: Global, words: &[String]) -> Result<Vec<u8>, NoMemory>
    requires { IsRight (Verb.Trial, map string_bytes words.now) }
    ensures { IfOk result (λ text. text.items ≡ summary_by (map string_bytes words.now)) }
{
    let summary = summary_of(alloc, words)?;
    lines(alloc, &summary)
}

/// Runs the trial of the words at a desk of its own.
fn summary_of(alloc: Global, words: &[String]) -> Result<Summary, NoMemory>
    requires { IsRight (Verb.Trial, map string_bytes words.now) }
    ensures { let words = map string_bytes words.now in
        IfOk result (λ summary. summary
        ≡ trial_summary (seed words) (packets words) (bits words) (robust words)) }
{
    let mut desk = MemDesk::new(alloc);
    let (seed, packets) = (number_at(words, "seed"), number_at(words, "packets"));
    let (f, robust) = (number_at(words, "bits"), number_at(words, "robust") as u8);
    run_trial(alloc, seed, packets, f, robust, &mut desk)
}

/// The seven lines of a summary.
fn lines(alloc: Global, summary: &Summary) -> Result<Vec<u8>, NoMemory>
    ensures { IfOk result (λ text. text.items ≡ summary_lines summary.now) }
{
    let mut text = Vec::new(alloc);
    push_line(&mut text, "packets", summary.packets)?;
    push_line(&mut text, "recording", summary.recording)?;
    push_line(&mut text, "store", summary.store)?;
    push_line(&mut text, "played", summary.played)?;
    push_line(&mut text, "delivered", summary.delivered)?;
    push_line(&mut text, "written", summary.written)?;
    push_line(&mut text, "listed", summary.listed)?;
    Ok(text)
}

/// Appends a line with a word, of nine letters at most, and a number.
fn push_line(text: &mut Vec<u8>, word: &str, number: u64) -> Result<(), NoMemory>
    requires { length word.now ≤ 9 }
    ensures { OnOk result (text.new.items ≡ text.old.items ++ summary_line word.now number) }
{
    let mut row = Row::new();
    row.put_text(word);
    row.put_text(" ");
    row.put_number(number);
    row.put_text("\n");
    Ok(text.extend_from_slice(row.as_bytes())?)
}
