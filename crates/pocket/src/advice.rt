//! What a second line on standard error says of a refusal, if that is a terminal or the environment asks for it. Nothing
//! that is decided looks at it.

use crate::keys::Takes;
use desk_ports::{FileDesk, Inlet, Outlet};
use param_table::FieldText;
use pocket_cmd::{MOST_TEXT_BYTES, Port, Refusal, VERB_WORDS, ValueKind, Verb, row_of, text_of};
use side_tables::{RowFault, ScheduleText, ScriptText, StreamText, wrong_row};
use std::fmt::{Display, Formatter};
use std::io::IsTerminal;
use std::{env, fmt, fs, io};
use strsim::levenshtein;

/// How many characters of a word, a name or a row are shown.
const MOST: usize = 200;

/// A text as it may be shown on a terminal: at most its first 200 characters, and `?` for each control character.
#[derive(Clone, Copy)]
pub struct Shown<'a>(pub &'a str);

impl<'a> Display for Shown<'a> {
    fn fmt<W: fmt::Write>(&self, f: &mut Formatter<W>) -> fmt::Result {
        for c in self.0.chars().take(MOST) {
            f.write_char(if c.is_control() { '?' } else { c })?;
        }
        Ok(())
    }
}

/// The variable of the environment that asks for the second line in a pipe, a file or a log too, if it is `1`.
const EXPLAIN: &str = "POCKET_EXPLAIN";

/// Whether a second line is asked for.
fn is_asked_for(rt: &HostRuntime) -> bool {
    rt.stderr().is_terminal() || env::var(rt, EXPLAIN).is_ok_and(|value| value.as_str() == "1")
}

/// Says more of a refusal by a run at a desk, if that is asked for.
pub fn advise<'a>(rt: &HostRuntime, words: &[String], desk: &FileDesk<'a>, refusal: &Refusal) {
    if !is_asked_for(rt) {
        return;
    }
    match refusal {
        Refusal::BadWords { word } => tell_word(rt, words, *word as usize),
        Refusal::BadSide { .. } => tell_row(rt, words, Port::Side),
        Refusal::BadScript { .. } => tell_row(rt, words, Port::Input),
        Refusal::ReadFault => match desk.read_fault() {
            Some((Inlet::Main, error)) => tell_failed(rt, words, Port::Input, error),
            Some((Inlet::Side, error)) => tell_failed(rt, words, Port::Side, error),
            None => {}
        },
        Refusal::WriteFault => match desk.write_fault() {
            Some((Outlet::Main, error)) => tell_failed(rt, words, Port::Output, error),
            Some((Outlet::Report, error)) => tell_failed(rt, words, Port::Report, error),
            None => {}
        },
        Refusal::CutRecord { .. } | Refusal::SpareBit { .. } => tell_parts(rt, words),
        Refusal::BadStore { .. } | Refusal::TooMany => tell_parts(rt, words),
        Refusal::SideTooLong | Refusal::ScriptTooLong | Refusal::NoMemory => {}
    }
}

/// Tells what is wrong with the word at this place, or which one is missing.
fn tell_word(rt: &HostRuntime, words: &[String], place: usize) {
    let Some((word, given)) = words.split_first() else {
        let _ = eprintln!(rt; "pocket: pocket --help has the verbs and their keys");
        return;
    };
    let Some(verb) = Verb::of(word.as_str()) else {
        return tell_verb(rt, word.as_str());
    };
    match words.get(place) {
        None => tell_missing(rt, verb, given),
        Some(wrong) => tell_value(rt, word.as_str(), verb, &words[..place], wrong.as_str()),
    }
}

/// Tells the verb that this word is near, or all verbs.
fn tell_verb(rt: &HostRuntime, word: &str) {
    let shown = Shown(word);
    if let Some(verb) = near(rt, word, &VERB_WORDS) {
        let _ = eprintln!(rt; "pocket: {shown} is no verb: did you mean {verb}");
        return;
    }
    let _ = eprint!(rt; "pocket: {shown} is no verb; the verbs are");
    for verb in VERB_WORDS {
        let _ = eprint!(rt; " {verb}");
    }
    let _ = eprintln!(rt; "");
}

/// The first of some words that is one or two letters off this one.
fn near(rt: &HostRuntime, word: &str, all: &[&'static str]) -> Option<&'static str> {
    for one in all {
        if levenshtein(rt.alloc(), one, word).is_ok_and(|off| off <= 2) {
            return Some(one);
        }
    }
    None
}

/// Tells the first key that is needed and that no word has.
fn tell_missing(rt: &HostRuntime, verb: Verb, given: &[String]) {
    for row in verb.rows() {
        let key = row.key();
        if row.is_needed() && text_of(given, key).is_none() {
            let takes = Takes(*row);
            let _ = eprintln!(rt; "pocket: {key}= is missing: {takes}");
            return;
        }
    }
}

/// Tells what the key of a word takes, or which keys the verb has.
fn tell_value(rt: &HostRuntime, name: &str, verb: Verb, before: &[String], word: &str) {
    let shown = Shown(word);
    let Some((key, value)) = word.split_once('=') else {
        let _ = eprint!(rt; "pocket: {shown} has no =; ");
        return tell_keys(rt, name, verb);
    };
    let Some(row) = row_of(verb.rows(), key) else {
        return tell_key(rt, name, verb, key);
    };
    let takes = Takes(row);
    let is_number = matches!(row.value(), ValueKind::Number(..));
    let _ = if text_of(before, key).is_some() {
        eprintln!(rt; "pocket: {shown}: an earlier word has this key")
    } else if is_number {
        eprintln!(rt; "pocket: {shown}: {takes}; digits alone, without a zero in front")
    } else if matches!(row.value(), ValueKind::Name(_)) && !value.is_empty() {
        eprintln!(rt; "pocket: {shown}: another key has this name")
    } else {
        eprintln!(rt; "pocket: {shown}: {takes}")
    };
}

/// Tells the key that this one is near, or all keys that the verb has.
fn tell_key(rt: &HostRuntime, name: &str, verb: Verb, key: &str) {
    let shown = Shown(key);
    for row in verb.rows() {
        let own = row.key();
        if near(rt, key, &[own]).is_some() {
            let _ = eprintln!(rt; "pocket: {name} has no key {shown}: did you mean {own}=");
            return;
        }
    }
    let _ = eprint!(rt; "pocket: {name} has no key {shown}; ");
    tell_keys(rt, name, verb);
}

/// Tells the keys that a verb has.
fn tell_keys(rt: &HostRuntime, name: &str, verb: Verb) {
    let _ = eprint!(rt; "the keys of {name} are");
    for row in verb.rows() {
        let key = row.key();
        let _ = eprint!(rt; " {key}");
    }
    let _ = eprintln!(rt; "");
}

/// The key of what a command opens there, and the name that its words give to it.
fn named<'a>(words: &'a [String], port: Port) -> Option<(&'static str, &'a str)> {
    let (verb, words) = words.split_first()?;
    for row in Verb::of(verb.as_str())?.rows() {
        if row.value().is_name_at(port) {
            return Some((row.key(), text_of(words, row.key())?));
        }
    }
    None
}

/// Tells the text of the first wrong row of a text that is opened there, and which part of it is wrong, if it was read from a
/// file.
fn tell_row(rt: &HostRuntime, words: &[String], port: Port) {
    let Some((key, name)) = named(words, port) else {
        return;
    };
    let is_short = fs::metadata(rt, name).is_ok_and(|it| it.is_file()
        && it.len() <= MOST_TEXT_BYTES as u64);
    if name == "-" || !is_short {
        return;
    }
    let Ok(text) = fs::read_to_string(rt, name) else {
        return;
    };
    if let Some((row, why)) = wrong_row_of(rt, words, key, text.as_str()) {
        let shown = Shown(row);
        let _ = eprintln!(rt; "pocket: {shown}: {why}");
    }
}

/// The first wrong row of the text of a key, and which part of it is wrong.
fn wrong_row_of<'a>(
    rt: &HostRuntime,
    words: &[String],
    key: &str,
    text: &'a str,
) -> Option<(&'a str, RowFault)> {
    let (alloc, bytes) = (rt.alloc(), text.as_bytes());
    let bits = text_of(words, "bits").and_then(|bits| bits.parse::<u32>().ok());
    let (record, fault) = match key {
        "plan" => wrong_row(alloc, &ScheduleText, bytes),
        "script" => wrong_row(alloc, &ScriptText, bytes),
        "streams" => wrong_row(alloc, &StreamText, bytes),
        _ => wrong_row(alloc, &FieldText { places: bits? }, bytes),
    }?;
    let at = record.position()?.byte();
    let row = text
        .get(at as usize..)?
        .trim_start_matches(['\n', '\r'])
        .split(['\n', '\r'])
        .next()?;
    Some((row, fault))
}

/// Says of a command that was done, if standard error is a terminal, what its sender risks: a recording that was compressed
/// without a schedule, so that only its first packets carry their mask and whole content; or that its output is empty.
pub fn caution(rt: &HostRuntime, words: &[String]) {
    if !rt.stderr().is_terminal() {
        return;
    }
    tell_empty(rt, words);
    let is_compress = words
        .first()
        .is_some_and(|verb| verb.as_str() == "compress");
    if is_compress && text_of(words, "plan").is_none() {
        let _ = eprintln!(rt;
            "pocket: without plan= no later packet carries its mask and whole content: more than robust= lost in a row may leave all after them unwritten"
        );
    }
}

/// Tells that an output is a file without a byte, as it is if a store has no packet on the APID.
fn tell_empty(rt: &HostRuntime, words: &[String]) {
    let Some(name) = text_of(words, "out") else {
        return;
    };
    let is_empty = fs::metadata(rt, name).is_ok_and(|it| it.is_file() && it.len() == 0);
    if name == "-" || !is_empty {
        return;
    }
    let shown = Shown(name);
    let _ = match text_of(words, "apid") {
        Some(apid) => {
            eprintln!(rt; "pocket: {shown} has no byte: no packet on APID {apid} was written")
        }
        None => eprintln!(rt; "pocket: {shown} has no byte: no packet was written"),
    };
}

/// Tells the error of what is opened there with its name.
fn tell_failed(rt: &HostRuntime, words: &[String], port: Port, error: &io::Error) {
    if let Some((_, name)) = named(words, port) {
        tell_error(rt, name, error);
    }
}

/// Tells an error of the system with the name of the file, if a second line is asked for.
pub fn tell_error(rt: &HostRuntime, name: &str, error: &io::Error) {
    if is_asked_for(rt) {
        let shown = Shown(name);
        let _ = eprintln!(rt; "pocket: {shown}: {error}");
    }
}

/// Tells where the parts of the outputs stand, with what came before the fault.
fn tell_parts(rt: &HostRuntime, words: &[String]) {
    let mut is_begun = false;
    for key in ["out", "report"] {
        let part = text_of(words, key).and_then(|name| part_of(rt, name));
        if let Some(part) = part {
            let shown = Shown(part.as_str());
            let _ = if is_begun {
                eprint!(rt; " and {shown}")
            } else {
                eprint!(rt; "pocket: what came before stands in {shown}")
            };
            is_begun = true;
        }
    }
    if is_begun {
        let _ = eprintln!(rt; "");
    }
}

/// The name of the part of an output, if it stands and has a byte.
fn part_of(rt: &HostRuntime, name: &str) -> Option<String> {
    let part = format!(in rt.alloc(); "{name}.part").ok()?;
    let stands = fs::symlink_metadata(rt, part.as_str()).is_ok_and(|it| it.is_file()
        && it.len() > 0);
    stands.then_some(part)
}
