//! What the keys of a verb take: by the rows of the command, and in the words of the help.

use crate::HELP;
use pocket_cmd::{KeyRow, ValueKind};
use std::fmt;
use std::fmt::{Display, Formatter};

/// What a key takes, in words: what the help says of it, and the numbers that this verb takes.
#[derive(Clone, Copy)]
pub struct Takes(pub KeyRow);

impl Display for Takes {
    fn fmt<W: fmt::Write>(&self, f: &mut Formatter<W>) -> fmt::Result {
        let meaning = meaning_of(self.0.key());
        let ValueKind::Number(low, high) = self.0.value() else {
            return f.write_str(meaning);
        };
        let meaning = match meaning.split_once(", ") {
            None => meaning,
            Some((meaning, _)) => meaning,
        };
        write!(f, "{meaning}, {low} to {high}")
    }
}

/// What the help says of a key.
fn meaning_of(key: &str) -> &'static str {
    for line in HELP.lines() {
        if let Some((names, meaning)) = key_line(line) {
            if is_among(names, key) {
                return meaning.trim_start();
            }
        }
    }
    ""
}

/// The keys of which a line of the help tells, and what it says of them.
fn key_line(line: &'static str) -> Option<(&'static str, &'static str)> {
    let rest = line.strip_prefix("    ")?;
    rest.split_once("  ")
}

/// Whether a list of names has this one.
fn is_among(names: &str, key: &str) -> bool {
    for name in names.split(", ") {
        if name == key {
            return true;
        }
    }
    false
}
