//! The verbs, and the keys that each of them has.
ghost use Rattle.std.specs.Prelude.{◌≡◌, map, IfSome};
ghost use Rattle.std.specs.Option.{option_map};
ghost use Rattle.pocket_cmd.specs.Verbs.{verb_of, verb_rows, view_row, kind_of, is_name_at};

use KeyRow::{Needed, Optional};
use ValueKind::{Mask, Name, Number};
use bit_vectors::MOST_PLACES;

/// What the command is to do.
#[derive(Clone, Copy, Debug, PartialEq, Eq)]
pub enum Verb {
    /// Makes the store of a recording.
    Compress,
    /// Drops and repeats the packets of a store.
    Play,
    /// Gives back the packets that arrived, and lists all others.
    Restore,
    /// Lists what is found for each packet.
    Show,
    /// Runs `compress`, `play` and `restore` over a generated history.
    Trial,
    /// Gives back the packets of several streams of one store.
    Multi,
    /// Gives back the packets of a store in which they may come late.
    Late,
    /// Writes the fields of the packets of a recording as a table.
    Table,
    /// Tells which packets will be written, whatever the recording is.
    Forecast,
}

/// The words of the verbs, in the order of the help.
pub const VERB_WORDS: [&str; 9] = [
    "compress", "play", "restore", "show", "trial", "multi", "late", "table", "forecast",
];

/// Where what has a name is opened.
#[derive(Clone, Copy, Debug)]
pub enum Port {
    /// A text that is read whole, before all else.
    Side,
    Input,
    Output,
    Report,
}

/// The kind of the value of a key.
#[derive(Clone, Copy, Debug)]
pub enum ValueKind {
    /// The name of what is opened there.
    Name(Port),
    /// A plain decimal from the first number to the second.
    Number(u32, u32),
    /// The digits of the first mask, which are looked at once all words are read.
    Mask,
}

/// A key of a verb, and the kind of its value.
#[derive(Clone, Copy, Debug)]
pub enum KeyRow {
    Needed(&'static str, ValueKind),
    Optional(&'static str, ValueKind),
}

impl Verb {
    /// The verb that a word names.
    pub fn of(word: &str) -> Option<Verb>
        ensures { result ≡ verb_of word.now }
    {
        match word {
            "compress" => Some(Verb::Compress),
            "play" => Some(Verb::Play),
            "restore" => Some(Verb::Restore),
            "show" => Some(Verb::Show),
            "trial" => Some(Verb::Trial),
            "multi" => Some(Verb::Multi),
            "late" => Some(Verb::Late),
            "table" => Some(Verb::Table),
            "forecast" => Some(Verb::Forecast),
            _ => None,
        }
    }

    /// Its keys.
    pub fn rows(self) -> &'static [KeyRow]
        ensures { map view_row result.now ≡ verb_rows self }
    {
        match self {
            Verb::Compress => &[
                Needed("in", Name(Port::Input)),
                Needed("out", Name(Port::Output)),
                Needed("bits", Number(1, MOST_PLACES)),
                Needed("apid", Number(0, 2046)),
                Needed("robust", Number(0, 7)),
                Optional("plan", Name(Port::Side)),
                Optional("mask", Mask),
            ],
            Verb::Play => &[
                Needed("in", Name(Port::Input)),
                Needed("out", Name(Port::Output)),
                Needed("report", Name(Port::Report)),
                Needed("script", Name(Port::Side)),
                Needed("apid", Number(0, 2046)),
            ],
            Verb::Restore => &[
                Needed("in", Name(Port::Input)),
                Needed("out", Name(Port::Output)),
                Needed("report", Name(Port::Report)),
                Needed("bits", Number(1, MOST_PLACES)),
                Needed("apid", Number(0, 2046)),
            ],
            Verb::Show => &[
                Needed("in", Name(Port::Input)),
                Needed("out", Name(Port::Output)),
                Needed("bits", Number(1, MOST_PLACES)),
                Needed("apid", Number(0, 2046)),
            ],
            Verb::Trial => &[
                Needed("out", Name(Port::Output)),
                Needed("seed", Number(0, u32::MAX)),
                Needed("packets", Number(1, 10_000)),
                Needed("bits", Number(1, 4096)),
                Needed("robust", Number(0, 7)),
            ],
            Verb::Multi => &[
                Needed("in", Name(Port::Input)),
                Needed("out", Name(Port::Output)),
                Needed("report", Name(Port::Report)),
                Needed("streams", Name(Port::Side)),
            ],
            Verb::Late => &[
                Needed("in", Name(Port::Input)),
                Needed("out", Name(Port::Output)),
                Needed("report", Name(Port::Report)),
                Needed("bits", Number(1, MOST_PLACES)),
                Needed("apid", Number(0, 2046)),
                Needed("window", Number(0, 64)),
            ],
            Verb::Table => &[
                Needed("in", Name(Port::Input)),
                Needed("out", Name(Port::Output)),
                Needed("report", Name(Port::Report)),
                Needed("fields", Name(Port::Side)),
                Needed("bits", Number(1, MOST_PLACES)),
            ],
            Verb::Forecast => &[
                Needed("out", Name(Port::Output)),
                Needed("packets", Number(1, 1_000_000)),
                Needed("robust", Number(0, 7)),
                Needed("plan", Name(Port::Side)),
                Needed("script", Name(Port::Input)),
            ],
        }
    }
}

impl KeyRow {
    /// Its key.
    pub fn key(&self) -> &'static str
        ensures { result.now ≡ (view_row self.now).key }
    {
        match self {
            Needed(key, _) | Optional(key, _) => key,
        }
    }

    /// The kind of its value.
    pub fn value(&self) -> ValueKind
        ensures { result ≡ (view_row self.now).kind }
    {
        match self {
            Needed(_, kind) | Optional(_, kind) => *kind,
        }
    }

    /// Whether it may not be missing.
    pub fn is_needed(&self) -> bool
        ensures { result ≡ (view_row self.now).is_needed }
    {
        matches!(self, Needed(..))
    }
}

impl ValueKind {
    /// Whether a value is the name of what is opened there.
    pub fn is_name_at(self, port: Port) -> bool
        ensures { result ≡ is_name_at port self }
    {
        matches!(
            (port, self),
            (Port::Side, Name(Port::Side))
                | (Port::Input, Name(Port::Input))
                | (Port::Output, Name(Port::Output))
                | (Port::Report, Name(Port::Report))
        )
    }
}

/// The row of a key, if one of the rows has it.
pub fn row_of(rows: &[KeyRow], key: &str) -> Option<KeyRow>
    ensures kind { option_map (λ row. (view_row row).kind) result
        ≡ kind_of (map view_row rows.now) key.now }
    ensures key { IfSome result (λ row. (view_row row).key ≡ key.now) }
{
    for row in rows {
        if row.key() == key {
            return Some(*row);
        }
    }
    None
}
