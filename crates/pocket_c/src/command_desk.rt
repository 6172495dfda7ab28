//! A desk in memory for one command, of which no call is told to fail.

ghost use Rattle.std.specs.Prelude.{◌≡◌, map};
ghost use Rattle.std.specs.List.{list_any};
ghost use Rattle.std.specs.Str.{bytes_eq};
ghost use Rattle.std.specs.String.{string_bytes};
ghost use Rattle.desk_ports.specs.MemState.{NothingFails, no_faults};
ghost use Rattle.pocket_cmd.specs.Words.{read_keys};
ghost use Rattle.pocket_c.specs.CommandDesk.{command_counts, command_meanings, lack_name, lacks_name};

use desk_ports::{Desk, Failed, Inlet, MemDesk, Outlet};
use std::marker::Model;

/// A desk in memory for one command. No call is told to fail, and it grants the names that the words give to what is read.
/// So a reading fails only if nothing is kept under one of these names, and a writing only if an allocation is refused.
#[derive(Debug, Drop)]
pub(crate) struct CommandDesk<'a> {
    desk: MemDesk,
    words: &'a [String],
    lacking: bool,
}

impl<'a> Model for CommandDesk<'a> {
    ghost use Rattle.std.specs.Prelude.{map};
    ghost use Rattle.std.specs.String.{string_bytes};
    ghost use Rattle.pocket_c.specs.CommandDesk.{CommandState, command_code, IsCommandDesk};

    ghost Value = { CommandState };

    ghost coded = { command_code };

    ghost view = { λ c. record {
      desk = c.desk;
      words = map string_bytes c.words.now;
      lacking = c.lacking;
    } };

    ghost invariant = { λ c. IsCommandDesk c.desk (map string_bytes c.words.now) c.lacking };
}

impl<'a> CommandDesk<'a> {
    /// The desk for the command of these words. It counts its faults from none on.
    pub fn over(desk: MemDesk, words: &'a [String]) -> CommandDesk<'a>
        requires { NothingFails desk.plan }
        ensures { result ≡ record {
          desk = record desk { faults = no_faults };
          words = map string_bytes words.now;
          lacking = lack_name desk.held (map string_bytes words.now);
        } }
    {
        let desk = desk.with_no_faults();
        let lacking = lack_name(&desk, words);
        CommandDesk {
            desk,
            words,
            lacking,
        }
    }

    /// The desk after the command.
    pub fn into_desk(self) -> MemDesk
        ensures desk { result ≡ self.entry.desk }
        ensures nothing { NothingFails result.plan }
    {
        self.desk
    }
}

/// Whether one of the words gives a name to what is read under which nothing is kept.
fn lack_name(desk: &MemDesk, words: &[String]) -> bool
    ensures { result ≡ lack_name desk.now.held (map string_bytes words.now) }
{
    for word in words {
        if lacks_name(desk, word.as_str()) {
            return true;
        }
    }
    false
}

/// Whether a word does.
fn lacks_name(desk: &MemDesk, word: &str) -> bool
    ensures { result ≡ lacks_name desk.now.held word.now }
{
    match word.split_once('=') {
        None => false,
        Some((key, name)) => is_read_key(key) && !desk.holds(name),
    }
}

/// Whether a key is one for a name to read.
fn is_read_key(key: &str) -> bool
    ensures { result ≡ list_any (bytes_eq key.now) read_keys }
{
    key == "in" || key == "plan" || key == "script" || key == "fields" || key == "streams"
}

impl<'a> Desk for CommandDesk<'a> {
    ghost meaning = { command_meanings };

    ghost counts = { command_counts };

    fn open_in(&mut self, inlet: Inlet, name: &str) -> Result<(), Failed> {
        self.desk.open_in(inlet, name)
    }

    fn open_out(&mut self, outlet: Outlet, name: &str) -> Result<(), Failed> {
        self.desk.open_out(outlet, name)
    }

    fn read(&mut self, inlet: Inlet, buf: &mut [u8]) -> Result<usize, Failed> {
        self.desk.read(inlet, buf)
    }

    fn write(&mut self, outlet: Outlet, bytes: &[u8]) -> Result<usize, Failed> {
        self.desk.write(outlet, bytes)
    }

    fn finish(&mut self, outlet: Outlet) -> Result<(), Failed> {
        self.desk.finish(outlet)
    }
}
