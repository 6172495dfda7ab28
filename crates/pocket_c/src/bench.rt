//! A desk in memory at which commands are run.

ghost use Rattle.std.specs.Prelude.{◌≡◌, ◌<◌, ◌↔◌, ◌++◌, ◌∷◌, [], true, false, find, is_some, IsTrue, OnOk, OnErr, length};
ghost use Rattle.std.specs.FinMap as map;
ghost use Rattle.std.specs.Option.{option_copied};
ghost use Rattle.desk_ports.specs.Meanings.{kept_at};
ghost use Rattle.desk_ports.specs.MemState.{empty_desk};
ghost use Rattle.desk_ports.specs.Names.{is_from, without_name};
ghost use Rattle.pocket_c.specs.Running.{HasRun};

use crate::command_desk::CommandDesk;
use bit_vectors::NoMemory;
use desk_ports::MemDesk;
use pocket_cmd::{Status, pocket};
use std::alloc::Global;
use std::marker::Model;
use std::mem::replace;

/// No command has as many words.
const MOST_WORDS: usize = 1000;

/// A desk in memory, of which no call is told to fail, and the words of the next command. Contracts see both.
#[derive(Debug, Drop)]
pub struct Bench {
    alloc: Global,
    desk: MemDesk,
    words: Vec<String>,
}

impl Model for Bench {
    ghost use Rattle.std.specs.Prelude.{◌≤◌, length, map};
    ghost use Rattle.std.specs.String.{string_bytes};
    ghost use Rattle.desk_ports.specs.MemState.{NothingFails};
    ghost use Rattle.pocket_c.specs.Bench.{BenchState, bench_code};

    ghost Value = { BenchState };

    ghost coded = { bench_code };

    ghost view = { λ b. record { desk = b.desk; words = map string_bytes b.words.items } };

    ghost invariant = { λ b. (length b.words.items ≤ 1000) × NothingFails b.desk.plan };
}

impl Bench {
    /// Nothing is kept, and there is no word. It takes no memory.
    pub fn new(alloc: Global) -> Bench
        ensures { result ≡ record { desk = empty_desk; words = [] } }
    {
        Bench {
            alloc,
            desk: MemDesk::new(alloc),
            words: Vec::new(alloc),
        }
    }

    /// Keeps the bytes under the name.
    pub fn put(&mut self, name: &str, bytes: &[u8]) -> Result<(), NoMemory>
        ensures ok { OnOk result (self.new ≡ record self.old {
          desk = record self.old.desk { held = map.insert self.old.desk.held name.now bytes.now };
        }) }
        ensures err { OnErr result (self.new ≡ self.old) }
    {
        self.desk.put(name, bytes)
    }

    /// What is kept under the name, or no byte if nothing is.
    pub fn get(&self, name: &str) -> &[u8]
        ensures { result.now ≡ kept_at self.now.desk.held name.now }
    {
        self.desk.get(name)
    }

    /// Removes what is kept under the name, or tells that nothing is kept under it.
    pub fn remove(&mut self, name: &str) -> bool
        ensures told { result ≡ is_some (map.get self.old.desk.held name.now) }
        ensures removed { result ≡ true
            → self.new ≡ record self.old { desk = without_name self.old.desk name.now } }
        ensures unchanged { result ≡ false → self.new ≡ self.old }
    {
        self.desk.remove(name)
    }

    /// The first name, in the order of their bytes, under which something is kept and that is not below these bytes.
    pub fn name_from(&self, from: &[u8]) -> Option<&[u8]>
        ensures { option_copied result ≡ find (is_from from.now) (map.keys self.now.desk.held) }
    {
        self.desk.name_from(from)
    }

    /// Whether there is room for another word.
    pub fn has_room(&self) -> bool
        ensures { IsTrue result ↔ (length self.now.words < 1000) }
    {
        self.words.len() < MOST_WORDS
    }

    /// Adds a word to those of the next command.
    pub fn word(&mut self, word: &str) -> Result<(), NoMemory>
        requires { length self.old.words < 1000 }
        ensures ok { OnOk result
            (self.new ≡ record self.old { words = self.old.words ++ word.now ∷ [] }) }
        ensures err { OnErr result (self.new ≡ self.old) }
    {
        let word = String::from_str(self.alloc, word)?;
        self.words.push(word)?;
        Ok(())
    }

    /// Runs the command of the words, after which there is no word.
    pub fn run(&mut self) -> Status
        ensures { HasRun self.old self.new result }
    {
        let words: &[String] = &self.words;
        let desk = replace(&mut self.desk, MemDesk::new(self.alloc));
        let mut command = CommandDesk::over(desk, words);
        let status = pocket(self.alloc, words, &mut command);
        self.desk = command.into_desk();
        self.words.clear();
        status
    }
}
