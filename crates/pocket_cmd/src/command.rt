//! The command that the words give.
ghost use Rattle.std.specs.Prelude.{◌≡◌, ◌<◌, ◌^◌, length, map};
ghost use Rattle.std.specs.String.{string_bytes};
ghost use Rattle.pocket_cmd.specs.Command.{command_of, names_of, view_command, view_result};
ghost use Rattle.pocket_cmd.specs.Courses.{bad_script_row_of};
ghost use Rattle.pocket_cmd.specs.Openings.{view_names};
ghost use Rattle.pocket_cmd.specs.Outcome.{left_to_open};

use crate::run::Names;
use crate::verbs::{Port, Verb};
use crate::words::{Command, fault_of, name_of};

impl<'a> Command<'a> {
    /// The verb and the words after it; or the place of the first faulty word; or the number of words, if one is missing; or
    /// the place of the word with the mask, if its text denotes none.
    pub fn of(words: &'a [String]) -> Result<Command<'a>, u32>
        requires { length words.now < 2 ^ 32 }
        ensures { view_result result ≡ command_of (map string_bytes words.now) }
    {
        let Some((first, words)) = words.split_first() else {
            return Err(0);
        };
        let verb = Verb::of(first.as_str()).ok_or(0u32)?;
        match fault_of(verb, words) {
            None => Ok(Command { verb, words }),
            Some(place) => Err(place),
        }
    }

    /// All names that it opens.
    pub fn names(&self) -> Names<'a>
        ensures { view_names result ≡ names_of (view_command self.now) }
    {
        let rows = self.verb.rows();
        Names {
            side: name_of(rows, self.words, Port::Side),
            input: name_of(rows, self.words, Port::Input),
            output: name_of(rows, self.words, Port::Output).unwrap_or(""),
            report: name_of(rows, self.words, Port::Report),
        }
    }

    /// The names that are left to open once its texts are read.
    pub fn names_left(&self) -> Names<'a>
        ensures { view_names result
            ≡ left_to_open (bad_script_row_of (view_command self.now)) (names_of (view_command self.now)) }
    {
        let names = self.names();
        match self.verb {
            Verb::Forecast => Names {
                input: None,
                ..names
            },
            _ => names,
        }
    }
}
