//! Names of fields.

ghost use Rattle.std.specs.Prelude.{◌≡◌, ◌≤◌, length};
ghost use Rattle.std.specs.List.{list_all};
ghost use Rattle.param_table.specs.Rows.{is_name, is_name_byte, name_in, same_name};

use arrayvec::ArrayVec;
use std::marker::Model;

/// The most letters of a name.
const MOST_LETTERS: usize = 32;

/// The name of a field: 1 to 32 ASCII letters, digits or `_`, the first a letter. Contracts see it as its bytes.
#[derive(Debug, Drop)]
pub struct Name {
    letters: ArrayVec<u8, MOST_LETTERS>,
}

impl Model for Name {
    ghost use Rattle.std.specs.Prelude.{List, ℕ};

    ghost Value = { List ℕ };

    ghost view = { λ name. name.letters.items };
}

impl Name {
    /// The name that a text is, if it is one.
    pub(crate) fn of(text: &[u8]) -> Option<Name>
        ensures { result ≡ name_in text.now }
    {
        if !is_name(text) {
            return None;
        }
        let letters = ArrayVec::try_from(text).ok()?;
        Some(Name { letters })
    }

    /// Whether the other name is the same.
    pub(crate) fn is(&self, other: &Name) -> bool
        ensures { result ≡ same_name self.now other.now }
    {
        self.as_bytes() == other.as_bytes()
    }

    /// Its bytes, 1 to 32.
    pub fn as_bytes(&self) -> &[u8]
        ensures bytes { result.now ≡ self.now }
        ensures most { length result.now ≤ 32 }
    {
        self.letters.as_slice()
    }
}

/// Whether a text is a name.
fn is_name(text: &[u8]) -> bool
    ensures { result ≡ is_name text.now }
{
    match text {
        [] => false,
        [first, ..] => first.is_ascii_alphabetic()
            && text.len() <= MOST_LETTERS
            && has_only_name_bytes(text),
    }
}

/// Whether every byte is an ASCII letter, a digit or `_`.
fn has_only_name_bytes(text: &[u8]) -> bool
    ensures { result ≡ list_all is_name_byte text.now }
{
    for byte in text {
        if !(byte.is_ascii_alphanumeric() || *byte == b'_') {
            return false;
        }
    }
    true
}
