//! The words of the command line after its verb: `key=value` in any order.
ghost use Rattle.std.specs.Prelude.{◌≡◌, ◌+◌, ◌<◌, ◌≤◌, ◌^◌, true, false, None, [], length, map, codes, MatchOption, IfSome, IsSome};
ghost use Rattle.std.specs.Option.{option_map};
ghost use Rattle.std.specs.String.{string_bytes};
ghost use Rattle.bit_vectors.specs.Vectors.{IsPlaces};
ghost use Rattle.pocket_cmd.specs.Verbs.{view_row, verb_rows};
ghost use Rattle.pocket_cmd.specs.Words.{is_split, key_in, text_in, text_of, number_at, name_of, have_name, is_new, fits, is_right, wrong_word, is_missing, place_of, wrong_mask, fault_of};

use crate::mask::mask_bytes;
use crate::verbs::{KeyRow, Port, ValueKind, Verb, row_of};
use side_tables::number;

/// What is to be done: a verb, and the words after it, which are right.
#[derive(Clone, Copy, Debug)]
pub struct Command<'a> {
    pub verb: Verb,
    pub words: &'a [String],
    ghost right: { fault_of (verb_rows verb) (map string_bytes words.now) ≡ None },
}

/// The key and the value of a word, which is split at its first `=`.
fn split(word: &str) -> Option<(&str, &str)>
    ensures { MatchOption result (is_split word.now ≡ false)
        (λ parts. (is_split word.now ≡ true) × (parts.0.now ≡ key_in word.now)
        × (parts.1.now ≡ text_in word.now)) }
{
    word.split_once('=')
}

/// The first word with a key: its place, that of the first word being 1, and the text that it gives to the key.
fn find<'a>(words: &'a [String], key: &str) -> Option<(usize, &'a str)>
    ensures text { option_map (λ found. found.1.now) result
        ≡ text_of (map string_bytes words.now) key.now }
    ensures place { IfSome result
        (λ found. found.0 ≡ place_of (map string_bytes words.now) key.now) }
    ensures within { IfSome result (λ found. found.0 ≤ length words.now) }
{
    let mut place = 1;
    for word in words {
        if let Some((name, text)) = split(word.as_str()) {
            if name == key {
                return Some((place, text));
            }
        }
        place += 1;
    }
    None
}

/// The text that words give to a key.
pub fn text_of<'a>(words: &'a [String], key: &str) -> Option<&'a str>
    ensures { option_map (λ text. text.now) result
        ≡ text_of (map string_bytes words.now) key.now }
{
    Some(find(words, key)?.1)
}

/// The name of what is opened there, if a key has it and words give it.
pub fn name_of<'a>(rows: &[KeyRow], words: &'a [String], port: Port) -> Option<&'a str>
    ensures { option_map (λ name. name.now) result
        ≡ name_of (map view_row rows.now) (map string_bytes words.now) port }
{
    for row in rows {
        if row.value().is_name_at(port) {
            return text_of(words, row.key());
        }
    }
    None
}

/// The number that words give to a key; 0 if they give none.
pub fn number_at(words: &[String], key: &str) -> u32
    ensures { result ≡ number_at (map string_bytes words.now) key.now }
{
    match text_of(words, key) {
        None => 0,
        Some(text) => number(text.as_bytes(), 0, u32::MAX).unwrap_or(0),
    }
}

/// The first fault of the words after a verb: the place of the first wrong word, the verb's being 0; or the number of all
/// words, if one is missing; or the place of the word with the mask, if its text denotes none.
pub fn fault_of(verb: Verb, words: &[String]) -> Option<u32>
    requires few { length words.now + 1 < 2 ^ 32 }
    ensures { result ≡ fault_of (verb_rows verb) (map string_bytes words.now) }
{
    let rows = verb.rows();
    if let Some(place) = wrong_word(rows, words) {
        return Some(place as u32);
    }
    if is_missing(rows, words) {
        return Some(words.len() as u32 + 1);
    }
    wrong_mask(words)
}

/// The place of the first word that is not right after all before it.
fn wrong_word(rows: &[KeyRow], words: &[String]) -> Option<usize>
    ensures place { result ≡ wrong_word (map view_row rows.now) [] (map string_bytes words.now) }
    ensures within { IfSome result (λ place. place ≤ length words.now) }
{
    let mut place = 0;
    for word in words {
        if !is_right(rows, &words[..place], word.as_str()) {
            return Some(place + 1);
        }
        place += 1;
    }
    None
}

/// Whether a word has a key of a row, which none of these words has, and a value of the key's kind.
fn is_right(rows: &[KeyRow], words: &[String], word: &str) -> bool
    ensures { result ≡ is_right (map view_row rows.now) (map string_bytes words.now) word.now }
{
    let Some((key, text)) = split(word) else {
        return false;
    };
    match row_of(rows, key) {
        None => false,
        Some(row) => text_of(words, key).is_none() && fits(rows, words, row.value(), text),
    }
}

/// Whether a text is a value of this kind, after these words.
fn fits(rows: &[KeyRow], words: &[String], kind: ValueKind, text: &str) -> bool
    ensures { result
        ≡ fits (map view_row rows.now) (map string_bytes words.now) kind text.now }
{
    let read = have_name(rows, words, Port::Side, Port::Input, text);
    let written = have_name(rows, words, Port::Output, Port::Report, text);
    match kind {
        ValueKind::Name(Port::Side | Port::Input) => is_new(read, written, text),
        ValueKind::Name(Port::Output | Port::Report) => is_new(written, read, text),
        ValueKind::Number(low, high) => number(text.as_bytes(), low, high).is_some(),
        ValueKind::Mask => true,
    }
}

/// Whether a name has at least one byte and does not stand in its own direction, nor in the other one, unless it is `-`.
fn is_new(own: bool, other: bool, name: &str) -> bool
    ensures { result ≡ is_new own other name.now }
{
    !name.is_empty() && !own && (name == "-" || !other)
}

/// Whether words give this name to what is opened at one of two ports.
fn have_name(rows: &[KeyRow], words: &[String], one: Port, other: Port, name: &str) -> bool
    ensures { result
        ≡ have_name (map view_row rows.now) (map string_bytes words.now) one other name.now }
{
    name_of(rows, words, one) == Some(name) || name_of(rows, words, other) == Some(name)
}

/// Whether a key is needed that no word has.
fn is_missing(rows: &[KeyRow], words: &[String]) -> bool
    ensures { result ≡ is_missing (map view_row rows.now) (map string_bytes words.now) }
{
    for row in rows {
        if row.is_needed() && text_of(words, row.key()).is_none() {
            return true;
        }
    }
    false
}

/// The place of the word with the mask, if its text denotes none of as many places as a packet has bits.
fn wrong_mask(words: &[String]) -> Option<u32>
    requires few { length words.now + 1 < 2 ^ 32 }
    requires places { let words = map string_bytes words.now in
        IsSome (text_of words (codes "mask")) → IsPlaces (number_at words (codes "bits")) }
    ensures { result ≡ wrong_mask (map string_bytes words.now) }
{
    let (place, text) = find(words, "mask")?;
    match mask_bytes(number_at(words, "bits"), text) {
        Some(_) => None,
        None => Some(place as u32),
    }
}
