//! The text of a side input, or of an input that is read whole.
ghost use Rattle.std.specs.Prelude.{◌≡◌, ◌≢◌, ◌≤◌, ◌<◌, ℕ, List, length, take, Some, Err, IsTrue, IsSome, IfSome, IfOk, IfErr, OnOk, OnErr};
ghost use Rattle.std.specs.Option.{option_map};
ghost use Rattle.std.specs.Io.KnownBytes.{IsAtEnd};
ghost use Rattle.desk_ports.specs.Meanings.{IsReadyIn, Moves, left};
ghost use Rattle.pocket_cmd.specs.declared.text.TextFault.TheVariants as unread;
ghost use Rattle.pocket_cmd.specs.Openings.{HasTextBytes, IsRoom, IsText, IsTextLong, IsTextReadTo, IsTextUnread, KeepsAllBut, HasTextCause, with_text};

use desk_ports::{Desk, Failed, Inlet};
use side_tables::MOST_TEXT_BYTES;
use std::alloc::{AllocError, Global};

/// The bytes of the first room for a text, which is doubled as often as it is full.
const FIRST_BYTES: usize = 4096;

/// A text, of at most 1,048,576 bytes.
#[derive(Debug, Drop)]
pub struct Text {
    pub bytes: Vec<u8>,
    ghost within: { length bytes.items ≤ 1048576 },
}

/// Why a text is not read.
#[derive(Clone, Copy, Debug, PartialEq, Eq)]
pub enum TextFault {
    /// It has more than 1,048,576 bytes.
    TooLong,
    ReadFault,
    NoMemory,
}

impl From<Failed> for TextFault {
    ghost from_gives = { λ _ e. e ≡ unread.ReadFault };

    fn from(_failed: Failed) -> TextFault {
        TextFault::ReadFault
    }
}

impl From<AllocError> for TextFault {
    ghost from_gives = { λ _ e. e ≡ unread.NoMemory };

    fn from(_refused: AllocError) -> TextFault {
        TextFault::NoMemory
    }
}

/// The text that comes over an inlet, which is opened under this name and read to its end. If there is no name, the text is
/// empty.
pub fn text_at<D: Desk>(
    alloc: Global,
    desk: &mut D,
    inlet: Inlet,
    name: Option<&str>,
) -> Result<Text, TextFault>
    requires { IfSome name (λ name. IsTrue ((D.meaning desk.old).grants_in name.now)) }
    ensures text { let name = option_map (λ name. name.now) name.entry in
        IfOk result (λ text. IsText (D.meaning desk.old) inlet name text.bytes.items) }
    ensures read { let name = option_map (λ name. name.now) name.entry in
        OnOk result (D.meaning desk.new ≡ with_text (D.meaning desk.old) inlet name) }
    ensures long { let name = option_map (λ name. name.now) name.entry in
        result ≡ Err unread.TooLong → IsTextLong (D.meaning desk.old) inlet name }
    ensures no_further { let name = option_map (λ name. name.now) name.entry in
        result ≡ Err unread.TooLong
        → IsTextReadTo 1048577 (D.meaning desk.old) inlet name (D.meaning desk.new) }
    ensures cut_off { let name = option_map (λ name. name.now) name.entry in
        result ≡ Err unread.ReadFault
        → IsTextUnread 1048577 (D.meaning desk.old) inlet name (D.meaning desk.new) }
    ensures keeps { let name = option_map (λ name. name.now) name.entry in
        OnErr result (KeepsAllBut inlet name (D.meaning desk.old) (D.meaning desk.new)) }
    ensures named { OnErr result (IsSome name.entry) }
    ensures cause { HasTextCause (D.counts desk.old) (D.counts desk.new) result }
{
    match name {
        None => Ok(Text {
            bytes: Vec::new(alloc),
        }),
        Some(name) => named_text(alloc, desk, inlet, name),
    }
}

/// The text of this name.
fn named_text<D: Desk>(
    alloc: Global,
    desk: &mut D,
    inlet: Inlet,
    name: &str,
) -> Result<Text, TextFault>
    requires { IsTrue ((D.meaning desk.old).grants_in name.now) }
    ensures text { IfOk result
        (λ text. IsText (D.meaning desk.old) inlet (Some name.now) text.bytes.items) }
    ensures read { OnOk result
        (D.meaning desk.new ≡ with_text (D.meaning desk.old) inlet (Some name.now)) }
    ensures long { result ≡ Err unread.TooLong → IsTextLong (D.meaning desk.old) inlet (Some name.now) }
    ensures no_further { result ≡ Err unread.TooLong
        → IsTextReadTo 1048577 (D.meaning desk.old) inlet (Some name.now) (D.meaning desk.new) }
    ensures cut_off { result ≡ Err unread.ReadFault
        → IsTextUnread 1048577 (D.meaning desk.old) inlet (Some name.now) (D.meaning desk.new) }
    ensures keeps { OnErr result
        (KeepsAllBut inlet (Some name.now) (D.meaning desk.old) (D.meaning desk.new)) }
    ensures cause { HasTextCause (D.counts desk.old) (D.counts desk.new) result }
{
    let mut room = vec![in alloc; 0; FIRST_BYTES]?;
    let moved = read_text(desk, inlet, name, &mut room)?;
    if moved > MOST_TEXT_BYTES {
        return Err(TextFault::TooLong);
    }
    room.truncate(moved);
    Ok(Text { bytes: room })
}

/// Opens an inlet, and reads into a room, which grows with the text, until it holds more than a text may have or the input
/// is at its end. Tells how many bytes were moved.
fn read_text<D: Desk>(
    desk: &mut D,
    inlet: Inlet,
    name: &str,
    room: &mut Vec<u8>,
) -> Result<usize, TextFault>
    requires granted { IsTrue ((D.meaning desk.old).grants_in name.now) }
    requires room { IsRoom 0 room.old.items }
    ensures room { IfOk result (λ n. IsRoom n room.new.items) }
    ensures front { IfOk result (λ n. HasTextBytes (D.meaning desk.old) inlet name.now n) }
    ensures moved { IfOk result
        (λ n. IsTextReadTo n (D.meaning desk.old) inlet (Some name.now) (D.meaning desk.new)) }
    ensures cut_off { OnErr result
        (IsTextUnread 1048577 (D.meaning desk.old) inlet (Some name.now) (D.meaning desk.new)) }
    ensures text { IfOk result (λ n. n < 1048577
        → IsText (D.meaning desk.old) inlet (Some name.now) (take n room.new.items)
        × (D.meaning desk.new ≡ with_text (D.meaning desk.old) inlet (Some name.now))) }
    ensures short { IfErr result (λ fault. fault ≢ unread.TooLong) }
    ensures keeps { KeepsAllBut inlet (Some name.now) (D.meaning desk.old) (D.meaning desk.new) }
    ensures cause { HasTextCause (D.counts desk.old) (D.counts desk.new) result }
{
    desk.open_in(inlet, name)?;
    fill_text(desk, inlet, room)
}

/// Reads into a room, which grows with the text, until it holds more than a text may have or the input is at its end.
/// Tells how many bytes were moved to its front. At a fault those that were moved before are lost.
fn fill_text<D: Desk>(desk: &mut D, inlet: Inlet, room: &mut Vec<u8>) -> Result<usize, TextFault>
    requires ready { IsReadyIn (D.meaning desk.old) inlet }
    requires room { IsRoom 0 room.old.items }
    ensures room { IfOk result (λ n. IsRoom n room.new.items) }
    ensures moved { IfOk result
        (λ n. Moves (D.meaning desk.old) (D.meaning desk.new) inlet (take n room.new.items)) }
    ensures at_end { IfOk result
        (λ n. n < 1048577 → IsAtEnd (left (D.meaning desk.new) inlet)) }
    ensures lost { OnErr result
        ((bytes : List ℕ) × (length bytes < 1048577)
        × Moves (D.meaning desk.old) (D.meaning desk.new) inlet bytes) }
    ensures short { IfErr result (λ fault. fault ≢ unread.TooLong) }
    ensures cause { HasTextCause (D.counts desk.old) (D.counts desk.new) result }
{
    let mut filled = 0;
    while filled <= MOST_TEXT_BYTES {
        widen(room, filled)?;
        let moved = desk.read(inlet, &mut room[filled..])?;
        if moved == 0 {
            break;
        }
        filled += moved;
    }
    Ok(filled)
}

/// Doubles a room of which all bytes are filled, but not beyond the bytes of the longest text and one more.
fn widen(room: &mut Vec<u8>, filled: usize) -> Result<(), AllocError>
    requires room { IsRoom filled room.old.items }
    requires few { filled ≤ 1048576 }
    ensures front { take filled room.new.items ≡ take filled room.old.items }
    ensures left { OnOk result (filled < length room.new.items) }
    ensures room { IsRoom filled room.new.items }
{
    if filled < room.len() {
        return Ok(());
    }
    room.resize((2 * filled).max(FIRST_BYTES).min(MOST_TEXT_BYTES + 1), 0)
}
