//! The text of each refusal.

ghost use Rattle.std.specs.Prelude.{◌≡◌, ◌≤◌, ◌++◌, codes, decimal, length, Some};
ghost use Rattle.pocket_cmd.specs.Refusals.{store_kind_text, refusal_text};

use crate::status::Refusal;
use desk_ports::Row;
use packet_store::StoreKind;
use std::error::Error;
use std::fmt;

/// The text of a refusal. It takes no memory.
pub fn refusal_row(refusal: &Refusal) -> Row
    ensures { result ≡ refusal_text refusal.now }
{
    match refusal {
        Refusal::BadWords { word } => numbered("word ", u64::from(*word), " is wrong"),
        Refusal::SideTooLong => plain("side input is too long"),
        Refusal::BadSide { row } => numbered("side row ", u64::from(*row), " is wrong"),
        Refusal::ScriptTooLong => plain("script is too long"),
        Refusal::BadScript { row } => numbered("script row ", u64::from(*row), " is wrong"),
        Refusal::ReadFault => plain("reading failed"),
        Refusal::WriteFault => plain("writing failed"),
        Refusal::CutRecord { t } => numbered("recording ends inside packet ", u64::from(*t), ""),
        Refusal::SpareBit { t } => numbered("packet ", u64::from(*t), " has a spare bit set"),
        Refusal::BadStore { byte, kind } => store_row(*byte, *kind),
        Refusal::TooMany => plain("too many packets"),
        Refusal::NoMemory => plain("out of memory"),
    }
}

/// A text without a number.
fn plain(text: &str) -> Row
    requires { length text.now ≤ 40 }
    ensures { result ≡ text.now }
{
    let mut row = Row::new();
    row.put_text(text);
    row
}

/// A number between two texts.
fn numbered(before: &str, number: u64, after: &str) -> Row
    requires before { length before.now ≤ 40 }
    requires after { length after.now ≤ 40 }
    ensures { result ≡ before.now ++ decimal number ++ after.now }
{
    let mut row = Row::new();
    row.put_text(before);
    row.put_number(number);
    row.put_text(after);
    row
}

/// What is wrong with a store, and at which byte.
fn store_row(byte: u64, kind: StoreKind) -> Row
    ensures { result
        ≡ codes "store packet at byte " ++ decimal byte ++ codes " " ++ store_kind_text kind }
{
    let mut row = Row::new();
    row.put_text("store packet at byte ");
    row.put_number(byte);
    row.put_text(" ");
    row.put_text(store_kind_text(kind));
    row
}

/// What is wrong with a packet of a store.
fn store_kind_text(kind: StoreKind) -> &'static str
    ensures text { result.now ≡ store_kind_text kind }
    ensures short { length result.now ≤ 40 }
{
    match kind {
        StoreKind::Cut => "is cut",
        StoreKind::Version => "has another version",
        StoreKind::Shape => "has another shape",
    }
}

impl fmt::Display for Refusal {
    ghost output = { λ refusal. Some (refusal_text refusal) };

    fn fmt<W: fmt::Write>(&self, f: &mut fmt::Formatter<W>) -> fmt::Result {
        f.write_str(refusal_row(self).as_str())
    }
}

impl Error for Refusal {}
