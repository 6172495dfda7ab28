//! The calls of a desk in memory.

ghost use Rattle.std.specs.Prelude.{◌≡◌, ◌<◌, ◌≤◌, ◌↔◌, ◌++◌, ◌∷◌, [], Err, List, ℕ, None, Some, length, drop, find, take, IfOk, IsOk, IsSome, OnErr};
ghost use Rattle.std.specs.FinMap as map;
ghost use Rattle.std.specs.Str.{IsUtf8};
ghost use Rattle.desk_ports.specs.Meanings.{kept_at};
ghost use Rattle.desk_ports.specs.MemState.{empty_desk};
ghost use Rattle.desk_ports.specs.Names.{is_from, without_name};
ghost use Rattle.pocket_cmd.specs.declared.status.Status.{Status as Answer};
ghost use Rattle.pocket_cmd.specs.Refusals.{status_text};
ghost use Rattle.pocket_cmd.specs.Status.{exit_number};
ghost use Rattle.pocket_c.specs.Bench.{BenchState};
ghost use Rattle.pocket_c.specs.Kinds.{HasOtherThanBench};
ghost use Rattle.pocket_c.specs.Running.{HasAnswered, HasRun};
ghost use Rattle.pocket_c.specs.Statuses.{IsOneOf, status_number};

use crate::bench::Bench;
use crate::held::{Handle, Held};
use crate::status::CallStatus;
use pocket_cmd::{exit_code, refusal_row};
use std::alloc::Global;
use std::str;

/// The room for the text of a refusal, in bytes.
const TEXT_BYTES: usize = 128;

/// Runs the command of the words.
fn run(alloc: Global, handle: &mut Handle) -> Result<pocket_cmd::Status, CallStatus>
    ensures only { (status : CallStatus) → result ≡ Err status
        → IsOneOf (status_number status) (CallStatus.Closed ∷ CallStatus.OtherKind ∷ []) }
    ensures closed { (result ≡ Err CallStatus.Closed) ↔ (handle.old.held ≡ None) }
    ensures other { (result ≡ Err CallStatus.OtherKind) ↔ HasOtherThanBench handle.old.held }
    ensures fault { result ≡ Err CallStatus.Done → ⊥ }
    ensures short { result ≡ Err CallStatus.NoRoom → ⊥ }
    ensures done { (b : BenchState) → handle.old.held ≡ Some (Held.Bench b) → IsOk result }
    ensures ran { (b : BenchState) → handle.old.held ≡ Some (Held.Bench b)
        → IfOk result (λ answer. (next : BenchState)
        × (handle.new.held ≡ Some (Held.Bench next)) × HasRun b next answer) }
    ensures unchanged { OnErr result (handle.new.held ≡ handle.old.held) }
{
    let Some(mut held) = handle.take(alloc) else {
        return Err(CallStatus::Closed);
    };
    let answer = match &mut *held {
        Held::Bench(bench) => Ok(bench.run()),
        Held::Sender(_) | Held::Receiver(_) => Err(CallStatus::OtherKind),
    };
    handle.put(alloc, held);
    answer
}

/// Writes bytes into the room for them, and tells how many they are.
fn write_out(bytes: &[u8], out: &mut [u8], len: &mut usize) -> CallStatus
    ensures only { IsOneOf (status_number result) (CallStatus.Done ∷ CallStatus.NoRoom ∷ []) }
    ensures len { len.new ≡ length bytes.now }
    ensures done { (result ≡ CallStatus.Done) ↔ (length bytes.now ≤ length out.old) }
    ensures no_room { (result ≡ CallStatus.NoRoom) ↔ (length out.old < length bytes.now) }
    ensures bytes { result ≡ CallStatus.Done → take (length bytes.now) out.new ≡ bytes.now }
    ensures rest { result ≡ CallStatus.Done
        → drop (length bytes.now) out.new ≡ drop (length bytes.now) out.old }
    ensures untouched { (result ≡ CallStatus.Done → ⊥) → out.new ≡ out.old }
{
    *len = bytes.len();
    if out.len() < bytes.len() {
        return CallStatus::NoRoom;
    }
    out[..bytes.len()].copy_from_slice(bytes);
    CallStatus::Done
}

/// Writes the text of a refusal, and tells how long it is; there is none if the command was done.
fn write_text(answer: &pocket_cmd::Status, out: &mut [u8]) -> usize
    requires { TEXT_BYTES ≤ length out.old }
    ensures most { result ≤ TEXT_BYTES }
    ensures len { result ≡ length (status_text answer.now) }
    ensures text { take result out.new ≡ status_text answer.now }
    ensures rest { drop result out.new ≡ drop result out.old }
{
    let pocket_cmd::Status::Refused(refusal) = answer else {
        return 0;
    };
    let row = refusal_row(refusal);
    let bytes = row.as_str().as_bytes();
    out[..bytes.len()].copy_from_slice(bytes);
    bytes.len()
}

/// Opens a desk in memory, at which nothing is kept and there is no word, in a handle that holds nothing.
#[unsafe(no_mangle)]
pub extern "C" fn pocket_desk_open(alloc: Global, handle: &mut Handle) -> u32
    ensures only { IsOneOf result (CallStatus.Done ∷ CallStatus.NoMemory ∷ CallStatus.Open ∷ []) }
    ensures open { (result ≡ status_number CallStatus.Open) ↔ (handle.old.held ≡ None → ⊥) }
    ensures right { (result ≡ status_number CallStatus.NoMemory → ⊥)
        → (result ≡ status_number CallStatus.Done) ↔ (handle.old.held ≡ None) }
    ensures opened { result ≡ status_number CallStatus.Done
        → handle.new.held ≡ Some (Held.Bench (record { desk = empty_desk; words = [] })) }
    ensures unchanged { (result ≡ status_number CallStatus.Done → ⊥)
        → handle.new.held ≡ handle.old.held }
{
    if handle.is_open(alloc) {
        return CallStatus::Open.number();
    }
    handle.hold(alloc, Held::Bench(Bench::new(alloc))).number()
}

/// Keeps bytes under a name at the desk that a handle holds.
#[unsafe(no_mangle)]
pub extern "C" fn pocket_put(alloc: Global, handle: &mut Handle, name: &[u8], bytes: &[u8]) -> u32
    ensures only { IsOneOf result
        (CallStatus.NoText ∷ CallStatus.Done ∷ CallStatus.Closed ∷ CallStatus.OtherKind ∷ CallStatus.NoMemory ∷ []) }
    ensures no_text { (result ≡ status_number CallStatus.NoText) ↔ (IsUtf8 name.now → ⊥) }
    ensures closed { IsUtf8 name.now → (result ≡ status_number CallStatus.Closed) ↔ (handle.old.held ≡ None) }
    ensures other { IsUtf8 name.now
        → (result ≡ status_number CallStatus.OtherKind) ↔ HasOtherThanBench handle.old.held }
    ensures right { (b : BenchState) → handle.old.held ≡ Some (Held.Bench b)
        → (result ≡ status_number CallStatus.NoMemory → ⊥)
        → (result ≡ status_number CallStatus.Done) ↔ IsUtf8 name.now }
    ensures done { (b : BenchState) → handle.old.held ≡ Some (Held.Bench b)
        → result ≡ status_number CallStatus.Done → handle.new.held ≡ Some (Held.Bench (record b {
          desk = record b.desk { held = map.insert b.desk.held name.now bytes.now };
        })) }
    ensures unchanged { (result ≡ status_number CallStatus.Done → ⊥)
        → handle.new.held ≡ handle.old.held }
{
    let Ok(name) = str::from_utf8(name) else {
        return CallStatus::NoText.number();
    };
    let Some(mut held) = handle.take(alloc) else {
        return CallStatus::Closed.number();
    };
    let status = match &mut *held {
        Held::Bench(bench) => match bench.put(name, bytes) {
            Ok(()) => CallStatus::Done,
            Err(_) => CallStatus::NoMemory,
        },
        Held::Sender(_) | Held::Receiver(_) => CallStatus::OtherKind,
    };
    handle.put(alloc, held);
    status.number()
}

/// Adds a word to those of the next command at the desk that a handle holds.
#[unsafe(no_mangle)]
pub extern "C" fn pocket_word(alloc: Global, handle: &mut Handle, text: &[u8]) -> u32
    ensures only { IsOneOf result
        (CallStatus.NoText ∷ CallStatus.Done ∷ CallStatus.Closed ∷ CallStatus.OtherKind ∷ CallStatus.TooManyWords ∷ CallStatus.NoMemory ∷ []) }
    ensures no_text { (result ≡ status_number CallStatus.NoText) ↔ (IsUtf8 text.now → ⊥) }
    ensures closed { IsUtf8 text.now → (result ≡ status_number CallStatus.Closed) ↔ (handle.old.held ≡ None) }
    ensures other { IsUtf8 text.now
        → (result ≡ status_number CallStatus.OtherKind) ↔ HasOtherThanBench handle.old.held }
    ensures full { (b : BenchState) → handle.old.held ≡ Some (Held.Bench b) → IsUtf8 text.now
        → (result ≡ status_number CallStatus.TooManyWords) ↔ (1000 ≤ length b.words) }
    ensures right { (b : BenchState) → handle.old.held ≡ Some (Held.Bench b)
        → (result ≡ status_number CallStatus.NoMemory → ⊥)
        → (result ≡ status_number CallStatus.Done) ↔ (IsUtf8 text.now × (length b.words < 1000)) }
    ensures done { (b : BenchState) → handle.old.held ≡ Some (Held.Bench b)
        → result ≡ status_number CallStatus.Done
        → handle.new.held ≡ Some (Held.Bench (record b { words = b.words ++ text.now ∷ [] })) }
    ensures unchanged { (result ≡ status_number CallStatus.Done → ⊥)
        → handle.new.held ≡ handle.old.held }
{
    let Ok(word) = str::from_utf8(text) else {
        return CallStatus::NoText.number();
    };
    let Some(mut held) = handle.take(alloc) else {
        return CallStatus::Closed.number();
    };
    let status = match &mut *held {
        Held::Bench(bench) if !bench.has_room() => CallStatus::TooManyWords,
        Held::Bench(bench) => match bench.word(word) {
            Ok(()) => CallStatus::Done,
            Err(_) => CallStatus::NoMemory,
        },
        Held::Sender(_) | Held::Receiver(_) => CallStatus::OtherKind,
    };
    handle.put(alloc, held);
    status.number()
}

/// Runs the command of the words at the desk that a handle holds, after which there is no word. `exit` is the exit number of
/// the program, and the text of a refusal is in the first `len` bytes of `text`, which has room for 128.
#[unsafe(no_mangle)]
pub extern "C" fn pocket_run(
    alloc: Global,
    handle: &mut Handle,
    text: &mut [u8],
    len: &mut usize,
    exit: &mut u8,
) -> u32
    ensures only { IsOneOf result (CallStatus.Done ∷ CallStatus.NoRoom ∷ CallStatus.Closed ∷ CallStatus.OtherKind ∷ []) }
    ensures no_room { (result ≡ status_number CallStatus.NoRoom) ↔ (length text.old < 128) }
    ensures closed { 128 ≤ length text.old → (result ≡ status_number CallStatus.Closed) ↔ (handle.old.held ≡ None) }
    ensures other { 128 ≤ length text.old
        → (result ≡ status_number CallStatus.OtherKind) ↔ HasOtherThanBench handle.old.held }
    ensures done { (b : BenchState) → handle.old.held ≡ Some (Held.Bench b)
        → (result ≡ status_number CallStatus.Done) ↔ (128 ≤ length text.old) }
    ensures ran { (b : BenchState) → handle.old.held ≡ Some (Held.Bench b)
        → result ≡ status_number CallStatus.Done
        → (answer : Answer) × (next : BenchState) × (exit.new ≡ exit_number answer)
        × (take len.new text.new ≡ status_text answer)
        × (handle.new.held ≡ Some (Held.Bench next)) × HasRun b next answer }
    // The exit number tells with which answers all of this holds: with 0, that of Done, and so on.
    ensures answers { (b : BenchState) → handle.old.held ≡ Some (Held.Bench b)
        → result ≡ status_number CallStatus.Done
        → (next : BenchState) × (handle.new.held ≡ Some (Held.Bench next))
        × HasAnswered b next exit.new }
    ensures text_fits { result ≡ status_number CallStatus.Done → len.new ≤ 128 }
    ensures rest { result ≡ status_number CallStatus.Done → drop len.new text.new ≡ drop len.new text.old }
    ensures unchanged { (result ≡ status_number CallStatus.Done → ⊥)
        → handle.new.held ≡ handle.old.held }
    ensures untouched { (result ≡ status_number CallStatus.Done → ⊥)
        → (text.new ≡ text.old) × (len.new ≡ len.old) × (exit.new ≡ exit.old) }
{
    if text.len() < TEXT_BYTES {
        return CallStatus::NoRoom.number();
    }
    match run(alloc, handle) {
        Ok(answer) => {
            *len = write_text(&answer, text);
            *exit = exit_code(&answer);
            CallStatus::Done.number()
        }
        Err(status) => status.number(),
    }
}

/// Writes what is kept under a name at the desk that a handle holds into the first `len` bytes of `out`: no byte if
/// nothing is. If there is no room for it, `len` tells how much is needed.
#[unsafe(no_mangle)]
pub extern "C" fn pocket_get(
    alloc: Global,
    handle: &mut Handle,
    name: &[u8],
    out: &mut [u8],
    len: &mut usize,
) -> u32
    ensures only { IsOneOf result
        (CallStatus.NoText ∷ CallStatus.Done ∷ CallStatus.Closed ∷ CallStatus.OtherKind ∷ CallStatus.NoRoom ∷ []) }
    ensures no_text { (result ≡ status_number CallStatus.NoText) ↔ (IsUtf8 name.now → ⊥) }
    ensures closed { IsUtf8 name.now → (result ≡ status_number CallStatus.Closed) ↔ (handle.old.held ≡ None) }
    ensures other { IsUtf8 name.now
        → (result ≡ status_number CallStatus.OtherKind) ↔ HasOtherThanBench handle.old.held }
    ensures done { (b : BenchState) → handle.old.held ≡ Some (Held.Bench b)
        → (result ≡ status_number CallStatus.Done)
        ↔ (IsUtf8 name.now × (length (kept_at b.desk.held name.now) ≤ length out.old)) }
    ensures no_room { (b : BenchState) → handle.old.held ≡ Some (Held.Bench b) → IsUtf8 name.now
        → (result ≡ status_number CallStatus.NoRoom)
        ↔ (length out.old < length (kept_at b.desk.held name.now)) }
    ensures told { (b : BenchState) → handle.old.held ≡ Some (Held.Bench b) → IsUtf8 name.now
        → len.new ≡ length (kept_at b.desk.held name.now) }
    ensures bytes { (b : BenchState) → handle.old.held ≡ Some (Held.Bench b)
        → result ≡ status_number CallStatus.Done
        → take len.new out.new ≡ kept_at b.desk.held name.now }
    ensures rest { result ≡ status_number CallStatus.Done → drop len.new out.new ≡ drop len.new out.old }
    ensures untouched { (result ≡ status_number CallStatus.Done → ⊥) → out.new ≡ out.old }
    ensures len_kept { (result ≡ status_number CallStatus.Done → ⊥)
        → (result ≡ status_number CallStatus.NoRoom → ⊥) → len.new ≡ len.old }
    ensures unchanged { handle.new.held ≡ handle.old.held }
{
    let Ok(name) = str::from_utf8(name) else {
        return CallStatus::NoText.number();
    };
    let Some(held) = handle.take(alloc) else {
        return CallStatus::Closed.number();
    };
    let status = match &*held {
        Held::Bench(bench) => write_out(bench.get(name), out, len),
        Held::Sender(_) | Held::Receiver(_) => CallStatus::OtherKind,
    };
    handle.put(alloc, held);
    status.number()
}

/// Removes what is kept under a name at the desk that a handle holds.
#[unsafe(no_mangle)]
pub extern "C" fn pocket_remove(alloc: Global, handle: &mut Handle, name: &[u8]) -> u32
    ensures only { IsOneOf result
        (CallStatus.NoText ∷ CallStatus.Done ∷ CallStatus.Closed ∷ CallStatus.OtherKind ∷ CallStatus.NotKept ∷ []) }
    ensures no_text { (result ≡ status_number CallStatus.NoText) ↔ (IsUtf8 name.now → ⊥) }
    ensures closed { IsUtf8 name.now → (result ≡ status_number CallStatus.Closed) ↔ (handle.old.held ≡ None) }
    ensures other { IsUtf8 name.now
        → (result ≡ status_number CallStatus.OtherKind) ↔ HasOtherThanBench handle.old.held }
    ensures not_kept { (b : BenchState) → handle.old.held ≡ Some (Held.Bench b) → IsUtf8 name.now
        → (result ≡ status_number CallStatus.NotKept) ↔ (map.get b.desk.held name.now ≡ None) }
    ensures done { (b : BenchState) → handle.old.held ≡ Some (Held.Bench b)
        → (result ≡ status_number CallStatus.Done)
        ↔ (IsUtf8 name.now × IsSome (map.get b.desk.held name.now)) }
    ensures removed { (b : BenchState) → handle.old.held ≡ Some (Held.Bench b)
        → result ≡ status_number CallStatus.Done
        → handle.new.held ≡ Some (Held.Bench (record b { desk = without_name b.desk name.now })) }
    ensures unchanged { (result ≡ status_number CallStatus.Done → ⊥)
        → handle.new.held ≡ handle.old.held }
{
    let Ok(name) = str::from_utf8(name) else {
        return CallStatus::NoText.number();
    };
    let Some(mut held) = handle.take(alloc) else {
        return CallStatus::Closed.number();
    };
    let status = match &mut *held {
        Held::Bench(bench) => {
            if bench.remove(name) {
                CallStatus::Done
            } else {
                CallStatus::NotKept
            }
        }
        Held::Sender(_) | Held::Receiver(_) => CallStatus::OtherKind,
    };
    handle.put(alloc, held);
    status.number()
}

/// Writes the first name, in the order of their bytes, under which something is kept at the desk that a handle holds and that is
/// not below the bytes of `from`, into the first `len` bytes of `out`. If there is no room for it, `len` tells how much is needed.
#[unsafe(no_mangle)]
pub extern "C" fn pocket_name_from(
    alloc: Global,
    handle: &mut Handle,
    from: &[u8],
    out: &mut [u8],
    len: &mut usize,
) -> u32
    ensures only { IsOneOf result
        (CallStatus.Done ∷ CallStatus.Closed ∷ CallStatus.OtherKind ∷ CallStatus.NotKept ∷ CallStatus.NoRoom ∷ []) }
    ensures closed { (result ≡ status_number CallStatus.Closed) ↔ (handle.old.held ≡ None) }
    ensures other { (result ≡ status_number CallStatus.OtherKind) ↔ HasOtherThanBench handle.old.held }
    ensures not_kept { (b : BenchState) → handle.old.held ≡ Some (Held.Bench b)
        → (result ≡ status_number CallStatus.NotKept)
        ↔ (find (is_from from.now) (map.keys b.desk.held) ≡ None) }
    ensures done { (b : BenchState) (name : List ℕ) → handle.old.held ≡ Some (Held.Bench b)
        → find (is_from from.now) (map.keys b.desk.held) ≡ Some name
        → (result ≡ status_number CallStatus.Done) ↔ (length name ≤ length out.old) }
    ensures no_room { (b : BenchState) (name : List ℕ) → handle.old.held ≡ Some (Held.Bench b)
        → find (is_from from.now) (map.keys b.desk.held) ≡ Some name
        → (result ≡ status_number CallStatus.NoRoom) ↔ (length out.old < length name) }
    ensures told { (b : BenchState) (name : List ℕ) → handle.old.held ≡ Some (Held.Bench b)
        → find (is_from from.now) (map.keys b.desk.held) ≡ Some name
        → len.new ≡ length name }
    ensures bytes { (b : BenchState) → handle.old.held ≡ Some (Held.Bench b)
        → result ≡ status_number CallStatus.Done
        → find (is_from from.now) (map.keys b.desk.held) ≡ Some (take len.new out.new) }
    ensures rest { result ≡ status_number CallStatus.Done → drop len.new out.new ≡ drop len.new out.old }
    ensures untouched { (result ≡ status_number CallStatus.Done → ⊥) → out.new ≡ out.old }
    ensures len_kept { (result ≡ status_number CallStatus.Done → ⊥)
        → (result ≡ status_number CallStatus.NoRoom → ⊥) → len.new ≡ len.old }
    ensures unchanged { handle.new.held ≡ handle.old.held }
{
    let Some(held) = handle.take(alloc) else {
        return CallStatus::Closed.number();
    };
    let status = match &*held {
        Held::Bench(bench) => match bench.name_from(from) {
            Some(name) => write_out(name, out, len),
            None => CallStatus::NotKept,
        },
        Held::Sender(_) | Held::Receiver(_) => CallStatus::OtherKind,
    };
    handle.put(alloc, held);
    status.number()
}
