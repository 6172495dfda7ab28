//! Named bytes in the order in which they were kept. An entry never changes, so a reader of it needs no copy.

ghost use Rattle.std.specs.Prelude.{◌≡◌, ◌<◌, ◌++◌, ◌∷◌, [], length, None, Some, MatchOption, OnOk, OnErr};
ghost use Rattle.std.specs.FinMap as map;
ghost use Rattle.desk_ports.specs.Log.{kept_of, bytes_at};

use std::alloc::{AllocError, Global};
use std::marker::Model;

/// A name and the bytes that were kept under it.
#[derive(Debug, Drop)]
pub struct LogEntry {
    name: Vec<u8>,
    bytes: Vec<u8>,
}

impl Model for LogEntry {
    ghost use Rattle.std.specs.Prelude.{List, ℕ};

    ghost Value = { List ℕ × List ℕ };

    ghost view = { λ entry. (entry.name.items, entry.bytes.items) };
}

impl LogEntry {
    pub fn name(&self) -> &[u8]
        ensures { result.now ≡ self.now.0 }
    {
        &self.name
    }

    pub fn bytes(&self) -> &[u8]
        ensures { result.now ≡ self.now.1 }
    {
        &self.bytes
    }
}

/// Keeps a copy of the bytes under a copy of the name.
pub fn keep(
    log: &mut Vec<LogEntry>,
    alloc: Global,
    name: &[u8],
    bytes: &[u8],
) -> Result<(), AllocError>
    ensures ok { OnOk result (log.new.items ≡ log.old.items ++ (name.now, bytes.now) ∷ []) }
    ensures err { OnErr result (log.new.items ≡ log.old.items) }
{
    let name = name.to_vec(alloc)?;
    let bytes = bytes.to_vec(alloc)?;
    log.push(LogEntry { name, bytes })?;
    Ok(())
}

/// The place of the newest entry with this name.
pub fn newest(log: &[LogEntry], name: &[u8]) -> Option<usize>
    ensures { MatchOption result (map.get (kept_of log.now) name.now ≡ None)
        (λ at. (at < length log.now)
        × (map.get (kept_of log.now) name.now ≡ Some (bytes_at log.now at))) }
{
    let mut found = None;
    for (at, entry) in log.iter().enumerate() {
        if name == entry.name() {
            found = Some(at);
        }
    }
    found
}
