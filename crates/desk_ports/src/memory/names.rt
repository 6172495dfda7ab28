//! The names under which something is kept at a desk in memory, and the removal of one.

ghost use Rattle.std.specs.Prelude.{◌≡◌, ◌&&◌, true, false, is_some, find};
ghost use Rattle.std.specs.FinMap as map;
ghost use Rattle.std.specs.Option.{option_copied};
ghost use Rattle.desk_ports.specs.Log.{kept_of};
ghost use Rattle.desk_ports.specs.Names.{is_name_below, is_from, without_name};

use super::{Cursor, Cursors, MemDesk};
use crate::log::{LogEntry, newest};

impl MemDesk {
    /// Removes what is kept under the name and shuts both inlets, or tells that nothing is kept under it. It takes no memory.
    pub fn remove(&mut self, name: &str) -> bool
        ensures told { result ≡ is_some (map.get self.old.held name.now) }
        ensures removed { result ≡ true → self.new ≡ without_name self.old name.now }
        ensures unchanged { result ≡ false → self.new ≡ self.old }
    {
        let name = name.as_bytes();
        if newest(&self.log, name).is_none() {
            return false;
        }
        self.cursors = Cursors {
            side: Cursor::Nothing,
            input: Cursor::Nothing,
        };
        remove(&mut self.log, name);
        true
    }

    /// The first name, in the order of their bytes, under which something is kept and that is not below these bytes.
    pub fn name_from(&self, from: &[u8]) -> Option<&[u8]>
        ensures { option_copied result ≡ find (is_from from.now) (map.keys self.now.held) }
    {
        name_from(&self.log, from)
    }
}

// Removes each entry with this name.
fn remove(log: &mut Vec<LogEntry>, name: &[u8])
    ensures { kept_of log.new.items ≡ map.remove (kept_of log.old.items) name.now }
{
    log.retain(|entry| name != entry.name());
}

fn name_from<'a>(log: &'a [LogEntry], from: &[u8]) -> Option<&'a [u8]>
    ensures { option_copied result ≡ find (is_from from.now) (map.keys (kept_of log.now)) }
{
    let mut found = None;
    for entry in log {
        let name = entry.name();
        if is_between(from, name, found) {
            found = Some(name);
        }
    }
    found
}

// Whether a name is not below these bytes, and is below another one if there is one.
fn is_between(from: &[u8], name: &[u8], high: Option<&[u8]>) -> bool
    ensures { result
        ≡ (is_from from.now name.now && is_name_below name.now (option_copied high.entry)) }
{
    from.cmp(name).is_le() && is_name_below(name, high)
}

fn is_name_below(name: &[u8], high: Option<&[u8]>) -> bool
    ensures { result ≡ is_name_below name.now (option_copied high.entry) }
{
    match high {
        Some(high) => name.cmp(high).is_lt(),
        None => true,
    }
}
