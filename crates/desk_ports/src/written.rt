//! An outlet in memory, with the bytes that were written to it.

ghost use Rattle.std.specs.Prelude.{◌≡◌, ◌∷◌, ◌++◌, [], true, OnOk, OnErr};
ghost use Rattle.desk_ports.specs.MemState.{closed_outgoing};

use crate::log::{LogEntry, keep};
use std::alloc::{AllocError, Global};
use std::marker::Model;

/// An output in memory: its name and the bytes that were written to it since it was opened.
#[derive(Debug, Drop)]
pub struct Written {
    name: Vec<u8>,
    made: Vec<u8>,
    ready: bool,
}

impl Model for Written {
    ghost use Rattle.desk_ports.specs.MemState.{MemOutgoing, outgoing_code};

    ghost Value = { MemOutgoing };

    ghost coded = { outgoing_code };

    ghost view = { λ w. record { made = w.made.items; name = w.name.items; ready = w.ready } };
}

impl Written {
    /// An output that was never opened. It allocates no memory.
    pub fn closed(alloc: Global) -> Written
        ensures { result ≡ closed_outgoing }
    {
        Written {
            name: Vec::new(alloc),
            made: Vec::new(alloc),
            ready: false,
        }
    }

    pub fn open(&mut self, alloc: Global, name: &[u8]) -> Result<(), AllocError>
        ensures ok { OnOk result (self.new ≡ record { made = []; name = name.now; ready = true }) }
        ensures err { OnErr result (self.new ≡ self.old) }
    {
        self.name = name.to_vec(alloc)?;
        self.made.clear();
        self.ready = true;
        Ok(())
    }

    pub fn add(&mut self, bytes: &[u8]) -> Result<(), AllocError>
        ensures ok { OnOk result
            (self.new ≡ record self.old { made = self.old.made ++ bytes.now }) }
        ensures err { OnErr result (self.new ≡ self.old) }
    {
        self.made.extend_from_slice(bytes)
    }

    /// Keeps what was written under the name.
    pub fn keep_in(&self, log: &mut Vec<LogEntry>, alloc: Global) -> Result<(), AllocError>
        ensures ok { OnOk result
            (log.new.items ≡ log.old.items ++ (self.now.name, self.now.made) ∷ []) }
        ensures err { OnErr result (log.new.items ≡ log.old.items) }
    {
        keep(log, alloc, &self.name, &self.made)
    }

    pub fn made(&self) -> &[u8]
        ensures { result.now ≡ self.now.made }
    {
        &self.made
    }
}
