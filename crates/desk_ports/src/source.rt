//! Where the bytes of an inlet of real files come from.

ghost use Rattle.std.specs.Prelude.{◌≡◌, ◌≤◌, ◌↔◌, length, IsTrue, IsFalse, IfOk, OnOk, OnErr};
ghost use Rattle.std.specs.Fs.{IsFile, file_type};
ghost use Rattle.std.specs.Io.KnownBytes.{ReadConsumes};
ghost use Rattle.desk_ports.specs.Meanings.{next_count};
ghost use Rattle.desk_ports.specs.FileDesk.{is_live, is_opened_source, is_standard_input, names_standard_input};

use crate::desk::{Failed, Inlet};
use crate::part::Node;
use crate::read_faults::ReadFaults;
use std::fs::{File, Metadata};
use std::io::{Read, Stdin};
use std::{fs, io};

/// Where the bytes of an inlet come from, and whether it is live: a read may wait for bytes that are still to come.
#[derive(Drop)]
pub enum Source {
    Nothing,
    StandardInput(Stdin, bool),
    File(File, bool),
}

impl Source {
    /// The name `-` is standard input.
    pub fn open(rt: &HostRuntime, name: &str) -> io::Result<Source>
        ensures opened { IfOk result (λ source. IsTrue (is_opened_source source)) }
        ensures standard { IfOk result
            (λ source. is_standard_input source ≡ names_standard_input name.now) }
    {
        if name == "-" {
            let live = may_wait(fs::metadata(rt, "/dev/stdin"));
            return Ok(Source::StandardInput(rt.stdin(), live));
        }
        let file = fs::open(rt, name)?;
        let live = may_wait(file.metadata());
        Ok(Source::File(file, live))
    }

    /// Whether a read of it may wait.
    pub fn is_live(&self) -> bool
        ensures { result ≡ is_live self.now }
    {
        match self {
            Source::Nothing => false,
            Source::StandardInput(_, live) | Source::File(_, live) => *live,
        }
    }

    /// Which file of the system it is.
    pub fn node(&self, rt: &HostRuntime) -> io::Result<Option<Node>> {
        match self {
            Source::Nothing => Ok(None),
            Source::StandardInput(..) => Ok(Node::named(rt, "/dev/stdin")),
            Source::File(file, _) => {
                let metadata = file.metadata()?;
                Ok(Some(Node::of(&metadata)))
            }
        }
    }

    /// How many bytes it has, if it is a regular file.
    pub fn whole(&self) -> Option<u64> {
        match self {
            Source::Nothing | Source::StandardInput(..) => None,
            Source::File(file, _) => {
                let metadata = file.metadata().ok()?;
                metadata.is_file().then_some(metadata.len())
            }
        }
    }

    /// Reads once for an inlet, and counts a failed reading.
    pub fn read(
        &mut self,
        inlet: Inlet,
        buf: &mut [u8],
        faults: &mut ReadFaults,
    ) -> Result<usize, Failed>
        requires { IsTrue (is_opened_source self.old) }
        ensures within { IfOk result (λ n. n ≤ length buf.old) }
        ensures opened { IsTrue (is_opened_source self.new) }
        ensures standard { is_standard_input self.new ≡ is_standard_input self.old }
        ensures live { is_live self.new ≡ is_live self.old }
        ensures same { OnOk result (faults.new ≡ faults.old) }
        ensures counted { OnErr result (faults.new.count ≡ next_count faults.old.count) }
    {
        match self {
            Source::Nothing => unreachable!(),
            Source::StandardInput(stdin, _) => read_counted(stdin, inlet, buf, faults),
            Source::File(file, _) => read_counted(file, inlet, buf, faults),
        }
    }
}

// Reads once, from whatever reader, and counts a failed reading. So none is told as the end of the input.
#[inline(never)]
fn read_counted<R: Read>(
    reader: &mut R,
    inlet: Inlet,
    buf: &mut [u8],
    faults: &mut ReadFaults,
) -> Result<usize, Failed>
    ensures within { IfOk result (λ n. n ≤ length buf.old) }
    ensures read { ReadConsumes (R.remaining reader.old) (R.remaining reader.new) result buf.new }
    ensures same { OnOk result (faults.new ≡ faults.old) }
    ensures counted { OnErr result (faults.new.count ≡ next_count faults.old.count) }
{
    faults.answer(inlet, reader.read(buf))
}

// Whether a read of what has this metadata may wait: it is no regular file, or the system doesn't tell what it is.
fn may_wait(metadata: io::Result<Metadata>) -> bool
    ensures told { IfOk metadata (λ found. IsFalse result ↔ IsFile (file_type found)) }
    ensures untold { OnErr metadata (IsTrue result) }
{
    match metadata {
        Ok(found) => !found.is_file(),
        Err(_) => true,
    }
}
