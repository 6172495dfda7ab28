//! Where the bytes of an outlet of real files go.

ghost use Rattle.std.specs.Prelude.{◌≡◌, false, true, not, [], IsFalse, IsTrue, IsErr, IfOk, OnOk, OnErr};
ghost use Rattle.desk_ports.specs.Meanings.{next_count};
ghost use Rattle.desk_ports.specs.FileDesk.{gathered, holds_back, is_opened_sink, is_standard_output, is_unfinished, names_standard_output, stands, waits, KeepsSink, IsSteady};

use crate::desk::{Failed, Outlet};
use crate::part::{Node, Part, refused};
use crate::write_faults::WriteFaults;
use std::fs::File;
use std::io;
use std::io::{BufWriter, IsTerminal, Stdout, Write};

/// How many bytes of an outlet are gathered before they are handed to the system.
const GATHERED: usize = 131_072;

// Whether it is one of the names of standard output.
fn is_standard_output(name: &str) -> bool
    ensures { result ≡ names_standard_output name.now }
{
    matches!(name, "-" | "/dev/stdout" | "/dev/fd/1" | "/proc/self/fd/1")
}

/// Where the bytes of an outlet go, and whether it is unfinished: it was opened, or written to, and not finished since. The
/// bytes are gathered, and handed to the system when there are enough. An output that is written to a part, a file beside
/// its name, waits for its name.
#[derive(Drop)]
pub enum Sink {
    Nothing,
    StandardOutput(BufWriter<Stdout>, bool),
    File(BufWriter<File>, Option<Part>, bool),
}

impl Sink {
    /// What stands under the name is not changed. It fails if it would take the place of one of the files that are `read`,
    /// or of the other output, and if both outputs would be standard output.
    pub fn open(
        rt: &HostRuntime,
        name: &str,
        read: &[Option<Node>],
        other: &Sink,
    ) -> io::Result<Sink>
        ensures opened { IfOk result (λ sink. IsTrue (is_opened_sink sink)) }
        ensures none { IfOk result (λ sink. gathered sink ≡ []) }
        ensures held { IfOk result (λ sink. holds_back sink ≡ waits sink) }
        ensures unfinished { IfOk result (λ sink. IsTrue (is_unfinished sink)) }
        ensures standard { IfOk result
            (λ sink. is_standard_output sink ≡ names_standard_output name.now) }
        ensures apart { IsTrue (names_standard_output name.now)
            → IsTrue (is_standard_output other.now) → IsErr result }
    {
        if is_standard_output(name) {
            if other.is_standard_output() {
                return Err(refused("both outputs are standard output"));
            }
            if other.replaces(rt, Node::standard_output(rt)) {
                return Err(refused("the other output would replace this file"));
            }
            let stdout = BufWriter::with_capacity(rt.alloc(), GATHERED, rt.stdout())?;
            return Ok(Sink::StandardOutput(stdout, true));
        }
        let (file, part) = Part::open(rt, name, read, other.node(rt), other.part())?;
        let file = BufWriter::with_capacity(rt.alloc(), GATHERED, file)?;
        Ok(Sink::File(file, part, true))
    }

    /// Begins to be what is written. Before that an earlier part stands as it was, and takes no bytes.
    pub fn begin(&mut self, rt: &HostRuntime) -> io::Result<()>
        ensures opened { is_opened_sink self.new ≡ is_opened_sink self.old }
        ensures steady { IsSteady self.old self.new }
        ensures begun { OnOk result (IsFalse (holds_back self.new)) }
    {
        if let Sink::File(writer, part, _) = self {
            if let Some(part) = part {
                if let Some(file) = part.begin(rt)? {
                    *writer.get_mut() = file;
                }
            }
        }
        Ok(())
    }

    /// Removes a part that was made and is not begun.
    pub fn withdraw(&self, rt: &HostRuntime) {
        if let Some(part) = self.part() {
            part.withdraw(rt);
        }
    }

    /// Whether nothing was opened.
    pub fn is_nothing(&self) -> bool
        ensures { result ≡ not (is_opened_sink self.now) }
    {
        matches!(self, Sink::Nothing)
    }

    /// Whether it is standard output.
    fn is_standard_output(&self) -> bool
        ensures { result ≡ is_standard_output self.now }
    {
        matches!(self, Sink::StandardOutput(..))
    }

    /// Whether it is standard output, and that is a terminal.
    pub fn is_terminal(&self, rt: &HostRuntime) -> bool {
        self.is_standard_output() && rt.stdout().is_terminal()
    }

    /// Which file of the system it is, unless it is written to under its own name.
    pub fn node(&self, rt: &HostRuntime) -> Option<Node> {
        match self {
            Sink::StandardOutput(..) => Node::standard_output(rt),
            Sink::Nothing | Sink::File(..) => self.part().map(|part| part.node()),
        }
    }

    /// Whether it is the part that a file is, or that will take the file's place.
    pub fn replaces(&self, rt: &HostRuntime, node: Option<Node>) -> bool {
        match (self.part(), node) {
            (Some(part), Some(node)) => part.concerns(rt, node),
            _ => false,
        }
    }

    // The part that waits for its name.
    fn part(&self) -> Option<&Part> {
        match self {
            Sink::Nothing | Sink::StandardOutput(..) => None,
            Sink::File(_, part, _) => part.as_ref(),
        }
    }

    /// Whether it is unfinished.
    pub fn is_unfinished(&self) -> bool
        ensures { result ≡ is_unfinished self.now }
    {
        match self {
            Sink::Nothing => false,
            Sink::StandardOutput(_, unfinished) | Sink::File(_, _, unfinished) => *unfinished,
        }
    }

    /// Takes all the bytes for an outlet, and counts a failed writing, after which some of them may have been taken. The error is
    /// kept where it comes.
    pub fn write(
        &mut self,
        outlet: Outlet,
        bytes: &[u8],
        faults: &mut WriteFaults,
    ) -> Result<(), Failed>
        requires { IsTrue (is_opened_sink self.old) }
        ensures opened { IsTrue (is_opened_sink self.new) }
        ensures standard { is_standard_output self.new ≡ is_standard_output self.old }
        ensures waits { waits self.new ≡ waits self.old }
        ensures unfinished { IsTrue (is_unfinished self.new) }
        ensures same { OnOk result (faults.new ≡ faults.old) }
        ensures counted { OnErr result (faults.new.count ≡ next_count faults.old.count) }
        ensures pending { faults.new.pending ≡ faults.old.pending }
    {
        match self {
            Sink::Nothing => unreachable!(),
            Sink::StandardOutput(stdout, unfinished) => {
                *unfinished = true;
                let mut given = stdout.write_all(bytes);
                faults.answer(outlet, &mut given)
            }
            Sink::File(file, _, unfinished) => {
                *unfinished = true;
                let mut given = file.write_all(bytes);
                faults.answer(outlet, &mut given)
            }
        }
    }

    /// Hands everything that was gathered to the system, if the outlet was opened.
    pub fn flush(&mut self) -> io::Result<()>
        ensures opened { is_opened_sink self.new ≡ is_opened_sink self.old }
        ensures handed { OnOk result (gathered self.new ≡ []) }
        ensures kept { KeepsSink self.old self.new }
    {
        match self {
            Sink::Nothing => Ok(()),
            Sink::StandardOutput(stdout, _) => stdout.flush(),
            Sink::File(file, _, _) => file.flush(),
        }
    }

    /// Has the system bring a part that waits for its name to the disk, to which everything was handed. Then the outlet is
    /// finished.
    pub fn finish(&mut self) -> io::Result<()>
        requires { gathered self.old ≡ [] }
        ensures opened { is_opened_sink self.new ≡ is_opened_sink self.old }
        ensures gathered { gathered self.new ≡ gathered self.old }
        ensures standard { is_standard_output self.new ≡ is_standard_output self.old }
        ensures waits { waits self.new ≡ waits self.old }
        ensures finished { OnOk result (IsFalse (is_unfinished self.new)) }
        ensures same { OnErr result (self.new ≡ self.old) }
    {
        match self {
            Sink::Nothing => {}
            Sink::StandardOutput(_, unfinished) => *unfinished = false,
            Sink::File(file, part, unfinished) => {
                if part.is_some() {
                    file.get_ref().sync_all()?;
                }
                *unfinished = false;
            }
        }
        Ok(())
    }

    /// Looks at a part that waits for its name, and fails if another file has come in its place.
    pub fn look(&mut self, rt: &HostRuntime) -> io::Result<()>
        ensures opened { is_opened_sink self.new ≡ is_opened_sink self.old }
        ensures steady { IsSteady self.old self.new }
        ensures stands { OnOk result (IsTrue (stands self.new)) }
    {
        if let Sink::File(_, part, _) = self {
            if let Some(part) = part {
                part.look(rt)?;
            }
        }
        Ok(())
    }

    /// Gives a part the name that it waits for.
    pub fn take_name(&mut self, rt: &HostRuntime) -> io::Result<()>
        ensures opened { is_opened_sink self.new ≡ is_opened_sink self.old }
        ensures gathered { gathered self.new ≡ gathered self.old }
        ensures standard { is_standard_output self.new ≡ is_standard_output self.old }
        ensures unfinished { is_unfinished self.new ≡ is_unfinished self.old }
        ensures named { OnOk result (IsFalse (waits self.new)) }
        ensures stands { OnOk result (IsTrue (stands self.new)) }
        ensures same { OnErr result (self.new ≡ self.old) }
    {
        if let Sink::File(_, part, _) = self {
            if let Some(waiting) = part {
                waiting.take_name(rt)?;
            }
            *part = None;
        }
        Ok(())
    }
}
