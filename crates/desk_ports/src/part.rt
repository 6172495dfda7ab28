//! The part of an output: a file beside a name, which takes the name when the output is complete.

ghost use Rattle.std.specs.Prelude.{◌≡◌, is_some, IsTrue, IfOk, OnOk};
ghost use Rattle.desk_ports.specs.FileDesk.{is_begun, is_held_back, is_seen};

use std::fs::{File, Metadata, OpenOptions, Permissions};
use std::os::unix::fs::MetadataExt;
use std::{fs, io};

/// Which file of the system something is: its device, and its number on it. Two names of one file have one node.
#[derive(Clone, Copy, Debug, PartialEq, Eq)]
pub struct Node {
    device: u64,
    number: u64,
}

impl Node {
    /// The node of the file that this metadata describes.
    pub fn of(metadata: &Metadata) -> Node {
        Node {
            device: metadata.dev(),
            number: metadata.ino(),
        }
    }

    /// The node of standard output.
    pub fn standard_output(rt: &HostRuntime) -> Option<Node> {
        Node::named(rt, "/dev/stdout")
    }

    /// The node of the file that has this name, or of the file that a link of this name points to.
    pub fn named(rt: &HostRuntime, name: &str) -> Option<Node> {
        let metadata = fs::metadata(rt, name).ok()?;
        Some(Node::of(&metadata))
    }
}

/// How far a part is.
#[derive(Clone, Copy, Debug, PartialEq, Eq)]
enum Stage {
    /// It was made, and nothing was written to it.
    New,
    /// A part of an earlier run stands in its place, which it is still to replace.
    Earlier,
    /// It is written to.
    Begun,
    /// It was written, and stood in its place when that was looked at.
    Seen,
}

/// A file beside a name, which takes the name when the output is complete.
#[derive(Debug, Drop)]
pub struct Part {
    /// The name of the file until then.
    own: String,
    /// The name that it takes.
    target: String,
    /// The mode of what stands under that name.
    mode: Option<Permissions>,
    /// What stands under its own name.
    node: Node,
    stage: Stage,
}

impl Part {
    /// Opens what an output is written to: the file that has this name, if it is a device, a pipe or something else that
    /// is not a regular file, and otherwise a part beside the name. Nothing that exists under the name is changed, and an
    /// earlier part stays until this one begins.
    ///
    /// It fails if one of the files that are `read` has this name, by whatever link, or if the part would have to replace
    /// one of them, or the other output or what that is written to, which is the file `taken`.
    pub fn open(
        rt: &HostRuntime,
        name: &str,
        read: &[Option<Node>],
        taken: Option<Node>,
        other: Option<&Part>,
    ) -> io::Result<(File, Option<Part>)>
        ensures held { IfOk result (λ opened. is_held_back opened.1 ≡ is_some opened.1) }
    {
        let mode = match OpenOptions::new().write(true).open(rt, name) {
            Ok(standing) => {
                let metadata = standing.metadata()?;
                if !metadata.is_file() {
                    return Ok((standing, None));
                }
                let node = Some(Node::of(&metadata));
                if read.contains(&node) {
                    return Err(refused("the command reads this file"));
                }
                if taken == node {
                    return Err(refused("the other output is this file or its part"));
                }
                Some(metadata.permissions())
            }
            Err(error) if error.kind() == io::ErrorKind::NotFound => None,
            Err(error) => return Err(error),
        };
        let target = target_of(rt, name)?;
        let own = format!(in rt.alloc(); "{target}.part")?;
        let (file, node, stage) = match earlier_at(rt, &own, read, taken, other)? {
            Some(node) => (fs::open(rt, "/")?, node, Stage::Earlier),
            None => {
                let (file, node) = made(rt, &own, mode.clone()?)?;
                (file, node, Stage::New)
            }
        };
        let part = Part {
            own,
            target,
            mode,
            node,
            stage,
        };
        if is_target(rt, node, other) {
            part.withdraw(rt);
            return Err(refused("its part would be the other output"));
        }
        Ok((file, Some(part)))
    }

    /// Begins to be what is written: replaces an earlier part, and gives the file that is written to then.
    pub fn begin(&mut self, rt: &HostRuntime) -> io::Result<Option<File>>
        ensures { OnOk result (IsTrue (is_begun self.new.stage)) }
    {
        self.stands(rt)?;
        if self.stage != Stage::Earlier {
            self.stage = Stage::Begun;
            return Ok(None);
        }
        fs::remove_file(rt, &self.own)?;
        let (file, node) = made(rt, &self.own, self.mode.clone()?)?;
        self.node = node;
        self.stage = Stage::Begun;
        Ok(Some(file))
    }

    /// Removes the file, if it was made and is not begun.
    pub fn withdraw(&self, rt: &HostRuntime) {
        if self.stage == Stage::New && self.stands(rt).is_ok() {
            let _ = fs::remove_file(rt, &self.own);
        }
    }

    /// Which file it is.
    pub fn node(&self) -> Node {
        self.node
    }

    /// Whether a file is the part, or the one that the part will replace.
    pub fn concerns(&self, rt: &HostRuntime, node: Node) -> bool {
        self.node == node || is_target(rt, node, Some(self))
    }

    /// Fails if another file has come in the part's place, as that of another run over the same name.
    pub fn stands(&self, rt: &HostRuntime) -> io::Result<()> {
        match fs::symlink_metadata(rt, &self.own) {
            Ok(standing) if Node::of(&standing) == self.node => Ok(()),
            _ => Err(refused("its part is gone, or another run has taken its place")),
        }
    }

    /// The same, and notes that the part stands.
    pub fn look(&mut self, rt: &HostRuntime) -> io::Result<()>
        ensures { OnOk result (IsTrue (is_seen self.new.stage)) }
    {
        self.stands(rt)?;
        self.stage = Stage::Seen;
        Ok(())
    }

    /// Gives the part the name that it waits for, if it still stands. What existed under that name is then gone.
    pub fn take_name(&self, rt: &HostRuntime) -> io::Result<()> {
        self.stands(rt)?;
        fs::rename(rt, &self.own, &self.target)
    }
}

/// The file that a link of this name points to, and the name itself if it is not a link.
fn target_of(rt: &HostRuntime, name: &str) -> io::Result<String> {
    let is_link = match fs::symlink_metadata(rt, name) {
        Ok(found) => found.is_symlink(),
        Err(_) => false,
    };
    if !is_link {
        return Ok(format!(in rt.alloc(); "{name}")?);
    }
    let Ok(path) = fs::canonicalize(rt, name) else {
        return Err(refused("it is a link to a name that nothing has"));
    };
    Ok(format!(in rt.alloc(); "{}", path.display())?)
}

/// Makes the file of a part, with the mode of what it will replace.
fn made(rt: &HostRuntime, own: &str, mode: Option<Permissions>) -> io::Result<(File, Node)> {
    let file = OpenOptions::new()
        .write(true)
        .create_new(true)
        .open(rt, own)?;
    if let Some(mode) = mode {
        file.set_permissions(mode)?;
    }
    let node = Node::of(&file.metadata()?);
    Ok((file, node))
}

/// What stands under the name of a part. It must be an earlier part, and not a file that is read, standard output, a link,
/// or what the other output is or is written to.
fn earlier_at(
    rt: &HostRuntime,
    own: &str,
    read: &[Option<Node>],
    taken: Option<Node>,
    other: Option<&Part>,
) -> io::Result<Option<Node>> {
    match fs::symlink_metadata(rt, own) {
        Err(error) if error.kind() == io::ErrorKind::NotFound => Ok(None),
        Err(error) => Err(error),
        Ok(standing) => {
            let node = Node::of(&standing);
            let is_used = read.contains(&Some(node)) || Node::standard_output(rt) == Some(node);
            let is_other = taken == Some(node) || is_target(rt, node, other);
            if !standing.is_file() {
                return Err(refused("what stands in the place of its part is no file"));
            }
            if is_used || is_other {
                return Err(refused("its part would replace another file of the run"));
            }
            Ok(Some(node))
        }
    }
}

/// Whether the file is the one that the other output's part will replace.
fn is_target(rt: &HostRuntime, node: Node, other: Option<&Part>) -> bool {
    match other {
        None => false,
        Some(part) => Node::named(rt, &part.target) == Some(node),
    }
}

/// An error that isn't the system's: why a part is not made, or doesn't take its name.
pub fn refused(why: &'static str) -> io::Error {
    io::Error::new(io::ErrorKind::AlreadyExists, why)
}
