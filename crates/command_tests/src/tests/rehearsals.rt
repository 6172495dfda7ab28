//! A rehearsal over a quiet desk, which finds its memory.

use super::desk::words_of;
use desk_ports::QuietDesk;
use pocket_cmd::{Status, rehearse};
use std::alloc::{AllocError, Global};
use std::test::Fail;

/// The store of one packet of eight bits.
const STORE: &[u8] = &[0x00, 0x64, 0xC0, 0x00, 0x00, 0x03, 0x85, 0xB8, 0xD6, 0x00];

/// A quiet desk with a script and the store.
fn quiet_desk() -> QuietDesk<'static> {
    QuietDesk::new("s", b"repeat,0,0,1,2\n", "a", STORE)
}

fn answer(alloc: Global) -> Result<Status, AllocError> {
    let words = words_of(alloc, "play in=a out=b report=c apid=100 script=s")?;
    let few = words.len().min(1000);
    Ok(rehearse(alloc, &words[..few], &mut quiet_desk()))
}

#[test]
fn rehearsal(rt: HostRuntime) -> Result<(), Fail> {
    assert_eq!(rt; answer(rt.alloc())?, Status::Done);
    Ok(())
}
