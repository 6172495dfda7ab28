//! Bytes written into a room.

ghost use Rattle.std.specs.Prelude.{◌+◌, ◌≤◌, length};
ghost use Rattle.state_bytes.specs.Parts.{Puts};

/// Writes these bytes at this place, and tells the place after them.
pub fn put(out: &mut [u8], at: usize, bytes: &[u8]) -> usize
    requires { at + length bytes.now ≤ length out.old }
    ensures { Puts out.old out.new at bytes.now result }
{
    let end = at + bytes.len();
    out[at..end].copy_from_slice(bytes);
    end
}
