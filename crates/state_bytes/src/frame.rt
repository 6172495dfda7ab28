//! The frame of a state.

ghost use Rattle.std.specs.Int.{to_be_bytes, w32};
ghost use Rattle.std.specs.Prelude.{◌≡◌, ◌∷◌, ◌+◌, ◌≤◌, ◌<◌, ◌↔◌, ℕ, IsTrue, Err, List, IfOk, length, take};
ghost use Rattle.state_bytes.specs.Frames.{IsFrame, IsOther, head, sealed};
ghost use Rattle.state_bytes.specs.Parts.{Puts};

use crate::crc::crc32;
use crate::room::put;

/// How many bytes a frame adds.
pub const FRAME_BYTES: usize = 14;

/// What a state begins with: four letters and the version.
const MAGIC: [u8; 5] = *b"PCKT\x01";

/// Why bytes have no body.
#[derive(Clone, Copy, Debug, PartialEq, Eq)]
pub enum FrameFault {
    /// They are no state of version 1.
    NoState,
    /// They are one of another kind or another number of places.
    OtherState,
}

/// Writes what a state begins with into the first bytes, and tells the place after it.
pub fn put_head(out: &mut [u8], kind: u8, f: u32) -> usize
    requires { 10 ≤ length out.old }
    ensures { Puts out.old out.new 0 (head kind f) result }
{
    let from = put(out, 0, &MAGIC);
    put(out, from, &kind_places(kind, f))
}

/// Writes the checksum of all bytes before this place there, and tells the place after it.
pub fn seal(out: &mut [u8], at: usize) -> usize
    requires { at + 4 ≤ length out.old }
    ensures { Puts out.old out.new 0 (sealed (take at out.old)) result }
{
    let sum = crc32(&out[..at]);
    put(out, at, &sum.to_be_bytes())
}

/// What stands in the state of this kind and this number of places between its head and its checksum.
pub fn body_of(kind: u8, f: u32, bytes: &[u8]) -> Result<&[u8], FrameFault>
    ensures body { IfOk result (λ body. IsFrame bytes.now kind f body.now) }
    ensures other { result ≡ Err FrameFault.OtherState → IsOther kind f bytes.now }
    ensures none { result ≡ Err FrameFault.NoState
        → (k g : ℕ) (body : List ℕ) → IsFrame bytes.now k g body → ⊥ }
{
    if bytes.len() < FRAME_BYTES {
        return Err(FrameFault::NoState);
    }
    let (framed, sum) = bytes.split_at(bytes.len() - 4);
    let (magic, rest) = framed.split_at(5);
    if !are_same(magic, &MAGIC) {
        return Err(FrameFault::NoState);
    }
    if !are_same(sum, &crc32(framed).to_be_bytes()) {
        return Err(FrameFault::NoState);
    }
    let (kind_and_places, body) = rest.split_at(5);
    if !are_same(kind_and_places, &kind_places(kind, f)) {
        return Err(FrameFault::OtherState);
    }
    Ok(body)
}

/// The kind and the number of places, the most significant byte first.
fn kind_places(kind: u8, f: u32) -> [u8; 5]
    ensures { result ≡ kind ∷ to_be_bytes w32 f }
{
    let [first, second, third, fourth] = f.to_be_bytes();
    [kind, first, second, third, fourth]
}

/// Whether two lists of bytes are equal.
fn are_same(first: &[u8], second: &[u8]) -> bool
    ensures { IsTrue result ↔ (first.now ≡ second.now) }
{
    first == second
}
