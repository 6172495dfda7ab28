//! Room that is taken once, and never grows.

ghost use Rattle.std.specs.Prelude.{◌≡◌, replicate, IfOk};
ghost use Rattle.std.specs.Vec.{vec_capacity};

use std::alloc::{AllocError, Global};

/// The given number of zero bytes, with no capacity for more.
pub fn zero_bytes(alloc: Global, count: usize) -> Result<Vec<u8>, AllocError>
    ensures bytes { IfOk result (λ bytes. bytes.items ≡ replicate count 0) }
    ensures full { IfOk result (λ bytes. vec_capacity bytes ≡ count) }
{
    let mut bytes = Vec::with_capacity(alloc, count)?;
    for _ in 0..count {
        bytes.push_reserved(0);
    }
    Ok(bytes)
}
