//! Lengths without a sign.

ghost use Rattle.std.specs.Prelude.{◌≡◌, ◌≤◌, ◌^◌, pos, ◌≤ℤ◌, IfOk, All, map};
ghost use Rattle.path_search.specs.Lengths.{AreLengths};

use std::alloc::{AllocError, Global};

/// The same lengths, which are at least 0.
pub fn unsigned_lengths(alloc: Global, len: &[i64]) -> Result<Vec<u64>, AllocError>
    requires { All (λ l. pos 0 ≤ℤ l) len.now }
    ensures { IfOk result (λ lens. AreLengths len.now lens.items) }
{
    let mut lens = Vec::with_capacity(alloc, len.len())?;
    for l in len {
        lens.push(*l as u64)?;
    }
    Ok(lens)
}
