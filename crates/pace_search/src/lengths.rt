//! Lengths and distances with a sign, and how they are kept without one.

ghost use Rattle.std.specs.Prelude.{◌≡◌, ◌<◌, ◌^◌, pos, negsuc, ◌≤ℤ◌, IfOk, All};
ghost use Rattle.pace_search.specs.Runs.{AreShifted, signed_all};

use std::alloc::{AllocError, Global};

/// The same lengths, each with 2^36 added.
pub fn shifted_lengths(alloc: Global, len: &[i64]) -> Result<Vec<u64>, AllocError>
    requires low { All (λ l. negsuc 68719476735 ≤ℤ l) len.now }
    requires high { All (λ l. l ≤ℤ pos (2 ^ 62)) len.now }
    ensures { IfOk result (λ lens. AreShifted len.now lens.items) }
{
    let mut lens = Vec::with_capacity(alloc, len.len())?;
    for l in len {
        lens.push((*l + 68719476736) as u64)?;
    }
    Ok(lens)
}

/// The distances with their signs.
pub fn signed_distances(alloc: Global, dist: &[u64]) -> Result<Vec<i64>, AllocError>
    requires { All (λ d. d < 2 ^ 62) dist.now }
    ensures { IfOk result (λ signed. signed.items ≡ signed_all dist.now) }
{
    let mut signed = Vec::with_capacity(alloc, dist.len())?;
    for d in dist {
        signed.push(*d as i64 - 1152921504606846976)?;
    }
    Ok(signed)
}
