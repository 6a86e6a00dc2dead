//! Distances with a sign, and how they are kept without one.

ghost use Rattle.std.specs.Prelude.{◌≡◌, IfOk, length};
ghost use Rattle.path_search.specs.Signed.{TellsSigned};
ghost use Rattle.path_search.specs.Tree.{signed_in};

use crate::paths::{Paths, via_of};
use base_items::List;
use pace_search::FAR;
use std::alloc::{AllocError, Global};

/// The answer that arrays of distances and of last arcs give; a distance of `FAR` is none, and one
/// of 2^60 is 0.
pub fn signed_paths_of(
    alloc: Global,
    dist: &[u64],
    via: &[u32],
    s: u32,
) -> Result<Paths, AllocError>
    requires { length via.now ≡ length dist.now }
    ensures { IfOk result (λ paths. TellsSigned dist.now via.now s paths.dist paths.via) }
{
    let mut dists = Vec::with_capacity(alloc, dist.len())?;
    let mut vias = Vec::with_capacity(alloc, dist.len())?;
    let mut node = 0;
    while node < dist.len() {
        dists.push(signed_of(dist[node]))?;
        vias.push(via_of(dist[node], via[node], node, s))?;
        node += 1;
    }
    Ok(Paths {
        dist: List::from_vec(dists),
        via: List::from_vec(vias),
    })
}

/// The distance with its sign, where it is one.
fn signed_of(dist: u64) -> Option<i64>
    ensures { result ≡ signed_in dist }
{
    if dist < FAR {
        Some(dist as i64 - 1152921504606846976)
    } else {
        None
    }
}
