//! Distances and last arcs as answers.

ghost use Rattle.std.specs.Prelude.{◌≡◌, ◌≤◌, ◌<◌, IfOk, length};
ghost use Rattle.plain_certificates.specs.Tables.{at};
ghost use Rattle.path_search.specs.Answers.{Tells, dist_in, via_in};

use base_items::List;
use pace_search::FAR;
use std::alloc::{AllocError, Global};

/// Of each node its distance from the start, None where no walk leads to it, and the last arc of a
/// shortest walk, None at the start and where there is no walk.
#[derive(Drop)]
pub struct Paths {
    pub dist: List<Option<i64>>,
    pub via: List<Option<u32>>,
}

/// The answer that arrays of distances and of last arcs give; a distance of `FAR` is none.
pub fn paths_of(alloc: Global, dist: &[u64], via: &[u32], s: u32) -> Result<Paths, AllocError>
    requires { length via.now ≡ length dist.now }
    ensures { IfOk result (λ paths. Tells dist.now via.now s paths.dist paths.via) }
{
    let mut dists = Vec::with_capacity(alloc, dist.len())?;
    let mut vias = Vec::with_capacity(alloc, dist.len())?;
    let mut node = 0;
    while node < dist.len() {
        dists.push(dist_of(dist[node]))?;
        vias.push(via_of(dist[node], via[node], node, s))?;
        node += 1;
    }
    Ok(Paths {
        dist: List::from_vec(dists),
        via: List::from_vec(vias),
    })
}

/// The distance, where it is one.
fn dist_of(dist: u64) -> Option<i64>
    ensures { result ≡ dist_in dist }
{
    if dist < FAR { Some(dist as i64) } else { None }
}

/// The last arc, where there is one.
pub fn via_of(dist: u64, via: u32, node: usize, s: u32) -> Option<u32>
    ensures { result ≡ via_in dist via node s }
{
    if dist < FAR && node != s as usize {
        Some(via)
    } else {
        None
    }
}
