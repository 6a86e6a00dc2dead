//! Shortest paths where lengths may be below 0: a search of paces that all go as their arcs do.

ghost use Rattle.std.specs.Prelude.{◌≡◌, ◌<◌, ◌≤◌, ◌≤ℤ◌, ◌^◌, ℤ, pos, negsuc, All, List, length};
ghost use Rattle.std.specs.Prelude.{IfOk};
ghost use Rattle.plain_certificates.specs.Numbered.{EndsAreNodes};
ghost use Rattle.plain_certificates.specs.Tables.{at};
ghost use Rattle.static_digraph.specs.Fixed.{graph_of};
ghost use Rattle.pace_search.specs.Runs.{AreShifted, IsFresh, IsPaced};
ghost use Rattle.path_search.specs.Answers.{AreWalks};
ghost use Rattle.path_search.specs.Tree.{BeginsAt};

use crate::paths::Paths;
use crate::signed::signed_paths_of;
use base_items::List;
use pace_search::{FAR, settle, shifted_lengths};
use static_digraph::Fixed;
use std::alloc::{AllocError, Global};

/// What a search finds where lengths may be below 0.
#[derive(Drop)]
pub enum Walks {
    /// Shortest paths to each node to which a walk leads.
    Paths(Paths),
    /// A cycle of negative length to which a walk leads, from its least arc on.
    Cycle(List<u32>),
}

/// Shortest paths from s, where lengths may be below 0; or a cycle of negative length to which a
/// walk leads from s, and which leaves no least length of walks. Lengths are from -2^36 to 2^36.
///
/// After R. Bellman: every arc is relaxed in turn, until no distance changes.
pub fn bellman(alloc: Global, g: &Fixed, len: &[i64], s: u32) -> Result<Walks, AllocError>
    requires lengths { length len.now ≡ (graph_of g.now).arcs }
    requires low { All (λ l. negsuc 68719476735 ≤ℤ l) len.now }
    requires high { All (λ l. l ≤ℤ pos (2 ^ 36)) len.now }
    requires start { s < (graph_of g.now).nodes }
    ensures { IfOk result (AreWalks (graph_of g.now) len.now s) }
{
    let nodes = g.node_count() as usize;
    let arcs = g.arc_count();
    let lens = shifted_lengths(alloc, len)?;
    let mut dist = vec![in alloc; FAR; nodes]?;
    let mut via = vec![in alloc; arcs; nodes]?;
    dist[s as usize] = 1152921504606846976;
    search(
        alloc,
        g,
        lens.as_slice(),
        s,
        dist.as_mut_slice(),
        via.as_mut_slice(),
    )
}

/// The search over lengths without a sign.
fn search(
    alloc: Global,
    g: &Fixed,
    lens: &[u64],
    s: u32,
    dist: &mut [u64],
    via: &mut [u32],
) -> Result<Walks, AllocError>
    requires all { length lens.now ≡ (graph_of g.now).arcs }
    requires paced { IsPaced (graph_of g.now) (length lens.now) }
    requires ends { EndsAreNodes (graph_of g.now) }
    requires dists { length dist.old ≡ (graph_of g.now).nodes }
    requires vias { length via.old ≡ (graph_of g.now).nodes }
    requires short { All (λ l. l ≤ 2 ^ 37) lens.now }
    requires start { s < (graph_of g.now).nodes }
    requires begins { BeginsAt (graph_of g.now) s (at 0 dist.old) }
    requires fresh { IsFresh (length lens.now) dist.old via.old }
    ensures { IfOk result (λ walks. (len : List ℤ) → AreShifted len lens.now
        → AreWalks (graph_of g.now) len s walks) }
{
    match settle(alloc, g, lens, dist, via)? {
        Some(round) => Ok(Walks::Cycle(List::from_vec(round))),
        None => Ok(Walks::Paths(signed_paths_of(alloc, dist, via, s)?)),
    }
}
