//! The search for a cycle of negative length, from all nodes at once.

ghost use Rattle.std.specs.Prelude.{◌≡◌, ◌*◌, ◌≤◌, ◌^◌, ℤ, ◌≤ℤ◌, pos, negsuc, All, List, length};
ghost use Rattle.std.specs.Prelude.{IfOk};
ghost use Rattle.plain_certificates.specs.Numbered.{EndsAreNodes};
ghost use Rattle.plain_certificates.specs.Tables.{at};
ghost use Rattle.static_digraph.specs.Fixed.{graph_of};
ghost use Rattle.pace_search.specs.Answers.{Shows, none};
ghost use Rattle.pace_search.specs.Runs.{AreShifted, IsPaced};
ghost use Rattle.pace_search.specs.Tree.{origin};

use crate::engine::settle;
use crate::lengths::{shifted_lengths, signed_distances};
use static_digraph::Fixed;
use std::alloc::{AllocError, Global};

/// The length that stands for no pace.
pub const NO_PACE: i64 = 4611686018427387904;

/// What a search for a cycle of negative length finds.
#[derive(Drop)]
pub enum CycleSearch {
    /// There is none: a potential of each node, which rises along no pace by more than its length.
    Potential(Vec<i64>),
    /// The numbers of paces that lead round, from the least one on.
    Cycle(Vec<u32>),
}

/// A cycle of negative length along and against the arcs, or what shows that there is none.
///
/// `len` has the length of the pace there along each arc, and then that of the pace back along
/// each: from -2^36 up, and `NO_PACE` where there is none. Lengths between 2^36 and `NO_PACE` are
/// taken too. The only error is want of memory.
///
/// After R. Bellman, from all nodes at once: each pace is relaxed in turn, until no distance
/// changes.
pub fn negative_cycle(alloc: Global, g: &Fixed, len: &[i64]) -> Result<CycleSearch, AllocError>
    requires all { length len.now ≡ 2 * (graph_of g.now).arcs }
    requires low { All (λ l. negsuc 68719476735 ≤ℤ l) len.now }
    requires high { All (λ l. l ≤ℤ none) len.now }
    ensures { IfOk result (Shows (graph_of g.now) (at (pos 0) len.now)) }
{
    let nodes = g.node_count() as usize;
    let paces = 2 * g.arc_count();
    let lens = shifted_lengths(alloc, len)?;
    let mut dist = vec![in alloc; 1152921504606846976u64; nodes]?;
    let mut via = vec![in alloc; paces; nodes]?;
    search(
        alloc,
        g,
        lens.as_slice(),
        dist.as_mut_slice(),
        via.as_mut_slice(),
    )
}

/// The search over lengths without a sign.
fn search(
    alloc: Global,
    g: &Fixed,
    lens: &[u64],
    dist: &mut [u64],
    via: &mut [u32],
) -> Result<CycleSearch, AllocError>
    requires all { length lens.now ≡ 2 * (graph_of g.now).arcs }
    requires paced { IsPaced (graph_of g.now) (length lens.now) }
    requires ends { EndsAreNodes (graph_of g.now) }
    requires dists { length dist.old ≡ (graph_of g.now).nodes }
    requires vias { length via.old ≡ (graph_of g.now).nodes }
    requires short { All (λ l. l ≤ 2 ^ 63) lens.now }
    requires from_0 { All (λ d. d ≡ origin) dist.old }
    requires none { All (λ k. length lens.now ≤ k) via.old }
    ensures { IfOk result (λ found. (len : List ℤ) → AreShifted len lens.now
        → Shows (graph_of g.now) (at (pos 0) len) found) }
{
    match settle(alloc, g, lens, dist, via)? {
        Some(round) => Ok(CycleSearch::Cycle(round)),
        None => Ok(CycleSearch::Potential(signed_distances(alloc, dist)?)),
    }
}
