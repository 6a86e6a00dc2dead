//! Shortest paths where no length is below 0: nodes are settled one after the other, the nearest
//! first.

ghost use Rattle.std.specs.Prelude.{◌≡◌, ◌+◌, ◌<◌, ◌≤◌, ◌^◌, pos, ◌≤ℤ◌, length, All, OnOk};
ghost use Rattle.std.specs.Prelude.{IfOk};
ghost use Rattle.std.specs.BinaryHeap.{heap_items};
ghost use Rattle.plain_certificates.specs.Tables.{at};
ghost use Rattle.static_digraph.specs.Fixed.{graph_of};
ghost use Rattle.path_search.specs.Queue.{entries_of};
ghost use Rattle.pace_search.specs.Climbs.{open_count};
ghost use Rattle.pace_search.specs.Rounds.{AreSized};
ghost use Rattle.path_search.specs.Search.{IsSearch, IsFound, Settled};
ghost use Rattle.path_search.specs.Steps.{Expands};
ghost use Rattle.path_search.specs.Answers.{IsAnswer};

use crate::lengths::unsigned_lengths;
use crate::paths::{Paths, paths_of};
use crate::queue::Queue;
use pace_search::FAR;
use static_digraph::Fixed;
use std::alloc::{AllocError, Global};

/// Relaxes the arcs from u, which was settled last, at the distance `near`.
fn expand(
    g: &Fixed,
    len: &[u64],
    u: u32,
    near: u64,
    dist: &mut [u64],
    via: &mut [u32],
    queue: &mut Queue,
) -> Result<(), AllocError>
    requires node { u < (graph_of g.now).nodes }
    requires sizes { AreSized (graph_of g.now) len.now dist.old via.old }
    requires short { All (λ l. l ≤ 2 ^ 36) len.now }
    requires near { near < 2 ^ 57 }
    ensures search { OnOk result (Expands (graph_of g.now) (at 0 len.now) u near
        (at 0 dist.old) (at 0 via.old) (entries_of (heap_items queue.old.heap))
        (at 0 dist.new) (at 0 via.new) (entries_of (heap_items queue.new.heap))) }
    ensures grows { OnOk result (length (entries_of (heap_items queue.new.heap))
        ≤ length (entries_of (heap_items queue.old.heap)) + (graph_of g.now).arcs) }
{
    let row = g.out_row(u);
    for arc in row {
        let (_, v) = g.ends(*arc);
        let next = near + len[*arc as usize];
        if next < dist[v as usize] {
            dist[v as usize] = next;
            via[v as usize] = *arc;
            queue.push(next, v)?;
        }
    }
    Ok(())
}

/// Settles node after node, the nearest first, until nothing is queued.
fn search(
    g: &Fixed,
    len: &[u64],
    s: u32,
    turn: &mut [u32],
    dist: &mut [u64],
    via: &mut [u32],
    queue: &mut Queue,
) -> Result<(), AllocError>
    requires sizes { AreSized (graph_of g.now) len.now dist.old via.old }
    requires nodes { (graph_of g.now).nodes ≤ 1048576 }
    requires arcs { (graph_of g.now).arcs ≤ 4194304 }
    requires turns { length turn.old ≡ (graph_of g.now).nodes }
    requires short { All (λ l. l ≤ 2 ^ 36) len.now }
    requires begun { IsSearch (graph_of g.now) (at 0 len.now) s
        (Settled (graph_of g.now) (at 0 turn.old)) (at 0 dist.old) (at 0 via.old) (at 0 turn.old)
        0 0 0 (entries_of (heap_items queue.old.heap)) }
    requires open { open_count turn.old ≡ (graph_of g.now).nodes }
    ensures { OnOk result (IsFound (graph_of g.now) (at 0 len.now) s
        (at 0 dist.new) (at 0 via.new) (at 0 turn.new)) }
{
    let mut count: u32 = 0;
    while let Some((key, u)) = queue.pop() {
        if turn[u as usize] == 0 {
            count += 1;
            turn[u as usize] = count;
            expand(g, len, u, key, dist, via, queue)?;
        }
    }
    Ok(())
}

/// Shortest paths from s, where no length is below 0.
///
/// The distance of a node is the least length of a walk from s, and None exactly where there is
/// none; the last arcs form a tree of tight arcs from s.
pub fn dijkstra(alloc: Global, g: &Fixed, len: &[i64], s: u32) -> Result<Paths, AllocError>
    requires lengths { length len.now ≡ (graph_of g.now).arcs }
    requires low { All (λ l. pos 0 ≤ℤ l) len.now }
    requires high { All (λ l. l ≤ℤ pos (2 ^ 36)) len.now }
    requires start { s < (graph_of g.now).nodes }
    ensures { IfOk result (λ paths. IsAnswer (graph_of g.now) len.now s paths.dist paths.via) }
{
    let nodes = g.node_count() as usize;
    let _ = g.arc_count();
    let lens = unsigned_lengths(alloc, len)?;
    let mut dist = vec![in alloc; FAR; nodes]?;
    let mut via = vec![in alloc; 0u32; nodes]?;
    let mut turn = vec![in alloc; 0u32; nodes]?;
    let mut queue = Queue::new(alloc);
    dist[s as usize] = 0;
    queue.push(0, s)?;
    search(g, &lens, s, &mut turn, &mut dist, &mut via, &mut queue)?;
    paths_of(alloc, &dist, &via, s)
}
