//! Rounds of last paces: from each node one follows the last paces until they end, come to a node
//! that was passed before, or close up.

ghost use Rattle.std.specs.Prelude.{◌≡◌, ◌+◌, ◌<◌, [], IfOk};
ghost use Rattle.std.specs.Option.{option_map};
ghost use Rattle.plain_certificates.specs.Tables.{at};
ghost use Rattle.static_digraph.specs.Fixed.{graph_of};
ghost use Rattle.pace_search.specs.Climbs.{IsMarked, ClimbEnds, IsTreeOf, FindsRound};
ghost use Rattle.pace_search.specs.Paces.{pace_graph};
ghost use Rattle.pace_search.specs.Runs.{IsPaced};
ghost use Rattle.pace_search.specs.Tree.{far};

use crate::engine::FAR;
use crate::paces::pace_ends;
use crate::turns::least_first;
use static_digraph::Fixed;
use std::alloc::{AllocError, Global};

/// Follows the last paces from a node and lays them down, until there is none or they lead to a
/// node that was passed. The place on the path from which they close up, if they do.
///
/// Last paces are below `count`. Nodes are marked by how many were passed before them, and one.
fn climb(
    g: &Fixed,
    count: u32,
    dist: &[u64],
    via: &[u32],
    start: u32,
    mark: &mut [u32],
    base: u32,
    path: &mut Vec<u32>,
) -> Result<Option<usize>, AllocError>
    requires paced { IsPaced (graph_of g.now) count }
    requires tree { IsTreeOf (pace_graph (graph_of g.now) count) dist.now via.now }
    requires start { start < (graph_of g.now).nodes }
    requires near { at 0 dist.now start < far }
    requires marked { IsMarked (pace_graph (graph_of g.now) count) (at 0 dist.now) (at 0 via.now)
        mark.old base }
    requires empty { path.old.items ≡ [] }
    ensures { IfOk result (ClimbEnds (pace_graph (graph_of g.now) count) (at 0 dist.now)
        (at 0 via.now) mark.new path.new.items base start) }
{
    let mut node = start;
    while via[node as usize] < count {
        let seen = mark[node as usize];
        if seen > base {
            return Ok(Some((seen - base) as usize - 1));
        }
        if seen > 0 {
            return Ok(None);
        }
        path.push(via[node as usize])?;
        mark[node as usize] = base + path.len() as u32;
        let (from, _) = pace_ends(g, via[node as usize]);
        node = from;
    }
    Ok(None)
}

/// Last paces that close up, from the least one on; None where each node's lead back to one that
/// has none.
pub fn find_round(
    alloc: Global,
    g: &Fixed,
    count: u32,
    dist: &[u64],
    via: &[u32],
) -> Result<Option<Vec<u32>>, AllocError>
    requires paced { IsPaced (graph_of g.now) count }
    requires tree { IsTreeOf (pace_graph (graph_of g.now) count) dist.now via.now }
    ensures { IfOk result (λ found. FindsRound (pace_graph (graph_of g.now) count)
        (at 0 dist.now) (at 0 via.now) (option_map (λ round. round.items) found)) }
{
    let mut mark = vec![in alloc; 0u32; dist.len()]?;
    let mut path = Vec::new(alloc);
    let mut base: u32 = 0;
    let mut node: u32 = 0;
    while (node as usize) < dist.len() {
        if dist[node as usize] < FAR {
            path.clear();
            match climb(g, count, dist, via, node, &mut mark, base, &mut path)? {
                Some(place) => {
                    let mut round = Vec::with_capacity(alloc, path.len() - place)?;
                    round.extend_from_slice(&path[place..])?;
                    round.reverse();
                    return Ok(Some(least_first(alloc, round.as_slice())?));
                }
                None => base += path.len() as u32,
            }
        }
        node += 1;
    }
    Ok(None)
}
