//! The arcs at each node, with their other ends.

ghost use Rattle.std.specs.Prelude.{◌≡◌, ◌+◌, ◌<◌, ◌≤◌, ◌++◌, IfOk, length, take};
ghost use Rattle.static_digraph.specs.Fixed.{graph_of};
ghost use Rattle.flow_rows.specs.Laid.{ends_list, out_spokes, in_spokes};
ghost use Rattle.flow_rows.specs.Network.{IsNetwork};

use push_flow::{Ends, Spoke};
use static_digraph::Fixed;
use std::alloc::{AllocError, Global};

/// The ends of each arc, and for each node the arcs at it: `row` from `start` of the node to
/// `start` of the next. An arc from a node to itself is there twice.
#[derive(Drop)]
pub struct Network {
    pub ends: Vec<Ends>,
    pub start: Vec<u32>,
    pub row: Vec<Spoke>,
}

/// The ends of each arc.
fn all_ends(alloc: Global, g: &Fixed) -> Result<Vec<Ends>, AllocError>
    ensures { IfOk result (λ ends. ends.items ≡ ends_list (graph_of g.now)) }
{
    let arcs = g.arc_count();
    let mut ends = vec![in alloc; Ends { from: 0, to: 0 }; arcs as usize]?;
    let mut arc = 0;
    while arc < arcs {
        let (from, to) = g.ends(arc);
        ends[arc as usize] = Ends { from, to };
        arc += 1;
    }
    Ok(ends)
}

/// Lays down the arcs from a node, each with its target, from a place of the row on. The place
/// behind them.
fn lay_out(g: &Fixed, node: u32, row: &mut Vec<Spoke>, place: usize) -> usize
    requires node { node < (graph_of g.now).nodes }
    requires room { place + length (out_spokes (graph_of g.now) node) ≤ length row.old.items }
    ensures place { result ≡ place + length (out_spokes (graph_of g.now) node) }
    ensures long { length row.new.items ≡ length row.old.items }
    ensures laid { take result row.new.items
        ≡ take place row.old.items ++ out_spokes (graph_of g.now) node }
{
    let arcs = g.out_row(node);
    let mut next = place;
    for arc in arcs {
        let (_, far) = g.ends(*arc);
        row[next] = Spoke { arc: *arc, far };
        next += 1;
    }
    next
}

/// Lays down the arcs to a node, each with its source, from a place of the row on. The place behind
/// them.
fn lay_in(g: &Fixed, node: u32, row: &mut Vec<Spoke>, place: usize) -> usize
    requires node { node < (graph_of g.now).nodes }
    requires room { place + length (in_spokes (graph_of g.now) node) ≤ length row.old.items }
    ensures place { result ≡ place + length (in_spokes (graph_of g.now) node) }
    ensures long { length row.new.items ≡ length row.old.items }
    ensures laid { take result row.new.items
        ≡ take place row.old.items ++ in_spokes (graph_of g.now) node }
{
    let arcs = g.in_row(node);
    let mut next = place;
    for arc in arcs {
        let (far, _) = g.ends(*arc);
        row[next] = Spoke { arc: *arc, far };
        next += 1;
    }
    next
}

/// The digraph as the engine reads it.
pub fn network_of(alloc: Global, g: &Fixed) -> Result<Network, AllocError>
    ensures { IfOk result
        (λ net. IsNetwork (graph_of g.now) net.ends.items net.start.items net.row.items) }
{
    let ends = all_ends(alloc, g)?;
    let _ = g.arc_count();
    let nodes = g.node_count();
    let mut start = Vec::with_capacity(alloc, nodes as usize + 1)?;
    let mut row = vec![in alloc; Spoke { arc: 0, far: 0 }; 2 * ends.len()]?;
    let mut place = 0;
    let mut node = 0;
    while node < nodes {
        start.push(place as u32)?;
        place = lay_out(g, node, &mut row, place);
        place = lay_in(g, node, &mut row, place);
        node += 1;
    }
    start.push(place as u32)?;
    row.truncate(place);
    Ok(Network { ends, start, row })
}
