//! A largest flow in the slices of the engine.

ghost use Rattle.std.specs.Prelude.{◌≡◌, ◌≢◌, ◌<◌, ◌≤◌, ◌^◌, All, IfOk, length};
ghost use Rattle.static_digraph.specs.Fixed.{graph_of};
ghost use Rattle.flow_rows.specs.Network.{IsNetwork};
ghost use Rattle.flow_preflow.specs.Answers.{IsFound};

use flow_rows::Network;
use push_flow::find_cut;
use static_digraph::Fixed;
use std::alloc::{AllocError, Global};

/// The flow of each arc, and heights: the nodes at the number of nodes are the cut's side.
#[derive(Drop)]
pub struct Found {
    pub flow: Vec<u64>,
    pub side: Vec<u32>,
}

/// Room to work in for each node, and a largest flow in it.
pub fn find(
    alloc: Global,
    g: &Fixed,
    net: &Network,
    cap: &[u64],
    s: u32,
    t: u32,
) -> Result<Found, AllocError>
    requires network { IsNetwork (graph_of g.now) net.now.ends.items net.now.start.items
        net.now.row.items }
    requires caps { length cap.now ≡ (graph_of g.now).arcs }
    requires high { All (λ c. c ≤ 2 ^ 36) cap.now }
    requires nodes { (s < (graph_of g.now).nodes) × (t < (graph_of g.now).nodes) × (s ≢ t) }
    ensures { IfOk result
        (λ found. IsFound (graph_of g.now) cap.now s t found.flow.items found.side.items) }
{
    let nodes = g.node_count() as usize;
    let _ = g.arc_count();
    let mut flow = vec![in alloc; 0u64; cap.len()]?;
    let mut excess = vec![in alloc; 0u64; nodes]?;
    let mut want = vec![in alloc; 0u64; nodes]?;
    let mut before = vec![in alloc; 0u32; nodes]?;
    let mut height = vec![in alloc; 0u32; nodes]?;
    let mut queue = vec![in alloc; 0u32; nodes]?;
    let mut ring = vec![in alloc; 0u32; nodes]?;
    let mut side = vec![in alloc; 0u32; nodes]?;
    let none = vec![in alloc; 0u64; nodes]?;
    let low = vec![in alloc; 0u32; nodes]?;
    find_cut(
        &net.ends,
        cap,
        &mut flow,
        &net.start,
        &net.row,
        &mut excess,
        &mut want,
        &mut before,
        &mut height,
        &mut queue,
        &mut ring,
        &mut side,
        &none,
        &low,
        s,
        t,
    );
    Ok(Found { flow, side })
}
