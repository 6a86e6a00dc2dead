//! The nodes and the arcs of a view in lists.

ghost use Rattle.std.specs.Prelude.{◌≡◌, ◌≤◌, IfOk, IfErr, OnOk, length};
ghost use Rattle.view_numbers.specs.Listed.{facts_of, IsFullOfNodes, IsFullOfArcs};

use crate::fault::NumberFault;
use base_items::{Fact, Limit, MAX_ARCS, MAX_NODES, Node};
use std::alloc::Global;
use view_core::Shown;

/// The nodes in order.
pub fn list_nodes<G: Shown>(alloc: Global, g: &G) -> Result<Vec<u32>, NumberFault>
    ensures nodes { IfOk result (λ nodes. nodes.items ≡ (G.graph g.now).nodes) }
    ensures few { OnOk result (length (G.graph g.now).nodes ≤ 1048576) }
    ensures full { IfErr result (IsFullOfNodes (G.graph g.now)) }
{
    let mut nodes = Vec::new(alloc);
    let mut next = g.first_node();
    while let Some(n) = next {
        if nodes.len() == MAX_NODES as usize {
            return Err(NumberFault::Full(Limit::Nodes));
        }
        nodes.push(n.0)?;
        next = g.next_node(n);
    }
    Ok(nodes)
}

/// The arcs in order: for each of the nodes in turn the arcs from it.
pub fn list_arcs<G: Shown>(alloc: Global, g: &G, nodes: &[u32]) -> Result<Vec<Fact>, NumberFault>
    requires { nodes.now ≡ (G.graph g.now).nodes }
    ensures arcs { IfOk result (λ arcs. arcs.items ≡ facts_of (G.graph g.now)) }
    ensures few { OnOk result (length (facts_of (G.graph g.now)) ≤ 4194304) }
    ensures full { IfErr result (IsFullOfArcs (G.graph g.now)) }
{
    let mut arcs = Vec::new(alloc);
    for node in nodes {
        let mut next = g.first_out(Node(*node));
        while let Some(a) = next {
            if arcs.len() == MAX_ARCS as usize {
                return Err(NumberFault::Full(Limit::Arcs));
            }
            let (from, to) = g.ends(a);
            arcs.push(Fact {
                id: a.0,
                from: from.0,
                to: to.0,
                from_at: 0,
                to_at: 0,
            })?;
            next = g.next_out(a);
        }
    }
    Ok(arcs)
}
