//! The live items of a digraph in their orders.

ghost use Rattle.std.specs.Prelude.{◌≡◌, ◌++◌, IfOk, OnOk};
ghost use Rattle.plain_digraph.specs.Items as items;
ghost use Rattle.plain_digraph.specs.Valid.{IsValid};

use base_items::{ItemSort, Node};
use list_digraph::ListDigraph;
use std::alloc::{AllocError, Global};

/// The ids of the nodes, the newest first.
pub fn node_order(alloc: Global, graph: &ListDigraph) -> Result<Vec<u32>, AllocError>
    ensures { IfOk result (λ nodes. nodes.items ≡ items.ids graph.now.graph.nodes) }
{
    let mut nodes = Vec::new(alloc);
    let count = graph.count(ItemSort::Node);
    let mut next = graph.first_node();
    'nodes: while let Some(node) = next {
        nodes.push(node.0)?;
        next = graph.next_node(node);
    }
    Ok(nodes)
}

/// The ids of the arcs, for each node in turn those from it, the newest first.
pub fn arc_order(alloc: Global, graph: &ListDigraph) -> Result<Vec<u32>, AllocError>
    ensures { IfOk result (λ arcs. arcs.items ≡ items.all_arcs graph.now.graph) }
{
    let mut arcs = Vec::new(alloc);
    let count = graph.count(ItemSort::Arc);
    let nodes = node_order(alloc, graph)?;
    for node in nodes.as_slice() {
        push_out_arcs(&mut arcs, graph, *node)?;
    }
    Ok(arcs)
}

// Puts the arcs from the node behind the others.
fn push_out_arcs(arcs: &mut Vec<u32>, graph: &ListDigraph, node: u32) -> Result<(), AllocError>
    requires valid { IsValid graph.now.graph }
    requires live { items.IsLive graph.now.graph ItemSort.Node node }
    ensures { OnOk result (arcs.new.items ≡ arcs.old.items ++ items.out_arcs graph.now.graph node) }
{
    let mut next = graph.first_out(Node(node));
    'arcs: while let Some(arc) = next {
        arcs.push(arc.0)?;
        next = graph.next_out(arc);
    }
    Ok(())
}
