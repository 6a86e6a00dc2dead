//! Layers with the lists that their tower must show, and the example that they are tried on.

use crate::columns::{Columns, have_maps};
use crate::listing::{listed, pulled};
use base_items::{ItemSort, Node};
use digraph_text::is_live;
use list_digraph::ListDigraph;
use std::alloc::{AllocError, Global};
use std::process::Abort;
use view_tower::{Layer, tower};

/// The nodes and arcs that pass the filters.
pub const SUB: Layer = Layer::Sub {
    nodes: Some(1),
    arcs: Some(1),
};

/// The arcs on which the flow may grow.
pub const RESIDUAL: Layer = Layer::Residual { cap: 0, flow: 2 };

/// Some layers, the bottom layer first, and what their tower shows: all nodes with the arcs at
/// each, and all arcs with what they pull. Each text is cut into lines.
pub struct Row {
    pub layers: &'static [Layer],
    pub nodes: &'static [&'static str],
    pub arcs: &'static [&'static str],
}

// Adds an arc where both nodes are live.
fn add_arc(graph: &mut ListDigraph, from: u32, to: u32) {
    if is_live(graph, ItemSort::Node, from) && is_live(graph, ItemSort::Node, to) {
        let _ = graph.add_arc(Node(from), Node(to)).ok();
    }
}

// Three nodes and four arcs: two side by side, one on from their end, and a loop at its end.
fn example(alloc: Global) -> ListDigraph {
    let mut graph = ListDigraph::new(alloc);
    for _ in 0..3 {
        let _ = graph.add_node().ok();
    }
    add_arc(&mut graph, 0, 1);
    add_arc(&mut graph, 1, 2);
    add_arc(&mut graph, 2, 2);
    add_arc(&mut graph, 0, 1);
    graph
}

// The lines as one text.
fn joined(alloc: Global, lines: &[&'static str]) -> Result<String, AllocError> {
    let mut text = String::new(alloc);
    for line in lines {
        text.push_str(line)?;
    }
    Ok(text)
}

/// Tries each row over the example.
pub fn try_rows(rt: &impl Abort, alloc: Global, rows: &[Row]) -> Result<(), AllocError> {
    let graph = example(alloc);
    let columns = Columns;
    for row in rows {
        if row.layers.len() > 8 || !have_maps(row.layers) {
            panic!(rt; "no tower has these layers: {:?}", row.layers);
        }
        let tower = tower(&graph, row.layers, &columns);
        let nodes = listed(alloc, &tower)?;
        let arcs = pulled(alloc, &tower, 64)?;
        assert_eq!(rt;
            nodes.as_str(),
            joined(alloc, row.nodes)?.as_str(),
            "nodes of {:?}",
            row.layers
        );
        assert_eq!(rt;
            arcs.as_str(),
            joined(alloc, row.arcs)?.as_str(),
            "arcs of {:?}",
            row.layers
        );
    }
    Ok(())
}
