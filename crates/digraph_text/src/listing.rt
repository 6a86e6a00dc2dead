//! All lists of a digraph, read by its walks, as a text.

ghost use Rattle.plain_digraph.specs.Items as items;

use crate::live::is_live;
use base_items::{Arc, ItemSort, MAX_STAMP, Node};
use list_digraph::ListDigraph;
use std::alloc::{AllocError, Global};
use std::fmt::Write;

/// The nodes in their order, each with the arcs from it behind `>` and the arcs to it behind `<`;
/// then how many ids of nodes, ids of arcs and stamps were used. As
/// `1 >3 2 <2; 0 > <3; ids 2 4, stamps 9`.
pub fn listed(alloc: Global, graph: &ListDigraph) -> Result<String, AllocError> {
    let mut text = String::new(alloc);
    let mut next = graph.first_node();
    for _ in 0..graph.count(ItemSort::Node) {
        let Some(node) = next else {
            break;
        };
        if !is_live(graph, ItemSort::Node, node.0) {
            break;
        }
        write!(text, "{} >", node.0)?;
        push_outs(&mut text, graph, node)?;
        text.push_str(" <")?;
        push_ins(&mut text, graph, node)?;
        text.push_str("; ")?;
        next = graph.next_node(node);
    }
    if next.is_some() {
        text.push_str("more; ")?;
    }
    let nodes = graph.used(ItemSort::Node);
    let arcs = graph.used(ItemSort::Arc);
    let stamps = MAX_STAMP - graph.stamps_left();
    write!(text, "ids {nodes} {arcs}, stamps {stamps}")?;
    Ok(text)
}

// The arcs from the node, each behind the first with a blank before it.
fn push_outs(text: &mut String, graph: &ListDigraph, node: Node) -> Result<(), AllocError>
    requires { items.IsLive graph.now.graph ItemSort.Node node.0 }
{
    let mut next = graph.first_out(node);
    for place in 0..graph.count(ItemSort::Arc) {
        let Some(arc) = next else {
            return Ok(());
        };
        if !is_live(graph, ItemSort::Arc, arc.0) {
            return Ok(());
        }
        push_id(text, place, arc)?;
        next = graph.next_out(arc);
    }
    push_end(text, next)
}

// The arcs to the node.
fn push_ins(text: &mut String, graph: &ListDigraph, node: Node) -> Result<(), AllocError>
    requires { items.IsLive graph.now.graph ItemSort.Node node.0 }
{
    let mut next = graph.first_in(node);
    for place in 0..graph.count(ItemSort::Arc) {
        let Some(arc) = next else {
            return Ok(());
        };
        if !is_live(graph, ItemSort::Arc, arc.0) {
            return Ok(());
        }
        push_id(text, place, arc)?;
        next = graph.next_in(arc);
    }
    push_end(text, next)
}

// The id at this place of a list, with a blank before each but the first.
fn push_id(text: &mut String, place: u32, arc: Arc) -> Result<(), AllocError> {
    if place > 0 {
        text.push_str(" ")?;
    }
    write!(text, "{}", arc.0)
}

// A word where the walk goes on past all arcs.
fn push_end(text: &mut String, next: Option<Arc>) -> Result<(), AllocError> {
    if next.is_some() {
        text.push_str(" more")?;
    }
    Ok(())
}
