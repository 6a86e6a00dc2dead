//! Steps that are undone again, so that the digraph is as before.

ghost use Rattle.std.specs.Prelude.{◌≡◌};

use crate::steps::can_move;
use base_items::{Arc, Fact, ItemSort, Node};
use digraph_text::is_live;
use list_digraph::ListDigraph;

/// Adds a node, tells its fact, and takes it back.
pub fn add_node_and_back(graph: &mut ListDigraph) -> Option<Fact>
    ensures same { graph.new.graph ≡ graph.old.graph }
{
    let count = graph.count(ItemSort::Node);
    let used = graph.used(ItemSort::Node);
    let Ok(fact) = graph.add_node() else {
        return None;
    };
    graph.take_back(ItemSort::Node, fact, used);
    Some(fact)
}

/// Adds an arc between two live nodes, tells its fact, and takes it back.
pub fn add_arc_and_back(graph: &mut ListDigraph, from: u32, to: u32) -> Option<Fact>
    ensures same { graph.new.graph ≡ graph.old.graph }
{
    if !is_live(graph, ItemSort::Node, from) || !is_live(graph, ItemSort::Node, to) {
        return None;
    }
    let count = graph.count(ItemSort::Arc);
    let used = graph.used(ItemSort::Arc);
    let Ok(fact) = graph.add_arc(Node(from), Node(to)) else {
        return None;
    };
    graph.take_back(ItemSort::Arc, fact, used);
    Some(fact)
}

/// Moves the source of an arc, tells the new fact, and puts the arc back.
pub fn move_from_and_back(graph: &mut ListDigraph, arc: u32, node: u32) -> Option<Fact>
    ensures same { graph.new.graph ≡ graph.old.graph }
{
    if !can_move(graph, arc, node) {
        return None;
    }
    let count = graph.count(ItemSort::Arc);
    let old = graph.fact(ItemSort::Arc, arc)?;
    let new = graph.move_from(Arc(arc), Node(node));
    graph.put_back(old);
    Some(new)
}

/// Moves the target of an arc, tells the new fact, and puts the arc back.
pub fn move_to_and_back(graph: &mut ListDigraph, arc: u32, node: u32) -> Option<Fact>
    ensures same { graph.new.graph ≡ graph.old.graph }
{
    if !can_move(graph, arc, node) {
        return None;
    }
    let count = graph.count(ItemSort::Arc);
    let old = graph.fact(ItemSort::Arc, arc)?;
    let new = graph.move_to(Arc(arc), Node(node));
    graph.put_back(old);
    Some(new)
}

/// Turns an arc, tells the new fact, and puts the arc back.
pub fn turn_and_back(graph: &mut ListDigraph, arc: u32) -> Option<Fact>
    ensures same { graph.new.graph ≡ graph.old.graph }
{
    if !is_live(graph, ItemSort::Arc, arc) || graph.stamps_left() == 0 {
        return None;
    }
    let count = graph.count(ItemSort::Arc);
    let old = graph.fact(ItemSort::Arc, arc)?;
    let new = graph.turn(Arc(arc));
    graph.put_back(old);
    Some(new)
}

/// Moves the source of an arc, and then places the arc by its fact from before. Tells the fact that
/// the placing found.
pub fn move_and_place(graph: &mut ListDigraph, arc: u32, node: u32) -> Option<Fact> {
    if !can_move(graph, arc, node) {
        return None;
    }
    let count = graph.count(ItemSort::Arc);
    let old = graph.fact(ItemSort::Arc, arc)?;
    graph.move_from(Arc(arc), Node(node));
    if graph.stamps_left() == 0 {
        return None;
    }
    let later = graph.count(ItemSort::Arc);
    Some(graph.place(old))
}
