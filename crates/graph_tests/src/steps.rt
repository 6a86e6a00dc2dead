//! Steps on a digraph by ids, and the same steps undone.

ghost use Rattle.std.specs.Prelude.{◌≡◌, true};
ghost use Rattle.plain_digraph.specs.Items as items;
ghost use Rattle.plain_digraph.specs.ValidLaws as laws;

use crate::undone::{
    add_arc_and_back, add_node_and_back, move_and_place, move_from_and_back, move_to_and_back,
    turn_and_back,
};
use base_items::{Arc, Fact, ItemSort, Node};
use digraph_text::is_live;
use list_digraph::ListDigraph;

/// A step on a digraph, whose items are named by their ids.
#[derive(Clone, Copy, Debug)]
pub enum Step {
    AddNode,
    AddArc(u32, u32),
    EraseArc(u32),
    EraseNode(u32),
    MoveFrom(u32, u32),
    MoveTo(u32, u32),
    Turn(u32),
    Clear,
    /// An addition that is taken back, or a move after which the arc is put back.
    AddNodeAndBack,
    AddArcAndBack(u32, u32),
    MoveFromAndBack(u32, u32),
    MoveToAndBack(u32, u32),
    TurnAndBack(u32),
    /// A move of the source, after which the arc is placed by its fact from before.
    MoveAndPlace(u32, u32),
}

// Whether the node is an end of no arc.
fn is_bare(graph: &ListDigraph, node: Node) -> bool
    requires { items.IsLive graph.now.graph ItemSort.Node node.0 }
    ensures { result ≡ true → laws.HasNoArc graph.now.graph node.0 }
{
    graph.first_out(node).is_none() && graph.first_in(node).is_none()
}

/// Takes the step, and answers the fact that it tells of a new or moved item. None where it can't
/// be taken.
pub fn take(graph: &mut ListDigraph, step: Step) -> Option<Option<Fact>> {
    match step {
        Step::AddNode => Some(Some(graph.add_node().ok()?)),
        Step::AddArc(from, to) => add_arc(graph, from, to),
        Step::EraseArc(arc) => erase_arc(graph, arc),
        Step::EraseNode(node) => erase_node(graph, node),
        Step::MoveFrom(arc, node) => move_from(graph, arc, node),
        Step::MoveTo(arc, node) => move_to(graph, arc, node),
        Step::Turn(arc) => turn(graph, arc),
        Step::Clear => {
            graph.clear();
            Some(None)
        }
        Step::AddNodeAndBack => Some(Some(add_node_and_back(graph)?)),
        Step::AddArcAndBack(from, to) => Some(Some(add_arc_and_back(graph, from, to)?)),
        Step::MoveFromAndBack(arc, node) => Some(Some(move_from_and_back(graph, arc, node)?)),
        Step::MoveToAndBack(arc, node) => Some(Some(move_to_and_back(graph, arc, node)?)),
        Step::TurnAndBack(arc) => Some(Some(turn_and_back(graph, arc)?)),
        Step::MoveAndPlace(arc, node) => Some(Some(move_and_place(graph, arc, node)?)),
    }
}

// Adds an arc where both nodes are live.
fn add_arc(graph: &mut ListDigraph, from: u32, to: u32) -> Option<Option<Fact>> {
    if !is_live(graph, ItemSort::Node, from) || !is_live(graph, ItemSort::Node, to) {
        return None;
    }
    Some(Some(graph.add_arc(Node(from), Node(to)).ok()?))
}

// Erases the arc where it is live.
fn erase_arc(graph: &mut ListDigraph, arc: u32) -> Option<Option<Fact>> {
    if !is_live(graph, ItemSort::Arc, arc) {
        return None;
    }
    graph.erase_arc(Arc(arc));
    Some(None)
}

// Erases the node where it is live and has no arc.
fn erase_node(graph: &mut ListDigraph, node: u32) -> Option<Option<Fact>> {
    if !is_live(graph, ItemSort::Node, node) || !is_bare(graph, Node(node)) {
        return None;
    }
    graph.erase_node(Node(node));
    Some(None)
}

// Moves the source where both items are live and a stamp is left.
fn move_from(graph: &mut ListDigraph, arc: u32, node: u32) -> Option<Option<Fact>> {
    if !can_move(graph, arc, node) {
        return None;
    }
    Some(Some(graph.move_from(Arc(arc), Node(node))))
}

// Moves the target where both items are live and a stamp is left.
fn move_to(graph: &mut ListDigraph, arc: u32, node: u32) -> Option<Option<Fact>> {
    if !can_move(graph, arc, node) {
        return None;
    }
    Some(Some(graph.move_to(Arc(arc), Node(node))))
}

// Turns the arc where it is live and a stamp is left.
fn turn(graph: &mut ListDigraph, arc: u32) -> Option<Option<Fact>> {
    if !is_live(graph, ItemSort::Arc, arc) || graph.stamps_left() == 0 {
        return None;
    }
    Some(Some(graph.turn(Arc(arc))))
}

/// Whether an end of the arc can be moved to the node: both are live, and a stamp is left.
pub fn can_move(graph: &ListDigraph, arc: u32, node: u32) -> bool
    ensures arc { result ≡ true → items.IsLive graph.now.graph ItemSort.Arc arc }
    ensures node { result ≡ true → items.IsLive graph.now.graph ItemSort.Node node }
    ensures left { result ≡ true → laws.HasStampLeft graph.now.graph }
{
    is_live(graph, ItemSort::Arc, arc)
        && is_live(graph, ItemSort::Node, node)
        && graph.stamps_left() > 0
}
