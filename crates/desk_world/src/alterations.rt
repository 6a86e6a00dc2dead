//! Alterations of a digraph, by the ids of its items.

use base_items::{Arc, Node};

/// An alteration that makes no item, by ids.
#[derive(Clone, Copy)]
pub enum Edit {
    EraseNode(Node),
    EraseArc(Arc),
    Clear,
    /// The arc goes from this node.
    MoveFrom(Arc, Node),
    /// It goes to this node.
    MoveTo(Arc, Node),
    Turn(Arc),
    /// The second node goes into the first; whether loops stay.
    Contract(Node, Node, bool),
}

/// A split that makes a node and an arc, by the id of what is split.
#[derive(Clone, Copy)]
pub enum Split {
    Node(Node),
    Arc(Arc),
}
