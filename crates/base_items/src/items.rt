//! Nodes and arcs, by their ids, and what an observer is told of one of them.

/// A node of a digraph, by its id, which is below [`MAX_NODES`](crate::MAX_NODES).
#[derive(Clone, Copy, Debug, PartialEq, Eq, PartialOrd, Ord, Hash)]
pub struct Node(pub u32);

/// An arc of a digraph, by its id, which is below [`MAX_ARCS`](crate::MAX_ARCS).
#[derive(Clone, Copy, Debug, PartialEq, Eq, PartialOrd, Ord, Hash)]
pub struct Arc(pub u32);

/// The two sorts of items.
#[derive(Clone, Copy, Debug, PartialEq, Eq)]
pub enum ItemSort {
    Node,
    Arc,
}

/// What is told of an item: its id, its ends, and its stamps in the lists by source and by target.
/// A larger stamp stands further in front. A node is both of its own ends, and its stamp stands twice.
#[derive(Clone, Copy, Debug, PartialEq, Eq)]
pub struct Fact {
    pub id: u32,
    pub from: u32,
    pub to: u32,
    pub from_at: u64,
    pub to_at: u64,
}
