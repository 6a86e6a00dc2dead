//! What a command answers.

use base_items::{ItemSort, List};
use token_text::Text;

/// A node in a listing: its id, which is below [`MAX_NODES`](base_items::MAX_NODES) at the base,
/// and its name.
#[derive(Drop)]
pub struct NodeLine {
    pub id: u32,
    pub name: Text,
}

/// An arc in a listing: its id, its name and the names of its ends.
#[derive(Drop)]
pub struct ArcLine {
    pub id: u32,
    pub name: Text,
    pub from: Text,
    pub to: Text,
}

/// The flow on an arc. An arc without flow has no line.
#[derive(Drop)]
pub struct FlowLine {
    pub arc: Text,
    pub flow: i64,
}

/// A node with its potential, or with its dual in a weighted pairing.
#[derive(Drop)]
pub struct PotentialLine {
    pub node: Text,
    pub pi: i64,
}

/// A node with its potential beside a cycle of least mean; such potentials stay below 2^116 in
/// magnitude.
#[derive(Drop)]
pub struct MeanLine {
    pub node: Text,
    pub pi: i128,
}

/// A pair: the arc that joins it, and its two nodes.
#[derive(Drop)]
pub struct PairLine {
    pub arc: Text,
    pub left: Text,
    pub right: Text,
}

/// A node as shortest paths reach it.
#[derive(Drop)]
pub enum PathLine {
    /// Its distance from the start, and the last arc on a shortest path to it, which the start
    /// lacks.
    Reached {
        node: Text,
        dist: i64,
        arc: Option<Text>,
    },
    /// There is no path to it.
    Unreached {
        node: Text,
    },
}

/// The kind of a guard, and the numbers that its line shows.
#[derive(Drop)]
pub enum GuardNumbers {
    /// At most `k` items; now there are `items`.
    Quota { k: u32, items: u32 },
    /// No loop among so many arcs.
    Loopless { items: u32 },
    /// No two arcs with the same ends among so many.
    Simple { items: u32 },
    /// At most `k` arcs from each node; now there are `items` arcs.
    OutCap { k: u32, items: u32 },
    /// So many erasures are left until it leaves.
    Fuse { left: u32 },
    /// What happened since it was attached.
    Tally { added: u64, erased: u64, moved: u64 },
}

/// An attached guard: its name, the sort that it watches, its kind and its numbers.
#[derive(Drop)]
pub struct GuardLine {
    pub name: Text,
    pub sort: ItemSort,
    pub numbers: GuardNumbers,
}

/// A snapshot.
#[derive(Drop)]
pub enum SnapLine {
    /// It can be restored; so many nodes and arcs were added since it was made.
    Valid { name: Text, nodes: u32, arcs: u32 },
    /// It can't be restored any more.
    Stale { name: Text },
}

/// What an accepted command answers. Lists go in the order in which their lines are printed. A
/// number that a line prints and that is the length of a list is no field.
#[derive(Drop)]
pub enum Reply {
    /// Nothing.
    Quiet,
    /// The nodes of a view, in its order.
    Nodes(List<NodeLine>),
    /// The arcs of a view, in its order.
    Arcs(List<ArcLine>),
    /// The arcs from a node.
    Out(List<ArcLine>),
    /// The arcs to a node.
    In(List<ArcLine>),
    /// The value of a map at an item, or of an attribute.
    Value(Text),
    /// The sum of an int map.
    Total(i128),
    /// How often a bool map is true.
    Count(u32),
    /// The least value of an int map and the item that has it; None where there are no items.
    Least(Option<(i64, Text)>),
    /// The items of an index, by rising id.
    Items(List<NodeLine>),
    /// The attached guards, oldest first.
    Guards(List<GuardLine>),
    /// The snapshots, oldest first.
    Snaps(List<SnapLine>),
    /// Shortest paths, to each node of the view.
    Paths(List<PathLine>),
    /// A cycle of negative length, and its length.
    Cycle(List<ArcLine>, i64),
    /// A largest flow, the source's side of a least cut, and the value of both.
    MaxFlow(List<FlowLine>, List<Text>, i64),
    /// A flow within the bounds that meets the supplies.
    Circulation(List<FlowLine>),
    /// A set of nodes that shows that there is no such flow: whether it supplies too much (or else
    /// too little), its supply, and the limit that this passes.
    Barrier(List<Text>, bool, i128, i128),
    /// A cheapest flow, potentials that show it, and its cost.
    Cheapest(List<FlowLine>, List<PotentialLine>, i128),
    /// A flow, and a cycle without bounds along which it gets ever cheaper, by this cost a unit.
    FreeCycle(List<FlowLine>, List<ArcLine>, i128),
    /// A largest pairing, and a set of left nodes with so few neighbours that there is no larger
    /// one.
    Match(List<PairLine>, List<Text>),
    /// A heaviest pairing, duals that show it, and its weight.
    Heavy(List<PairLine>, List<PotentialLine>, i128),
    /// A cheapest pairing of all left nodes, duals that show it, and its cost.
    Assigned(List<PairLine>, List<PotentialLine>, i128),
    /// Left nodes with fewer neighbours than they are, so that not all of them can be paired.
    Short(List<Text>),
    /// A cycle of least mean, potentials that show it, its total length and its total time.
    Mean(List<ArcLine>, List<MeanLine>, i64, i64),
    /// The nodes in an order in which each arc goes onward, so that there is no cycle.
    Acyclic(List<Text>),
    /// The name of a file, and the bytes that stand in it.
    Save(Text, List<u8>),
}
