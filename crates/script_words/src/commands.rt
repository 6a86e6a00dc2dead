//! Commands, as a line says them.

use base_items::ItemSort;
use token_text::Text;

/// The type of a value map.
#[derive(Clone, Copy, Debug, PartialEq, Eq)]
pub enum MapType {
    Ints,
    Bools,
    Texts,
}

/// The kinds of guards.
#[derive(Clone, Copy, Debug, PartialEq, Eq)]
pub enum GuardWord {
    Quota,
    Loopless,
    Simple,
    OutCap,
    Fuse,
    Tally,
}

/// The arcs that a degree counts: those to a node, or those from it.
#[derive(Clone, Copy, Debug, PartialEq, Eq)]
pub enum Direction {
    In,
    Out,
}

/// The top layer of a view.
#[derive(Drop)]
pub enum LayerWord {
    Reverse,
    Undirect,
    Split,
    /// The maps of the nodes and of the arcs that are shown. None shows all.
    Sub(Option<Text>, Option<Text>),
    /// The maps of capacities and of flows.
    Residual(Text, Text),
}

/// What a line of a script says. A variant has the words of its form in their order; an option is
/// None where an optional word is absent, or where a map that may be absent is given as `-`.
#[derive(Drop)]
pub enum Command {
    AddNode(Text),
    /// The label, the source and the target.
    AddArc(Text, Text, Text),
    DelNode(Text),
    DelArc(Text),
    Source(Text, Text),
    Target(Text, Text),
    Turn(Text),
    /// The two nodes, and whether loops stay.
    Contract(Text, Text, bool),
    SplitNode(Text, Text, Option<Text>),
    SplitArc(Text, Text, Text),
    Clear,
    NodeMap(Text, MapType),
    ArcMap(Text, MapType),
    /// The line `type`.
    Retype(ItemSort, Text, MapType),
    Set(ItemSort, Text, Text, Text),
    Get(ItemSort, Text, Text),
    Degree(Text, Direction),
    Trues(ItemSort, Text, Text),
    Items(ItemSort, Text),
    DropMap(ItemSort, Text),
    Total(ItemSort, Text),
    Least(ItemSort, Text),
    Count(ItemSort, Text),
    /// The name, and the number where the kind has one.
    Guard(Text, ItemSort, GuardWord, Option<u32>),
    Unguard(Text),
    Guards,
    Snap(Text),
    Restore(Text),
    Forget(Text),
    Snaps,
    /// The new view, its layer and the view below.
    View(Text, LayerWord, Text),
    Keep(Text),
    Unview(Text),
    Nodes(Text),
    Arcs(Text),
    Out(Text, Text),
    In(Text, Text),
    Dijkstra(Text, Text, Text),
    Bellman(Text, Text, Text),
    MaxFlow(Text, Text, Text, Text, Option<Text>),
    Circulate(Text, Option<Text>, Option<Text>, Option<Text>, Option<Text>),
    MinCost(Text, Option<Text>, Option<Text>, Text, Option<Text>, Option<Text>),
    Simplex(Text, Option<Text>, Option<Text>, Text, Option<Text>, Option<Text>),
    Match(Text, Text),
    Heaviest(Text, Text, Text),
    Assign(Text, Text, Text),
    /// The view, the lengths, and the times where they aren't 1.
    MeanCycle(Text, Text, Option<Text>),
    /// The attribute, and the sort of its item.
    Tie(Text, ItemSort),
    Untie(Text),
    /// The line `attr`, which answers an attribute.
    Attr(Text),
    /// The sort, the old label and the new one.
    Relabel(ItemSort, Text, Text),
    Save(Text),
}
