//! Erasures at which fuses leave: what is there after, who left, and what is left of the others.

use crate::acts::Act;
use named_changes::Change;

/// What is done to the digraph that `BUILD` makes.
#[derive(Clone, Copy, Debug)]
pub struct Row {
    /// Changes after the making of the snapshot, before the seats come.
    pub before: &'static [Change],
    pub act: Act,
    /// All lists after it.
    pub lists: &'static str,
    /// The snapshot's halves.
    pub halves: &'static str,
    /// A tally, fuses of 1 to 6, and another tally: of the nodes, and of the arcs.
    pub nodes: &'static str,
    pub arcs: &'static str,
    /// Which fuses left, in the order in which they are told.
    pub left: &'static str,
}

/// Nodes 0 to 2, and arcs between and at the first two, and between the last two.
pub const BUILD: [Change; 9] = [
    Change::AddNode,
    Change::AddNode,
    Change::AddNode,
    Change::AddArc(0, 1),
    Change::AddArc(1, 0),
    Change::AddArc(0, 0),
    Change::AddArc(1, 1),
    Change::AddArc(1, 2),
    Change::AddArc(2, 1),
];

/// All lists of what `BUILD` makes.
pub const BUILT: &str = "2 >5 <4; 1 >4 3 1 <5 3 0; 0 >2 0 <2 1; ids 3 6, stamps 9";

/// A fuse leaves at the erasure of its number, and at a clear.
pub const ROWS: [Row; 5] = [
    // arcs 4 and 5 move; 3, 1 and then 0 go with the node
    Row {
        before: &[],
        act: Act::Alter(Change::Contract(0, 1, false)),
        lists: "2 >5 <4; 0 >4 2 <5 2; ids 3 6, stamps 11",
        halves: "; stale + ~; stale + ~ 4:1>2@7,7 5:2>1@8,8",
        nodes: "; 0 1 0 of 2; gone; 1 left of 2; 2 left of 2; 3 left of 2; 4 left of 2; 5 left of 2\
; 0 1 0 of 2",
        arcs: "; 0 3 2 of 3; gone; gone; gone; 1 left of 3; 2 left of 3; 3 left of 3; 0 3 2 of 3",
        left: "node 1, arc 1, arc 2, arc 3, ",
    },
    // the sources of 4, 3 and 1 move, and then the targets of 5, 3 and 0
    Row {
        before: &[],
        act: Act::Alter(Change::Contract(0, 1, true)),
        lists: "2 >5 <4; 0 >1 3 4 2 0 <0 3 5 2 1; ids 3 6, stamps 15",
        halves: "; stale + ~; valid + ~ 0:0>1@3,3 1:1>0@4,4 3:1>1@6,6 4:1>2@7,7 5:2>1@8,8",
        nodes: "; 0 1 0 of 2; gone; 1 left of 2; 2 left of 2; 3 left of 2; 4 left of 2; 5 left of 2\
; 0 1 0 of 2",
        arcs: "; 0 0 6 of 6; 1 left of 6; 2 left of 6; 3 left of 6; 4 left of 6; 5 left of 6\
; 6 left of 6; 0 0 6 of 6",
        left: "node 1, ",
    },
    // arcs 4, 3 and 1 go, then 5 and 0, and then the node
    Row {
        before: &[],
        act: Act::Alter(Change::EraseNode(1)),
        lists: "2 > <; 0 >2 <2; ids 3 6, stamps 9",
        halves: "; stale + ~; stale + ~",
        nodes: "; 0 1 0 of 2; gone; 1 left of 2; 2 left of 2; 3 left of 2; 4 left of 2; 5 left of 2\
; 0 1 0 of 2",
        arcs: "; 0 5 0 of 1; gone; gone; gone; gone; gone; 1 left of 1; 0 5 0 of 1",
        left: "node 1, arc 1, arc 2, arc 3, arc 4, arc 5, ",
    },
    // each item counts as an erasure, and the newest seat is told first
    Row {
        before: &[],
        act: Act::Alter(Change::Clear),
        lists: "ids 0 0, stamps 9",
        halves: "; stale + ~; stale + ~",
        nodes: "; 0 3 0 of 0; gone; gone; gone; gone; gone; gone; 0 3 0 of 0",
        arcs: "; 0 6 0 of 0; gone; gone; gone; gone; gone; gone; 0 6 0 of 0",
        left: "node 6, node 5, node 4, node 3, node 2, node 1, \
arc 6, arc 5, arc 4, arc 3, arc 2, arc 1, ",
    },
    // arc 4 goes back, then arcs 6 and 7 and node 3 go
    Row {
        before: &[
            Change::Source(4, 0),
            Change::AddNode,
            Change::AddArc(3, 0),
            Change::AddArc(0, 3),
        ],
        act: Act::Restore,
        lists: "2 >5 <4; 1 >4 3 1 <5 3 0; 0 >2 0 <2 1; ids 4 8, stamps 14",
        halves: "; gone; gone",
        nodes: "; 0 1 0 of 3; gone; 1 left of 3; 2 left of 3; 3 left of 3; 4 left of 3; 5 left of 3\
; 0 1 0 of 3",
        arcs: "; 0 2 1 of 6; gone; gone; 1 left of 6; 2 left of 6; 3 left of 6; 4 left of 6\
; 0 2 1 of 6",
        left: "node 1, arc 1, arc 2, ",
    },
];
