//! Alterations of one digraph: how many of their steps may be refused, and what is there after.

use crate::acts::Act;
use named_changes::Change;

/// What is done to the digraph that `BUILD` makes.
#[derive(Clone, Copy, Debug)]
pub struct Row {
    /// Changes after the making of the first snapshot.
    pub before: &'static [Change],
    pub act: Act,
    /// Of how many steps the nodes' observers are told that they may refuse, and the arcs'.
    pub refusable: (u32, u32),
    /// All lists after it.
    pub lists: &'static str,
    /// How many nodes and how many arcs it erases.
    pub lost: (u64, u64),
    /// Whether a snapshot that was made before it is valid after it.
    pub valid: bool,
    /// The ids of the next node and of the next arc after it.
    pub next: (u32, u32),
}

/// Nodes 0 to 2 and arcs 0 to 5. Of nodes 3 and 4 and of arcs 6 and 7 the greater id was given back
/// last, so that it is the next.
pub const BUILD: [Change; 17] = [
    Change::AddNode,
    Change::AddNode,
    Change::AddNode,
    Change::AddArc(0, 1),
    Change::AddArc(1, 0),
    Change::AddArc(0, 0),
    Change::AddArc(1, 1),
    Change::AddArc(1, 2),
    Change::AddArc(2, 1),
    Change::AddNode,
    Change::AddNode,
    Change::AddArc(3, 4),
    Change::AddArc(4, 3),
    Change::EraseArc(6),
    Change::EraseArc(7),
    Change::EraseNode(3),
    Change::EraseNode(4),
];

/// All lists of what `BUILD` makes.
pub const BUILT: &str = "2 >5 <4; 1 >4 3 1 <5 3 0; 0 >2 0 <2 1; ids 5 8, stamps 13";

/// Each takes a stamp a step, and what a step adds or moves stands in front.
pub const ROWS: [Row; 11] = [
    Row {
        before: &[],
        act: Act::Alter(Change::AddNode),
        refusable: (1, 0),
        lists: "4 > <; 2 >5 <4; 1 >4 3 1 <5 3 0; 0 >2 0 <2 1; ids 5 8, stamps 14",
        lost: (0, 0),
        valid: true,
        next: (3, 7),
    },
    Row {
        before: &[],
        act: Act::Alter(Change::AddArc(2, 0)),
        refusable: (0, 1),
        lists: "2 >7 5 <4; 1 >4 3 1 <5 3 0; 0 >2 0 <7 2 1; ids 5 8, stamps 14",
        lost: (0, 0),
        valid: true,
        next: (4, 6),
    },
    Row {
        before: &[],
        act: Act::Alter(Change::Source(4, 0)),
        refusable: (0, 1),
        lists: "2 >5 <4; 1 >3 1 <5 3 0; 0 >4 2 0 <2 1; ids 5 8, stamps 14",
        lost: (0, 0),
        valid: true,
        next: (4, 7),
    },
    Row {
        before: &[],
        act: Act::Alter(Change::Target(0, 2)),
        refusable: (0, 1),
        lists: "2 >5 <0 4; 1 >4 3 1 <5 3; 0 >2 0 <2 1; ids 5 8, stamps 14",
        lost: (0, 0),
        valid: true,
        next: (4, 7),
    },
    Row {
        before: &[],
        act: Act::Alter(Change::Turn(1)),
        refusable: (0, 1),
        lists: "2 >5 <4; 1 >4 3 <1 5 3 0; 0 >1 2 0 <2; ids 5 8, stamps 14",
        lost: (0, 0),
        valid: true,
        next: (4, 7),
    },
    // arcs 4 and 5 move; 3, 1 and then 0 go with the node
    Row {
        before: &[],
        act: Act::Alter(Change::Contract(0, 1, false)),
        refusable: (0, 2),
        lists: "2 >5 <4; 0 >4 2 <5 2; ids 5 8, stamps 15",
        lost: (1, 3),
        valid: false,
        next: (1, 0),
    },
    // the sources of 4, 3 and 1 move, and then the targets of 5, 3 and 0
    Row {
        before: &[],
        act: Act::Alter(Change::Contract(0, 1, true)),
        refusable: (0, 6),
        lists: "2 >5 <4; 0 >1 3 4 2 0 <0 3 5 2 1; ids 5 8, stamps 19",
        lost: (1, 0),
        valid: false,
        next: (1, 7),
    },
    // the sources of 4, 3 and 1 move
    Row {
        before: &[],
        act: Act::Alter(Change::SplitNode(1, false)),
        refusable: (1, 3),
        lists: "4 >1 3 4 <; 2 >5 <4; 1 > <5 3 0; 0 >2 0 <2 1; ids 5 8, stamps 17",
        lost: (0, 0),
        valid: true,
        next: (3, 7),
    },
    Row {
        before: &[],
        act: Act::Alter(Change::SplitNode(1, true)),
        refusable: (1, 4),
        lists: "4 >1 3 4 <7; 2 >5 <4; 1 >7 <5 3 0; 0 >2 0 <2 1; ids 5 8, stamps 18",
        lost: (0, 0),
        valid: true,
        next: (3, 6),
    },
    Row {
        before: &[],
        act: Act::Alter(Change::SplitArc(0)),
        refusable: (1, 2),
        lists: "4 >7 <0; 2 >5 <4; 1 >4 3 1 <7 5 3; 0 >2 0 <2 1; ids 5 8, stamps 16",
        lost: (0, 0),
        valid: true,
        next: (3, 6),
    },
    // arcs 0, 1 and 4 go back, and then arc 7 and node 4 go
    Row {
        before: &[
            Change::Source(4, 0),
            Change::Target(0, 2),
            Change::Turn(1),
            Change::AddNode,
            Change::AddArc(4, 1),
        ],
        act: Act::Restore,
        refusable: (0, 3),
        lists: "2 >5 <4; 1 >4 3 1 <5 3 0; 0 >2 0 <2 1; ids 5 8, stamps 21",
        lost: (1, 1),
        valid: false,
        next: (4, 7),
    },
];
