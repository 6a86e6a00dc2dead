//! Steps, what each tells, and the lists after it, worked out by hand.

use crate::steps::{Step, take};
use base_items::Fact;
use digraph_text::listed;
use list_digraph::ListDigraph;
use std::alloc::{AllocError, Global};
use std::process::Abort;
use std::test::Fail;

// A step, the fact that it tells as `id from to from_at to_at`, and all lists after it.
type Row = (Step, &'static str, &'static str);

// Nodes and arcs get ids and stamps in turn, and each new one stands in front.
const ADDITIONS: [Row; 7] = [
    (Step::AddNode, "0 0 0 0 0", "0 > <; ids 1 0, stamps 1"),
    (
        Step::AddNode,
        "1 1 1 1 1",
        "1 > <; 0 > <; ids 2 0, stamps 2",
    ),
    (
        Step::AddNode,
        "2 2 2 2 2",
        "2 > <; 1 > <; 0 > <; ids 3 0, stamps 3",
    ),
    (
        Step::AddArc(0, 1),
        "0 0 1 3 3",
        "2 > <; 1 > <0; 0 >0 <; ids 3 1, stamps 4",
    ),
    (
        Step::AddArc(0, 2),
        "1 0 2 4 4",
        "2 > <1; 1 > <0; 0 >1 0 <; ids 3 2, stamps 5",
    ),
    (
        Step::AddArc(1, 1),
        "2 1 1 5 5",
        "2 > <1; 1 >2 <2 0; 0 >1 0 <; ids 3 3, stamps 6",
    ),
    (
        Step::AddArc(0, 1),
        "3 0 1 6 6",
        "2 > <1; 1 >2 <3 2 0; 0 >3 1 0 <; ids 3 4, stamps 7",
    ),
];

// A moved arc gets a new stamp at the end that moves, and stands in front there, also where the end
// stays the same.
const MOVES: [Row; 5] = [
    (
        Step::MoveFrom(0, 2),
        "0 2 1 7 3",
        "2 >0 <1; 1 >2 <3 2 0; 0 >3 1 <; ids 3 4, stamps 8",
    ),
    (
        Step::MoveTo(1, 1),
        "1 0 1 4 8",
        "2 >0 <; 1 >2 <1 3 2 0; 0 >3 1 <; ids 3 4, stamps 9",
    ),
    (
        Step::MoveFrom(1, 0),
        "1 0 1 9 8",
        "2 >0 <; 1 >2 <1 3 2 0; 0 >1 3 <; ids 3 4, stamps 10",
    ),
    (
        Step::Turn(3),
        "3 1 0 10 10",
        "2 >0 <; 1 >3 2 <1 2 0; 0 >1 <3; ids 3 4, stamps 11",
    ),
    (
        Step::Turn(2),
        "2 1 1 11 11",
        "2 >0 <; 1 >2 3 <2 1 0; 0 >1 <3; ids 3 4, stamps 12",
    ),
];

// An undone step leaves no trace. A placed arc uses up a stamp.
const UNDONE_STEPS: [Row; 6] = [
    (
        Step::MoveFromAndBack(0, 0),
        "0 0 1 12 3",
        "2 >0 <; 1 >2 3 <2 1 0; 0 >1 <3; ids 3 4, stamps 12",
    ),
    (
        Step::MoveToAndBack(1, 2),
        "1 0 2 9 12",
        "2 >0 <; 1 >2 3 <2 1 0; 0 >1 <3; ids 3 4, stamps 12",
    ),
    (
        Step::TurnAndBack(1),
        "1 1 0 12 12",
        "2 >0 <; 1 >2 3 <2 1 0; 0 >1 <3; ids 3 4, stamps 12",
    ),
    (
        Step::AddNodeAndBack,
        "3 3 3 12 12",
        "2 >0 <; 1 >2 3 <2 1 0; 0 >1 <3; ids 3 4, stamps 12",
    ),
    (
        Step::AddArcAndBack(0, 0),
        "4 0 0 12 12",
        "2 >0 <; 1 >2 3 <2 1 0; 0 >1 <3; ids 3 4, stamps 12",
    ),
    (
        Step::MoveAndPlace(3, 2),
        "3 2 0 12 10",
        "2 >0 <; 1 >2 3 <2 1 0; 0 >1 <3; ids 3 4, stamps 14",
    ),
];

// The id that was given back last is used first.
const IDS_USED_AGAIN: [Row; 9] = [
    (
        Step::EraseArc(1),
        "",
        "2 >0 <; 1 >2 3 <2 0; 0 > <3; ids 3 4, stamps 14",
    ),
    (
        Step::EraseArc(3),
        "",
        "2 >0 <; 1 >2 <2 0; 0 > <; ids 3 4, stamps 14",
    ),
    (
        Step::EraseNode(0),
        "",
        "2 >0 <; 1 >2 <2 0; ids 3 4, stamps 14",
    ),
    (
        Step::AddArcAndBack(2, 1),
        "3 2 1 14 14",
        "2 >0 <; 1 >2 <2 0; ids 3 4, stamps 14",
    ),
    (
        Step::AddArc(2, 2),
        "3 2 2 14 14",
        "2 >3 0 <3; 1 >2 <2 0; ids 3 4, stamps 15",
    ),
    (
        Step::AddNodeAndBack,
        "0 0 0 15 15",
        "2 >3 0 <3; 1 >2 <2 0; ids 3 4, stamps 15",
    ),
    (
        Step::AddNode,
        "0 0 0 15 15",
        "0 > <; 2 >3 0 <3; 1 >2 <2 0; ids 3 4, stamps 16",
    ),
    (
        Step::AddArc(0, 1),
        "1 0 1 16 16",
        "0 >1 <; 2 >3 0 <3; 1 >2 <1 2 0; ids 3 4, stamps 17",
    ),
    (
        Step::AddArc(0, 1),
        "4 0 1 17 17",
        "0 >4 1 <; 2 >3 0 <3; 1 >2 <4 1 2 0; ids 3 5, stamps 18",
    ),
];

// After a clear the ids start from 0, and the stamps go on.
const CLEAR: [Row; 10] = [
    (Step::Clear, "", "ids 0 0, stamps 18"),
    (Step::AddNode, "0 0 0 18 18", "0 > <; ids 1 0, stamps 19"),
    (
        Step::AddArc(0, 0),
        "0 0 0 19 19",
        "0 >0 <0; ids 1 1, stamps 20",
    ),
    (
        Step::AddNode,
        "1 1 1 20 20",
        "1 > <; 0 >0 <0; ids 2 1, stamps 21",
    ),
    (
        Step::AddNode,
        "2 2 2 21 21",
        "2 > <; 1 > <; 0 >0 <0; ids 3 1, stamps 22",
    ),
    (Step::EraseNode(1), "", "2 > <; 0 >0 <0; ids 3 1, stamps 22"),
    (Step::EraseNode(2), "", "0 >0 <0; ids 3 1, stamps 22"),
    (
        Step::AddNode,
        "2 2 2 22 22",
        "2 > <; 0 >0 <0; ids 3 1, stamps 23",
    ),
    (
        Step::AddNode,
        "1 1 1 23 23",
        "1 > <; 2 > <; 0 >0 <0; ids 3 1, stamps 24",
    ),
    (
        Step::AddNode,
        "3 3 3 24 24",
        "3 > <; 1 > <; 2 > <; 0 >0 <0; ids 4 1, stamps 25",
    ),
];

// The fact as its numbers.
fn told(alloc: Global, fact: Option<Fact>) -> Result<String, AllocError> {
    let Some(f) = fact else {
        return Ok(String::new(alloc));
    };
    format!(in alloc; "{} {} {} {} {}", f.id, f.from, f.to, f.from_at, f.to_at)
}

// Takes the steps of the rows in turn.
fn follow(
    rt: &impl Abort,
    alloc: Global,
    graph: &mut ListDigraph,
    rows: &[Row],
) -> Result<(), AllocError> {
    for (step, fact, lists) in rows {
        let Some(answer) = take(graph, *step) else {
            panic!(rt; "{step:?} can't be taken");
        };
        let told = told(alloc, answer)?;
        assert_eq!(rt; told.as_str(), *fact, "told at {step:?}");
        let after = listed(alloc, graph)?;
        assert_eq!(rt; after.as_str(), *lists, "after {step:?}");
    }
    Ok(())
}

#[test]
fn takes_steps(rt: HostRuntime) -> Result<(), Fail> {
    let mut graph = ListDigraph::new(rt.alloc());
    follow(&rt, rt.alloc(), &mut graph, &ADDITIONS)?;
    follow(&rt, rt.alloc(), &mut graph, &MOVES)?;
    follow(&rt, rt.alloc(), &mut graph, &UNDONE_STEPS)?;
    follow(&rt, rt.alloc(), &mut graph, &IDS_USED_AGAIN)?;
    follow(&rt, rt.alloc(), &mut graph, &CLEAR)?;
    // a node with arcs isn't erased, nor what isn't there
    assert!(rt; take(&mut graph, Step::EraseNode(0)).is_none());
    assert!(rt; take(&mut graph, Step::EraseArc(1)).is_none());
    Ok(())
}
