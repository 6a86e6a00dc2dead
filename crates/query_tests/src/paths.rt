//! Shortest paths, against distances and last arcs worked out by hand.

use crate::tasks::{are_within, digraph};
use base_items::List;
use path_search::{Paths, Walks, bellman, dijkstra};
use std::alloc::{AllocError, Global};
use std::fmt::Write;
use std::process::Abort;
use std::test::Fail;

// A digraph of nodes and arcs, a length for each arc, a start, and what is found from there: of
// each node its distance and the last arc on the way, or the arcs of a cycle.
struct Row {
    nodes: &'static [u32],
    arcs: &'static [(u32, u32)],
    lengths: &'static [i64],
    start: u32,
    found: &'static str,
}

// Lengths that are not below 0: the first is the example of Cormen, Leiserson, Rivest and Stein for
// this algorithm; then no arc, loops, arcs side by side of which the second is shortest, and the
// greatest lengths, where a way of one arc more is shorter, beside a node that is not reached.
const FORWARD: [Row; 5] = [
    Row {
        nodes: &[0, 1, 2, 3, 4],
        arcs: &[
            (0, 1),
            (0, 3),
            (1, 2),
            (1, 3),
            (2, 4),
            (3, 1),
            (3, 2),
            (3, 4),
            (4, 0),
            (4, 2),
        ],
        lengths: &[10, 5, 1, 2, 4, 3, 9, 2, 7, 6],
        start: 0,
        found: "0; 8 by 5; 9 by 2; 5 by 1; 7 by 7; ",
    },
    Row {
        nodes: &[0, 1, 2],
        arcs: &[],
        lengths: &[],
        start: 1,
        found: "none; 0; none; ",
    },
    Row {
        nodes: &[0, 1],
        arcs: &[(0, 0), (0, 1), (1, 1)],
        lengths: &[0, 3, 4],
        start: 0,
        found: "0; 3 by 1; ",
    },
    Row {
        nodes: &[0, 1],
        arcs: &[(0, 1), (0, 1), (0, 1)],
        lengths: &[4, 2, 3],
        start: 0,
        found: "0; 2 by 1; ",
    },
    Row {
        nodes: &[0, 1, 2, 3, 4],
        arcs: &[(3, 1), (1, 0), (1, 2), (2, 0), (4, 3)],
        lengths: &[68719476736, 68719476736, 0, 68719476735, 1],
        start: 3,
        found: "137438953471 by 3; 68719476736 by 0; 68719476736 by 2; 0; none; ",
    },
];

// Lengths below 0: the example of the same book for this algorithm, a way that gets shorter round
// after round against the order of the arcs, and a cycle of negative length that is not reached.
const SIGNED: [Row; 3] = [
    Row {
        nodes: &[0, 1, 2, 3, 4],
        arcs: &[
            (1, 2),
            (1, 3),
            (1, 4),
            (2, 1),
            (3, 2),
            (3, 4),
            (4, 2),
            (4, 0),
            (0, 1),
            (0, 3),
        ],
        lengths: &[5, 8, -4, -2, -3, 9, 7, 2, 6, 7],
        start: 0,
        found: "0; 2 by 3; 4 by 4; 7 by 9; -2 by 2; ",
    },
    Row {
        nodes: &[0, 1, 2, 3],
        arcs: &[(2, 3), (1, 2), (0, 1), (0, 3)],
        lengths: &[-68719476736, -68719476736, -68719476736, 5],
        start: 0,
        found: "0; -68719476736 by 2; -137438953472 by 1; -206158430208 by 0; ",
    },
    Row {
        nodes: &[0, 1, 2],
        arcs: &[(1, 2), (2, 1), (1, 0)],
        lengths: &[-5, 4, 1],
        start: 0,
        found: "0; none; none; ",
    },
];

// Cycles of negative length, each from its least arc on: two arcs behind a way to them, a loop, one
// of arcs side by side, and one whose arcs do not rise along it.
const CYCLES: [Row; 4] = [
    Row {
        nodes: &[0, 1, 2],
        arcs: &[(0, 1), (1, 2), (2, 1)],
        lengths: &[1, -3, 2],
        start: 0,
        found: "cycle 1 2",
    },
    Row {
        nodes: &[0, 1],
        arcs: &[(0, 1), (1, 1)],
        lengths: &[4, -1],
        start: 0,
        found: "cycle 1",
    },
    Row {
        nodes: &[0, 1],
        arcs: &[(0, 1), (0, 1), (1, 0)],
        lengths: &[5, 1, -2],
        start: 0,
        found: "cycle 1 2",
    },
    Row {
        nodes: &[0, 1, 2, 3],
        arcs: &[(1, 2), (0, 3), (2, 3), (3, 1)],
        lengths: &[-1, 7, -1, 1],
        start: 0,
        found: "cycle 0 2 3",
    },
];

// Of each node its distance and the last arc, as `0; 8 by 5; none; `.
fn push_paths(text: &mut String, paths: &Paths) -> Result<(), AllocError> {
    for (far, last) in paths.dist.as_slice().iter().zip(paths.via.as_slice()) {
        match far {
            Some(far) => write!(text, "{far}")?,
            None => text.push_str("none")?,
        }
        if let Some(arc) = last {
            write!(text, " by {arc}")?;
        }
        text.push_str("; ")?;
    }
    Ok(())
}

// The arcs of a cycle, as `cycle 1 2`.
fn push_cycle(text: &mut String, cycle: &List<u32>) -> Result<(), AllocError> {
    text.push_str("cycle")?;
    for arc in cycle.as_slice() {
        write!(text, " {arc}")?;
    }
    Ok(())
}

// What `dijkstra` finds; None where the row is no task for it.
fn nearest(alloc: Global, row: &Row) -> Result<Option<String>, AllocError> {
    let Some(g) = digraph(alloc, row.nodes, row.arcs) else {
        return Ok(None);
    };
    if row.lengths.len() != g.arc_count() as usize || row.start >= g.node_count() {
        return Ok(None);
    }
    if !are_within(row.lengths, 0, 68719476736) {
        return Ok(None);
    }
    let mut text = String::new(alloc);
    push_paths(&mut text, &dijkstra(alloc, &g, row.lengths, row.start)?)?;
    Ok(Some(text))
}

// What `bellman` finds.
fn shortest(alloc: Global, row: &Row) -> Result<Option<String>, AllocError> {
    let Some(g) = digraph(alloc, row.nodes, row.arcs) else {
        return Ok(None);
    };
    if row.lengths.len() != g.arc_count() as usize || row.start >= g.node_count() {
        return Ok(None);
    }
    if !are_within(row.lengths, -68719476736, 68719476736) {
        return Ok(None);
    }
    let mut text = String::new(alloc);
    match bellman(alloc, &g, row.lengths, row.start)? {
        Walks::Paths(paths) => push_paths(&mut text, &paths)?,
        Walks::Cycle(cycle) => push_cycle(&mut text, &cycle)?,
    }
    Ok(Some(text))
}

// The text that was found is the row's.
fn is_found(rt: &impl Abort, row: &Row, found: Option<String>) {
    let Some(text) = found else {
        panic!(rt; "no task: {:?} with {:?}", row.arcs, row.lengths);
    };
    assert_eq!(rt; text.as_str(), row.found);
}

#[test]
fn nearest_first(rt: HostRuntime) -> Result<(), Fail> {
    for row in &FORWARD {
        is_found(&rt, row, nearest(rt.alloc(), row)?);
    }
    Ok(())
}

#[test]
fn rounds_find_the_same(rt: HostRuntime) -> Result<(), Fail> {
    for row in &FORWARD {
        is_found(&rt, row, shortest(rt.alloc(), row)?);
    }
    Ok(())
}

#[test]
fn rounds_with_lengths_below_0(rt: HostRuntime) -> Result<(), Fail> {
    for row in &SIGNED {
        is_found(&rt, row, shortest(rt.alloc(), row)?);
    }
    Ok(())
}

#[test]
fn cycles_from_their_least_arc(rt: HostRuntime) -> Result<(), Fail> {
    for row in &CYCLES {
        is_found(&rt, row, shortest(rt.alloc(), row)?);
    }
    Ok(())
}
