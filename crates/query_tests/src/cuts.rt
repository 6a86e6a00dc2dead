//! Largest flows and least cuts, against answers worked out by hand.

use crate::tasks::{are_within, digraph};
use crate::texts::push_set;
use flow_preflow::max_flow;
use std::alloc::{AllocError, Global};
use std::fmt::Write;
use std::process::Abort;
use std::test::Fail;

// A digraph of nodes and of arcs with their capacities, a source and a target, and what is found:
// the flow of the arcs that are no loops, its value, and the nodes on the source's side of the cut.
struct Row {
    nodes: &'static [u32],
    arcs: &'static [(u32, u32)],
    cap: &'static [i64],
    s: u32,
    t: u32,
    found: &'static str,
}

// Tasks with one least cut each, and one largest flow but for loops: two ways of which one is
// narrow at its end; no arc; a loop; arcs side by side, with one back; and a first arc that isn't
// full.
const ROWS: [Row; 5] = [
    Row {
        nodes: &[0, 1, 2],
        arcs: &[(0, 1), (1, 2), (0, 2)],
        cap: &[4, 3, 1],
        s: 0,
        t: 2,
        found: "flow 3 3 1; value 4; side 0 1",
    },
    Row {
        nodes: &[0, 1],
        arcs: &[],
        cap: &[],
        s: 1,
        t: 0,
        found: "flow; value 0; side 1",
    },
    Row {
        nodes: &[0, 1],
        arcs: &[(0, 0), (0, 1)],
        cap: &[7, 2],
        s: 0,
        t: 1,
        found: "flow 2; value 2; side 0",
    },
    Row {
        nodes: &[0, 1],
        arcs: &[(0, 1), (0, 1), (1, 0)],
        cap: &[2, 3, 4],
        s: 0,
        t: 1,
        found: "flow 2 3 0; value 5; side 0",
    },
    Row {
        nodes: &[0, 1, 2, 3],
        arcs: &[(0, 1), (0, 2), (1, 2), (1, 3), (2, 3)],
        cap: &[3, 1, 1, 1, 9],
        s: 0,
        t: 3,
        found: "flow 2 1 1 1 2; value 3; side 0 1",
    },
];

// The flow of each arc whose ends differ.
fn push_flow(text: &mut String, arcs: &[(u32, u32)], flow: &[i64]) -> Result<(), AllocError> {
    let mut rest = flow.iter();
    for (from, to) in arcs {
        if let Some(sent) = rest.next() {
            if from != to {
                write!(text, " {sent}")?;
            }
        }
    }
    Ok(())
}

// What `max_flow` finds; None where the row is no task for it.
fn found(alloc: Global, row: &Row) -> Result<Option<String>, AllocError> {
    let Some(g) = digraph(alloc, row.nodes, row.arcs) else {
        return Ok(None);
    };
    let nodes = g.node_count();
    let arcs = g.arc_count() as usize;
    if row.cap.len() != arcs {
        return Ok(None);
    }
    if !are_within(row.cap, 0, 68719476736) {
        return Ok(None);
    }
    if row.s >= nodes {
        return Ok(None);
    }
    if row.t >= nodes {
        return Ok(None);
    }
    if row.s == row.t {
        return Ok(None);
    }
    let cut = max_flow(alloc, &g, row.cap, row.s, row.t)?;
    let mut text = String::new(alloc);
    text.push_str("flow")?;
    push_flow(&mut text, row.arcs, cut.flow.as_slice())?;
    let value = cut.value;
    write!(text, "; value {value}; side")?;
    push_set(&mut text, cut.side.as_slice())?;
    Ok(Some(text))
}

#[test]
fn largest_flows_and_least_cuts(rt: HostRuntime) -> Result<(), Fail> {
    for row in &ROWS {
        let Some(text) = found(rt.alloc(), row)? else {
            panic!(rt; "no task: {:?} at {:?}", row.arcs, row.cap);
        };
        assert_eq!(rt; text.as_str(), row.found);
    }
    Ok(())
}
