//! Feasible flows and barriers, against answers worked out by hand.

use crate::bounds::{are_given, are_ordered};
use crate::tasks::digraph;
use crate::texts::{push_barrier, push_values};
use flow_circulate::{Circulation, circulate};
use std::alloc::{AllocError, Global};
use std::process::Abort;
use std::test::Fail;

// A digraph of nodes and of arcs, with the bounds of each arc and the supply of each node, and what
// is found: the flow, or the sides and numbers of a barrier.
struct Row {
    nodes: &'static [u32],
    arcs: &'static [(u32, u32)],
    lower: Option<&'static [i64]>,
    upper: Option<&'static [i64]>,
    supply: Option<&'static [i64]>,
    found: &'static str,
}

// Tasks with one answer each: an arc that carries a supply; no arc; a loop between equal bounds;
// arcs side by side between equal bounds; an arc without an upper bound; a lower bound below 0;
// supplies that nothing takes, and wants that nothing supplies, of all nodes together; and a supply
// at a node with a loop alone.
const ROWS: [Row; 9] = [
    Row {
        nodes: &[0, 1],
        arcs: &[(0, 1)],
        lower: None,
        upper: Some(&[5]),
        supply: Some(&[4, -4]),
        found: "flow 4",
    },
    Row {
        nodes: &[0, 1],
        arcs: &[],
        lower: None,
        upper: None,
        supply: None,
        found: "flow",
    },
    Row {
        nodes: &[0],
        arcs: &[(0, 0)],
        lower: Some(&[2]),
        upper: Some(&[2]),
        supply: None,
        found: "flow 2",
    },
    Row {
        nodes: &[0, 1],
        arcs: &[(0, 1), (0, 1)],
        lower: Some(&[1, 2]),
        upper: Some(&[1, 2]),
        supply: Some(&[3, -3]),
        found: "flow 1 2",
    },
    Row {
        nodes: &[0, 1],
        arcs: &[(0, 1)],
        lower: None,
        upper: None,
        supply: Some(&[68719476736, -68719476736]),
        found: "flow 68719476736",
    },
    Row {
        nodes: &[0, 1],
        arcs: &[(0, 1)],
        lower: Some(&[-6]),
        upper: None,
        supply: Some(&[-5, 5]),
        found: "flow -5",
    },
    Row {
        nodes: &[0, 1],
        arcs: &[(0, 1)],
        lower: None,
        upper: Some(&[5]),
        supply: Some(&[1, 0]),
        found: "over 1 1; 1 above 0",
    },
    Row {
        nodes: &[0, 1],
        arcs: &[(0, 1)],
        lower: None,
        upper: Some(&[5]),
        supply: Some(&[0, -1]),
        found: "under 1 1; -1 below 0",
    },
    Row {
        nodes: &[0],
        arcs: &[(0, 0)],
        lower: None,
        upper: None,
        supply: Some(&[3]),
        found: "over 1; 3 above 0",
    },
];

// An arc too narrow for what is supplied before it and taken behind it: the nodes on either side
// show it.
const NARROW: Row = Row {
    nodes: &[0, 1, 2],
    arcs: &[(0, 1), (1, 2)],
    lower: None,
    upper: Some(&[9, 2]),
    supply: Some(&[4, 0, -4]),
    found: "over 1 1 0; 4 above 2",
};

const NARROW_BEHIND: &str = "under 0 0 1; -4 below -2";

// The answer as a row has it.
fn push_answer(text: &mut String, answer: &Circulation) -> Result<(), AllocError> {
    match answer {
        Circulation::Flow(flow) => {
            text.push_str("flow")?;
            push_values(text, flow.as_slice())?;
        }
        Circulation::Barrier(barrier) => push_barrier(text, barrier)?,
    }
    Ok(())
}

// What `circulate` finds; None where the row is no task for it.
fn found(alloc: Global, row: &Row) -> Result<Option<String>, AllocError> {
    let Some(g) = digraph(alloc, row.nodes, row.arcs) else {
        return Ok(None);
    };
    let nodes = g.node_count() as usize;
    let arcs = g.arc_count() as usize;
    if !are_given(row.lower, arcs) {
        return Ok(None);
    }
    if !are_given(row.upper, arcs) {
        return Ok(None);
    }
    if !are_given(row.supply, nodes) {
        return Ok(None);
    }
    if !are_ordered(row.lower, row.upper, arcs) {
        return Ok(None);
    }
    let mut text = String::new(alloc);
    let answer = circulate(alloc, &g, row.lower, row.upper, row.supply)?;
    push_answer(&mut text, &answer)?;
    Ok(Some(text))
}

#[test]
fn feasible_flows_and_barriers(rt: HostRuntime) -> Result<(), Fail> {
    for row in &ROWS {
        let Some(text) = found(rt.alloc(), row)? else {
            panic!(rt; "no task: {:?} with {:?}", row.arcs, row.supply);
        };
        assert_eq!(rt; text.as_str(), row.found);
    }
    Ok(())
}

#[test]
fn a_narrow_arc_is_shown_from_either_side(rt: HostRuntime) -> Result<(), Fail> {
    let Some(text) = found(rt.alloc(), &NARROW)? else {
        panic!(rt; "no task: {:?}", NARROW.arcs);
    };
    if text.as_str() != NARROW_BEHIND {
        assert_eq!(rt; text.as_str(), NARROW.found);
    }
    Ok(())
}
