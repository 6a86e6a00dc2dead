//! Cheapest flows, found either way, against answers worked out by hand.

use crate::tasks::digraph;
use crate::texts::{push_barrier, push_values};
use crate::ways::{Way, found};
use static_digraph::CostAnswer;
use std::alloc::{AllocError, Global};
use std::fmt::Write;
use std::process::Abort;
use std::test::Fail;

// A digraph of nodes and of arcs, with the bounds and the cost of each arc and the supply of each
// node, and what is found: the flow and its cost, or the sides and numbers of a barrier, or the
// arcs and the cost of a cycle.
struct Row {
    nodes: &'static [u32],
    arcs: &'static [(u32, u32)],
    lower: Option<&'static [i64]>,
    upper: Option<&'static [i64]>,
    cost: &'static [i64],
    supply: Option<&'static [i64]>,
    found: &'static str,
}

// Tasks with one cheapest flow each: a detour that is cheaper as far as it goes; no arc; a loop
// that pays; arcs side by side; equal bounds; an arc without an upper bound at its lower one; and a
// lower bound below 0 that is reached.
const FLOWS: [Row; 7] = [
    Row {
        nodes: &[0, 1, 2],
        arcs: &[(0, 1), (1, 2), (0, 2)],
        lower: None,
        upper: Some(&[5, 3, 5]),
        cost: &[1, 1, 3],
        supply: Some(&[4, 0, -4]),
        found: "flow 3 3 1; cost 9",
    },
    Row {
        nodes: &[0, 1],
        arcs: &[],
        lower: None,
        upper: None,
        cost: &[],
        supply: None,
        found: "flow; cost 0",
    },
    Row {
        nodes: &[0],
        arcs: &[(0, 0)],
        lower: None,
        upper: Some(&[5]),
        cost: &[-2],
        supply: None,
        found: "flow 5; cost -10",
    },
    Row {
        nodes: &[0, 1],
        arcs: &[(0, 1), (0, 1)],
        lower: None,
        upper: Some(&[2, 2]),
        cost: &[3, 1],
        supply: Some(&[3, -3]),
        found: "flow 1 2; cost 5",
    },
    Row {
        nodes: &[0, 1],
        arcs: &[(0, 1)],
        lower: Some(&[2]),
        upper: Some(&[2]),
        cost: &[5],
        supply: Some(&[2, -2]),
        found: "flow 2; cost 10",
    },
    Row {
        nodes: &[0, 1],
        arcs: &[(0, 1)],
        lower: Some(&[2]),
        upper: None,
        cost: &[1],
        supply: Some(&[2, -2]),
        found: "flow 2; cost 2",
    },
    Row {
        nodes: &[0, 1],
        arcs: &[(0, 1), (0, 1)],
        lower: Some(&[-2, 0]),
        upper: Some(&[3, 2]),
        cost: &[1, 0],
        supply: None,
        found: "flow -2 2; cost -2",
    },
];

// Supplies that don't add up, with one barrier each: all nodes together supply too much, or too
// little.
const BARRIERS: [Row; 2] = [
    Row {
        nodes: &[0, 1],
        arcs: &[(0, 1)],
        lower: None,
        upper: Some(&[9]),
        cost: &[1],
        supply: Some(&[3, -1]),
        found: "over 1 1; 2 above 0",
    },
    Row {
        nodes: &[0, 1],
        arcs: &[(0, 1)],
        lower: None,
        upper: Some(&[9]),
        cost: &[1],
        supply: Some(&[1, -3]),
        found: "under 1 1; -2 below 0",
    },
];

// Cycles without bounds that cost less than nothing, each the only one, from the least arc on.
const CYCLES: [Row; 2] = [
    Row {
        nodes: &[0, 1],
        arcs: &[(0, 1), (1, 0)],
        lower: None,
        upper: None,
        cost: &[-3, 1],
        supply: None,
        found: "cycle 0 1; cost -2",
    },
    Row {
        nodes: &[0, 1, 2],
        arcs: &[(2, 0), (1, 2), (0, 1)],
        lower: None,
        upper: None,
        cost: &[-1, -1, -1],
        supply: Some(&[1, 0, -1]),
        found: "cycle 0 2 1; cost -3",
    },
];

// What was found, as a row has it.
fn push_answer(text: &mut String, answer: &CostAnswer) -> Result<(), AllocError> {
    match answer {
        CostAnswer::Optimal { flow, pi: _, cost } => {
            text.push_str("flow")?;
            push_values(text, flow.as_slice())?;
            write!(text, "; cost {cost}")?;
        }
        CostAnswer::Barrier(barrier) => push_barrier(text, barrier)?,
        CostAnswer::FreeCycle {
            flow: _,
            cycle,
            cost,
        } => {
            text.push_str("cycle")?;
            for arc in cycle.as_slice() {
                write!(text, " {arc}")?;
            }
            write!(text, "; cost {cost}")?;
        }
    }
    Ok(())
}

// What is found one way, as a row has it; None where the row is no task.
fn told(alloc: Global, way: Way, row: &Row) -> Result<Option<String>, AllocError> {
    let Some(g) = digraph(alloc, row.nodes, row.arcs) else {
        return Ok(None);
    };
    let Some(answer) = found(alloc, way, &g, row.lower, row.upper, row.cost, row.supply)? else {
        return Ok(None);
    };
    let mut text = String::new(alloc);
    push_answer(&mut text, &answer)?;
    Ok(Some(text))
}

// The text that was found one way is the row's.
fn is_found(rt: &impl Abort, row: &Row, found: Option<String>) {
    let Some(text) = found else {
        panic!(rt; "no task: {:?} at {:?}", row.arcs, row.cost);
    };
    assert_eq!(rt; text.as_str(), row.found);
}

#[test]
fn cheapest_flows(rt: HostRuntime) -> Result<(), Fail> {
    for row in &FLOWS {
        is_found(&rt, row, told(rt.alloc(), Way::Simplex, row)?);
        is_found(&rt, row, told(rt.alloc(), Way::Cancelling, row)?);
    }
    Ok(())
}

#[test]
fn barriers_where_supplies_do_not_add_up(rt: HostRuntime) -> Result<(), Fail> {
    for row in &BARRIERS {
        is_found(&rt, row, told(rt.alloc(), Way::Simplex, row)?);
        is_found(&rt, row, told(rt.alloc(), Way::Cancelling, row)?);
    }
    Ok(())
}

#[test]
fn free_cycles_from_their_least_arc(rt: HostRuntime) -> Result<(), Fail> {
    for row in &CYCLES {
        is_found(&rt, row, told(rt.alloc(), Way::Simplex, row)?);
        is_found(&rt, row, told(rt.alloc(), Way::Cancelling, row)?);
    }
    Ok(())
}
