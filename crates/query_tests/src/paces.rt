//! Cycles of negative length along and against arcs, against answers worked out by hand.

use crate::tasks::{are_within, digraph};
use crate::texts::push_values;
use pace_search::{CycleSearch, NO_PACE, negative_cycle};
use std::alloc::{AllocError, Global};
use std::fmt::Write;
use std::process::Abort;
use std::test::Fail;

// A digraph of nodes and arcs, the length of the pace there along each arc and then that of the
// pace back along each, and what is found: of each node the least length of a walk of paces to it,
// or the numbers of the paces of a cycle.
struct Row {
    nodes: &'static [u32],
    arcs: &'static [(u32, u32)],
    lengths: &'static [i64],
    found: &'static str,
}

// No arc; an arc there and back of length 0; two arcs that are walked back alone; a cycle of two
// arcs there and one back, beside one that is too long; an arc there and back of length -1; and a
// loop that is walked back.
const ROWS: [Row; 6] = [
    Row {
        nodes: &[0, 1],
        arcs: &[],
        lengths: &[],
        found: "potential 0 0",
    },
    Row {
        nodes: &[0, 1],
        arcs: &[(0, 1)],
        lengths: &[-2, 2],
        found: "potential 0 -2",
    },
    Row {
        nodes: &[0, 1, 2],
        arcs: &[(0, 1), (1, 2)],
        lengths: &[NO_PACE, NO_PACE, -1, -1],
        found: "potential -2 -1 0",
    },
    Row {
        nodes: &[0, 1, 2],
        arcs: &[(0, 1), (1, 2), (0, 2), (0, 2)],
        lengths: &[1, 1, NO_PACE, 4, NO_PACE, NO_PACE, -2, -3],
        found: "cycle 0 1 7",
    },
    Row {
        nodes: &[0, 1],
        arcs: &[(0, 1)],
        lengths: &[1, -2],
        found: "cycle 0 1",
    },
    Row {
        nodes: &[0],
        arcs: &[(0, 0)],
        lengths: &[NO_PACE, -1],
        found: "cycle 1",
    },
];

// What `negative_cycle` finds, as a text; None where the row is no task for it.
fn found(alloc: Global, row: &Row) -> Result<Option<String>, AllocError> {
    let Some(g) = digraph(alloc, row.nodes, row.arcs) else {
        return Ok(None);
    };
    if row.lengths.len() != 2 * g.arc_count() as usize {
        return Ok(None);
    }
    if !are_within(row.lengths, -68719476736, NO_PACE) {
        return Ok(None);
    }
    let mut text = String::new(alloc);
    match negative_cycle(alloc, &g, row.lengths)? {
        CycleSearch::Potential(pi) => {
            text.push_str("potential")?;
            push_values(&mut text, &pi)?;
        }
        CycleSearch::Cycle(paces) => {
            text.push_str("cycle")?;
            for pace in &paces {
                write!(text, " {pace}")?;
            }
        }
    }
    Ok(Some(text))
}

#[test]
fn cycles_of_paces(rt: HostRuntime) -> Result<(), Fail> {
    for row in &ROWS {
        let Some(text) = found(rt.alloc(), row)? else {
            panic!(rt; "no task: {:?} with {:?}", row.arcs, row.lengths);
        };
        assert_eq!(rt; text.as_str(), row.found);
    }
    Ok(())
}
