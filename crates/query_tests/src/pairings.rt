//! Largest pairings, against answers worked out by hand.

ghost use Rattle.std.specs.Prelude.{◌≡◌, true, length};
ghost use Rattle.plain_certificates.specs.Pairings.{IsBipartite};
ghost use Rattle.static_digraph.specs.Fixed.{graph_of};
ghost use Rattle.pair_match.specs.Facing.{flags};

use crate::tasks::digraph;
use crate::texts::push_set;
use pair_match::largest;
use static_digraph::Fixed;
use std::alloc::{AllocError, Global};
use std::fmt::Write;
use std::process::Abort;
use std::test::Fail;

// A digraph of nodes and of arcs, the left nodes, and what is found: how many arcs share no node,
// and either these arcs or the set of left nodes that shows that no more can, whichever is the only
// one.
struct Row {
    nodes: &'static [u32],
    arcs: &'static [(u32, u32)],
    left: &'static [bool],
    size: usize,
    told: Told,
    found: &'static str,
}

#[derive(Clone, Copy)]
enum Told {
    Arcs,
    Hall,
}

// A path of three arcs, whose first and last are taken; no arc at all; three left nodes with one
// neighbour, an arc of which leads the other way; and arcs side by side.
const ROWS: [Row; 4] = [
    Row {
        nodes: &[0, 1, 2, 3],
        arcs: &[(0, 2), (2, 1), (1, 3)],
        left: &[true, true, false, false],
        size: 2,
        told: Told::Arcs,
        found: " 0 2",
    },
    Row {
        nodes: &[0, 1],
        arcs: &[],
        left: &[true, false],
        size: 0,
        told: Told::Hall,
        found: " 0",
    },
    Row {
        nodes: &[0, 1, 2, 3],
        arcs: &[(0, 3), (1, 3), (3, 2)],
        left: &[true, true, true, false],
        size: 1,
        told: Told::Hall,
        found: " 0 1 2",
    },
    Row {
        nodes: &[0, 1, 2],
        arcs: &[(0, 2), (0, 2), (2, 1)],
        left: &[true, true, false],
        size: 1,
        told: Told::Hall,
        found: " 0 1",
    },
];

// Whether each arc joins a left node and one that isn't.
fn is_two_sided(g: &Fixed, left: &[bool]) -> bool
    requires { length left.now ≡ (graph_of g.now).nodes }
    ensures { result ≡ true → IsBipartite (graph_of g.now) (flags left.now) }
{
    let count = g.arc_count();
    let mut arc = 0;
    'on: while arc < count {
        let (from, to) = g.ends(arc);
        if left[to as usize] == left[from as usize] {
            return false;
        }
        arc += 1;
    }
    true
}

// What `largest` finds; None where the row is no task for it.
fn found(alloc: Global, row: &Row) -> Result<Option<(usize, String)>, AllocError> {
    let Some(g) = digraph(alloc, row.nodes, row.arcs) else {
        return Ok(None);
    };
    if row.left.len() != g.node_count() as usize {
        return Ok(None);
    }
    if !is_two_sided(&g, row.left) {
        return Ok(None);
    }
    let pairing = largest(alloc, &g, row.left)?;
    let mut text = String::new(alloc);
    match row.told {
        Told::Arcs => {
            for arc in pairing.arcs.as_slice() {
                write!(text, " {arc}")?;
            }
        }
        Told::Hall => push_set(&mut text, pairing.hall.as_slice())?,
    }
    Ok(Some((pairing.arcs.len(), text)))
}

#[test]
fn largest_pairings(rt: HostRuntime) -> Result<(), Fail> {
    for row in &ROWS {
        let Some((size, text)) = found(rt.alloc(), row)? else {
            panic!(rt; "no task: {:?}", row.arcs);
        };
        assert_eq!(rt; size, row.size);
        assert_eq!(rt; text.as_str(), row.found);
    }
    Ok(())
}
