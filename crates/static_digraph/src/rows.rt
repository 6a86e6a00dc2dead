//! The arcs at each node, laid one row behind the other.
//!
//! The arcs are first linked by node, the last one first, so that each link leads to a greater
//! number; then each node's links are followed.

ghost use Rattle.std.specs.Prelude.{◌≡◌, ℕ, ◌+◌, ◌<◌, ◌≤◌, IfOk, All, length};
ghost use Rattle.plain_certificates.specs.Tables.{at};
ghost use Rattle.static_digraph.specs.Rows.{AreRows, AreLinked, HasRow, row_in};

use std::alloc::{AllocError, Global};

/// Rows of arcs, one for each node: that of node v is `arcs` from `start[v]` to `start[v + 1]`.
#[derive(Drop)]
pub struct Rows {
    pub start: Vec<usize>,
    pub arcs: Vec<u32>,
}

/// The first arc of each node, and the next one of each arc; the number of arcs ends the links.
#[derive(Drop)]
struct Links {
    first: Vec<u32>,
    next: Vec<u32>,
}

/// Links the arcs by the node that each has at this end.
fn link_arcs(alloc: Global, ends: &[u32], nodes: usize) -> Result<Links, AllocError>
    requires nodes { All (λ node. node < nodes) ends.now }
    requires small { length ends.now ≤ 4194304 }
    ensures { IfOk result (λ links. AreLinked nodes (length ends.now) (at 0 ends.now)
        links.first.items links.next.items 0) }
{
    let none = ends.len() as u32;
    let mut first = vec![in alloc; none; nodes]?;
    let mut next = vec![in alloc; none; ends.len()]?;
    let mut arc = ends.len();
    while arc > 0 {
        arc -= 1;
        let node = ends[arc] as usize;
        next[arc] = first[node];
        first[node] = arc as u32;
    }
    Ok(Links { first, next })
}

/// The rows of arcs by the node that each has at this end, each row by rising number.
pub fn rows_by(alloc: Global, ends: &[u32], nodes: usize) -> Result<Rows, AllocError>
    requires nodes { All (λ node. node < nodes) ends.now }
    requires small { length ends.now ≤ 4194304 }
    requires few { nodes ≤ 1048576 }
    ensures { IfOk result (λ rows. AreRows nodes (length ends.now) (at 0 ends.now)
        rows.start.items rows.arcs.items) }
{
    let Links { first, next } = link_arcs(alloc, ends, nodes)?;
    let count = ends.len();
    let mut start = Vec::with_capacity(alloc, nodes + 1)?;
    let mut arcs = Vec::with_capacity(alloc, count)?;
    let mut node = 0;
    while node < nodes {
        start.push(arcs.len())?;
        let mut arc = first[node] as usize;
        while arc < count {
            arcs.push(arc as u32)?;
            arc = next[arc] as usize;
        }
        node += 1;
    }
    start.push(arcs.len())?;
    Ok(Rows { start, arcs })
}

/// The row of a node.
pub fn row(rows: &Rows, node: u32) -> &[u32]
    requires { HasRow rows.now.start.items rows.now.arcs.items node }
    ensures { result.now ≡ row_in rows.now.start.items rows.now.arcs.items node }
{
    let start = rows.start[node as usize];
    let end = rows.start[node as usize + 1];
    &rows.arcs[start..end]
}
