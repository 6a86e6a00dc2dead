//! Small digraphs by number, and whether lengths are within bounds.

ghost use Rattle.std.specs.Prelude.{◌≡◌, ◌≤◌, ◌≤ℤ◌, true, All, length};
ghost use Rattle.plain_digraph.specs.Lists as lists;
ghost use Rattle.static_digraph.specs.Fixed.{HaveEnds};

use base_items::Fact;
use guard_kinds::Guard;
use notify_chain::Chain;
use static_digraph::Fixed;
use std::alloc::{AllocError, Global};

// Whether the id is among the nodes.
fn is_among(nodes: &[u32], id: u32) -> bool
    ensures { result ≡ true → lists.has nodes.now id ≡ true }
{
    nodes.contains(&id)
}

// Whether both ends of each arc are among the nodes.
fn have_ends(nodes: &[u32], arcs: &[Fact]) -> bool
    ensures { result ≡ true → HaveEnds nodes.now arcs.now }
{
    let mut at = 0;
    'on: while at < arcs.len() {
        if !is_among(nodes, arcs[at].from) {
            return false;
        }
        if !is_among(nodes, arcs[at].to) {
            return false;
        }
        at += 1;
    }
    true
}

/// Whether all lengths are from `low` to `high`.
pub fn are_within(lengths: &[i64], low: i64, high: i64) -> bool
    ensures low { result ≡ true → All (λ l. low ≤ℤ l) lengths.now }
    ensures high { result ≡ true → All (λ l. l ≤ℤ high) lengths.now }
{
    let mut at = 0;
    'on: while at < lengths.len() {
        if lengths[at] < low {
            return false;
        }
        if lengths[at] > high {
            return false;
        }
        at += 1;
    }
    true
}

// What is told of arcs with these ends.
fn facts_of(alloc: Global, arcs: &[(u32, u32)]) -> Result<Vec<Fact>, AllocError> {
    let mut facts = Vec::new(alloc);
    let mut id = 0;
    for (from, to) in arcs {
        facts.push(Fact {
            id,
            from: *from,
            to: *to,
            from_at: 0,
            to_at: 0,
        })?;
        id = id.wrapping_add(1);
    }
    Ok(facts)
}

/// Nodes with these numbers and arcs between them, each numbered by its place. None where an end is
/// no node, or where memory is wanting.
pub fn digraph(alloc: Global, nodes: &[u32], arcs: &[(u32, u32)]) -> Option<Fixed> {
    let facts = facts_of(alloc, arcs).ok()?;
    if nodes.len() > 64 || facts.len() > 64 {
        return None;
    }
    if !have_ends(nodes, facts.as_slice()) {
        return None;
    }
    let mut on_nodes: Chain<Guard> = Chain::new(alloc);
    let mut on_arcs: Chain<Guard> = Chain::new(alloc);
    Fixed::build(alloc, nodes, facts.as_slice(), &mut on_nodes, &mut on_arcs).ok()
}
