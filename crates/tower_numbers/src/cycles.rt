//! What of a view by number is told again: the numbers of its nodes, its arcs with the ids of their
//! ends, and the sum of a cycle.

ghost use Rattle.std.specs.Prelude.{◌≡◌, ◌<◌, ℕ, pos, All, map, length, IfOk};
ghost use Rattle.plain_certificates.specs.Tables.{at, place_of};
ghost use Rattle.plain_certificates.specs.Walks.{IsCycle, along};
ghost use Rattle.static_digraph.specs.Fixed.{graph_of};
ghost use Rattle.task_bounds.specs.Given.{IsValue};
ghost use Rattle.tower_numbers.specs.Told.{fact_at};

use base_items::Fact;
use static_digraph::Fixed;
use std::alloc::{AllocError, Global};
use task_bounds::cost_along;

/// The number of the node with this id, and the number of nodes where none has it.
pub fn node_number(g: &Fixed, node: u32) -> u32
    ensures { result ≡ place_of g.now.nodes node }
{
    let count = g.node_count();
    let mut number = 0;
    while number < count {
        if g.node_item(number) == node {
            return number;
        }
        number += 1;
    }
    count
}

/// An arc with its id and those of its ends.
fn fact_of(g: &Fixed, arc: u32) -> Fact
    requires { arc < (graph_of g.now).arcs }
    ensures { result ≡ fact_at g.now arc }
{
    let _ = g.arc_count();
    let (from, to) = g.ends(arc);
    Fact {
        id: g.arc_item(arc),
        from: g.node_item(from),
        to: g.node_item(to),
        from_at: 0,
        to_at: 0,
    }
}

/// Some arcs, each with its id and those of its ends.
pub fn facts_of(alloc: Global, g: &Fixed, arcs: &[u32]) -> Result<Vec<Fact>, AllocError>
    requires { (k : ℕ) → k < length arcs.now → at 0 arcs.now k < (graph_of g.now).arcs }
    ensures { IfOk result (λ facts. facts.items ≡ map (fact_at g.now) arcs.now) }
{
    let mut facts = Vec::with_capacity(alloc, arcs.len())?;
    let mut place = 0;
    while place < arcs.len() {
        facts.push(fact_of(g, arcs[place]))?;
        place += 1;
    }
    Ok(facts)
}

/// The sum of a value on the arcs of a cycle. The values are from -2^36 to 2^36.
pub fn cycle_sum(g: &Fixed, values: &[i64], cycle: &[u32]) -> i64
    requires cycle { IsCycle (graph_of g.now) cycle.now }
    requires values { length values.now ≡ (graph_of g.now).arcs }
    requires small { All IsValue values.now }
    ensures { result ≡ along (at (pos 0) values.now) cycle.now }
{
    let _ = g.arc_count();
    cost_along(values, cycle) as i64
}
