//! What each node has to send once the lower bounds are sent.

ghost use Rattle.std.specs.Prelude.{◌≡◌, ℕ, ◌<◌, ◌^◌, ◌+ℤ◌, ◌≤ℤ◌, neg_ℤ, pos, length, IfOk};
ghost use Rattle.plain_certificates.specs.Tables.{at};
ghost use Rattle.static_digraph.specs.Fixed.{graph_of};
ghost use Rattle.task_bounds.specs.Given.{IsValue};
ghost use Rattle.task_bounds.specs.Excess.{IsTaken};

use static_digraph::Fixed;
use std::alloc::{AllocError, Global};

/// The sum of what a node has to send and a value.
fn plus(excess: i64, value: i64) -> i64
    requires excess { (neg_ℤ (pos (2 ^ 61)) ≤ℤ excess) × (excess ≤ℤ pos (2 ^ 61)) }
    requires value { IsValue value }
    ensures { result ≡ excess +ℤ value }
{
    excess + value
}

/// Their difference.
fn minus(excess: i64, value: i64) -> i64
    requires excess { (neg_ℤ (pos (2 ^ 61)) ≤ℤ excess) × (excess ≤ℤ pos (2 ^ 61)) }
    requires value { IsValue value }
    ensures { result ≡ excess +ℤ neg_ℤ value }
{
    excess - value
}

/// The supplies of the nodes less what the lower bounds send out of them.
pub fn excess_of(
    alloc: Global,
    g: &Fixed,
    lower: &[i64],
    supply: &[i64],
) -> Result<Vec<i64>, AllocError>
    requires arcs { length lower.now ≡ (graph_of g.now).arcs }
    requires nodes { length supply.now ≡ (graph_of g.now).nodes }
    requires lower { (k : ℕ) → k < length lower.now → IsValue (at (pos 0) lower.now k) }
    requires supply { (v : ℕ) → v < length supply.now → IsValue (at (pos 0) supply.now v) }
    ensures nodes { IfOk result (λ excess. length excess.items ≡ (graph_of g.now).nodes) }
    ensures taken { IfOk result (λ excess. IsTaken (graph_of g.now) (at (pos 0) lower.now)
        (at (pos 0) supply.now) (at (pos 0) excess.items)) }
{
    let mut excess = Vec::from_slice(alloc, supply)?;
    let count = g.arc_count();
    for arc in 0..count {
        let (from, to) = g.ends(arc);
        let flow = lower[arc as usize];
        excess[from as usize] = minus(excess[from as usize], flow);
        excess[to as usize] = plus(excess[to as usize], flow);
    }
    Ok(excess)
}
