//! Exact sums over the arcs and the nodes.

ghost use Rattle.std.specs.Prelude.{◌≡◌, ℕ, ◌<◌, ◌≤◌, ◌^◌, ◌&&◌, ◌*ℤ◌, ◌-ℤ◌, ◌≤ℤ◌, neg_ℤ, not};
ghost use Rattle.std.specs.Prelude.{cond, pos, length, false};
ghost use Rattle.plain_certificates.specs.Cuts.{enters, leaves};
ghost use Rattle.plain_certificates.specs.Numbered.{sum_to, sum_where};
ghost use Rattle.plain_certificates.specs.Tables.{at};
ghost use Rattle.plain_certificates.specs.Walks.{along};
ghost use Rattle.static_digraph.specs.Fixed.{graph_of};
ghost use Rattle.task_bounds.specs.Given.{IsValue};

use static_digraph::Fixed;

/// What a flow costs at so much a unit.
fn product(cost: i64, flow: i64) -> i128
    requires { IsValue cost }
    ensures is { result ≡ cost *ℤ flow }
    ensures small { (neg_ℤ (pos (2 ^ 99)) ≤ℤ result) × (result ≤ℤ pos (2 ^ 99)) }
{
    cost as i128 * flow as i128
}

/// What the flow on all arcs costs.
pub fn cost_of(cost: &[i64], flow: &[i64]) -> i128
    requires sizes { length flow.now ≡ length cost.now }
    requires few { length cost.now ≤ 2 ^ 22 }
    requires small { (k : ℕ) → k < length cost.now → IsValue (at (pos 0) cost.now k) }
    ensures { result ≡ sum_to (length cost.now)
        (λ k. at (pos 0) cost.now k *ℤ at (pos 0) flow.now k) }
{
    let mut total: i128 = 0;
    for k in 0..cost.len() {
        total += product(cost[k], flow[k]);
    }
    total
}

/// The same value, wider.
fn widened(value: i64) -> i128
    requires { IsValue value }
    ensures { result ≡ value }
{
    value as i128
}

/// A value where it is chosen, and 0 elsewhere.
fn chosen_part(chosen: bool, value: i64) -> i128
    requires { IsValue value }
    ensures is { result ≡ cond chosen value (pos 0) }
    ensures small { IsValue result }
{
    if chosen { widened(value) } else { 0 }
}

/// The sum of the values that are chosen.
pub fn sum_chosen(chosen: &[bool], values: &[i64]) -> i128
    requires sizes { length values.now ≡ length chosen.now }
    requires few { length chosen.now ≤ 2 ^ 22 }
    requires small { (k : ℕ) → k < length chosen.now → IsValue (at (pos 0) values.now k) }
    ensures { result ≡ sum_where (length chosen.now) (at false chosen.now)
        (at (pos 0) values.now) }
{
    let mut total: i128 = 0;
    for v in 0..chosen.len() {
        total += chosen_part(chosen[v], values[v]);
    }
    total
}

/// The one value of an arc that leaves a set, the other one turned of an arc that enters it.
fn crossing_part(from: bool, to: bool, out: i64, into: i64) -> i128
    requires { IsValue out × IsValue into }
    ensures is { result ≡ cond (from && not to) out (pos 0) -ℤ cond (not from && to) into (pos 0) }
    ensures small { IsValue result }
{
    if from {
        if to { 0 } else { widened(out) }
    } else {
        if to { -widened(into) } else { 0 }
    }
}

/// The sum of the one value over the arcs that leave a set, less that of the other over those that
/// enter it.
pub fn sum_crossing(g: &Fixed, set: &[bool], out: &[i64], into: &[i64]) -> i128
    requires nodes { length set.now ≡ (graph_of g.now).nodes }
    requires arcs { (length out.now ≡ (graph_of g.now).arcs)
        × (length into.now ≡ (graph_of g.now).arcs) }
    requires out { (k : ℕ) → k < length out.now → IsValue (at (pos 0) out.now k) }
    requires into { (k : ℕ) → k < length into.now → IsValue (at (pos 0) into.now k) }
    ensures { result ≡ sum_where (graph_of g.now).arcs (leaves (graph_of g.now) (at false set.now))
        (at (pos 0) out.now)
        -ℤ sum_where (graph_of g.now).arcs (enters (graph_of g.now) (at false set.now))
        (at (pos 0) into.now) }
{
    let mut total: i128 = 0;
    let count = g.arc_count();
    for arc in 0..count {
        let (from, to) = g.ends(arc);
        let k = arc as usize;
        total += crossing_part(set[from as usize], set[to as usize], out[k], into[k]);
    }
    total
}

/// What one unit costs along some arcs.
pub fn cost_along(cost: &[i64], arcs: &[u32]) -> i128
    requires inside { (i : ℕ) → i < length arcs.now → at 0 arcs.now i < length cost.now }
    requires small { (k : ℕ) → k < length cost.now → IsValue (at (pos 0) cost.now k) }
    ensures { result ≡ along (at (pos 0) cost.now) arcs.now }
{
    let mut total: i128 = 0;
    for i in 0..arcs.len() {
        total += widened(cost[arcs[i] as usize]);
    }
    total
}
