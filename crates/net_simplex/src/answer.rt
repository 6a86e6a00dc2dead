//! The public call.

ghost use Rattle.std.specs.Prelude.{◌≡◌, ℕ, ◌+◌, ◌<◌, ◌≤◌, ◌^◌, ℤ, pos, List, length};
ghost use Rattle.std.specs.Prelude.{All, IfOk, None};
ghost use Rattle.std.specs.Option.{option_copied};
ghost use Rattle.plain_certificates.specs.Feasible.{Bounds};
ghost use Rattle.plain_certificates.specs.Tables.{at};
ghost use Rattle.static_digraph.specs.Fixed.{graph_of};
ghost use Rattle.task_bounds.specs.Given.{AreGiven, AreOrdered, IsValue, bounds_given};
ghost use Rattle.net_simplex.specs.Answers.{Answers};
ghost use Rattle.task_bounds.specs.Answers.{IsFree};
ghost use Rattle.net_simplex.specs.Network.{IsWeighed};
ghost use Rattle.task_bounds.specs.Plan.{AreSmall, IsReady, IsReadyFor};
ghost use Rattle.net_simplex.specs.Weights.{AreWeights};
ghost use Rattle.net_simplex.specs.Solved.{IsSolved};

use crate::cycle::cycle_of;
use crate::solved::{Solved, solve_network};
use crate::told::{is_side, sides_of};
use crate::weights::weights_of;
use base_items::List;
use static_digraph::{CostAnswer, Fixed};
use std::alloc::{AllocError, Global};
use task_bounds::{
    Plan, barrier_of, cost_along, cost_of, first_positive, flows_of, plan_of, potentials_of,
};

/// The barrier that a node whose added arc still carries something shows.
fn barred(
    alloc: Global,
    g: &Fixed,
    plan: &Plan,
    solved: &Solved,
    v: usize,
) -> Result<CostAnswer, AllocError>
    requires ready { IsReady (graph_of g.now) (graph_of g.now).nodes plan.now }
    requires stopped { solved.now.endless ≡ None }
    requires node { v < (graph_of g.now).nodes }
    requires short { 0 < at 0 solved.now.flow.sent.items ((graph_of g.now).arcs + v) }
    requires prices { length solved.now.flow.price.items ≡ (graph_of g.now).nodes + 1 }
    ensures { (bounds : Bounds) (weights : List ℤ) (cost : ℕ → ℤ)
        → IsReadyFor (graph_of g.now) bounds plan.now
        → IsWeighed (graph_of g.now) (at (pos 0) weights)
        → IsSolved (graph_of g.now) (at (pos 0) plan.now.excess.items) plan.now.caps.items weights
        solved.now → IfOk result (Answers (graph_of g.now) bounds cost) }
{
    let over = is_side(solved.flow.price[v], true);
    let side = sides_of(alloc, &solved.flow.price, over, g.node_count() as usize)?;
    let barrier = barrier_of(g, plan, List::from_vec(side), over);
    Ok(CostAnswer::Barrier(barrier))
}

/// The answer that a run without an endless cycle shows.
fn settle(
    alloc: Global,
    g: &Fixed,
    plan: &Plan,
    cost: &[i64],
    weights: &[i64],
    solved: &Solved,
) -> Result<CostAnswer, AllocError>
    requires ready { IsReady (graph_of g.now) (graph_of g.now).nodes plan.now }
    requires cost { AreSmall (graph_of g.now).arcs cost.now }
    requires weights { AreWeights (graph_of g.now).arcs (graph_of g.now).nodes (at (pos 0) cost.now)
        weights.now }
    requires solved { IsSolved (graph_of g.now) (at (pos 0) plan.now.excess.items)
        plan.now.caps.items weights.now solved.now }
    requires stopped { solved.now.endless ≡ None }
    ensures { (bounds : Bounds) → IsReadyFor (graph_of g.now) bounds plan.now
        → IfOk result (Answers (graph_of g.now) bounds (at (pos 0) cost.now)) }
{
    if let Some(v) = first_positive(&solved.flow.sent, g.arc_count() as usize) {
        return barred(alloc, g, plan, solved, v);
    }
    let flow = flows_of(alloc, &plan.lower, &solved.flow.sent)?;
    let pi = potentials_of(alloc, &solved.flow.price, g.node_count() as usize)?;
    let cost = cost_of(cost, &flow);
    Ok(CostAnswer::Optimal {
        flow: List::from_vec(flow),
        pi: List::from_vec(pi),
        cost,
    })
}

/// The answer where a cycle of arcs without bounds is free, and a run without costs has ended.
fn freed(
    alloc: Global,
    g: &Fixed,
    plan: &Plan,
    cost: &[i64],
    cycle: Vec<u32>,
    solved: &Solved,
) -> Result<CostAnswer, AllocError>
    requires ready { IsReady (graph_of g.now) (graph_of g.now).nodes plan.now }
    requires cost { AreSmall (graph_of g.now).arcs cost.now }
    requires cycle { IsFree (graph_of g.now) (at 0 plan.now.caps.items) (at (pos 0) cost.now)
        cycle.items }
    requires stopped { solved.now.endless ≡ None }
    requires all { length solved.now.flow.sent.items
        ≡ (graph_of g.now).arcs + (graph_of g.now).nodes }
    requires sent { (k : ℕ) → k < (graph_of g.now).arcs
        → at 0 solved.now.flow.sent.items k ≤ 2 ^ 62 }
    requires prices { length solved.now.flow.price.items ≡ (graph_of g.now).nodes + 1 }
    ensures { (bounds : Bounds) (weights : List ℤ) → IsReadyFor (graph_of g.now) bounds plan.now
        → IsWeighed (graph_of g.now) (at (pos 0) weights)
        → IsSolved (graph_of g.now) (at (pos 0) plan.now.excess.items) plan.now.caps.items weights
        solved.now → IfOk result (Answers (graph_of g.now) bounds (at (pos 0) cost.now)) }
{
    if let Some(v) = first_positive(&solved.flow.sent, g.arc_count() as usize) {
        return barred(alloc, g, plan, solved, v);
    }
    let flow = flows_of(alloc, &plan.lower, &solved.flow.sent)?;
    let total = cost_along(cost, &cycle);
    Ok(CostAnswer::FreeCycle {
        flow: List::from_vec(flow),
        cycle: List::from_vec(cycle),
        cost: total,
    })
}

/// The answer where a cycle of arcs without bounds makes each flow cheaper: a feasible flow with
/// it, which a run without costs finds, or a barrier.
fn settle_free(
    alloc: Global,
    g: &Fixed,
    plan: &Plan,
    cost: &[i64],
    cycle: Vec<u32>,
) -> Result<CostAnswer, AllocError>
    requires ready { IsReady (graph_of g.now) (graph_of g.now).nodes plan.now }
    requires cost { AreSmall (graph_of g.now).arcs cost.now }
    requires cycle { IsFree (graph_of g.now) (at 0 plan.now.caps.items) (at (pos 0) cost.now)
        cycle.items }
    ensures { (bounds : Bounds) → IsReadyFor (graph_of g.now) bounds plan.now
        → IfOk result (Answers (graph_of g.now) bounds (at (pos 0) cost.now)) }
{
    let zeros = vec![in alloc; 0i64; cost.len()]?;
    let weights = weights_of(alloc, &zeros, g.node_count() as usize)?;
    let solved = solve_network(alloc, g, &plan.excess, &plan.caps, &weights)?;
    match solved.endless {
        None => freed(alloc, g, plan, cost, cycle, &solved),
        Some(_) => unreachable!(),
    }
}

/// A cheapest flow of a digraph, which is basic; or what shows that there is none.
///
/// `lower` and `upper` have the bounds of each arc, `cost` what each unit of its flow costs, and
/// `supply` what each node sends out more than it takes in; each is within 2^36 of 0. Absent lower
/// bounds and supplies are 0, and absent upper bounds are none. The answer is a flow of least cost
/// with potentials, of which the first node has 0, and no arcs strictly between their bounds close
/// up; or a set of nodes that leaves no feasible flow; or a feasible flow with a cycle of arcs
/// without bounds that makes any flow cheaper. The only error is want of memory.
pub fn simplex(
    alloc: Global,
    g: &Fixed,
    lower: Option<&[i64]>,
    upper: Option<&[i64]>,
    cost: &[i64],
    supply: Option<&[i64]>,
) -> Result<CostAnswer, AllocError>
    requires lower { AreGiven (graph_of g.now).arcs (option_copied lower) }
    requires upper { AreGiven (graph_of g.now).arcs (option_copied upper) }
    requires cost { (length cost.now ≡ (graph_of g.now).arcs) × All IsValue cost.now }
    requires supply { AreGiven (graph_of g.now).nodes (option_copied supply) }
    requires ordered { AreOrdered (graph_of g.now)
        (bounds_given (option_copied lower) (option_copied upper) (option_copied supply)) }
    ensures { IfOk result (Answers (graph_of g.now)
        (bounds_given (option_copied lower.entry) (option_copied upper.entry)
        (option_copied supply.entry))
        (at (pos 0) cost.now)) }
{
    let nodes = g.node_count() as usize;
    let plan = plan_of(alloc, g, lower, upper, supply, nodes)?;
    let weights = weights_of(alloc, cost, nodes)?;
    let solved = solve_network(alloc, g, &plan.excess, &plan.caps, &weights)?;
    match solved.endless {
        None => settle(alloc, g, &plan, cost, &weights, &solved),
        Some(endless) => {
            let cycle = cycle_of(alloc, &solved, endless)?;
            settle_free(alloc, g, &plan, cost, cycle)
        }
    }
}
