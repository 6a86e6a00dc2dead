//! The public call.

ghost use Rattle.std.specs.Prelude.{◌≡◌, ℕ, ◌<◌, ◌≤◌, ◌^◌, ℤ, pos, List, length, All, IfOk};
ghost use Rattle.std.specs.Option.{option_copied};
ghost use Rattle.plain_certificates.specs.Feasible.{Bounds};
ghost use Rattle.plain_certificates.specs.Numbered.{Numbered};
ghost use Rattle.plain_certificates.specs.Tables.{at};
ghost use Rattle.static_digraph.specs.Fixed.{graph_of};
ghost use Rattle.task_bounds.specs.Answers.{IsFree, Shows};
ghost use Rattle.task_bounds.specs.Given.{AreGiven, AreOrdered, IsValue, bounds_given};
ghost use Rattle.task_bounds.specs.Plan.{AreSmall, IsReady, IsReadyFor};
ghost use Rattle.flow_mincost.specs.Prices.{ArePrices, HasLevels};
ghost use Rattle.flow_mincost.specs.Sent.{IsSent};

use crate::cancelling::cancel;
use crate::lowering::lower;
use base_items::List;
use flow_circulate::{barrier_at, run};
use pace_search::CycleSearch;
use static_digraph::{CostAnswer, Fixed};
use std::alloc::{AllocError, Global};
use task_bounds::{Plan, cost_along, cost_of, flows_of, plan_of, potentials_of};

/// The answer that a free cycle and a flow above the lower bounds show.
fn freed(
    alloc: Global,
    plan: &Plan,
    cost: &[i64],
    cycle: Vec<u32>,
    sent: &[u64],
) -> Result<CostAnswer, AllocError>
    requires lower { AreSmall (length sent.now) plan.now.lower.items }
    requires cost { AreSmall (length sent.now) cost.now }
    requires cycle { All (λ k. k < length sent.now) cycle.items }
    requires sent { (k : ℕ) → k < length sent.now → at 0 sent.now k ≤ 2 ^ 62 }
    ensures { (g : Numbered) (bounds : Bounds) → IsReadyFor g bounds plan.now
        → IsSent g plan.now sent.now
        → IsFree g (at 0 plan.now.caps.items) (at (pos 0) cost.now) cycle.items
        → IfOk result (Shows g bounds (at (pos 0) cost.now)) }
{
    let flow = flows_of(alloc, &plan.lower, sent)?;
    let total = cost_along(cost, &cycle);
    Ok(CostAnswer::FreeCycle {
        flow: List::from_vec(flow),
        cycle: List::from_vec(cycle),
        cost: total,
    })
}

/// The answer that a flow above the lower bounds shows where potentials and levels are right.
fn best(
    alloc: Global,
    g: &Fixed,
    plan: &Plan,
    cost: &[i64],
    pi: &[i64],
    sent: &[u64],
) -> Result<CostAnswer, AllocError>
    requires ready { IsReady (graph_of g.now) 0 plan.now }
    requires cost { AreSmall (graph_of g.now).arcs cost.now }
    requires sent { IsSent (graph_of g.now) plan.now sent.now }
    requires prices { ArePrices (graph_of g.now) (at 0 plan.now.caps.items) (at (pos 0) cost.now)
        (at 0 sent.now) pi.now }
    requires levels { HasLevels (graph_of g.now) (at 0 plan.now.caps.items) (at 0 sent.now) }
    ensures { (bounds : Bounds) → IsReadyFor (graph_of g.now) bounds plan.now
        → IfOk result (Shows (graph_of g.now) bounds (at (pos 0) cost.now)) }
{
    let flow = flows_of(alloc, &plan.lower, sent)?;
    let told = potentials_of(alloc, pi, g.node_count() as usize)?;
    let total = cost_of(cost, &flow);
    Ok(CostAnswer::Optimal {
        flow: List::from_vec(flow),
        pi: List::from_vec(told),
        cost: total,
    })
}

/// Makes a flow above the lower bounds a cheapest one, or finds a free cycle.
fn settle(
    alloc: Global,
    g: &Fixed,
    plan: &Plan,
    cost: &[i64],
    sent: &mut [u64],
) -> Result<CostAnswer, AllocError>
    requires ready { IsReady (graph_of g.now) 0 plan.now }
    requires cost { AreSmall (graph_of g.now).arcs cost.now }
    requires sent { IsSent (graph_of g.now) plan.now sent.old }
    ensures { (bounds : Bounds) → IsReadyFor (graph_of g.now) bounds plan.now
        → IfOk result (Shows (graph_of g.now) bounds (at (pos 0) cost.now)) }
{
    match cancel(alloc, g, &plan.caps, cost, sent)? {
        CycleSearch::Cycle(cycle) => freed(alloc, plan, cost, cycle, sent),
        CycleSearch::Potential(pi) => match lower(alloc, g, &plan.caps, cost, sent)? {
            Some(cycle) => freed(alloc, plan, cost, cycle, sent),
            None => best(alloc, g, plan, cost, &pi, sent),
        },
    }
}

/// A cheapest flow of a digraph, or what shows that there is none.
///
/// `lower` and `upper` have the bounds of each arc, `cost` what each unit of its flow costs, and
/// `supply` what each node sends out more than it takes in; each is within 2^36 of 0. Absent lower
/// bounds and supplies are 0, and absent upper bounds are none. The answer is a flow of least cost
/// with potentials, of which the first node has 0; or a set of nodes that leaves no feasible flow;
/// or a feasible flow with a cycle of arcs without bounds that makes any flow cheaper. The only
/// error is want of memory.
///
/// It takes a feasible flow and cancels cycles, one after the other: much slower than the network
/// simplex method, and apart from it, so that each can be held against the other.
pub fn cheapest(
    alloc: Global,
    g: &Fixed,
    lower: Option<&[i64]>,
    upper: Option<&[i64]>,
    cost: &[i64],
    supply: Option<&[i64]>,
) -> Result<CostAnswer, AllocError>
    requires lower { AreGiven (graph_of g.now).arcs (option_copied lower) }
    requires upper { AreGiven (graph_of g.now).arcs (option_copied upper) }
    requires cost { (length cost.now ≡ (graph_of g.now).arcs) × All IsValue cost.now }
    requires supply { AreGiven (graph_of g.now).nodes (option_copied supply) }
    requires ordered { AreOrdered (graph_of g.now)
        (bounds_given (option_copied lower) (option_copied upper) (option_copied supply)) }
    ensures { IfOk result (Shows (graph_of g.now)
        (bounds_given (option_copied lower.entry) (option_copied upper.entry)
        (option_copied supply.entry))
        (at (pos 0) cost.now)) }
{
    let plan = plan_of(alloc, g, lower, upper, supply, 0)?;
    let ended = run(alloc, g, &plan)?;
    if let Some(barrier) = barrier_at(alloc, g, &plan, &ended)? {
        return Ok(CostAnswer::Barrier(barrier));
    }
    let mut sent = ended.flow;
    settle(alloc, g, &plan, cost, &mut sent)
}
