//! The public call.

ghost use Rattle.std.specs.Prelude.{IfOk, MatchOption};
ghost use Rattle.std.specs.Option.{option_copied};
ghost use Rattle.plain_certificates.specs.Feasible.{Bounds};
ghost use Rattle.static_digraph.specs.Fixed.{graph_of};
ghost use Rattle.task_bounds.specs.Given.{AreGiven, AreOrdered, bounds_given};
ghost use Rattle.task_bounds.specs.Plan.{IsReady, IsReadyFor};
ghost use Rattle.task_bounds.specs.Answers.{ShowsNoFlow};
ghost use Rattle.flow_circulate.specs.Answers.{Answers};
ghost use Rattle.flow_circulate.specs.Runs.{HasRun, IsMet};

use crate::loads::load_of;
use base_items::List;
use flow_loads::{Load, settle};
use flow_rows::{at_top, network_of};
use static_digraph::{Barrier, Fixed};
use std::alloc::{AllocError, Global};
use task_bounds::{Plan, barrier_of, first_positive, flows_of, plan_of};

/// A feasible flow of each arc; or a set of nodes that shows that no flow is feasible.
#[derive(Drop)]
pub enum Circulation {
    Flow(List<i64>),
    Barrier(Barrier),
}

/// What the engine leaves of a task without added arcs: a flow above the lower bounds, with what is
/// left over at nodes or wanted by them still. The only error is want of memory.
pub fn run(alloc: Global, g: &Fixed, plan: &Plan) -> Result<Load, AllocError>
    requires { IsReady (graph_of g.now) 0 plan.now }
    ensures { IfOk result (HasRun (graph_of g.now) plan.now) }
{
    let arcs = g.arc_count() as usize;
    let begun = load_of(alloc, &plan.excess, arcs)?;
    let Some(_some) = first_positive(&begun.excess, 0) else {
        return Ok(begun);
    };
    let net = network_of(alloc, g)?;
    settle(alloc, &net, &plan.caps, begun)
}

/// The barrier that the end of a run shows, or None where nothing is left over or wanted: where
/// something is left over, the nodes at the top supply too much; where something is wanted still,
/// all nodes together supply too little. The only error is want of memory.
pub fn barrier_at(
    alloc: Global,
    g: &Fixed,
    plan: &Plan,
    ended: &Load,
) -> Result<Option<Barrier>, AllocError>
    requires ready { IsReady (graph_of g.now) 0 plan.now }
    requires ran { HasRun (graph_of g.now) plan.now ended.now }
    ensures { (bounds : Bounds) → IsReadyFor (graph_of g.now) bounds plan.now
        → IfOk result (λ found. MatchOption found (IsMet (graph_of g.now) ended.now)
        (ShowsNoFlow (graph_of g.now) bounds)) }
{
    let nodes = g.node_count();
    if let Some(_left) = first_positive(&ended.excess, 0) {
        let side = at_top(alloc, &ended.height, nodes)?;
        let barrier = barrier_of(g, plan, side, true);
        return Ok(Some(barrier));
    }
    if let Some(_wanted) = first_positive(&ended.want, 0) {
        let all = vec![in alloc; true; nodes as usize]?;
        let set = List::from_vec(all);
        let lack = barrier_of(g, plan, set, false);
        return Ok(Some(lack));
    }
    Ok(None)
}

/// The answer that the end of a run shows.
fn answer_of(alloc: Global, g: &Fixed, plan: &Plan, ended: &Load) -> Result<Circulation, AllocError>
    requires ready { IsReady (graph_of g.now) 0 plan.now }
    requires ran { HasRun (graph_of g.now) plan.now ended.now }
    ensures { (bounds : Bounds) → IsReadyFor (graph_of g.now) bounds plan.now
        → IfOk result (Answers (graph_of g.now) bounds) }
{
    if let Some(barrier) = barrier_at(alloc, g, plan, ended)? {
        return Ok(Circulation::Barrier(barrier));
    }
    let flow = flows_of(alloc, &plan.lower, &ended.flow)?;
    Ok(Circulation::Flow(List::from_vec(flow)))
}

/// A flow within its bounds of which each node sends out its supply, or what shows that there is
/// none.
///
/// `lower` and `upper` have the bounds of each arc, and `supply` has what each node sends out more
/// than it takes in; each is within 2^36 of 0. Absent lower bounds and supplies are 0, and absent
/// upper bounds are none. A barrier is a set of nodes that supplies more than can leave it, or less
/// than must leave it. The only error is want of memory.
pub fn circulate(
    alloc: Global,
    g: &Fixed,
    lower: Option<&[i64]>,
    upper: Option<&[i64]>,
    supply: Option<&[i64]>,
) -> Result<Circulation, AllocError>
    requires lower { AreGiven (graph_of g.now).arcs (option_copied lower) }
    requires upper { AreGiven (graph_of g.now).arcs (option_copied upper) }
    requires supply { AreGiven (graph_of g.now).nodes (option_copied supply) }
    requires ordered { AreOrdered (graph_of g.now)
        (bounds_given (option_copied lower) (option_copied upper) (option_copied supply)) }
    ensures { IfOk result (Answers (graph_of g.now) (bounds_given (option_copied lower.entry)
        (option_copied upper.entry) (option_copied supply.entry))) }
{
    let plan = plan_of(alloc, g, lower, upper, supply, 0)?;
    let ended = run(alloc, g, &plan)?;
    answer_of(alloc, g, &plan, &ended)
}
