//! A set of nodes told as a barrier.

ghost use Rattle.std.specs.Prelude.{◌≡◌, length, pos};
ghost use Rattle.plain_certificates.specs.Tables.{at};
ghost use Rattle.static_digraph.specs.Fixed.{graph_of};
ghost use Rattle.task_bounds.specs.Barriers.{IsToldOf};
ghost use Rattle.task_bounds.specs.Plan.{AreSmall};

use crate::plan::Plan;
use crate::sums::{sum_chosen, sum_crossing};
use base_items::List;
use static_digraph::{Barrier, Fixed};

/// The nodes with what they supply, and with what can leave them where they are told as `over`, or
/// must leave them.
pub fn barrier_of(g: &Fixed, plan: &Plan, nodes: List<bool>, over: bool) -> Barrier
    requires nodes { length nodes ≡ (graph_of g.now).nodes }
    requires lower { AreSmall (graph_of g.now).arcs plan.now.lower.items }
    requires upper { AreSmall (graph_of g.now).arcs plan.now.upper.items }
    requires supply { AreSmall (graph_of g.now).nodes plan.now.supply.items }
    ensures nodes { result.nodes ≡ nodes }
    ensures told { IsToldOf (graph_of g.now) (at (pos 0) plan.now.lower.items)
        (at (pos 0) plan.now.upper.items) (at (pos 0) plan.now.supply.items) over result }
{
    let _few = g.node_count();
    let supply = sum_chosen(nodes.as_slice(), &plan.supply);
    let limit = if over {
        sum_crossing(g, nodes.as_slice(), &plan.upper, &plan.lower)
    } else {
        sum_crossing(g, nodes.as_slice(), &plan.lower, &plan.upper)
    };
    Barrier {
        over,
        nodes,
        supply,
        limit,
    }
}
