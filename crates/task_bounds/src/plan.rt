//! A task made ready.

ghost use Rattle.std.specs.Prelude.{◌≤◌, IfOk};
ghost use Rattle.std.specs.Option.{option_copied};
ghost use Rattle.static_digraph.specs.Fixed.{graph_of};
ghost use Rattle.task_bounds.specs.Given.{AreGiven, AreOrdered, bounds_given};
ghost use Rattle.task_bounds.specs.Plan.{IsReady, IsReadyFor};

use crate::excess::excess_of;
use crate::given::{rooms_of, values_of};
use static_digraph::Fixed;
use std::alloc::{AllocError, Global};

/// The bounds of each arc, where absent upper ones are 0, and the supply of each node; the room
/// between the bounds of each arc, and open room for each added one; and what each node is to send
/// once the lower bounds are sent.
#[derive(Drop)]
pub struct Plan {
    pub lower: Vec<i64>,
    pub upper: Vec<i64>,
    pub supply: Vec<i64>,
    pub caps: Vec<u64>,
    pub excess: Vec<i64>,
}

/// A task made ready, with room for so many added arcs, at most one for each node.
pub fn plan_of(
    alloc: Global,
    g: &Fixed,
    lower: Option<&[i64]>,
    upper: Option<&[i64]>,
    supply: Option<&[i64]>,
    added: usize,
) -> Result<Plan, AllocError>
    requires lower { AreGiven (graph_of g.now).arcs (option_copied lower) }
    requires upper { AreGiven (graph_of g.now).arcs (option_copied upper) }
    requires supply { AreGiven (graph_of g.now).nodes (option_copied supply) }
    requires ordered { AreOrdered (graph_of g.now)
        (bounds_given (option_copied lower) (option_copied upper) (option_copied supply)) }
    requires added { added ≤ (graph_of g.now).nodes }
    ensures ready { IfOk result (IsReady (graph_of g.now) added) }
    ensures task { IfOk result (IsReadyFor (graph_of g.now)
        (bounds_given (option_copied lower.entry) (option_copied upper.entry)
        (option_copied supply.entry))) }
{
    let nodes = g.node_count() as usize;
    let arcs = g.arc_count() as usize;
    let low = values_of(alloc, lower, arcs)?;
    let high = values_of(alloc, upper, arcs)?;
    let supplies = values_of(alloc, supply, nodes)?;
    let caps = rooms_of(alloc, &low, upper, arcs + added)?;
    let excess = excess_of(alloc, g, &low, &supplies)?;
    Ok(Plan {
        lower: low,
        upper: high,
        supply: supplies,
        caps,
        excess,
    })
}
