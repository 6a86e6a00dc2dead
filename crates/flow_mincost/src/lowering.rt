//! Arcs without an upper bound are lowered from the capacity that stands for none.

ghost use Rattle.std.specs.Prelude.{◌≡◌, ◌<◌, ℕ, ℤ, pos, IfOk, OnOk};
ghost use Rattle.std.specs.Option.{option_map};
ghost use Rattle.plain_certificates.specs.Tables.{at};
ghost use Rattle.static_digraph.specs.Fixed.{graph_of};
ghost use Rattle.task_bounds.specs.Plan.{AreSmall};
ghost use Rattle.flow_mincost.specs.Prices.{HasNoGain, Lowered};
ghost use Rattle.flow_mincost.specs.Pushing.{Keeps};
ghost use Rattle.flow_mincost.specs.Rooms.{IsWithin};

use crate::lengths::drops_of;
use crate::pushing::push_round;
use pace_search::{CycleSearch, negative_cycle};
use static_digraph::Fixed;
use std::alloc::{AllocError, Global};
use task_bounds::cost_along;

/// Lowers the flow round each cycle of arcs without an upper bound that all carry something, until
/// there is none: then none of these arcs carries more than the others make it. Or until one costs
/// less than nothing, and gives its arcs.
///
/// Where no cycle of negative cost was left, none is left afterwards, by the same potentials; each
/// node sends what it sent before. The only error is want of memory.
pub fn lower(
    alloc: Global,
    g: &Fixed,
    cap: &[u64],
    cost: &[i64],
    sent: &mut [u64],
) -> Result<Option<Vec<u32>>, AllocError>
    requires within { IsWithin (graph_of g.now) cap.now sent.old }
    requires cost { AreSmall (graph_of g.now).arcs cost.now }
    ensures keeps { OnOk result (Keeps (graph_of g.now) cap.now sent.old sent.new) }
    ensures prices { OnOk result ((pi : ℕ → ℤ)
        → HasNoGain (graph_of g.now) (at 0 cap.now) (at (pos 0) cost.now) (at 0 sent.old) pi
        → HasNoGain (graph_of g.now) (at 0 cap.now) (at (pos 0) cost.now) (at 0 sent.new) pi) }
    ensures ends { IfOk result (λ found. Lowered (graph_of g.now) (at 0 cap.now)
        (at (pos 0) cost.now) (at 0 sent.new) (option_map (λ cycle. cycle.items) found)) }
{
    'cycles: loop {
        let lens = drops_of(alloc, g, cap, sent)?;
        match negative_cycle(alloc, g, &lens)? {
            CycleSearch::Potential(_) => return Ok(None),
            CycleSearch::Cycle(cycle) => {
                if cost_along(cost, &cycle) < 0 {
                    return Ok(Some(cycle));
                }
                push_round(g, cap, sent, &cycle, false);
            }
        }
    }
}
