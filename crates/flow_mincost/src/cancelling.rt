//! Cycles of negative cost are cancelled until none is left.

ghost use Rattle.std.specs.Prelude.{◌≡◌, ◌*◌, ◌<◌, ◌≤◌, ℕ, All, length, pos, IfOk, OnOk};
ghost use Rattle.std.specs.List.{list_all};
ghost use Rattle.plain_certificates.specs.Tables.{at};
ghost use Rattle.pace_search.specs.Paces.{pace_at as pace_of};
ghost use Rattle.static_digraph.specs.Fixed.{graph_of};
ghost use Rattle.task_bounds.specs.Plan.{AreSmall};
ghost use Rattle.flow_mincost.specs.Prices.{Cancelled};
ghost use Rattle.flow_mincost.specs.Pushing.{Keeps};
ghost use Rattle.flow_mincost.specs.Rooms.{IsWithin, is_open as opens};

use crate::lengths::costs_of;
use crate::pushing::push_round;
use crate::rooms::is_open;
use pace_search::{CycleSearch, negative_cycle};
use static_digraph::Fixed;
use std::alloc::{AllocError, Global};

/// Whether all paces lead along arcs without an upper bound.
fn are_open(g: &Fixed, cap: &[u64], round: &[u32]) -> bool
    requires caps { length cap.now ≡ (graph_of g.now).arcs }
    requires known { All (λ k. k < 2 * (graph_of g.now).arcs) round.now }
    ensures { result ≡ list_all (λ k. opens (at 0 cap.now) (pace_of (graph_of g.now) k)) round.now }
{
    for i in 0..round.len() {
        if !is_open(g, cap, round[i]) {
            return false;
        }
    }
    true
}

/// Cancels cycles of negative cost until none is left, and gives potentials that show it; or until
/// a cycle of arcs without an upper bound costs less than nothing, and gives its arcs.
///
/// `sent` is within the capacities, of which 2^62 stands for none; each node sends afterwards what
/// it sent before. The only error is want of memory.
///
/// After M. Klein: the cost is a whole number, which falls with each cycle and has a floor.
pub fn cancel(
    alloc: Global,
    g: &Fixed,
    cap: &[u64],
    cost: &[i64],
    sent: &mut [u64],
) -> Result<CycleSearch, AllocError>
    requires within { IsWithin (graph_of g.now) cap.now sent.old }
    requires cost { AreSmall (graph_of g.now).arcs cost.now }
    ensures keeps { OnOk result (Keeps (graph_of g.now) cap.now sent.old sent.new) }
    ensures ends { IfOk result (Cancelled (graph_of g.now) (at 0 cap.now) (at (pos 0) cost.now)
        (at 0 sent.new)) }
{
    'cycles: loop {
        let lens = costs_of(alloc, g, cap, cost, sent)?;
        match negative_cycle(alloc, g, &lens)? {
            CycleSearch::Potential(pi) => return Ok(CycleSearch::Potential(pi)),
            CycleSearch::Cycle(round) => {
                if are_open(g, cap, &round) {
                    return Ok(CycleSearch::Cycle(round));
                }
                push_round(g, cap, sent, &round, true);
            }
        }
    }
}
