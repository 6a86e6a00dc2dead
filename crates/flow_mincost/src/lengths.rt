//! The lengths of paces for the two searches.

ghost use Rattle.std.specs.Prelude.{◌≡◌, ◌<◌, ℕ, cond, neg_ℤ, pos, IfOk};
ghost use Rattle.plain_certificates.specs.Tables.{at};
ghost use Rattle.plain_certificates.specs.Pushes.{by_pace};
ghost use Rattle.plain_certificates.specs.Walks.{Pace};
ghost use Rattle.static_digraph.specs.Fixed.{graph_of};
ghost use Rattle.task_bounds.specs.Given.{IsValue};
ghost use Rattle.task_bounds.specs.Plan.{AreSmall};
ghost use Rattle.flow_mincost.specs.Lengths.{AreCosts, AreDrops, IsLength};
ghost use Rattle.flow_mincost.specs.Rooms.{IsWithin};

use crate::rooms::{open_load, room_of};
use pace_search::{NO_PACE, pace_at};
use static_digraph::Fixed;
use std::alloc::{AllocError, Global};

/// A value where there is something above 0, and else the length that stands for no pace.
fn length_of(some: u64, value: i64) -> i64
    ensures { IsLength some value result }
{
    if some > 0 { value } else { NO_PACE }
}

/// A value as a pace counts it: turned round where the arc is walked against.
fn turned(value: i64, onward: bool) -> i64
    requires { IsValue value }
    ensures { (pace : Pace) → pace.onward ≡ onward → result ≡ by_pace pace value }
{
    if onward { value } else { -value }
}

/// What a unit costs along each pace with room.
pub fn costs_of(
    alloc: Global,
    g: &Fixed,
    cap: &[u64],
    cost: &[i64],
    sent: &[u64],
) -> Result<Vec<i64>, AllocError>
    requires within { IsWithin (graph_of g.now) cap.now sent.now }
    requires cost { AreSmall (graph_of g.now).arcs cost.now }
    ensures { IfOk result (λ lens. AreCosts (graph_of g.now) (at 0 cap.now) (at (pos 0) cost.now)
        (at 0 sent.now) lens.items) }
{
    let paces = 2 * g.arc_count();
    let mut lens = vec![in alloc; 0i64; paces as usize]?;
    for pace in 0..paces {
        let (arc, onward) = pace_at(g, pace);
        let value = turned(cost[arc as usize], onward);
        lens[pace as usize] = length_of(room_of(g, cap, sent, pace, true), value);
    }
    Ok(lens)
}

/// -1 along each arc without an upper bound that carries something, and no other pace.
pub fn drops_of(alloc: Global, g: &Fixed, cap: &[u64], sent: &[u64]) -> Result<Vec<i64>, AllocError>
    requires within { IsWithin (graph_of g.now) cap.now sent.now }
    ensures { IfOk result (λ lens. AreDrops (graph_of g.now) (at 0 cap.now) (at 0 sent.now)
        lens.items) }
{
    let paces = 2 * g.arc_count();
    let mut lens = vec![in alloc; 0i64; paces as usize]?;
    for pace in 0..paces {
        lens[pace as usize] = length_of(open_load(g, cap, sent, pace), -1);
    }
    Ok(lens)
}
