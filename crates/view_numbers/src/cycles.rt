//! Arcs that don't join the two sides, and cycles turned to begin elsewhere.

ghost use Rattle.std.specs.Prelude.{◌≡◌, ◌<◌, IfOk, length};
ghost use Rattle.plain_certificates.specs.Walks.{IsCycle};
ghost use Rattle.static_digraph.specs.Fixed.{graph_of};
ghost use Rattle.view_numbers.specs.Breaches.{IsFirst};
ghost use Rattle.view_numbers.specs.Turned.{is_one_sided, IsTurned, IsLeast};

use base_items::List;
use static_digraph::Fixed;
use std::alloc::{AllocError, Global};

/// The first arc of which both ends are left, or neither is; None exactly where there is none.
pub fn first_one_sided(g: &Fixed, left: &[bool]) -> Option<u32>
    requires { length left.now ≡ (graph_of g.now).nodes }
    ensures { IsFirst (graph_of g.now).arcs (is_one_sided (graph_of g.now) left.now) result }
{
    let count = g.arc_count();
    let mut arc = 0;
    while arc < count {
        let (from, to) = g.ends(arc);
        if left[from as usize] == left[to as usize] {
            return Some(arc);
        }
        arc += 1;
    }
    None
}

/// The place of the arc whose item is least.
fn least_place(g: &Fixed, cycle: &[u32]) -> usize
    requires { IsCycle (graph_of g.now) cycle.now }
    ensures { IsLeast g.now cycle.now result }
{
    let mut least = 0;
    let mut place = 1;
    while place < cycle.len() {
        if g.arc_item(cycle[place]) < g.arc_item(cycle[least]) {
            least = place;
        }
        place += 1;
    }
    least
}

/// The same cycle from the arc whose item is least.
pub fn turn_cycle(alloc: Global, g: &Fixed, cycle: &List<u32>) -> Result<List<u32>, AllocError>
    requires { IsCycle (graph_of g.now) cycle.now }
    ensures { IfOk result (λ turned. IsTurned g.now cycle.now turned) }
{
    let arcs = cycle.as_slice();
    let place = least_place(g, arcs);
    let mut turned = Vec::with_capacity(alloc, arcs.len())?;
    turned.extend_from_slice(&arcs[place..])?;
    turned.extend_from_slice(&arcs[..place])?;
    Ok(List::from_vec(turned))
}
