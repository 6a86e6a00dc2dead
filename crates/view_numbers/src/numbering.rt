//! A view as a numbered digraph.

ghost use Rattle.std.specs.Prelude.{◌≡◌, [], IfOk, IfErr, OnOk};
ghost use Rattle.notify_chain.specs.Seats.{seats};
ghost use Rattle.view_numbers.specs.Listed.{Numbers, Fits, IsFull};

use crate::fault::NumberFault;
use crate::listing::{list_arcs, list_nodes};
use notify_chain::Chain;
use observe_core::Observer;
use static_digraph::Fixed;
use std::alloc::Global;
use view_core::Shown;

/// The nodes and arcs of a view by number, in the order of the view; the item of each is its id.
/// The chains have no seat.
///
/// `Full` of nodes exactly where the view shows more than `MAX_NODES` nodes, otherwise `Full` of
/// arcs exactly where it shows more than `MAX_ARCS` arcs.
pub fn number<G: Shown, O: Observer>(
    alloc: Global,
    g: &G,
    on_nodes: &mut Chain<O>,
    on_arcs: &mut Chain<O>,
) -> Result<Fixed, NumberFault>
    requires no_nodes { seats O.watch on_nodes.old ≡ [] }
    requires no_arcs { seats O.watch on_arcs.old ≡ [] }
    ensures numbered { IfOk result (λ fixed. Numbers (G.graph g.now) fixed) }
    ensures fits { OnOk result (Fits (G.graph g.now)) }
    ensures full { IfErr result (IsFull (G.graph g.now)) }
{
    let nodes = list_nodes(alloc, g)?;
    let arcs = list_arcs(alloc, g, &nodes)?;
    match Fixed::build(alloc, &nodes, &arcs, on_nodes, on_arcs) {
        Ok(fixed) => Ok(fixed),
        Err(_) => Err(NumberFault::Memory),
    }
}
