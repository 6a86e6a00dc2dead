//! What a view shows, in lists.

ghost use Rattle.std.specs.Prelude.{◌≡◌, true, map, IfOk, IfErr, OnOk, None, option_map};
ghost use Rattle.plain_digraph.specs.Lists.{first, has};
ghost use Rattle.plain_views.specs.Shown.{has_arc};
ghost use Rattle.view_numbers.specs.Listed.{facts_of, fact_shown};
ghost use Rattle.desk_world.specs.Faults.{Is};
ghost use Rattle.desk_world.specs.Shown as shown;
ghost use Rattle.desk_world.specs.Shown.{fault_of_size, told_as, arcs_at, ids_at};

use base_items::{Arc, Fact, ItemSort, Limit, MAX_ARCS, MAX_NODES, Node};
use report_text::{Fault, StepFault};
use script_words::Direction;
use std::alloc::{AllocError, Global};
use view_core::Shown;
use view_numbers::{NumberFault, list_arcs, list_nodes};

/// The fault of a view that isn't listed.
pub fn not_listed(fault: NumberFault) -> StepFault
    ensures { result ≡ told_as fault }
{
    match fault {
        NumberFault::Full(Limit::Nodes) => {
            StepFault::Refused(Fault::Full(ItemSort::Node, MAX_NODES))
        }
        NumberFault::Full(_) => StepFault::Refused(Fault::Full(ItemSort::Arc, MAX_ARCS)),
        NumberFault::Memory => StepFault::Memory,
    }
}

/// The nodes and the arcs of a view, in its order. `Full` where it shows more nodes than the limit,
/// or else more arcs.
pub fn list_view<G: Shown>(alloc: Global, g: &G) -> Result<(Vec<u32>, Vec<Fact>), StepFault>
    ensures nodes { IfOk result (λ lists. lists.0.items ≡ (G.graph g.now).nodes) }
    ensures arcs { IfOk result (λ lists. lists.1.items ≡ facts_of (G.graph g.now)) }
    ensures small { OnOk result (fault_of_size (G.graph g.now) ≡ None) }
    ensures full { IfErr result (Is (fault_of_size (G.graph g.now))) }
{
    let nodes = match list_nodes(alloc, g) {
        Ok(nodes) => nodes,
        Err(fault) => return Err(not_listed(fault)),
    };
    match list_arcs(alloc, g, nodes.as_slice()) {
        Ok(arcs) => Ok((nodes, arcs)),
        Err(fault) => Err(not_listed(fault)),
    }
}

// The first arc from a node, or to it.
fn first_at<G: Shown>(g: &G, way: Direction, node: u32) -> Option<Arc>
    requires { has (G.graph g.now).nodes node ≡ true }
    ensures { option_map (λ a. a.0) result ≡ first (ids_at way (G.graph g.now) node) }
{
    match way {
        Direction::Out => g.first_out(Node(node)),
        Direction::In => g.first_in(Node(node)),
    }
}

// The arc after this one from the same source, or to the same target.
fn next_at<G: Shown>(g: &G, way: Direction, a: Arc) -> Option<Arc>
    requires { has_arc (G.graph g.now) a.0 ≡ true }
    ensures { option_map (λ a. a.0) result ≡ shown.next_at way (G.graph g.now) a.0 }
{
    match way {
        Direction::Out => g.next_out(a),
        Direction::In => g.next_in(a),
    }
}

/// The arcs from a node, or to it, in the view's order.
pub fn list_at<G: Shown>(
    alloc: Global,
    g: &G,
    way: Direction,
    node: u32,
) -> Result<Vec<Fact>, AllocError>
    requires { has (G.graph g.now).nodes node ≡ true }
    ensures { IfOk result (λ arcs. arcs.items
        ≡ map fact_shown (arcs_at way (G.graph g.now) node)) }
{
    let mut arcs = Vec::new(alloc);
    let mut next = first_at(g, way, node);
    'arcs: while let Some(a) = next {
        let (from, to) = g.ends(a);
        arcs.push(Fact {
            id: a.0,
            from: from.0,
            to: to.0,
            from_at: 0,
            to_at: 0,
        })?;
        next = next_at(g, way, a);
    }
    Ok(arcs)
}
