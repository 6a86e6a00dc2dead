//! Kept views beside the layers that they keep, after each of a list of changes.

ghost use Rattle.alter_graph.specs.State.{state_of, IsInStep};
ghost use Rattle.view_tests.specs.Sides.{watched};

use crate::listing::walked;
use crate::present::{IDS, Present};
use crate::sides::{Side, kept_of, place_arc, place_node};
use alter_graph::{AlterFault, Alterable};
use base_items::ItemSort;
use digraph_text::is_live;
use kept_views::{KeptArcs, KeptNodes};
use list_digraph::ListDigraph;
use named_changes::{Change, alter};
use notify_chain::SeatKey;
use observe_core::KeptShape;
use residual_view::Residual;
use std::alloc::{AllocError, Global};
use std::process::Abort;
use std::test::Fail;
use view_adaptors::Sub;
use view_core::Plain;

// What is done: the digraph is altered, or an item has another value.
#[derive(Clone, Copy, Debug)]
enum Act {
    Alter(Change),
    Node(u32, bool),
    Arc(u32, bool),
    Room(u32, i64, i64),
}

// Arcs side by side, both ways and loops; values on each side of every bound, also a flow below 0
// and one above its capacity; moves of arcs that are shown and of ones that aren't; ids that are
// used again; and compounds of many notices.
const ACTS: [Act; 44] = [
    Act::Alter(Change::AddNode),
    Act::Alter(Change::AddNode),
    Act::Alter(Change::AddNode),
    Act::Alter(Change::AddArc(0, 1)),
    Act::Alter(Change::AddArc(1, 2)),
    Act::Alter(Change::AddArc(0, 1)),
    Act::Node(0, true),
    Act::Node(1, true),
    Act::Arc(0, true),
    Act::Arc(1, true),
    Act::Room(0, 3, 0),
    Act::Room(0, 3, 2),
    Act::Room(0, 3, 3),
    Act::Room(1, -1, -2),
    Act::Room(2, 1, 2),
    Act::Node(2, true),
    Act::Arc(2, true),
    Act::Alter(Change::AddArc(2, 2)),
    Act::Arc(3, true),
    Act::Room(3, 5, 1),
    Act::Alter(Change::AddArc(1, 0)),
    Act::Room(4, 2, 1),
    Act::Arc(4, true),
    Act::Alter(Change::Source(1, 0)),
    Act::Alter(Change::Target(4, 2)),
    Act::Alter(Change::Turn(2)),
    Act::Arc(2, false),
    Act::Alter(Change::Turn(2)),
    Act::Node(1, false),
    Act::Alter(Change::Source(0, 2)),
    Act::Node(1, true),
    Act::Alter(Change::EraseArc(1)),
    Act::Alter(Change::AddArc(2, 0)),
    Act::Arc(1, true),
    Act::Room(1, 4, 4),
    Act::Alter(Change::SplitArc(1)),
    Act::Alter(Change::SplitNode(2, true)),
    Act::Node(4, true),
    Act::Alter(Change::Contract(0, 1, true)),
    Act::Alter(Change::EraseNode(2)),
    Act::Alter(Change::AddNode),
    Act::Room(0, 1, 0),
    Act::Alter(Change::Clear),
    Act::Alter(Change::AddNode),
];

// The layers of the shape over the digraph as it stands.
fn layered(
    alloc: Global,
    graph: &ListDigraph,
    shape: KeptShape,
    values: &Present,
) -> Result<String, AllocError> {
    let base = Plain::new(graph);
    match shape {
        KeptShape::Sub => walked(alloc, &Sub::new(base, values), IDS),
        KeptShape::Residual => walked(alloc, &Residual::new(base, values), IDS * 2),
        KeptShape::ResidualOverSub => {
            walked(
                alloc,
                &Residual::new(Sub::new(base, values), values),
                IDS * 2,
            )
        }
    }
}

// Gives items that aren't live the values of new ones.
fn forget(graph: &ListDigraph, values: &mut Present) {
    for id in 0..IDS {
        if !is_live(graph, ItemSort::Node, id) {
            values.pass_node(id, false);
        }
        if !is_live(graph, ItemSort::Arc, id) {
            values.pass_arc(id, false);
            values.set_room(id, 0, 0);
        }
    }
}

// Does it, and places the one item that has another value.
fn perform(
    rt: &impl Abort,
    alloc: Global,
    all: &mut Alterable<Side>,
    keys: (SeatKey, SeatKey),
    values: &mut Present,
    act: Act,
) -> Result<(), AllocError>
    requires { IsInStep (state_of watched all.old) }
    ensures { IsInStep (state_of watched all.new) }
{
    match act {
        Act::Alter(change) => {
            match alter(all, change, alloc) {
                Some(Ok(())) => forget(all.graph(), values),
                Some(Err(AlterFault::Memory)) => return Err(AllocError),
                answer => panic!(rt; "{change:?} gives {answer:?}"),
            }
        }
        Act::Node(id, passes) => {
            values.pass_node(id, passes);
            place_node(all, keys.0, id, values.keeps_node(id));
        }
        Act::Arc(id, passes) => {
            values.pass_arc(id, passes);
            let (forward, backward) = values.has_room(id);
            place_arc(all, keys.1, id, values.keeps_arc(id), forward, backward);
        }
        Act::Room(id, cap, flow) => {
            values.set_room(id, cap, flow);
            let (forward, backward) = values.has_room(id);
            place_arc(all, keys.1, id, values.keeps_arc(id), forward, backward);
        }
    }
    Ok(())
}

// After each act the kept view shows what its layers show.
fn follow(rt: &impl Abort, alloc: Global, shape: KeptShape, whole: bool) -> Result<(), Fail> {
    let mut all = Alterable::new(alloc);
    let nodes = Side::Nodes(KeptNodes::new(whole, alloc));
    let arcs = Side::Arcs(KeptArcs::new(shape, whole, alloc));
    let on_nodes = all
        .attach(ItemSort::Node, nodes, alloc)
        .ok()
        .ok_or(AllocError)?;
    let on_arcs = all
        .attach(ItemSort::Arc, arcs, alloc)
        .ok()
        .ok_or(AllocError)?;
    let mut values = Present::new(alloc, whole)?;
    for act in ACTS {
        perform(rt, alloc, &mut all, (on_nodes, on_arcs), &mut values, act)?;
        let layers = layered(alloc, all.graph(), shape, &values)?;
        let Some(kept) = kept_of(&all, on_nodes, on_arcs) else {
            panic!(rt; "a seat of a kept view is gone");
        };
        let walk = walked(alloc, &kept, IDS * 2)?;
        assert_eq!(rt; walk.as_str(), layers.as_str(), "{shape:?} after {act:?}");
    }
    Ok(())
}

#[test]
fn a_kept_sub(rt: HostRuntime) -> Result<(), Fail> {
    follow(&rt, rt.alloc(), KeptShape::Sub, false)
}

#[test]
fn a_kept_sub_without_filters(rt: HostRuntime) -> Result<(), Fail> {
    follow(&rt, rt.alloc(), KeptShape::Sub, true)
}

#[test]
fn a_kept_residual(rt: HostRuntime) -> Result<(), Fail> {
    follow(&rt, rt.alloc(), KeptShape::Residual, true)
}

#[test]
fn a_kept_residual_over_a_sub(rt: HostRuntime) -> Result<(), Fail> {
    follow(&rt, rt.alloc(), KeptShape::ResidualOverSub, false)
}
