//! The marks of two observers, as the filter and the rooms of layers.

ghost use Rattle.std.specs.Prelude.{◌≡◌};
ghost use Rattle.observe_core.specs.Held.{marked_id};
ghost use Rattle.observe_core.specs.Items.{has_id};
ghost use Rattle.kept_views.specs.Views.{nodes_of, arcs_of};
ghost use Rattle.kept_walks.specs.Stored.{is_shown, cap_in, flow_in, one_if, two_if};

use base_items::{Arc, Node};
use kept_views::{KeptArcs, KeptNodes};
use view_core::{Filter, Rooms};

/// Which nodes and arcs are shown.
#[derive(Drop)]
pub struct ShownMarks<'a> {
    pub nodes: &'a KeptNodes,
    pub arcs: &'a KeptArcs,
}

impl Filter for ShownMarks<'_> {
    ghost admits_node = { λ s id. has_id marked_id id (nodes_of s.nodes.now) };

    ghost admits_arc = { λ s id. has_id marked_id id (arcs_of s.arcs.now) };

    ghost keeps_node = { λ s id. is_shown (nodes_of s.nodes.now) id };

    ghost keeps_arc = { λ s id. is_shown (arcs_of s.arcs.now) id };

    fn node(&self, n: Node) -> bool {
        self.nodes.shown(n.0)
    }

    fn arc(&self, a: Arc) -> bool {
        self.arcs.shown(a.0)
    }
}

/// Which arcs have room, as a flow of 0 or 1 and a capacity.
#[derive(Drop)]
pub struct RoomMarks<'a> {
    pub arcs: &'a KeptArcs,
}

// 1 where it is so.
fn one_if(so: bool) -> i128
    ensures { result ≡ one_if so }
{
    if so { 1 } else { 0 }
}

// How many are so.
fn two_if(one: bool, other: bool) -> i128
    ensures { result ≡ two_if one other }
{
    if one {
        if other { 2 } else { 1 }
    } else {
        one_if(other)
    }
}

impl Rooms for RoomMarks<'_> {
    ghost admits = { λ s id. has_id marked_id id (arcs_of s.arcs.now) };

    ghost cap_of = { λ s id. cap_in (arcs_of s.arcs.now) id };

    ghost flow_of = { λ s id. flow_in (arcs_of s.arcs.now) id };

    fn cap(&self, a: Arc) -> i128 {
        two_if(self.arcs.forward(a.0), self.arcs.backward(a.0))
    }

    fn flow(&self, a: Arc) -> i128 {
        one_if(self.arcs.backward(a.0))
    }
}
