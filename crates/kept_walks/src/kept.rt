//! A kept view: its layers over all that its two observers hold.

ghost use Rattle.std.specs.Prelude.{◌≡◌};
ghost use Rattle.kept_views.specs.Views.{nodes_of, arcs_of};
ghost use Rattle.plain_views.specs.Adaptors.{sub};
ghost use Rattle.kept_walks.specs.Stored.{HoldEnds, kept, is_shown, shows_all};

use crate::marked::{RoomMarks, ShownMarks};
use crate::stored::Stored;
use base_items::{Arc, Node};
use kept_views::{KeptArcs, KeptNodes};
use observe_core::KeptShape;
use residual_view::Residual;
use view_adaptors::Sub;
use view_core::Shown;

/// What two observers show, one variant for each shape. No walk looks at the base.
#[derive(Drop)]
pub enum Kept<'a> {
    Sub(Sub<Stored<'a>, ShownMarks<'a>>),
    Residual(Residual<Stored<'a>, RoomMarks<'a>>),
    ResidualOverSub(Residual<Sub<Stored<'a>, ShownMarks<'a>>, RoomMarks<'a>>),
}

// The call on the layers.
macro_rules! layers {
    ($kept:expr, $it:ident => $call:expr) => {
        match $kept {
            Kept::Sub($it) => $call,
            Kept::Residual($it) => $call,
            Kept::ResidualOverSub($it) => $call,
        }
    };
}

// The part that is shown.
fn part<'a>(nodes: &'a KeptNodes, arcs: &'a KeptArcs) -> Sub<Stored<'a>, ShownMarks<'a>>
    requires { HoldEnds nodes.now arcs.now }
    ensures { ⟦<Sub<Stored<'a>, ShownMarks<'a>> as Shown>⟧.graph result
        ≡ sub (is_shown (nodes_of nodes.now)) (is_shown (arcs_of arcs.now))
        (shows_all nodes.now arcs.now) }
{
    Sub::new(Stored::new(nodes, arcs), ShownMarks { nodes, arcs })
}

impl<'a> Kept<'a> {
    /// The view of the shape that the arcs were made for. Both ends of each arc that is held must
    /// be nodes that are held.
    pub fn new(nodes: &'a KeptNodes, arcs: &'a KeptArcs) -> Kept<'a>
        requires { HoldEnds nodes.now arcs.now }
        ensures { ⟦<Kept<'a> as Shown>⟧.graph result
            ≡ kept arcs.now.shape (nodes_of nodes.now) (arcs_of arcs.now) }
    {
        match arcs.shape() {
            KeptShape::Sub => Kept::Sub(part(nodes, arcs)),
            KeptShape::Residual => {
                Kept::Residual(Residual::new(Stored::new(nodes, arcs), RoomMarks { arcs }))
            }
            KeptShape::ResidualOverSub => {
                Kept::ResidualOverSub(Residual::new(part(nodes, arcs), RoomMarks { arcs }))
            }
        }
    }
}

impl<'a> Shown for Kept<'a> {
    ghost use Rattle.kept_walks.specs.Stored.{cap_in, flow_in};
    ghost use Rattle.kept_walks.specs.Parts.{part_valid, part_below, rest_valid, rest_below};
    ghost use Rattle.kept_walks.specs.Parts.{both_valid, both_below};
    ghost use Rattle.kept_walks.specs.declared.kept.Kept.TheVariants.{Sub as Part};
    ghost use Rattle.kept_walks.specs.declared.kept.Kept.TheVariants.{Residual as Rest};
    ghost use Rattle.kept_walks.specs.declared.kept.Kept.TheVariants.{ResidualOverSub as Both};

    ghost graph = { elim [
      | Part s ↦ ⟦<Sub<Stored<'a>, ShownMarks<'a>> as Shown>⟧.graph s
      | Rest s ↦ ⟦<Residual<Stored<'a>, RoomMarks<'a>> as Shown>⟧.graph s
      | Both s ↦ ⟦<Residual<Sub<Stored<'a>, ShownMarks<'a>>, RoomMarks<'a>> as Shown>⟧.graph s
    ] };

    ghost bound = { elim [
      | Part s ↦ ⟦<Sub<Stored<'a>, ShownMarks<'a>> as Shown>⟧.bound s
      | Rest s ↦ ⟦<Residual<Stored<'a>, RoomMarks<'a>> as Shown>⟧.bound s
      | Both s ↦ ⟦<Residual<Sub<Stored<'a>, ShownMarks<'a>>, RoomMarks<'a>> as Shown>⟧.bound s
    ] };

    fn id_bound(&self) -> u32 {
        layers!(self, view => view.id_bound())
    }

    fn has_node(&self, n: Node) -> bool {
        layers!(self, view => view.has_node(n))
    }

    fn has_arc(&self, a: Arc) -> bool {
        layers!(self, view => view.has_arc(a))
    }

    fn first_node(&self) -> Option<Node> {
        layers!(self, view => view.first_node())
    }

    fn next_node(&self, n: Node) -> Option<Node> {
        layers!(self, view => view.next_node(n))
    }

    fn first_out(&self, n: Node) -> Option<Arc> {
        layers!(self, view => view.first_out(n))
    }

    fn next_out(&self, a: Arc) -> Option<Arc> {
        layers!(self, view => view.next_out(a))
    }

    fn first_in(&self, n: Node) -> Option<Arc> {
        layers!(self, view => view.first_in(n))
    }

    fn next_in(&self, a: Arc) -> Option<Arc> {
        layers!(self, view => view.next_in(a))
    }

    fn ends(&self, a: Arc) -> (Node, Node) {
        layers!(self, view => view.ends(a))
    }

    ghost valid = { elim [
      | Part s ↦ part_valid s.below.nodes.now s.below.arcs.now
          (is_shown (nodes_of s.filter.nodes.now)) (is_shown (arcs_of s.filter.arcs.now))
          s.below.ends
      | Rest s ↦ rest_valid s.below.nodes.now s.below.arcs.now (cap_in (arcs_of s.rooms.arcs.now))
          (flow_in (arcs_of s.rooms.arcs.now)) s.below.ends
      | Both s ↦ both_valid s.below.below.nodes.now s.below.below.arcs.now
          (is_shown (nodes_of s.below.filter.nodes.now))
          (is_shown (arcs_of s.below.filter.arcs.now))
          (cap_in (arcs_of s.rooms.arcs.now)) (flow_in (arcs_of s.rooms.arcs.now))
          s.below.below.ends
    ] };

    ghost below = { elim [
      | Part s ↦ part_below s.below.nodes.now s.below.arcs.now
          (is_shown (nodes_of s.filter.nodes.now)) (is_shown (arcs_of s.filter.arcs.now))
          s.below.ends
      | Rest s ↦ rest_below s.below.nodes.now s.below.arcs.now (cap_in (arcs_of s.rooms.arcs.now))
          (flow_in (arcs_of s.rooms.arcs.now)) s.below.ends
      | Both s ↦ both_below s.below.below.nodes.now s.below.below.arcs.now
          (is_shown (nodes_of s.below.filter.nodes.now))
          (is_shown (arcs_of s.below.filter.arcs.now))
          (cap_in (arcs_of s.rooms.arcs.now)) (flow_in (arcs_of s.rooms.arcs.now))
          s.below.below.ends
    ] };
}
