//! The arcs on which a flow may grow: forward where there is capacity left, and backward where
//! there is flow.

ghost use Rattle.std.specs.Prelude.{◌≡◌, ◌≤◌, ◌^◌, ℕ, true, unsigned_abs};
ghost use Rattle.plain_views.specs.Shown as plain;
ghost use Rattle.plain_views.specs.Adaptors as adaptors;
ghost use Rattle.view_core.specs.Admitted.{AdmitsArcs};

use crate::roomy::Roomy;
use base_items::{Arc, Node};
use view_adaptors::{Sub, Undirect};
use view_core::{Rooms, Shown};

/// Each arc `a` as `2a` where its capacity is above its flow, and turned as `2a + 1` where its flow is
/// above 0, in the orders of `Undirect` (LEMON's `ResidualDigraph` with ids of its own).
#[derive(Drop)]
pub struct Residual<G: Shown, C: Rooms> {
    below: G,
    rooms: C,
    ghost small: { G.bound below ≤ 2 ^ 30 },
    ghost admitted: { AdmitsArcs (C.admits rooms) (G.graph below) },
}

impl<G: Shown, C: Rooms> Residual<G, C> {
    /// The residual view of a flow, whose rooms must admit each arc below. Ids double, so the bound
    /// below must be at most 2^30.
    pub fn new(below: G, rooms: C) -> Residual<G, C>
        requires small { G.bound below ≤ 2 ^ 30 }
        requires admitted { AdmitsArcs (C.admits rooms) (G.graph below) }
        ensures below { result.below ≡ below }
        ensures rooms { result.rooms ≡ rooms }
    {
        Residual { below, rooms }
    }

    /// How much room a shown arc has: its capacity without its flow, and on the way back its flow. Both
    /// values must have a magnitude of at most 2^100.
    pub fn room(&self, a: Arc) -> i128
        requires shown { plain.has_arc (adaptors.residual (C.cap_of self.now.rooms)
            (C.flow_of self.now.rooms) (G.graph self.now.below)) a.0 ≡ true }
        requires cap { unsigned_abs (C.cap_of self.now.rooms (adaptors.half a.0)) ≤ 2 ^ 100 }
        requires flow { unsigned_abs (C.flow_of self.now.rooms (adaptors.half a.0)) ≤ 2 ^ 100 }
        ensures { result
            ≡ adaptors.room_of (C.cap_of self.now.rooms) (C.flow_of self.now.rooms) a.0 }
    {
        let below = Arc(a.0 / 2);
        if a.0 % 2 == 0 {
            self.rooms.cap(below) - self.rooms.flow(below)
        } else {
            self.rooms.flow(below)
        }
    }

    // The same as a sub of the arcs that go both ways.
    fn part(&self) -> Sub<Undirect<&G>, Roomy<&C>>
        ensures below { result.below.below.now ≡ self.now.below }
        ensures rooms { result.filter.rooms.now ≡ self.now.rooms }
    {
        let rooms = Roomy { rooms: &self.rooms };
        Sub::new(Undirect::new(&self.below), rooms)
    }
}

impl<G: Shown, C: Rooms> Shown for Residual<G, C> {
    ghost use Rattle.plain_views.specs.Adaptors.{residual, twice};
    ghost use Rattle.plain_views.proofs.Adapted.{residual_is_shown, residual_below};

    ghost graph = { λ s. residual (C.cap_of s.rooms) (C.flow_of s.rooms) (G.graph s.below) };

    ghost bound = { λ s. twice (G.bound s.below) };

    fn id_bound(&self) -> u32 {
        self.below.id_bound() * 2
    }

    fn has_node(&self, n: Node) -> bool {
        self.below.has_node(n)
    }

    fn has_arc(&self, a: Arc) -> bool {
        self.part().has_arc(a)
    }

    fn first_node(&self) -> Option<Node> {
        self.below.first_node()
    }

    fn next_node(&self, n: Node) -> Option<Node> {
        self.below.next_node(n)
    }

    fn first_out(&self, n: Node) -> Option<Arc> {
        self.part().first_out(n)
    }

    fn next_out(&self, a: Arc) -> Option<Arc> {
        self.part().next_out(a)
    }

    fn first_in(&self, n: Node) -> Option<Arc> {
        self.part().first_in(n)
    }

    fn next_in(&self, a: Arc) -> Option<Arc> {
        self.part().next_in(a)
    }

    fn ends(&self, a: Arc) -> (Node, Node) {
        self.part().ends(a)
    }

    ghost valid = { λ s. residual_is_shown (C.cap_of s.rooms) (C.flow_of s.rooms)
        (G.graph s.below) (G.valid s.below) };

    ghost below = { λ s. residual_below (C.cap_of s.rooms) (C.flow_of s.rooms) (G.graph s.below)
        (G.bound s.below) (G.valid s.below) (G.below s.below) };
}
