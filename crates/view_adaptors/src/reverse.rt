//! Each arc turned.

ghost use Rattle.std.specs.Prelude.{◌≡◌};

use base_items::{Arc, Node};
use view_core::Shown;

/// Each arc turned, and the two orders exchanged (LEMON's `ReverseDigraph`). Ids stay.
#[derive(Drop)]
pub struct Reverse<G> {
    below: G,
}

impl<G: Shown> Reverse<G> {
    /// The view with each arc turned.
    pub fn new(below: G) -> Reverse<G>
        ensures { result.below ≡ below }
    {
        Reverse { below }
    }
}

#[tactic(auto, using(plain_views::proofs::Walked::turns, plain_views::proofs::Adapted::reversed_has_arc))]
impl<G: Shown> Shown for Reverse<G> {
    ghost use Rattle.plain_views.specs.Adaptors.{reversed};
    ghost use Rattle.plain_views.proofs.Adapted.{reversed_is_shown, reversed_below};

    ghost graph = { λ s. reversed (G.graph s.below) };

    ghost bound = { λ s. G.bound s.below };

    fn id_bound(&self) -> u32 {
        self.below.id_bound()
    }

    fn has_node(&self, n: Node) -> bool {
        self.below.has_node(n)
    }

    fn has_arc(&self, a: Arc) -> bool {
        self.below.has_arc(a)
    }

    fn first_node(&self) -> Option<Node> {
        self.below.first_node()
    }

    fn next_node(&self, n: Node) -> Option<Node> {
        self.below.next_node(n)
    }

    fn first_out(&self, n: Node) -> Option<Arc> {
        self.below.first_in(n)
    }

    fn next_out(&self, a: Arc) -> Option<Arc> {
        self.below.next_in(a)
    }

    fn first_in(&self, n: Node) -> Option<Arc> {
        self.below.first_out(n)
    }

    fn next_in(&self, a: Arc) -> Option<Arc> {
        self.below.next_out(a)
    }

    fn ends(&self, a: Arc) -> (Node, Node) {
        let (from, to) = self.below.ends(a);
        (to, from)
    }

    ghost valid = { λ s. reversed_is_shown (G.graph s.below) (G.valid s.below) };

    ghost below = { λ s. reversed_below (G.graph s.below) (G.bound s.below) (G.valid s.below)
        (G.below s.below) };
}
