//! Each arc both ways.

ghost use Rattle.std.specs.Prelude.{◌≡◌, ◌≤◌, ◌^◌, true, option_map};
ghost use Rattle.plain_digraph.specs.Lists as lists;
ghost use Rattle.plain_views.specs.Shown as plain;
ghost use Rattle.plain_views.specs.Adaptors as adaptors;

use crate::doubled::{back, forth};
use crate::reverse::Reverse;
use base_items::{Arc, Node};
use view_core::Shown;

/// Each arc `a` both ways: as it goes under the id `2a`, and the other way under `2a + 1` (LEMON's
/// `Undirector` with ids of its own). The list by source has the arcs as they go, in the order by
/// source, and then the others, in the order by target; the list by target the other way round.
#[derive(Drop)]
pub struct Undirect<G: Shown> {
    below: G,
    ghost small: { G.bound below ≤ 2 ^ 30 },
}

impl<G: Shown> Undirect<G> {
    /// The view with each arc both ways. Ids double, so the bound below must be at most 2^30.
    pub fn new(below: G) -> Undirect<G>
        requires { G.bound below ≤ 2 ^ 30 }
        ensures { result.below ≡ below }
    {
        Undirect { below }
    }

    // The walks along the arcs.

    fn first_along(&self, n: Node) -> Option<Arc>
        requires { lists.has (G.graph self.now.below).nodes n.0 ≡ true }
        ensures { option_map (λ a. a.0) result
            ≡ lists.first (plain.out_ids (adaptors.undirected (G.graph self.now.below)) n.0) }
    {
        match self.below.first_out(n) {
            Some(a) => Some(forth(a)),
            None => back(self.below.first_in(n)),
        }
    }

    fn next_along(&self, a: Arc) -> Option<Arc>
        requires { plain.has_arc (adaptors.undirected (G.graph self.now.below)) a.0 ≡ true }
        ensures { option_map (λ a. a.0) result
            ≡ plain.next_out (adaptors.undirected (G.graph self.now.below)) a.0 }
    {
        let arc = Arc(a.0 / 2);
        if a.0 % 2 == 0 {
            match self.below.next_out(arc) {
                Some(next) => Some(forth(next)),
                None => {
                    let (from, _) = self.below.ends(arc);
                    back(self.below.first_in(from))
                }
            }
        } else {
            back(self.below.next_in(arc))
        }
    }

    // The same over the arcs turned, which walks against them.
    fn turned(&self) -> Undirect<Reverse<&G>>
        ensures { result.below.below.now ≡ self.now.below }
    {
        Undirect::new(Reverse::new(&self.below))
    }
}

impl<G: Shown> Shown for Undirect<G> {
    ghost use Rattle.plain_views.specs.Adaptors.{undirected, twice};
    ghost use Rattle.plain_views.proofs.Adapted.{undirected_is_shown, undirected_below};

    ghost graph = { λ s. undirected (G.graph s.below) };

    ghost bound = { λ s. twice (G.bound s.below) };

    fn id_bound(&self) -> u32 {
        self.below.id_bound() * 2
    }

    fn has_node(&self, n: Node) -> bool {
        self.below.has_node(n)
    }

    fn has_arc(&self, a: Arc) -> bool {
        self.below.has_arc(Arc(a.0 / 2))
    }

    fn first_node(&self) -> Option<Node> {
        self.below.first_node()
    }

    fn next_node(&self, n: Node) -> Option<Node> {
        self.below.next_node(n)
    }

    fn first_out(&self, n: Node) -> Option<Arc> {
        self.first_along(n)
    }

    fn next_out(&self, a: Arc) -> Option<Arc> {
        self.next_along(a)
    }

    fn first_in(&self, n: Node) -> Option<Arc> {
        self.turned().first_along(n)
    }

    fn next_in(&self, a: Arc) -> Option<Arc> {
        self.turned().next_along(a)
    }

    fn ends(&self, a: Arc) -> (Node, Node) {
        let (from, to) = self.below.ends(Arc(a.0 / 2));
        if a.0 % 2 == 0 { (from, to) } else { (to, from) }
    }

    ghost valid = { λ s. undirected_is_shown (G.graph s.below) (G.valid s.below) };

    ghost below = { λ s. undirected_below (G.graph s.below) (G.bound s.below) (G.valid s.below)
        (G.below s.below) };
}
