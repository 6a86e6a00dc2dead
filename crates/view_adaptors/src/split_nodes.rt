//! Each node as two, with an arc between them.

ghost use Rattle.std.specs.Prelude.{◌≡◌, ◌≤◌, ◌^◌};

use crate::doubled::even;
use base_items::{Arc, Node};
use view_core::Shown;

/// Each node `n` as an in-node `2n` and an out-node `2n + 1` (LEMON's `SplitNodes`).
///
/// Each arc `a` goes as `2a` from the out-node of its source to the in-node of its target, and the
/// arc `2n + 1` binds the in-node of `n` to its out-node. The bind arcs are last in both orders.
#[derive(Drop)]
pub struct SplitNodes<G: Shown> {
    below: G,
    ghost small: { G.bound below ≤ 2 ^ 30 },
}

impl<G: Shown> SplitNodes<G> {
    /// The view with each node split. Ids double, so the bound below must be at most 2^30.
    pub fn new(below: G) -> SplitNodes<G>
        requires { G.bound below ≤ 2 ^ 30 }
        ensures { result.below ≡ below }
    {
        SplitNodes { below }
    }
}

impl<G: Shown> Shown for SplitNodes<G> {
    ghost use Rattle.plain_views.specs.Adaptors.{split, twice};
    ghost use Rattle.plain_views.proofs.Adapted.{split_is_shown, split_below};

    ghost graph = { λ s. split (G.graph s.below) };

    ghost bound = { λ s. twice (G.bound s.below) };

    fn id_bound(&self) -> u32 {
        self.below.id_bound() * 2
    }

    fn has_node(&self, n: Node) -> bool {
        self.below.has_node(Node(n.0 / 2))
    }

    fn has_arc(&self, a: Arc) -> bool {
        if a.0 % 2 == 0 {
            self.below.has_arc(Arc(a.0 / 2))
        } else {
            self.below.has_node(Node(a.0 / 2))
        }
    }

    fn first_node(&self) -> Option<Node> {
        match self.below.first_node() {
            Some(n) => Some(Node(n.0 * 2)),
            None => None,
        }
    }

    fn next_node(&self, n: Node) -> Option<Node> {
        if n.0 % 2 == 0 {
            return Some(Node(n.0 / 2 * 2 + 1));
        }
        match self.below.next_node(Node(n.0 / 2)) {
            Some(n) => Some(Node(n.0 * 2)),
            None => None,
        }
    }

    fn first_out(&self, n: Node) -> Option<Arc> {
        if n.0 % 2 == 0 {
            return Some(Arc(n.0 / 2 * 2 + 1));
        }
        even(self.below.first_out(Node(n.0 / 2)))
    }

    fn next_out(&self, a: Arc) -> Option<Arc> {
        if a.0 % 2 == 0 {
            return even(self.below.next_out(Arc(a.0 / 2)));
        }
        None
    }

    fn first_in(&self, n: Node) -> Option<Arc> {
        if n.0 % 2 == 0 {
            return even(self.below.first_in(Node(n.0 / 2)));
        }
        Some(Arc(n.0 / 2 * 2 + 1))
    }

    fn next_in(&self, a: Arc) -> Option<Arc> {
        if a.0 % 2 == 0 {
            return even(self.below.next_in(Arc(a.0 / 2)));
        }
        None
    }

    fn ends(&self, a: Arc) -> (Node, Node) {
        if a.0 % 2 == 0 {
            let (from, to) = self.below.ends(Arc(a.0 / 2));
            return (Node(from.0 * 2 + 1), Node(to.0 * 2));
        }
        let node = a.0 / 2 * 2;
        (Node(node), Node(node + 1))
    }

    ghost valid = { λ s. split_is_shown (G.graph s.below) (G.valid s.below) };

    ghost below = { λ s. split_below (G.graph s.below) (G.bound s.below) (G.below s.below) };
}
