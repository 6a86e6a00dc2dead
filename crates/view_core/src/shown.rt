//! Shown digraphs: a list of nodes and two lists of arcs, and the walks along them.
//!
//! A view is whatever can be walked so: the base, a layer over another view, or what two observers
//! hold. No call takes memory, and none changes what is shown.

ghost use Rattle.std.specs.Prelude.{◌≡◌, ℕ, true, option_map};
ghost use Rattle.plain_digraph.specs.Lists as lists;
ghost use Rattle.plain_views.specs.Shown as plain;

use base_items::{Arc, Node};

/// A shown digraph: its nodes in order, and each arc once in a list by source and once in a list by
/// target, with ends that are shown.
///
/// Nodes and arcs that are given must be shown, but for `has_node` and `has_arc`. A walk gives None
/// exactly at its end.
pub trait Shown {
    ghost graph: { Self → plain.Shown };

    ghost bound: { Self → ℕ };

    /// Every id that is shown, of a node or of an arc, is below it.
    fn id_bound(&self) -> u32
        ensures { result ≡ bound self.now };

    /// Whether the node is shown.
    fn has_node(&self, n: Node) -> bool
        ensures { result ≡ lists.has (graph self.now).nodes n.0 };

    /// Whether the arc is shown.
    fn has_arc(&self, a: Arc) -> bool
        ensures { result ≡ plain.has_arc (graph self.now) a.0 };

    /// The first node; None exactly where no node is shown.
    fn first_node(&self) -> Option<Node>
        ensures { option_map (λ n. n.0) result ≡ lists.first (graph self.now).nodes };

    /// The node after this one; None exactly after the last.
    fn next_node(&self, n: Node) -> Option<Node>
        requires { lists.has (graph self.now).nodes n.0 ≡ true }
        ensures { option_map (λ n. n.0) result ≡ lists.after (graph self.now).nodes n.0 };

    /// The first arc from the node, in the order by source; None exactly where none goes from it.
    fn first_out(&self, n: Node) -> Option<Arc>
        requires { lists.has (graph self.now).nodes n.0 ≡ true }
        ensures { option_map (λ a. a.0) result ≡ lists.first (plain.out_ids (graph self.now) n.0) };

    /// The arc after this one from the same source; None exactly after the last.
    fn next_out(&self, a: Arc) -> Option<Arc>
        requires { plain.has_arc (graph self.now) a.0 ≡ true }
        ensures { option_map (λ a. a.0) result ≡ plain.next_out (graph self.now) a.0 };

    /// The first arc to the node, in the order by target; None exactly where none goes to it.
    fn first_in(&self, n: Node) -> Option<Arc>
        requires { lists.has (graph self.now).nodes n.0 ≡ true }
        ensures { option_map (λ a. a.0) result ≡ lists.first (plain.in_ids (graph self.now) n.0) };

    /// The arc after this one to the same target; None exactly after the last.
    fn next_in(&self, a: Arc) -> Option<Arc>
        requires { plain.has_arc (graph self.now) a.0 ≡ true }
        ensures { option_map (λ a. a.0) result ≡ plain.next_in (graph self.now) a.0 };

    /// The source of the arc, and its target.
    fn ends(&self, a: Arc) -> (Node, Node)
        requires { plain.has_arc (graph self.now) a.0 ≡ true }
        ensures from { result.0.0 ≡ plain.source_of (graph self.now) a.0 }
        ensures to { result.1.0 ≡ plain.target_of (graph self.now) a.0 };

    ghost valid: { (s : Self) → plain.IsShown (graph s) };

    ghost below: { (s : Self) → plain.AreBelow (graph s) (bound s) };
}

impl<G: Shown> Shown for &G {
    ghost graph = { λ s. G.graph s.now };

    ghost bound = { λ s. G.bound s.now };

    fn id_bound(&self) -> u32 {
        (**self).id_bound()
    }

    fn has_node(&self, n: Node) -> bool {
        (**self).has_node(n)
    }

    fn has_arc(&self, a: Arc) -> bool {
        (**self).has_arc(a)
    }

    fn first_node(&self) -> Option<Node> {
        (**self).first_node()
    }

    fn next_node(&self, n: Node) -> Option<Node> {
        (**self).next_node(n)
    }

    fn first_out(&self, n: Node) -> Option<Arc> {
        (**self).first_out(n)
    }

    fn next_out(&self, a: Arc) -> Option<Arc> {
        (**self).next_out(a)
    }

    fn first_in(&self, n: Node) -> Option<Arc> {
        (**self).first_in(n)
    }

    fn next_in(&self, a: Arc) -> Option<Arc> {
        (**self).next_in(a)
    }

    fn ends(&self, a: Arc) -> (Node, Node) {
        (**self).ends(a)
    }

    ghost valid = { λ s. G.valid s.now };

    ghost below = { λ s. G.below s.now };
}
