//! Some of the nodes and arcs: those that pass a filter.

ghost use Rattle.std.specs.Prelude.{◌≡◌, true, filter, option_map, IfSome};
ghost use Rattle.plain_digraph.specs.Lists as lists;
ghost use Rattle.plain_views.specs.Shown as plain;
ghost use Rattle.plain_views.specs.Adaptors as adaptors;
ghost use Rattle.view_core.specs.Admitted.{AdmitsNodes, AdmitsArcs};

use crate::reverse::Reverse;
use base_items::{Arc, Node};
use view_core::{Filter, Shown};

/// The nodes that pass the filter, and the arcs that pass it with both their ends, in the orders of
/// the view below (LEMON's `SubDigraph`).
#[derive(Drop)]
pub struct Sub<G: Shown, F: Filter> {
    below: G,
    filter: F,
    ghost nodes_admitted: { AdmitsNodes (F.admits_node filter) (G.graph below) },
    ghost arcs_admitted: { AdmitsArcs (F.admits_arc filter) (G.graph below) },
}

impl<G: Shown, F: Filter> Sub<G, F> {
    /// The part of a view that passes a filter, which must admit each node and each arc below.
    pub fn new(below: G, filter: F) -> Sub<G, F>
        requires nodes { AdmitsNodes (F.admits_node filter) (G.graph below) }
        requires arcs { AdmitsArcs (F.admits_arc filter) (G.graph below) }
        ensures below { result.below ≡ below }
        ensures filter { result.filter ≡ filter }
    {
        Sub { below, filter }
    }

    // Whether the arc and both its ends are kept.
    fn keeps(&self, a: Arc) -> bool
        requires { plain.has_arc (G.graph self.now.below) a.0 ≡ true }
        ensures { result ≡ adaptors.is_kept (F.keeps_node self.now.filter)
            (F.keeps_arc self.now.filter) (plain.arc_of (G.graph self.now.below) a.0) }
    {
        let (from, to) = self.below.ends(a);
        self.filter.arc(a) && self.filter.node(from) && self.filter.node(to)
    }

    // The first node that is kept, from where a walk stands.
    fn skip_nodes(&self, from: Option<Node>) -> Option<Node>
        requires { IfSome from (λ n. lists.has (G.graph self.now.below).nodes n.0 ≡ true) }
        ensures { option_map (λ n. n.0) result ≡ lists.first (filter (F.keeps_node self.now.filter)
            (lists.ahead (G.graph self.now.below).nodes (option_map (λ n. n.0) from))) }
    {
        let mut at = from;
        while let Some(n) = at {
            if self.filter.node(n) {
                return Some(n);
            }
            at = self.below.next_node(n);
        }
        None
    }

    // The first arc that is kept, from where a walk over the arcs from v stands.
    fn skip_arcs(&self, v: Node, from: Option<Arc>) -> Option<Arc>
        requires { IfSome from
            (λ a. lists.has (plain.out_ids (G.graph self.now.below) v.0) a.0 ≡ true) }
        ensures { option_map (λ a. a.0) result ≡ lists.first (filter
            (λ id. adaptors.is_kept (F.keeps_node self.now.filter) (F.keeps_arc self.now.filter)
            (plain.arc_of (G.graph self.now.below) id))
            (lists.ahead (plain.out_ids (G.graph self.now.below) v.0)
            (option_map (λ a. a.0) from))) }
    {
        let mut at = from;
        while let Some(a) = at {
            if self.keeps(a) {
                return Some(a);
            }
            at = self.below.next_out(a);
        }
        None
    }

    // The walks along the arcs.

    fn first_along(&self, n: Node) -> Option<Arc>
        requires { lists.has (G.graph self.now.below).nodes n.0 ≡ true }
        ensures { option_map (λ a. a.0) result ≡ lists.first (plain.out_ids
            (adaptors.sub (F.keeps_node self.now.filter) (F.keeps_arc self.now.filter)
            (G.graph self.now.below)) n.0) }
    {
        self.skip_arcs(n, self.below.first_out(n))
    }

    fn next_along(&self, a: Arc) -> Option<Arc>
        requires { plain.has_arc (adaptors.sub (F.keeps_node self.now.filter)
            (F.keeps_arc self.now.filter) (G.graph self.now.below)) a.0 ≡ true }
        ensures { option_map (λ a. a.0) result ≡ plain.next_out
            (adaptors.sub (F.keeps_node self.now.filter) (F.keeps_arc self.now.filter)
            (G.graph self.now.below)) a.0 }
    {
        let (from, _) = self.below.ends(a);
        self.skip_arcs(from, self.below.next_out(a))
    }

    // The same over the arcs turned, which walks against them.
    fn turned(&self) -> Sub<Reverse<&G>, &F>
        ensures below { result.below.below.now ≡ self.now.below }
        ensures filter { result.filter.now ≡ self.now.filter }
    {
        Sub::new(Reverse::new(&self.below), &self.filter)
    }
}

impl<G: Shown, F: Filter> Shown for Sub<G, F> {
    ghost use Rattle.plain_views.specs.Adaptors.{sub};
    ghost use Rattle.plain_views.proofs.Adapted.{sub_is_shown, sub_below};

    ghost graph = { λ s. sub (F.keeps_node s.filter) (F.keeps_arc s.filter) (G.graph s.below) };

    ghost bound = { λ s. G.bound s.below };

    fn id_bound(&self) -> u32 {
        self.below.id_bound()
    }

    fn has_node(&self, n: Node) -> bool {
        self.below.has_node(n) && self.filter.node(n)
    }

    fn has_arc(&self, a: Arc) -> bool {
        self.below.has_arc(a) && self.keeps(a)
    }

    fn first_node(&self) -> Option<Node> {
        self.skip_nodes(self.below.first_node())
    }

    fn next_node(&self, n: Node) -> Option<Node> {
        self.skip_nodes(self.below.next_node(n))
    }

    fn first_out(&self, n: Node) -> Option<Arc> {
        self.first_along(n)
    }

    fn next_out(&self, a: Arc) -> Option<Arc> {
        self.next_along(a)
    }

    fn first_in(&self, n: Node) -> Option<Arc> {
        self.turned().first_along(n)
    }

    fn next_in(&self, a: Arc) -> Option<Arc> {
        self.turned().next_along(a)
    }

    fn ends(&self, a: Arc) -> (Node, Node) {
        self.below.ends(a)
    }

    ghost valid = { λ s. sub_is_shown (F.keeps_node s.filter) (F.keeps_arc s.filter)
        (G.graph s.below) (G.valid s.below) };

    ghost below = { λ s. sub_below (F.keeps_node s.filter) (F.keeps_arc s.filter)
        (G.graph s.below) (G.bound s.below) (G.valid s.below) (G.below s.below) };
}
