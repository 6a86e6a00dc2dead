//! The base as a shown digraph.

ghost use Rattle.std.specs.Prelude.{◌≡◌};
ghost use Rattle.plain_digraph.specs.Valid.{IsValid};
ghost use Rattle.plain_views.specs.Shown.{base_shown};

use crate::shown::Shown;
use base_items::{Arc, ItemSort, MAX_ARCS, Node};
use list_digraph::ListDigraph;

/// A view of the nodes and arcs of a digraph, as they stand, in its orders and with its ids.
#[derive(Drop)]
pub struct Plain<'a> {
    graph: &'a ListDigraph,
    ghost valid: { ∥ IsValid graph.now.graph ∥₁ },
}

impl<'a> Plain<'a> {
    /// The view of this digraph, whose ids are below `MAX_ARCS`.
    pub fn new(graph: &'a ListDigraph) -> Plain<'a>
        ensures { result.graph.now ≡ graph.now }
    {
        // Any call of the digraph tells that it is valid; this one costs nothing.
        let _ = graph.count(ItemSort::Node);
        Plain { graph }
    }
}

impl<'a> Shown for Plain<'a> {
    ghost use Rattle.plain_views.proofs.Base.{base_facts};
    ghost use Rattle.base_items.specs.declared.limits.TheConstants.{MAX_ARCS};

    ghost graph = { λ s. base_shown s.graph.now.graph };

    ghost bound = { λ _. MAX_ARCS };

    fn id_bound(&self) -> u32 {
        MAX_ARCS
    }

    fn has_node(&self, n: Node) -> bool {
        self.graph.fact(ItemSort::Node, n.0).is_some()
    }

    fn has_arc(&self, a: Arc) -> bool {
        self.graph.fact(ItemSort::Arc, a.0).is_some()
    }

    fn first_node(&self) -> Option<Node> {
        self.graph.first_node()
    }

    fn next_node(&self, n: Node) -> Option<Node> {
        self.graph.next_node(n)
    }

    fn first_out(&self, n: Node) -> Option<Arc> {
        self.graph.first_out(n)
    }

    fn next_out(&self, a: Arc) -> Option<Arc> {
        self.graph.next_out(a)
    }

    fn first_in(&self, n: Node) -> Option<Arc> {
        self.graph.first_in(n)
    }

    fn next_in(&self, a: Arc) -> Option<Arc> {
        self.graph.next_in(a)
    }

    fn ends(&self, a: Arc) -> (Node, Node) {
        let Some(fact) = self.graph.fact(ItemSort::Arc, a.0) else {
            unreachable!();
        };
        (Node(fact.from), Node(fact.to))
    }

    ghost valid = { λ s. (base_facts s.graph.now.graph s.valid).is_shown };

    ghost below = { λ s. (base_facts s.graph.now.graph s.valid).below };
}
