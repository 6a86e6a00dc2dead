//! All nodes and arcs that two observers hold, whether they are shown or not.

ghost use Rattle.std.specs.Prelude.{◌≡◌, option_map};
ghost use Rattle.kept_walks.specs.Stored.{HoldEnds};
ghost use Rattle.kept_walks.specs.EndsProp.{hold-prop};

use base_items::{Arc, MAX_ARCS, Node};
use kept_views::{KeptArcs, KeptNodes};
use view_core::Shown;

/// What two observers hold, as a view: each list by falling stamp, as the base has it.
#[derive(Drop)]
pub struct Stored<'a> {
    nodes: &'a KeptNodes,
    arcs: &'a KeptArcs,
    ghost ends: { HoldEnds nodes.now arcs.now } by { hold-prop nodes.now arcs.now },
}

impl<'a> Stored<'a> {
    /// All that these two hold; both ends of each arc must be nodes that are held.
    pub fn new(nodes: &'a KeptNodes, arcs: &'a KeptArcs) -> Stored<'a>
        requires { HoldEnds nodes.now arcs.now }
        ensures nodes { result.nodes.now ≡ nodes.now }
        ensures arcs { result.arcs.now ≡ arcs.now }
    {
        Stored { nodes, arcs }
    }
}

// The node of an id.
fn node_at(id: Option<u32>) -> Option<Node>
    ensures { option_map (λ n. n.0) result ≡ id }
{
    match id {
        Some(id) => Some(Node(id)),
        None => None,
    }
}

// The arc of an id.
fn arc_at(id: Option<u32>) -> Option<Arc>
    ensures { option_map (λ a. a.0) result ≡ id }
{
    match id {
        Some(id) => Some(Arc(id)),
        None => None,
    }
}

impl Shown for Stored<'_> {
    ghost use Rattle.base_items.specs.declared.limits.TheConstants.{MAX_ARCS};
    ghost use Rattle.kept_walks.specs.Stored.{shows_all};
    ghost use Rattle.kept_walks.specs.Whole.{shows_valid, shows_below};

    ghost graph = { λ s. shows_all s.nodes.now s.arcs.now };

    ghost bound = { λ _. MAX_ARCS };

    fn id_bound(&self) -> u32 {
        MAX_ARCS
    }

    fn has_node(&self, n: Node) -> bool {
        self.nodes.has(n.0)
    }

    fn has_arc(&self, a: Arc) -> bool {
        self.arcs.fact(a.0).is_some()
    }

    fn first_node(&self) -> Option<Node> {
        node_at(self.nodes.first())
    }

    fn next_node(&self, n: Node) -> Option<Node> {
        node_at(self.nodes.next(n.0))
    }

    fn first_out(&self, n: Node) -> Option<Arc> {
        arc_at(self.arcs.first_out(n.0))
    }

    fn next_out(&self, a: Arc) -> Option<Arc> {
        arc_at(self.arcs.next_out(a.0))
    }

    fn first_in(&self, n: Node) -> Option<Arc> {
        arc_at(self.arcs.first_in(n.0))
    }

    fn next_in(&self, a: Arc) -> Option<Arc> {
        arc_at(self.arcs.next_in(a.0))
    }

    fn ends(&self, a: Arc) -> (Node, Node) {
        match self.arcs.fact(a.0) {
            Some(fact) => (Node(fact.from), Node(fact.to)),
            None => unreachable!(),
        }
    }

    ghost valid = { λ s. shows_valid s.nodes.now s.arcs.now s.ends };

    ghost below = { λ s. shows_below s.nodes.now s.arcs.now };
}
