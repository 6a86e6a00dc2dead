//! Erasures, which no observer refuses, and at which some leave.

ghost use Rattle.std.specs.Prelude.{◌≡◌, [], ◌∷◌, map};
ghost use Rattle.plain_digraph.specs.Items.{IsLive, out_arcs, in_arcs};
ghost use Rattle.plain_digraph.specs.PlainSteps as plain;
ghost use Rattle.plain_digraph.specs.Alterations as alterations;
ghost use Rattle.plain_digraph.specs.ValidLaws.{HasNoArc};
ghost use Rattle.alter_graph.specs.State.{state_of, IsInStep};
ghost use Rattle.alter_graph.specs.Outcome.{Goes, Erases};

use crate::graph::Alterable;
use crate::steps::told_of;
use base_items::{Arc, ItemSort, Node};
use observe_core::{Loss, Observer};

impl<O: Observer> Alterable<O> {
    /// Erases a live arc. Observers that leave at it are dropped, and their keys wait for
    /// [`pop_left`](Alterable::pop_left). It takes no memory.
    pub fn erase_arc(&mut self, a: Arc)
        requires in_step { IsInStep (state_of O.watch self.old) }
        requires arc { IsLive self.old.graph.graph ItemSort.Arc a.0 }
        ensures erases { Erases (alterations.arc_erasure a.0)
            (state_of O.watch self.old) (state_of O.watch self.new) }
    {
        let fact = told_of(&self.graph, ItemSort::Arc, a.0);
        self.graph.erase_arc(a);
        self.chains.lose(ItemSort::Arc, &Loss::Erase(fact));
    }

    /// Erases a node that has no arcs.
    pub(crate) fn erase_bare(&mut self, n: Node)
        requires in_step { IsInStep (state_of O.watch self.old) }
        requires node { IsLive self.old.graph.graph ItemSort.Node n.0 }
        requires alone { HasNoArc self.old.graph.graph n.0 }
        ensures goes { Goes (plain.EraseNode n.0 ∷ [])
            (state_of O.watch self.old) (state_of O.watch self.new) }
    {
        let fact = told_of(&self.graph, ItemSort::Node, n.0);
        self.graph.erase_node(n);
        self.chains.lose(ItemSort::Node, &Loss::Erase(fact));
    }

    /// Erases the arcs from a node, the newest place first.
    fn erase_out(&mut self, n: Node)
        requires in_step { IsInStep (state_of O.watch self.old) }
        requires node { IsLive self.old.graph.graph ItemSort.Node n.0 }
        ensures goes { Goes (map plain.EraseArc (out_arcs self.old.graph.graph n.0))
            (state_of O.watch self.old) (state_of O.watch self.new) }
        ensures node { IsLive self.new.graph.graph ItemSort.Node n.0 }
        ensures none { out_arcs self.new.graph.graph n.0 ≡ [] }
    {
        while let Some(arc) = self.graph().first_out(n) {
            self.erase_arc(arc);
        }
    }

    /// Erases the arcs to a node that has none from it, the newest place first.
    fn erase_in(&mut self, n: Node)
        requires in_step { IsInStep (state_of O.watch self.old) }
        requires node { IsLive self.old.graph.graph ItemSort.Node n.0 }
        requires bare { out_arcs self.old.graph.graph n.0 ≡ [] }
        ensures goes { Goes (map plain.EraseArc (in_arcs self.old.graph.graph n.0))
            (state_of O.watch self.old) (state_of O.watch self.new) }
        ensures node { IsLive self.new.graph.graph ItemSort.Node n.0 }
        ensures alone { HasNoArc self.new.graph.graph n.0 }
    {
        while let Some(arc) = self.graph().first_in(n) {
            self.erase_arc(arc);
        }
    }

    /// Erases a live node with its arcs: those from it, the rest of those to it, then itself.
    /// Observers that leave are dropped; it takes no memory.
    pub fn erase_node(&mut self, n: Node)
        requires in_step { IsInStep (state_of O.watch self.old) }
        requires node { IsLive self.old.graph.graph ItemSort.Node n.0 }
        ensures erases { Erases (alterations.node_erasure n.0)
            (state_of O.watch self.old) (state_of O.watch self.new) }
    {
        self.erase_out(n);
        self.erase_in(n);
        self.erase_bare(n);
    }

    /// Clears the arcs, and then the nodes. Ids start from 0 again, and the stamps go on. Observers
    /// that leave are dropped; it takes no memory.
    pub fn clear(&mut self)
        requires in_step { IsInStep (state_of O.watch self.old) }
        ensures erases { Erases alterations.clearing
            (state_of O.watch self.old) (state_of O.watch self.new) }
    {
        self.graph.clear();
        self.chains.lose(ItemSort::Arc, &Loss::Clear);
        self.chains.lose(ItemSort::Node, &Loss::Clear);
    }
}
