//! Walks over all nodes and arcs that are held, shown or not, and how each is shown.

ghost use Rattle.std.specs.Prelude.{◌≡◌, ℕ, true, IsTrue, Contains, IfSome, IfNone};
ghost use Rattle.plain_digraph.specs.Facts.{fact_id};
ghost use Rattle.plain_digraph.specs.Lists as lists;
ghost use Rattle.observe_core.specs.Held.{marked_id};
ghost use Rattle.observe_core.specs.Items.{has_id, Lacks};
ghost use Rattle.observe_core.specs.Seen.{facts_of_marked};
ghost use Rattle.kept_views.specs.ItemViews.{marks_in};
ghost use Rattle.kept_views.specs.Views.{nodes_of, arcs_of};
ghost use Rattle.kept_views.specs.Walks.{node_order, out_order, in_order};

use crate::arcs::KeptArcs;
use crate::nodes::KeptNodes;
use base_items::Fact;

impl KeptNodes {
    /// Whether there is no filter, so that each node is shown.
    pub fn all(&self) -> bool
        ensures { result ≡ self.now.items.all }
    {
        self.items.all
    }

    /// Whether the node is held.
    pub fn has(&self, id: u32) -> bool
        ensures { result ≡ has_id marked_id id (nodes_of self.now) }
    {
        self.items.fact(id).is_some()
    }

    /// Whether a node that is held is shown.
    pub fn shown(&self, id: u32) -> bool
        requires { IsTrue (has_id marked_id id (nodes_of self.now)) }
        ensures { result ≡ (marks_in id (nodes_of self.now)).shown }
    {
        self.items.marks_of(id).shown
    }

    /// The newest node; None exactly where none is held.
    pub fn first(&self) -> Option<u32>
        ensures { result ≡ lists.first (node_order self.now) }
    {
        self.items.orders.first.first(0)
    }

    /// The node that is next older; None exactly after the oldest.
    pub fn next(&self, id: u32) -> Option<u32>
        requires { IsTrue (has_id marked_id id (nodes_of self.now)) }
        ensures { result ≡ lists.after (node_order self.now) id }
    {
        self.items.orders.first.next(id)
    }
}

impl KeptArcs {
    /// Whether there is no filter, so that each arc is shown.
    pub fn all(&self) -> bool
        ensures { result ≡ self.now.items.all }
    {
        self.items.all
    }

    /// What is held of an arc; None exactly where it isn't held.
    pub fn fact(&self, id: u32) -> Option<Fact>
        ensures there { IfSome result (λ f. Contains (facts_of_marked (arcs_of self.now)) f
            × (f.id ≡ id)) }
        ensures absent { IfNone result (Lacks fact_id id (facts_of_marked (arcs_of self.now))) }
    {
        self.items.fact(id)
    }

    /// Whether an arc that is held is shown.
    pub fn shown(&self, id: u32) -> bool
        requires { IsTrue (has_id marked_id id (arcs_of self.now)) }
        ensures { result ≡ (marks_in id (arcs_of self.now)).shown }
    {
        self.items.marks_of(id).shown
    }

    /// Whether an arc that is held has room as it goes.
    pub fn forward(&self, id: u32) -> bool
        requires { IsTrue (has_id marked_id id (arcs_of self.now)) }
        ensures { result ≡ (marks_in id (arcs_of self.now)).forward }
    {
        self.items.marks_of(id).forward
    }

    /// Whether an arc that is held has room the other way.
    pub fn backward(&self, id: u32) -> bool
        requires { IsTrue (has_id marked_id id (arcs_of self.now)) }
        ensures { result ≡ (marks_in id (arcs_of self.now)).backward }
    {
        self.items.marks_of(id).backward
    }

    /// The first arc from a node; None exactly where none that is held goes from it.
    pub fn first_out(&self, node: u32) -> Option<u32>
        ensures { result ≡ lists.first (out_order self.now node) }
    {
        self.items.orders.first.first(node)
    }

    /// The arc after this one from its source; None exactly after the last.
    pub fn next_out(&self, id: u32) -> Option<u32>
        requires { IsTrue (has_id marked_id id (arcs_of self.now)) }
        ensures { (v : ℕ) → lists.has (out_order self.now v) id ≡ true
            → result ≡ lists.after (out_order self.now v) id }
    {
        self.items.orders.first.next(id)
    }

    /// The first arc to a node; None exactly where none that is held goes to it.
    pub fn first_in(&self, node: u32) -> Option<u32>
        ensures { result ≡ lists.first (in_order self.now node) }
    {
        match &self.items.orders.second {
            Some(order) => order.first(node),
            None => unreachable!(),
        }
    }

    /// The arc after this one to its target; None exactly after the last.
    pub fn next_in(&self, id: u32) -> Option<u32>
        requires { IsTrue (has_id marked_id id (arcs_of self.now)) }
        ensures { (v : ℕ) → lists.has (in_order self.now v) id ≡ true
            → result ≡ lists.after (in_order self.now v) id }
    {
        match &self.items.orders.second {
            Some(order) => order.next(id),
            None => unreachable!(),
        }
    }
}
