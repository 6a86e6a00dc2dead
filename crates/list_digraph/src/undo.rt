//! Back to the digraph before an addition or a move.

ghost use Rattle.std.specs.Prelude.{◌≡◌, ◌≤◌};
ghost use Rattle.plain_digraph.specs.Undo as undo;
ghost use Rattle.plain_digraph.specs.UndoLaws as laws;
ghost use Rattle.plain_digraph.specs.Valid.{IsValid};
ghost use Rattle.list_digraph.specs.Roomy.{KeepsSpare};

use crate::graph::ListDigraph;
use base_items::{Arc, Fact, ItemSort, Node};

impl ListDigraph {
    /// Undoes the last move of an arc, of which this fact was told before it. The arc gets the ends
    /// and the stamps of the fact again, and stands in both lists by falling stamp; one stamp less
    /// is used.
    ///
    /// One move of the arc, or one placing, has to lead from the valid digraph so got to the
    /// present one. The law `move_is_undone` of `plain_digraph` says that it is the digraph from
    /// before the move.
    pub fn put_back(&mut self, old: Fact)
        requires before { IsValid (undo.before_move self.old.graph old) }
        requires moved { laws.MovesTo (undo.before_move self.old.graph old) old.id self.old.graph }
        ensures undone { self.new.graph ≡ undo.before_move self.old.graph old }
        ensures spare { KeepsSpare self.old self.new }
    {
        let stamps = self.stamps - 1;
        self.lay(old, stamps);
    }

    /// Undoes the addition that answered this fact, before which so many ids of the sort were used.
    /// One stamp less is used. Where [`used`](ListDigraph::used) is that number still, the id was a
    /// reused one, and is again the next to be used; otherwise it was a fresh one.
    ///
    /// The addition to the valid digraph so got has to answer the fact and give the present
    /// digraph. The law `addition_is_undone` of `plain_digraph` says that it is the digraph from
    /// before the addition.
    pub fn take_back(&mut self, sort: ItemSort, f: Fact, used: u32)
        requires before { IsValid (undo.before_addition self.old.graph sort f.id used) }
        requires added { laws.AddsTo (undo.before_addition self.old.graph sort f.id used) sort f self.old.graph }
        ensures undone { self.new.graph ≡
            undo.before_addition self.old.graph sort f.id used }
        ensures spare { KeepsSpare self.old self.new }
    {
        match sort {
            ItemSort::Node => self.take_node_back(f, used),
            ItemSort::Arc => self.take_arc_back(f, used),
        }
    }

    fn take_node_back(&mut self, f: Fact, used: u32)
        requires before { IsValid (undo.before_addition self.old.graph ItemSort.Node f.id used) }
        requires added { laws.AddsTo (undo.before_addition self.old.graph ItemSort.Node f.id used) ItemSort.Node f
            self.old.graph }
        ensures undone { self.new.graph ≡
            undo.before_addition self.old.graph ItemSort.Node f.id used }
        ensures spare { KeepsSpare self.old self.new }
    {
        let now = self.used(ItemSort::Node);
        self.erase_node(Node(f.id));
        if used == now {
            self.unstamp();
        } else {
            self.forget_node();
        }
    }

    fn take_arc_back(&mut self, f: Fact, used: u32)
        requires before { IsValid (undo.before_addition self.old.graph ItemSort.Arc f.id used) }
        requires added { laws.AddsTo (undo.before_addition self.old.graph ItemSort.Arc f.id used) ItemSort.Arc f
            self.old.graph }
        ensures undone { self.new.graph ≡
            undo.before_addition self.old.graph ItemSort.Arc f.id used }
        ensures spare { KeepsSpare self.old self.new }
    {
        let now = self.used(ItemSort::Arc);
        self.erase_arc(Arc(f.id));
        if used == now {
            self.unstamp();
        } else {
            self.forget_arc();
        }
    }

    // One stamp less is used.
    fn unstamp(&mut self)
        requires some { 1 ≤ self.old.graph.stamps }
        requires valid { IsValid (undo.unstamped self.old.graph) }
        ensures graph { self.new.graph ≡ undo.unstamped self.old.graph }
        ensures spare { KeepsSpare self.old self.new }
    {
        self.stamps -= 1;
    }

    // The last id of a node, which is free, isn't used any more.
    fn forget_node(&mut self)
        requires some { 1 ≤ self.old.graph.used_nodes }
        requires stamp { 1 ≤ self.old.graph.stamps }
        requires valid { IsValid (undo.forget_node self.old.graph) }
        ensures graph { self.new.graph ≡ undo.forget_node self.old.graph }
        ensures spare { KeepsSpare self.old self.new }
    {
        let last = self.nodes.len() - 1;
        self.nodes.truncate(last);
        self.node_links.truncate(last);
        self.free_node = None;
        self.stamps -= 1;
    }

    // The last id of an arc, which is free, isn't used any more.
    fn forget_arc(&mut self)
        requires some { 1 ≤ self.old.graph.used_arcs }
        requires stamp { 1 ≤ self.old.graph.stamps }
        requires valid { IsValid (undo.forget_arc self.old.graph) }
        ensures graph { self.new.graph ≡ undo.forget_arc self.old.graph }
        ensures spare { KeepsSpare self.old self.new }
    {
        let last = self.arcs.len() - 1;
        self.arcs.truncate(last);
        self.out_links.truncate(last);
        self.in_links.truncate(last);
        self.free_arc = None;
        self.stamps -= 1;
    }
}
