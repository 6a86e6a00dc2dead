//! Arcs get other ends and other places.

ghost use Rattle.std.specs.Prelude.{◌≡◌, Some};
ghost use Rattle.plain_digraph.specs.Items as items;
ghost use Rattle.plain_digraph.specs.Steps as steps;
ghost use Rattle.plain_digraph.specs.Valid.{IsValid};
ghost use Rattle.plain_digraph.specs.ValidLaws as laws;
ghost use Rattle.list_digraph.specs.Roomy.{KeepsSpare};

use crate::facts::told_arc;
use crate::graph::ListDigraph;
use crate::places::last_newer;
use crate::rows::{ArcRow, Side};
use crate::sides::{enter_in, enter_out, leave_in, leave_out};
use base_items::{Arc, Fact, ItemSort, Node};

impl ListDigraph {
    /// Moves the arc's source to the node, and answers the new fact. The arc then stands in front
    /// of the list by source, also where the node was its source before. A stamp has to be left.
    pub fn move_from(&mut self, a: Arc, u: Node) -> Fact
        requires arc { items.IsLive self.old.graph ItemSort.Arc a.0 }
        requires node { items.IsLive self.old.graph ItemSort.Node u.0 }
        requires left { laws.HasStampLeft self.old.graph }
        ensures moved { self.new.graph ≡ steps.move_from self.old.graph a.0 u.0 }
        ensures spare { KeepsSpare self.old self.new }
        ensures fact { items.fact_of self.new.graph ItemSort.Arc a.0 ≡ Some result }
    {
        let arc = a.0;
        let old = self.arcs[arc as usize];
        leave_out(&mut self.nodes, &mut self.out_links, old.from, arc);
        enter_out(&mut self.nodes, &mut self.out_links, u.0, None, arc);
        let row = ArcRow {
            live: true,
            from: u.0,
            to: old.to,
            from_at: self.stamps,
            to_at: old.to_at,
        };
        self.arcs[arc as usize] = row;
        self.stamps += 1;
        told_arc(arc, row)
    }

    /// Moves the arc's target to the node, and answers the new fact. The arc then stands in front
    /// of the list by target, also where the node was its target before. A stamp has to be left.
    pub fn move_to(&mut self, a: Arc, v: Node) -> Fact
        requires arc { items.IsLive self.old.graph ItemSort.Arc a.0 }
        requires node { items.IsLive self.old.graph ItemSort.Node v.0 }
        requires left { laws.HasStampLeft self.old.graph }
        ensures moved { self.new.graph ≡ steps.move_to self.old.graph a.0 v.0 }
        ensures spare { KeepsSpare self.old self.new }
        ensures fact { items.fact_of self.new.graph ItemSort.Arc a.0 ≡ Some result }
    {
        let arc = a.0;
        let old = self.arcs[arc as usize];
        leave_in(&mut self.nodes, &mut self.in_links, old.to, arc);
        enter_in(&mut self.nodes, &mut self.in_links, v.0, None, arc);
        let row = ArcRow {
            live: true,
            from: old.from,
            to: v.0,
            from_at: old.from_at,
            to_at: self.stamps,
        };
        self.arcs[arc as usize] = row;
        self.stamps += 1;
        told_arc(arc, row)
    }

    /// Exchanges the arc's ends, and answers the new fact. The arc then stands in front of both
    /// lists, with one stamp. A stamp has to be left.
    pub fn turn(&mut self, a: Arc) -> Fact
        requires arc { items.IsLive self.old.graph ItemSort.Arc a.0 }
        requires left { laws.HasStampLeft self.old.graph }
        ensures turned { self.new.graph ≡ steps.turn self.old.graph a.0 }
        ensures spare { KeepsSpare self.old self.new }
        ensures fact { items.fact_of self.new.graph ItemSort.Arc a.0 ≡ Some result }
    {
        let arc = a.0;
        let old = self.arcs[arc as usize];
        leave_out(&mut self.nodes, &mut self.out_links, old.from, arc);
        enter_out(&mut self.nodes, &mut self.out_links, old.to, None, arc);
        leave_in(&mut self.nodes, &mut self.in_links, old.to, arc);
        enter_in(&mut self.nodes, &mut self.in_links, old.from, None, arc);
        let row = ArcRow {
            live: true,
            from: old.to,
            to: old.from,
            from_at: self.stamps,
            to_at: self.stamps,
        };
        self.arcs[arc as usize] = row;
        self.stamps += 1;
        told_arc(arc, row)
    }

    /// Places the arc by a fact: it gets these ends and stamps, at the places that falling stamps
    /// give, which have to be free of other arcs. One stamp is used up, and has to be left; no
    /// place gets it. The answer is the fact from before.
    pub fn place(&mut self, f: Fact) -> Fact
        requires { laws.CanPlace self.old.graph f }
        ensures placed { self.new.graph ≡ steps.place self.old.graph f }
        ensures spare { KeepsSpare self.old self.new }
        ensures fact { items.fact_of self.old.graph ItemSort.Arc f.id ≡ Some result }
    {
        let stamps = self.stamps + 1;
        self.lay(f, stamps)
    }

    // Lays the arc at the places of the fact, and sets the counter of stamps.
    pub(crate) fn lay(&mut self, f: Fact, stamps: u64) -> Fact
        requires arc { items.IsLive self.old.graph ItemSort.Arc f.id }
        requires from { items.IsLive self.old.graph ItemSort.Node f.from }
        requires to { items.IsLive self.old.graph ItemSort.Node f.to }
        requires valid { IsValid (steps.laid_by self.old.graph f stamps) }
        ensures laid { self.new.graph ≡ steps.laid_by self.old.graph f stamps }
        ensures spare { KeepsSpare self.old self.new }
        ensures fact { items.fact_of self.old.graph ItemSort.Arc f.id ≡ Some result }
    {
        let arc = f.id;
        let old = self.arcs[arc as usize];
        leave_out(&mut self.nodes, &mut self.out_links, old.from, arc);
        let first_out = self.nodes[f.from as usize].first_out;
        let out_behind = last_newer(
            first_out,
            &self.out_links,
            &self.arcs,
            Side::Source,
            f.from_at,
        );
        enter_out(
            &mut self.nodes,
            &mut self.out_links,
            f.from,
            out_behind,
            arc,
        );
        leave_in(&mut self.nodes, &mut self.in_links, old.to, arc);
        let first_in = self.nodes[f.to as usize].first_in;
        let in_behind = last_newer(first_in, &self.in_links, &self.arcs, Side::Target, f.to_at);
        enter_in(&mut self.nodes, &mut self.in_links, f.to, in_behind, arc);
        let row = ArcRow {
            live: true,
            from: f.from,
            to: f.to,
            from_at: f.from_at,
            to_at: f.to_at,
        };
        self.arcs[arc as usize] = row;
        self.stamps = stamps;
        told_arc(arc, old)
    }
}
