//! Arcs come and go.

ghost use Rattle.std.specs.Prelude.{◌≡◌, Some, None, IfOk, IfErr, OnOk, OnErr};
ghost use Rattle.plain_digraph.specs.Lists as lists;
ghost use Rattle.plain_digraph.specs.Items as items;
ghost use Rattle.plain_digraph.specs.Steps as steps;
ghost use Rattle.plain_digraph.specs.ValidLaws as laws;
ghost use Rattle.list_digraph.specs.Refusals.{RefusesArc};
ghost use Rattle.list_digraph.specs.Roomy.{KeepsSpare, MayUseArc};

use crate::facts::told_arc;
use crate::faults::AddFault;
use crate::graph::ListDigraph;
use crate::rows::ArcRow;
use crate::sides::{enter_in, enter_out, leave_in, leave_out};
use base_items::{Arc, Fact, ItemSort, Limit, MAX_ARCS, MAX_STAMP, Node};
use linked_lists::{insert, loose, remove};

impl ListDigraph {
    /// Adds an arc between two live nodes, in front of the others in both lists. The id that was
    /// given back last is used first.
    ///
    /// Answers the fact of the new arc.
    ///
    /// `Full` tells the limit exactly where the live arcs are at it, or else no stamp is left.
    /// `Memory` comes only where no arc is spare. After either the digraph is as before.
    pub fn add_arc(&mut self, u: Node, v: Node) -> Result<Fact, AddFault>
        requires from { items.IsLive self.old.graph ItemSort.Node u.0 }
        requires to { items.IsLive self.old.graph ItemSort.Node v.0 }
        ensures added { OnOk result (self.new.graph ≡ steps.add_arc self.old.graph u.0 v.0) }
        ensures fact { IfOk result (λ fact.
            fact ≡ items.arc_fact (steps.new_arc self.old.graph) (u.0, v.0)
            self.old.graph.stamps self.old.graph.stamps) }
        ensures room { OnOk result (laws.HasRoomForArc self.old.graph) }
        ensures refused { IfErr result (RefusesArc self.old.graph) }
        ensures unchanged { OnErr result (self.new.graph ≡ self.old.graph) }
        ensures spare { MayUseArc self.old self.new }
        ensures memory { IfErr result (λ fault.
            fault ≡ AddFault.Memory → self.old.spare_arcs ≡ 0) }
    {
        if self.live_arcs == MAX_ARCS {
            return Err(AddFault::Full(Limit::Arcs));
        }
        if self.stamps == MAX_STAMP {
            return Err(AddFault::Full(Limit::Stamps));
        }
        match self.free_arc {
            Some(id) => Ok(self.reuse_arc(id, u.0, v.0)),
            None => self.fresh_arc(u.0, v.0),
        }
    }

    // Adds an arc under the id that was given back last.
    fn reuse_arc(&mut self, id: u32, from: u32, to: u32) -> Fact
        requires from { items.IsLive self.old.graph ItemSort.Node from }
        requires to { items.IsLive self.old.graph ItemSort.Node to }
        requires room { laws.HasRoomForArc self.old.graph }
        requires free { lists.first self.old.graph.free_arcs ≡ Some id }
        ensures added { self.new.graph ≡ steps.add_arc self.old.graph from to }
        ensures fact { result ≡
            items.arc_fact (steps.new_arc self.old.graph) (from, to)
            self.old.graph.stamps self.old.graph.stamps }
        ensures spare { MayUseArc self.old self.new }
    {
        remove(&mut self.free_arc, &mut self.out_links, id);
        enter_out(&mut self.nodes, &mut self.out_links, from, None, id);
        enter_in(&mut self.nodes, &mut self.in_links, to, None, id);
        let row = ArcRow {
            live: true,
            from,
            to,
            from_at: self.stamps,
            to_at: self.stamps,
        };
        self.arcs[id as usize] = row;
        self.live_arcs += 1;
        self.stamps += 1;
        told_arc(id, row)
    }

    // Adds an arc under a fresh id.
    fn fresh_arc(&mut self, from: u32, to: u32) -> Result<Fact, AddFault>
        requires from { items.IsLive self.old.graph ItemSort.Node from }
        requires to { items.IsLive self.old.graph ItemSort.Node to }
        requires room { laws.HasRoomForArc self.old.graph }
        requires none { lists.first self.old.graph.free_arcs ≡ None }
        ensures added { OnOk result (self.new.graph ≡ steps.add_arc self.old.graph from to) }
        ensures fact { IfOk result (λ fact.
            fact ≡ items.arc_fact (steps.new_arc self.old.graph) (from, to)
            self.old.graph.stamps self.old.graph.stamps) }
        ensures memory { IfErr result (λ fault. fault ≡ AddFault.Memory) }
        ensures unchanged { OnErr result (self.new.graph ≡ self.old.graph) }
        ensures spare { MayUseArc self.old self.new }
        ensures none_spare { OnErr result (self.old.spare_arcs ≡ 0) }
    {
        if self.arcs.reserve(1).is_err() {
            return Err(AddFault::Memory);
        }
        if self.out_links.reserve(1).is_err() {
            return Err(AddFault::Memory);
        }
        if self.in_links.reserve(1).is_err() {
            return Err(AddFault::Memory);
        }
        let id = self.arcs.len() as u32;
        let row = ArcRow {
            live: true,
            from,
            to,
            from_at: self.stamps,
            to_at: self.stamps,
        };
        if self.arcs.push(row).is_err() {
            unreachable!();
        }
        if self.out_links.push(loose()).is_err() {
            unreachable!();
        }
        if self.in_links.push(loose()).is_err() {
            unreachable!();
        }
        enter_out(&mut self.nodes, &mut self.out_links, from, None, id);
        enter_in(&mut self.nodes, &mut self.in_links, to, None, id);
        self.live_arcs += 1;
        self.stamps += 1;
        Ok(told_arc(id, row))
    }

    /// Erases the arc.
    pub fn erase_arc(&mut self, a: Arc)
        requires { items.IsLive self.old.graph ItemSort.Arc a.0 }
        ensures erased { self.new.graph ≡ steps.erase_arc self.old.graph a.0 }
        ensures spare { KeepsSpare self.old self.new }
    {
        let arc = a.0;
        let row = self.arcs[arc as usize];
        leave_out(&mut self.nodes, &mut self.out_links, row.from, arc);
        leave_in(&mut self.nodes, &mut self.in_links, row.to, arc);
        insert(&mut self.free_arc, &mut self.out_links, None, arc);
        self.arcs[arc as usize].live = false;
        self.live_arcs -= 1;
    }
}
