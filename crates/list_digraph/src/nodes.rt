//! Nodes come and go.

ghost use Rattle.std.specs.Prelude.{◌≡◌, Some, None, IfOk, IfErr, OnOk, OnErr};
ghost use Rattle.plain_digraph.specs.Lists as lists;
ghost use Rattle.plain_digraph.specs.Items as items;
ghost use Rattle.plain_digraph.specs.Steps as steps;
ghost use Rattle.plain_digraph.specs.ValidLaws as laws;
ghost use Rattle.list_digraph.specs.Refusals.{RefusesNode};
ghost use Rattle.list_digraph.specs.Roomy.{KeepsSpare, MayUseNode};

use crate::facts::told_node;
use crate::faults::AddFault;
use crate::graph::ListDigraph;
use crate::rows::NodeRow;
use base_items::{Fact, ItemSort, Limit, MAX_NODES, MAX_STAMP, Node};
use linked_lists::{insert, loose, remove};

impl ListDigraph {
    /// Adds a node in front of the others. The id that was given back last is used first.
    ///
    /// Answers the fact of the new node.
    ///
    /// `Full` tells the limit exactly where the live nodes are at it, or else no stamp is left.
    /// `Memory` comes only where no node is spare. After either the digraph is as before.
    pub fn add_node(&mut self) -> Result<Fact, AddFault>
        ensures added { OnOk result (self.new.graph ≡ steps.add_node self.old.graph) }
        ensures fact { IfOk result (λ fact.
            fact ≡ items.node_fact (steps.new_node self.old.graph) self.old.graph.stamps) }
        ensures room { OnOk result (laws.HasRoomForNode self.old.graph) }
        ensures refused { IfErr result (RefusesNode self.old.graph) }
        ensures unchanged { OnErr result (self.new.graph ≡ self.old.graph) }
        ensures spare { MayUseNode self.old self.new }
        ensures memory { IfErr result (λ fault.
            fault ≡ AddFault.Memory → self.old.spare_nodes ≡ 0) }
    {
        if self.live_nodes == MAX_NODES {
            return Err(AddFault::Full(Limit::Nodes));
        }
        if self.stamps == MAX_STAMP {
            return Err(AddFault::Full(Limit::Stamps));
        }
        match self.free_node {
            Some(id) => Ok(self.reuse_node(id)),
            None => self.fresh_node(),
        }
    }

    // Adds a node under the id that was given back last.
    fn reuse_node(&mut self, id: u32) -> Fact
        requires room { laws.HasRoomForNode self.old.graph }
        requires free { lists.first self.old.graph.free_nodes ≡ Some id }
        ensures added { self.new.graph ≡ steps.add_node self.old.graph }
        ensures fact { result ≡
            items.node_fact (steps.new_node self.old.graph) self.old.graph.stamps }
        ensures spare { MayUseNode self.old self.new }
    {
        let at = self.stamps;
        remove(&mut self.free_node, &mut self.node_links, id);
        insert(&mut self.first_node, &mut self.node_links, None, id);
        self.nodes[id as usize] = NodeRow {
            live: true,
            at,
            first_out: None,
            first_in: None,
        };
        self.live_nodes += 1;
        self.stamps += 1;
        told_node(id, at)
    }

    // Adds a node under a fresh id.
    fn fresh_node(&mut self) -> Result<Fact, AddFault>
        requires room { laws.HasRoomForNode self.old.graph }
        requires none { lists.first self.old.graph.free_nodes ≡ None }
        ensures added { OnOk result (self.new.graph ≡ steps.add_node self.old.graph) }
        ensures fact { IfOk result (λ fact.
            fact ≡ items.node_fact (steps.new_node self.old.graph) self.old.graph.stamps) }
        ensures memory { IfErr result (λ fault. fault ≡ AddFault.Memory) }
        ensures unchanged { OnErr result (self.new.graph ≡ self.old.graph) }
        ensures spare { MayUseNode self.old self.new }
        ensures none_spare { OnErr result (self.old.spare_nodes ≡ 0) }
    {
        if self.nodes.reserve(1).is_err() {
            return Err(AddFault::Memory);
        }
        if self.node_links.reserve(1).is_err() {
            return Err(AddFault::Memory);
        }
        let id = self.nodes.len() as u32;
        let at = self.stamps;
        let row = NodeRow {
            live: true,
            at,
            first_out: None,
            first_in: None,
        };
        if self.nodes.push(row).is_err() {
            unreachable!();
        }
        if self.node_links.push(loose()).is_err() {
            unreachable!();
        }
        insert(&mut self.first_node, &mut self.node_links, None, id);
        self.live_nodes += 1;
        self.stamps += 1;
        Ok(told_node(id, at))
    }

    /// Erases the node, which has no arcs.
    pub fn erase_node(&mut self, n: Node)
        requires live { items.IsLive self.old.graph ItemSort.Node n.0 }
        requires alone { laws.HasNoArc self.old.graph n.0 }
        ensures erased { self.new.graph ≡ steps.erase_node self.old.graph n.0 }
        ensures spare { KeepsSpare self.old self.new }
    {
        let node = n.0;
        remove(&mut self.first_node, &mut self.node_links, node);
        insert(&mut self.free_node, &mut self.node_links, None, node);
        self.nodes[node as usize].live = false;
        self.live_nodes -= 1;
    }
}
