//! Splitting a node, and splitting an arc.

ghost use Rattle.std.specs.Prelude.{◌≡◌, ◌↔◌, true, IsSome, OnOk, IfOk, IfErr, IfSome};
ghost use Rattle.plain_digraph.specs.Items.{IsLive};
ghost use Rattle.plain_digraph.specs.Steps.{new_node, new_arc};
ghost use Rattle.plain_digraph.specs.Alterations.{arc_split, node_split};
ghost use Rattle.alter_graph.specs.State.{state_of, IsInStep};
ghost use Rattle.alter_graph.specs.Outcome.{Happens, Refuses};
ghost use Rattle.alter_graph.specs.Links as spec;

use crate::faults::AlterFault;
use crate::gathering::{arcs_from, push_sources};
use crate::graph::Alterable;
use crate::steps::{Step, told_of};
use base_items::{Arc, ItemSort, Node};
use observe_core::Observer;
use std::alloc::Global;

impl<O: Observer> Alterable<O> {
    /// Adds a node, moves the target of a live arc to it, and adds an arc from it to the old
    /// target. Answers the new node and the new arc.
    ///
    /// `Full`, `Vetoed` or `Memory`; all is then as before.
    pub fn split_arc(&mut self, a: Arc, alloc: Global) -> Result<(Node, Arc), AlterFault>
        requires in_step { IsInStep (state_of O.watch self.old) }
        requires arc { IsLive self.old.graph.graph ItemSort.Arc a.0 }
        ensures happens { OnOk result (Happens (arc_split self.old.graph.graph a.0)
            (state_of O.watch self.old) (state_of O.watch self.new)) }
        ensures node { IfOk result (λ new. new.0.0 ≡ new_node self.old.graph.graph) }
        ensures new_arc { IfOk result (λ new. new.1.0 ≡ new_arc self.old.graph.graph) }
        ensures refuses { IfErr result (Refuses (arc_split self.old.graph.graph a.0)
            (state_of O.watch self.old) (state_of O.watch self.new)) }
    {
        if let Some(limit) = self.limit_passed(1, 1, 3) {
            return Err(AlterFault::Full(limit));
        }
        let end = Node(told_of(self.graph(), ItemSort::Arc, a.0).to);
        let mut journal = Vec::new(alloc);
        let node = match self.attempt(Step::AddNode, &mut journal) {
            Ok(fact) => Node(fact.id),
            Err(fault) => return Err(fault),
        };
        if let Err(fault) = self.attempt(Step::MoveTo(a, node), &mut journal) {
            return Err(fault);
        }
        match self.attempt(Step::AddArc(node, end), &mut journal) {
            Ok(fact) => Ok((node, Arc(fact.id))),
            Err(fault) => Err(fault),
        }
    }

    /// Adds a node and moves the sources of the arcs from a live node to it; where `connect`, adds
    /// an arc from the old node to the new one. Answers the new node and the new arc.
    ///
    /// `Full`, `Vetoed` or `Memory`; all is then as before.
    pub fn split_node(
        &mut self,
        n: Node,
        connect: bool,
        alloc: Global,
    ) -> Result<(Node, Option<Arc>), AlterFault>
        requires in_step { IsInStep (state_of O.watch self.old) }
        requires node { IsLive self.old.graph.graph ItemSort.Node n.0 }
        ensures happens { OnOk result (Happens (node_split self.old.graph.graph n.0 connect)
            (state_of O.watch self.old) (state_of O.watch self.new)) }
        ensures new_node { IfOk result (λ new. new.0.0 ≡ new_node self.old.graph.graph) }
        ensures linked { IfOk result (λ new. IsSome new.1 ↔ (connect ≡ true)) }
        ensures new_arc { IfOk result
            (λ new. IfSome new.1 (λ a. a.0 ≡ new_arc self.old.graph.graph)) }
        ensures refuses { IfErr result (Refuses (node_split self.old.graph.graph n.0 connect)
            (state_of O.watch self.old) (state_of O.watch self.new)) }
    {
        let arcs = match arcs_from(self.graph(), n, alloc) {
            Ok(arcs) => arcs,
            Err(_) => return Err(AlterFault::Memory),
        };
        let links = links(connect);
        if let Some(limit) = self.limit_passed(1, links, 1 + arcs.len() as u64 + links as u64) {
            return Err(AlterFault::Full(limit));
        }
        let mut journal = Vec::new(alloc);
        let node = match self.attempt(Step::AddNode, &mut journal) {
            Ok(fact) => Node(fact.id),
            Err(fault) => return Err(fault),
        };
        let mut moves = Vec::new(alloc);
        if let Err(_) = push_sources(&mut moves, arcs.as_slice(), node) {
            self.unwind(&mut journal);
            return Err(AlterFault::Memory);
        }
        if let Err(fault) = self.run(moves.as_slice(), &mut journal) {
            return Err(fault);
        }
        if !connect {
            return Ok((node, None));
        }
        match self.attempt(Step::AddArc(n, node), &mut journal) {
            Ok(fact) => Ok((node, Some(Arc(fact.id)))),
            Err(fault) => Err(fault),
        }
    }
}

// How many arcs are added.
fn links(connect: bool) -> u32
    ensures { result ≡ spec.links connect }
{
    if connect { 1 } else { 0 }
}
