//! A digraph with two chains of observers.

ghost use Rattle.std.specs.Prelude.{◌≡◌, ◌≤◌, IfNone, IfSome};
ghost use Rattle.plain_digraph.specs.Digraph.{empty};
ghost use Rattle.alter_graph.specs.Chains.{no_chains};
ghost use Rattle.alter_graph.specs.State.{state_of, IsInStep};
ghost use Rattle.alter_graph.specs.Room.{HasRoom, PassesLimit};

use crate::chains::Chains;
use base_items::{ItemSort, Limit, MAX_ARCS, MAX_NODES};
use list_digraph::ListDigraph;
use observe_core::Observer;
use std::alloc::Global;
use std::marker::Model;

/// A digraph whose observers are told of each change, and may refuse it. Contracts see the state:
/// the digraph, and of each chain the seats, oldest first, the keys that left by themselves, and
/// the names of the snapshots.
///
/// Each alteration happens whole or not at all, whichever observer refuses at whichever of its
/// steps. That the observers are in step with the digraph (`IsInStep`) is a condition of each, and
/// holds again after it, however it ends.
#[derive(Drop)]
pub struct Alterable<O> {
    pub(crate) graph: ListDigraph,
    pub(crate) chains: Chains<O>,
}

impl<O> Model for Alterable<O> {
    ghost use Rattle.alter_graph.specs.State.{AlterOf, alter_code};

    ghost Value = { AlterOf O };

    ghost coded = { alter_code O.code };

    ghost view = { λ a. record { graph = a.graph; chains = a.chains } };
}

impl<O: Observer> Alterable<O> {
    /// An empty digraph without observers.
    pub fn new(alloc: Global) -> Alterable<O>
        ensures empty { state_of O.watch result ≡ record { graph = empty; chains = no_chains } }
        ensures in_step { IsInStep (state_of O.watch result) }
    {
        Alterable {
            graph: ListDigraph::new(alloc),
            chains: Chains::new(alloc),
        }
    }

    /// The digraph.
    pub fn graph(&self) -> &ListDigraph
        ensures { result.now ≡ self.now.graph }
    {
        &self.graph
    }

    /// The chains of both sorts.
    pub(crate) fn chains(&self) -> &Chains<O>
        ensures { result.now ≡ self.now.chains }
    {
        &self.chains
    }

    /// The first limit that some new items and stamps would pass.
    pub(crate) fn limit_passed(&self, nodes: u32, arcs: u32, stamps: u64) -> Option<Limit>
        requires few_nodes { nodes ≤ MAX_NODES }
        requires few_arcs { arcs ≤ MAX_ARCS }
        ensures room { IfNone result (HasRoom nodes arcs stamps self.now.graph.graph) }
        ensures full { IfSome result (PassesLimit nodes arcs stamps self.now.graph.graph) }
    {
        if nodes > 0 {
            if self.graph.count(ItemSort::Node) > MAX_NODES - nodes {
                return Some(Limit::Nodes);
            }
        }
        if arcs > 0 {
            if self.graph.count(ItemSort::Arc) > MAX_ARCS - arcs {
                return Some(Limit::Arcs);
            }
        }
        if self.graph.stamps_left() < stamps {
            return Some(Limit::Stamps);
        }
        None
    }
}
