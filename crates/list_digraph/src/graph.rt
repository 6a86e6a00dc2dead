//! The digraph: its tables, its sizes, and room for more.

ghost use Rattle.std.specs.Prelude.{◌≡◌, ◌+◌, ◌≤◌, OnOk};
ghost use Rattle.plain_digraph.specs.Digraph as plain;
ghost use Rattle.plain_digraph.specs.Items as items;
ghost use Rattle.plain_digraph.specs.Steps as steps;
ghost use Rattle.plain_digraph.specs.Valid.{IsValid};
ghost use Rattle.list_digraph.specs.Roomy.{KeepsSpare};

use crate::rows::{ArcRow, NodeRow};
use base_items::{ItemSort, MAX_STAMP};
use linked_lists::Link;
use std::alloc::{AllocError, Global};
use std::marker::Model;

/// A changeable digraph, after the list digraph of LEMON. Contracts see the digraph of plain lists,
/// and the spare nodes and spare arcs: how many may be added at least without more memory.
///
/// Items have ids. The id that was given back last is used first, otherwise the next fresh number,
/// from 0. The newest node stands in front of the others. Each arc stands in the list of the arcs
/// from its source and in that of the arcs to its target; a new or moved one goes in front. Each
/// addition and each move takes one stamp, and these lists go by falling stamp.
///
/// Each call takes constant time, but [`place`](ListDigraph::place) and
/// [`put_back`](ListDigraph::put_back), which look for a place along two lists of arcs, and
/// [`clear`](ListDigraph::clear).
#[derive(Drop)]
pub struct ListDigraph {
    // The row of an item stands at its id, and so do its links. Free ids are a chain through the
    // links of the rows that aren't live: those of nodes in `node_links`, those of arcs in
    // `out_links`.
    pub(crate) nodes: Vec<NodeRow>,
    pub(crate) node_links: Vec<Link>,
    pub(crate) first_node: Option<u32>,
    pub(crate) free_node: Option<u32>,
    pub(crate) live_nodes: u32,
    pub(crate) arcs: Vec<ArcRow>,
    pub(crate) out_links: Vec<Link>,
    pub(crate) in_links: Vec<Link>,
    pub(crate) free_arc: Option<u32>,
    pub(crate) live_arcs: u32,
    pub(crate) stamps: u64,
}

impl Model for ListDigraph {
    ghost use Rattle.list_digraph.specs.Roomy.{Roomy, roomy_code};

    ghost Value = { Roomy };

    ghost coded = { roomy_code };

    ghost use Rattle.list_digraph.specs.Inside.{seen, Fits};

    ghost view = { seen };

    ghost invariant = { Fits };
}

impl ListDigraph {
    /// The empty digraph.
    pub fn new(alloc: Global) -> ListDigraph
        ensures { result.graph ≡ plain.empty }
    {
        ListDigraph {
            nodes: Vec::new(alloc),
            node_links: Vec::new(alloc),
            first_node: None,
            free_node: None,
            live_nodes: 0,
            arcs: Vec::new(alloc),
            out_links: Vec::new(alloc),
            in_links: Vec::new(alloc),
            free_arc: None,
            live_arcs: 0,
            stamps: 0,
        }
    }

    /// Makes room, so that this many nodes and arcs may be added without more memory. Where it
    /// fails the digraph is as before.
    pub fn reserve(&mut self, nodes: u32, arcs: u32) -> Result<(), AllocError>
        ensures graph { self.new.graph ≡ self.old.graph }
        ensures spare { KeepsSpare self.old self.new }
        ensures nodes { OnOk result (nodes ≤ self.new.spare_nodes) }
        ensures arcs { OnOk result (arcs ≤ self.new.spare_arcs) }
    {
        self.nodes.reserve(nodes as usize)?;
        self.node_links.reserve(nodes as usize)?;
        self.arcs.reserve(arcs as usize)?;
        self.out_links.reserve(arcs as usize)?;
        self.in_links.reserve(arcs as usize)?;
        Ok(())
    }

    /// Clears the arcs, and then the nodes. The ids start from 0 again; the counter of stamps goes
    /// on, and the room is kept.
    pub fn clear(&mut self)
        ensures cleared { self.new.graph ≡ steps.clear_nodes (steps.clear_arcs self.old.graph) }
        ensures spare { KeepsSpare self.old self.new }
    {
        self.nodes.clear();
        self.node_links.clear();
        self.first_node = None;
        self.free_node = None;
        self.live_nodes = 0;
        self.arcs.clear();
        self.out_links.clear();
        self.in_links.clear();
        self.free_arc = None;
        self.live_arcs = 0;
    }

    /// How many items of the sort are live.
    pub fn count(&self, sort: ItemSort) -> u32
        ensures count { result ≡ items.count_of self.now.graph sort }
        ensures valid { IsValid self.now.graph }
    {
        match sort {
            ItemSort::Node => self.live_nodes,
            ItemSort::Arc => self.live_arcs,
        }
    }

    /// How many ids of the sort were ever used, since the last [`clear`](ListDigraph::clear).
    pub fn used(&self, sort: ItemSort) -> u32
        ensures { result ≡ items.used_of self.now.graph sort }
    {
        match sort {
            ItemSort::Node => self.nodes.len() as u32,
            ItemSort::Arc => self.arcs.len() as u32,
        }
    }

    /// How many additions and moves are left: each takes one of 2^62 stamps.
    pub fn stamps_left(&self) -> u64
        ensures { result + self.now.graph.stamps ≡ MAX_STAMP }
    {
        MAX_STAMP - self.stamps
    }
}
