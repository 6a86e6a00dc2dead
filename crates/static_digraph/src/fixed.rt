//! A numbered digraph in flat arrays.

ghost use Rattle.std.specs.Prelude.{◌≡◌, ◌<◌, ◌≤◌, IfOk, length};

use crate::ends::{Ends, number_ends};
use crate::places::place_table;
use crate::rows::{Rows, row, rows_by};
use crate::told::{Facts, arc_facts, node_facts};
use base_items::Fact;
use std::alloc::{AllocError, Global};
use std::marker::Model;

/// Nodes 0 to n-1 and arcs 0 to m-1, each with its item. Contracts see the items and the ends
/// (`FixedOf`), and the digraph by numbers (`graph_of`).
#[derive(Drop)]
pub struct Fixed {
    nodes: Vec<u32>,
    arcs: Vec<u32>,
    from: Vec<u32>,
    to: Vec<u32>,
    out: Rows,
    into: Rows,
}

impl Model for Fixed {
    ghost use Rattle.static_digraph.specs.Fixed.{FixedOf, fixed_code};

    ghost Value = { FixedOf };

    ghost coded = { fixed_code };

    ghost use Rattle.static_digraph.specs.Inside.{seen, Holds};

    ghost view = { seen };

    ghost invariant = { Holds };
}

impl Fixed {
    ghost use Rattle.plain_certificates.specs.Numbered.{EndsAreNodes};
    ghost use Rattle.plain_certificates.specs.Tables.{at};
    ghost use Rattle.static_digraph.specs.Fixed.{graph_of, row_of, HaveEnds, fixed_from};
    ghost use Rattle.static_digraph.specs.Told.{nodes_of, arcs_of};

    /// The nodes and arcs in the given order.
    pub(crate) fn number(alloc: Global, nodes: &[u32], arcs: &[Fact]) -> Result<Fixed, AllocError>
        requires few_nodes { length nodes.now ≤ 1048576 }
        requires few_arcs { length arcs.now ≤ 4194304 }
        requires ends { HaveEnds nodes.now arcs.now }
        ensures { IfOk result (λ fixed. fixed ≡ fixed_from nodes.now arcs.now) }
    {
        let table = place_table(alloc, nodes)?;
        let Ends { items, from, to } = number_ends(alloc, arcs, &table)?;
        let out = rows_by(alloc, &from, nodes.len())?;
        let into = rows_by(alloc, &to, nodes.len())?;
        let nodes = Vec::from_slice(alloc, nodes)?;
        Ok(Fixed {
            nodes,
            arcs: items,
            from,
            to,
            out,
            into,
        })
    }

    /// What is told of the nodes, and what of the arcs.
    pub(crate) fn facts(&self, alloc: Global) -> Result<Facts, AllocError>
        ensures nodes { IfOk result (λ facts. facts.nodes.items ≡ nodes_of self.now) }
        ensures arcs { IfOk result (λ facts. facts.arcs.items ≡ arcs_of self.now) }
    {
        let nodes = node_facts(alloc, self.nodes.len())?;
        let arcs = arc_facts(alloc, &self.from, &self.to)?;
        Ok(Facts { nodes, arcs })
    }

    /// How many nodes there are, at most `MAX_NODES`.
    pub fn node_count(&self) -> u32
        ensures count { result ≡ (graph_of self.now).nodes }
        ensures few { result ≤ 1048576 }
    {
        self.nodes.len() as u32
    }

    /// How many arcs there are, at most `MAX_ARCS`. Their ends are nodes.
    pub fn arc_count(&self) -> u32
        ensures count { result ≡ (graph_of self.now).arcs }
        ensures few { result ≤ 4194304 }
        ensures ends { EndsAreNodes (graph_of self.now) }
    {
        self.arcs.len() as u32
    }

    /// The numbers of an arc's source and target.
    pub fn ends(&self, arc: u32) -> (u32, u32)
        requires { arc < (graph_of self.now).arcs }
        ensures from { result.0 ≡ (graph_of self.now).from arc }
        ensures to { result.1 ≡ (graph_of self.now).to arc }
    {
        (self.from[arc as usize], self.to[arc as usize])
    }

    /// The arcs from a node, by rising number.
    pub fn out_row(&self, node: u32) -> &[u32]
        requires { node < (graph_of self.now).nodes }
        ensures { result.now ≡ row_of (graph_of self.now).from (graph_of self.now).arcs node }
    {
        row(&self.out, node)
    }

    /// The arcs to a node, by rising number.
    pub fn in_row(&self, node: u32) -> &[u32]
        requires { node < (graph_of self.now).nodes }
        ensures { result.now ≡ row_of (graph_of self.now).to (graph_of self.now).arcs node }
    {
        row(&self.into, node)
    }

    /// The item of a node.
    pub fn node_item(&self, node: u32) -> u32
        requires { node < (graph_of self.now).nodes }
        ensures { result ≡ at 0 self.now.nodes node }
    {
        self.nodes[node as usize]
    }

    /// The item of an arc.
    pub fn arc_item(&self, arc: u32) -> u32
        requires { arc < (graph_of self.now).arcs }
        ensures { result ≡ at 0 self.now.arcs arc }
    {
        self.arcs[arc as usize]
    }
}
