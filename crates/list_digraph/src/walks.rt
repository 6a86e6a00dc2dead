//! Walks along the list of nodes and along the lists of arcs at a node.

ghost use Rattle.std.specs.Prelude.{◌≡◌, option_map};
ghost use Rattle.plain_digraph.specs.Lists as lists;
ghost use Rattle.plain_digraph.specs.Items as items;

use crate::graph::ListDigraph;
use base_items::{Arc, ItemSort, Node};

impl ListDigraph {
    /// The newest node. None exactly where there is no node.
    pub fn first_node(&self) -> Option<Node>
        ensures { option_map (λ n. n.0) result ≡ lists.first (items.ids self.now.graph.nodes) }
    {
        node(self.first_node)
    }

    /// The node after this one, the next older one. None exactly at the end of the list.
    pub fn next_node(&self, n: Node) -> Option<Node>
        requires { items.IsLive self.now.graph ItemSort.Node n.0 }
        ensures { option_map (λ n. n.0) result ≡ lists.after (items.ids self.now.graph.nodes) n.0 }
    {
        node(self.node_links[n.0 as usize].next.id())
    }

    /// The first arc from the node. None exactly where there is none.
    pub fn first_out(&self, n: Node) -> Option<Arc>
        requires { items.IsLive self.now.graph ItemSort.Node n.0 }
        ensures { option_map (λ a. a.0) result ≡ lists.first (items.out_arcs self.now.graph n.0) }
    {
        arc(self.nodes[n.0 as usize].first_out)
    }

    /// The arc after this one from the same node. None exactly at the end of the list.
    pub fn next_out(&self, a: Arc) -> Option<Arc>
        requires { items.IsLive self.now.graph ItemSort.Arc a.0 }
        ensures { let source = items.source_of self.now.graph a.0 in
            option_map (λ a. a.0) result ≡ lists.after (items.out_arcs self.now.graph source) a.0 }
    {
        arc(self.out_links[a.0 as usize].next.id())
    }

    /// The first arc to the node. None exactly where there is none.
    pub fn first_in(&self, n: Node) -> Option<Arc>
        requires { items.IsLive self.now.graph ItemSort.Node n.0 }
        ensures { option_map (λ a. a.0) result ≡ lists.first (items.in_arcs self.now.graph n.0) }
    {
        arc(self.nodes[n.0 as usize].first_in)
    }

    /// The arc after this one to the same node. None exactly at the end of the list.
    pub fn next_in(&self, a: Arc) -> Option<Arc>
        requires { items.IsLive self.now.graph ItemSort.Arc a.0 }
        ensures { let target = items.target_of self.now.graph a.0 in
            option_map (λ a. a.0) result ≡ lists.after (items.in_arcs self.now.graph target) a.0 }
    {
        arc(self.in_links[a.0 as usize].next.id())
    }
}

fn node(id: Option<u32>) -> Option<Node>
    ensures { option_map (λ n. n.0) result ≡ id }
{
    match id {
        Some(id) => Some(Node(id)),
        None => None,
    }
}

fn arc(id: Option<u32>) -> Option<Arc>
    ensures { option_map (λ a. a.0) result ≡ id }
{
    match id {
        Some(id) => Some(Arc(id)),
        None => None,
    }
}
