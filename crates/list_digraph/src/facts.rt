//! What is told of the live items.

ghost use Rattle.std.specs.Prelude.{◌≡◌};
ghost use Rattle.plain_digraph.specs.Items as items;

use crate::graph::ListDigraph;
use crate::rows::ArcRow;
use base_items::{Fact, ItemSort};

impl ListDigraph {
    /// What is told of the live item with this id. None exactly where no item with it is live.
    pub fn fact(&self, sort: ItemSort, id: u32) -> Option<Fact>
        ensures { result ≡ items.fact_of self.now.graph sort id }
    {
        match sort {
            ItemSort::Node => self.node_told(id),
            ItemSort::Arc => self.arc_told(id),
        }
    }

    fn node_told(&self, id: u32) -> Option<Fact>
        ensures { result ≡ items.fact_of self.now.graph ItemSort.Node id }
    {
        if id as usize >= self.nodes.len() {
            return None;
        }
        let row = self.nodes[id as usize];
        if !row.live {
            return None;
        }
        Some(told_node(id, row.at))
    }

    fn arc_told(&self, id: u32) -> Option<Fact>
        ensures { result ≡ items.fact_of self.now.graph ItemSort.Arc id }
    {
        if id as usize >= self.arcs.len() {
            return None;
        }
        let row = self.arcs[id as usize];
        if !row.live {
            return None;
        }
        Some(told_arc(id, row))
    }
}

//// What is told of a node.
pub fn told_node(id: u32, at: u64) -> Fact
    ensures { result ≡ items.node_fact id at }
{
    Fact {
        id,
        from: id,
        to: id,
        from_at: at,
        to_at: at,
    }
}

//// What is told of an arc, by its row.
pub fn told_arc(id: u32, row: ArcRow) -> Fact
    ensures { result ≡ items.arc_fact id (row.from, row.to) row.from_at row.to_at }
{
    Fact {
        id,
        from: row.from,
        to: row.to,
        from_at: row.from_at,
        to_at: row.to_at,
    }
}
