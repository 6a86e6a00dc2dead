//! Whether an item is live.

ghost use Rattle.std.specs.Prelude.{◌≡◌, true};
ghost use Rattle.plain_digraph.specs.Items as items;

use base_items::ItemSort;
use list_digraph::ListDigraph;
use plain_digraph::live_items_are_told;

/// Whether something is told of the item, which then is live.
pub fn is_live(graph: &ListDigraph, sort: ItemSort, id: u32) -> bool
    ensures { result ≡ true → items.IsLive graph.now.graph sort id }
{
    let count = graph.count(sort);
    live_items_are_told();
    graph.fact(sort, id).is_some()
}
