//! Which nodes a tower shows.

ghost use Rattle.std.specs.Prelude.{◌≡◌, ◌≤◌, ℕ, true, All, length, take};
ghost use Rattle.base_items.specs.declared.items.ItemSort.{ItemSort};
ghost use Rattle.plain_digraph.specs.Items.{IsLive};
ghost use Rattle.plain_digraph.specs.Lists.{has};
ghost use Rattle.plain_views.specs.Towers as towers;
ghost use Rattle.plain_views.specs.TowerLaws.{tower_bound};
ghost use Rattle.view_tower.specs.Layers.{tower_of, HasMaps};

use base_items::Node;
use list_digraph::ListDigraph;
use view_core::{Plain, Shown};
use view_tower::{Layer, Values, four};

/// Whether at most eight layers show a node over a digraph.
pub fn shows_node<'a, V: Values>(
    base: &'a ListDigraph,
    layers: &'a [Layer],
    values: &'a V,
    node: u32,
) -> bool
    requires few { length layers.now ≤ 8 }
    requires maps { All (HasMaps (V.has_int values.now) (V.has_bool values.now)) layers.now }
    requires live { (sort : ItemSort) (id : ℕ) → IsLive base.now.graph sort id
        → V.is_live values.now sort id ≡ true }
    ensures { let p = towers.shown (V.values values.now) base.now.graph (tower_of layers.now) in
        result ≡ has p.nodes node }
{
    let half = four(Plain::new(base), base, layers, 0, values);
    shows_above(base, layers, values, half, node)
}

/// The same, where four levels show the lowest four layers.
fn shows_above<'a, V: Values, G: Shown + Drop>(
    base: &'a ListDigraph,
    layers: &'a [Layer],
    values: &'a V,
    half: G,
    node: u32,
) -> bool
    requires few { length layers.now ≤ 8 }
    requires maps { All (HasMaps (V.has_int values.now) (V.has_bool values.now)) layers.now }
    requires live { (sort : ItemSort) (id : ℕ) → IsLive base.now.graph sort id
        → V.is_live values.now sort id ≡ true }
    requires shows { G.graph half
        ≡ towers.shown (V.values values.now) base.now.graph (tower_of (take 4 layers.now)) }
    requires bound { G.bound half ≡ tower_bound (tower_of (take 4 layers.now)) }
    ensures { let p = towers.shown (V.values values.now) base.now.graph (tower_of layers.now) in
        result ≡ has p.nodes node }
{
    let top = four(half, base, layers, 4, values);
    top.has_node(Node(node))
}
