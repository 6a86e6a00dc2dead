//! A tower, level by level.

ghost use Rattle.std.specs.Prelude.{◌≡◌, ◌≤◌, ◌<◌, ◌+◌, ◌*◌, ◌^◌, ℕ, true, All, take};
ghost use Rattle.base_items.specs.declared.items.ItemSort.{ItemSort};
ghost use Rattle.plain_digraph.specs.Items.{IsLive};
ghost use Rattle.plain_views.specs.Towers as towers;
ghost use Rattle.plain_views.specs.TowerLaws.{tower_bound};
ghost use Rattle.view_tower.specs.Layers.{tower_of, HasMaps};

use crate::asked::{Flowing, Passing};
use crate::layers::Layer;
use crate::level::{How, Level, Level4};
use crate::values::Values;
use base_items::ItemSort;
use list_digraph::ListDigraph;
use view_core::Shown;

/// The level at a place, over what the layers below it show. Past the top it passes that on.
pub fn stack<'a, G: Shown, V: Values>(
    below: G,
    base: &ListDigraph,
    layers: &'a [Layer],
    at: usize,
    values: &'a V,
) -> Level<G, Passing<'a, V>, Flowing<'a, V>>
    requires small { G.bound below ≤ 2 ^ 30 }
    requires maps { All (HasMaps (V.has_int values.now) (V.has_bool values.now)) layers.now }
    requires live { (sort : ItemSort) (id : ℕ) → IsLive base.now.graph sort id
        → V.is_live values.now sort id ≡ true }
    requires shows { G.graph below
        ≡ towers.shown (V.values values.now) base.now.graph (tower_of (take at layers.now)) }
    requires bound { G.bound below ≡ tower_bound (tower_of (take at layers.now)) }
    ensures shows { ⟦<Level<G, Passing<'a, V>, Flowing<'a, V>> as Shown>⟧.graph result
        ≡ towers.shown (V.values values.now) base.now.graph (tower_of (take (at + 1) layers.now)) }
    ensures bound { ⟦<Level<G, Passing<'a, V>, Flowing<'a, V>> as Shown>⟧.bound result
        ≡ tower_bound (tower_of (take (at + 1) layers.now)) }
    ensures doubled { ⟦<Level<G, Passing<'a, V>, Flowing<'a, V>> as Shown>⟧.bound result
        ≤ G.bound below * 2 }
{
    // Any call of the digraph tells that it is valid, so that what is shown comes from live items.
    let _ = base.count(ItemSort::Node);
    if at >= layers.len() {
        return Level::new(below, How::Pass);
    }
    let front = &layers[..at];
    match layers[at] {
        Layer::Reverse => Level::new(below, How::Reverse),
        Layer::Sub { nodes, arcs } => {
            Level::new(below, How::Sub(Passing::new(front, values, nodes, arcs)))
        }
        Layer::Undirect => Level::new(below, How::Undirect),
        Layer::Residual { cap, flow } => {
            Level::new(below, How::Residual(Flowing::new(front, values, cap, flow)))
        }
        Layer::Split => Level::new(below, How::Split),
    }
}

/// Four levels from a place on.
pub fn four<'a, G: Shown, V: Values>(
    below: G,
    base: &ListDigraph,
    layers: &'a [Layer],
    at: usize,
    values: &'a V,
) -> Level4<G, Passing<'a, V>, Flowing<'a, V>>
    requires low { at ≤ 4 }
    requires small { G.bound below * 8 ≤ 2 ^ 30 }
    requires maps { All (HasMaps (V.has_int values.now) (V.has_bool values.now)) layers.now }
    requires live { (sort : ItemSort) (id : ℕ) → IsLive base.now.graph sort id
        → V.is_live values.now sort id ≡ true }
    requires shows { G.graph below
        ≡ towers.shown (V.values values.now) base.now.graph (tower_of (take at layers.now)) }
    requires bound { G.bound below ≡ tower_bound (tower_of (take at layers.now)) }
    ensures shows { ⟦<Level4<G, Passing<'a, V>, Flowing<'a, V>> as Shown>⟧.graph result
        ≡ towers.shown (V.values values.now) base.now.graph (tower_of (take (at + 4) layers.now)) }
    ensures bound { ⟦<Level4<G, Passing<'a, V>, Flowing<'a, V>> as Shown>⟧.bound result
        ≡ tower_bound (tower_of (take (at + 4) layers.now)) }
    ensures doubled { ⟦<Level4<G, Passing<'a, V>, Flowing<'a, V>> as Shown>⟧.bound result
        ≤ G.bound below * 16 }
{
    let first = stack(below, base, layers, at, values);
    let second = stack(first, base, layers, at + 1, values);
    let third = stack(second, base, layers, at + 2, values);
    stack(third, base, layers, at + 3, values)
}
