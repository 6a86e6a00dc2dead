//! What a tower shows as a numbered digraph.

ghost use Rattle.std.specs.Prelude.{◌≡◌, ◌≤◌, ℕ, true, All, [], IfOk, IfErr, OnOk, length, take};
ghost use Rattle.base_items.specs.declared.items.ItemSort.{ItemSort};
ghost use Rattle.plain_digraph.specs.Items.{IsLive};
ghost use Rattle.plain_views.specs.Towers as towers;
ghost use Rattle.plain_views.specs.TowerLaws.{tower_bound};
ghost use Rattle.notify_chain.specs.Seats.{seats};
ghost use Rattle.view_numbers.specs.Listed.{Numbers, Fits, IsFull};
ghost use Rattle.view_tower.specs.Layers.{tower_of, HasMaps};

use list_digraph::ListDigraph;
use notify_chain::Chain;
use observe_core::Observer;
use static_digraph::Fixed;
use std::alloc::Global;
use view_core::{Plain, Shown};
use view_numbers::{NumberFault, number};
use view_tower::{Layer, Values, four};

/// The nodes and arcs that at most eight layers show over a digraph, by number, in the order of the
/// view; the item of each is its id. The chains have no seat.
///
/// `Full` of nodes exactly where more than `MAX_NODES` nodes are shown, otherwise `Full` of arcs
/// exactly where more than `MAX_ARCS` arcs are.
pub fn number_tower<'a, V: Values, O: Observer>(
    alloc: Global,
    base: &'a ListDigraph,
    layers: &'a [Layer],
    values: &'a V,
    on_nodes: &mut Chain<O>,
    on_arcs: &mut Chain<O>,
) -> Result<Fixed, NumberFault>
    requires few { length layers.now ≤ 8 }
    requires maps { All (HasMaps (V.has_int values.now) (V.has_bool values.now)) layers.now }
    requires live { (sort : ItemSort) (id : ℕ) → IsLive base.now.graph sort id
        → V.is_live values.now sort id ≡ true }
    requires no_nodes { seats O.watch on_nodes.old ≡ [] }
    requires no_arcs { seats O.watch on_arcs.old ≡ [] }
    ensures numbered { let p = towers.shown (V.values values.now) base.now.graph
        (tower_of layers.now) in IfOk result (Numbers p) }
    ensures fits { let p = towers.shown (V.values values.now) base.now.graph
        (tower_of layers.now) in OnOk result (Fits p) }
    ensures full { let p = towers.shown (V.values values.now) base.now.graph
        (tower_of layers.now) in IfErr result (IsFull p) }
{
    let half = four(Plain::new(base), base, layers, 0, values);
    number_above(alloc, base, layers, values, half, on_nodes, on_arcs)
}

/// The same, where four levels show the lowest four layers.
fn number_above<'a, V: Values, G: Shown + Drop, O: Observer>(
    alloc: Global,
    base: &'a ListDigraph,
    layers: &'a [Layer],
    values: &'a V,
    half: G,
    on_nodes: &mut Chain<O>,
    on_arcs: &mut Chain<O>,
) -> Result<Fixed, NumberFault>
    requires few { length layers.now ≤ 8 }
    requires maps { All (HasMaps (V.has_int values.now) (V.has_bool values.now)) layers.now }
    requires live { (sort : ItemSort) (id : ℕ) → IsLive base.now.graph sort id
        → V.is_live values.now sort id ≡ true }
    requires shows { G.graph half
        ≡ towers.shown (V.values values.now) base.now.graph (tower_of (take 4 layers.now)) }
    requires bound { G.bound half ≡ tower_bound (tower_of (take 4 layers.now)) }
    requires no_nodes { seats O.watch on_nodes.old ≡ [] }
    requires no_arcs { seats O.watch on_arcs.old ≡ [] }
    ensures numbered { let p = towers.shown (V.values values.now) base.now.graph
        (tower_of layers.now) in IfOk result (Numbers p) }
    ensures fits { let p = towers.shown (V.values values.now) base.now.graph
        (tower_of layers.now) in OnOk result (Fits p) }
    ensures full { let p = towers.shown (V.values values.now) base.now.graph
        (tower_of layers.now) in IfErr result (IsFull p) }
{
    let top = four(half, base, layers, 4, values);
    number(alloc, &top, on_nodes, on_arcs)
}
