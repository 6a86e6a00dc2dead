//! A tower of at most eight layers over a digraph, with the values of maps.

ghost use Rattle.std.specs.Prelude.{◌≡◌, ◌≤◌, ℕ, true, All, length};
ghost use Rattle.base_items.specs.declared.items.ItemSort.{ItemSort};
ghost use Rattle.plain_digraph.specs.Items.{IsLive};
ghost use Rattle.plain_views.specs.Towers as towers;
ghost use Rattle.view_tower.specs.Layers.{tower_of, HasMaps};
ghost use Rattle.std.proofs.Props.{props};

use crate::asked::{Flowing, Passing};
use crate::layers::Layer;
use crate::level::Level8;
use crate::stack::four;
use crate::values::Values;
use base_items::{Arc, Node};
use list_digraph::ListDigraph;
use view_core::{Plain, Shown};

/// What some layers show over a digraph, the bottom layer first. All values are read at each call.
pub type Tower<'a, V> = Over<'a, V, Level8<Plain<'a>, Passing<'a, V>, Flowing<'a, V>>>;

/// A tower with its levels, of which each is over the one below.
#[derive(Drop)]
pub struct Over<'a, V: Values, G: Shown> {
    pub(crate) base: &'a ListDigraph,
    pub(crate) layers: &'a [Layer],
    pub(crate) values: &'a V,
    top: G,
    ghost live: { (sort : ItemSort) (id : ℕ) → IsLive base.now.graph sort id
        → V.is_live values.now sort id ≡ true },
    ghost shows: { G.graph top
        ≡ towers.shown (V.values values.now) base.now.graph (tower_of layers.now) } by { Prim.hlevel props },
}

/// The tower of at most 8 layers, the bottom layer first. The values must have the maps that the
/// layers name, and a value of each at each live item of the digraph.
pub fn tower<'a, V: Values>(
    base: &'a ListDigraph,
    layers: &'a [Layer],
    values: &'a V,
) -> Tower<'a, V>
    requires few { length layers.now ≤ 8 }
    requires maps { All (HasMaps (V.has_int values.now) (V.has_bool values.now)) layers.now }
    requires live { (sort : ItemSort) (id : ℕ) → IsLive base.now.graph sort id
        → V.is_live values.now sort id ≡ true }
    ensures base { result.base.now ≡ base.now }
    ensures layers { result.layers.now ≡ layers.now }
    ensures values { result.values.now ≡ values.now }
{
    let half = four(Plain::new(base), base, layers, 0, values);
    let top = four(half, base, layers, 4, values);
    Over {
        base,
        layers,
        values,
        top,
    }
}

impl<'a, V: Values, G: Shown> Shown for Over<'a, V, G> {
    ghost use Rattle.std.proofs.Common.{subst};
    ghost use Rattle.plain_views.specs.Towers.{shown};
    ghost use Rattle.plain_views.specs.Shown as plain;

    ghost graph = { λ s. shown (V.values s.values.now) s.base.now.graph (tower_of s.layers.now) };

    ghost bound = { λ s. G.bound s.top };

    fn id_bound(&self) -> u32 {
        self.top.id_bound()
    }

    fn has_node(&self, n: Node) -> bool {
        self.top.has_node(n)
    }

    fn has_arc(&self, a: Arc) -> bool {
        self.top.has_arc(a)
    }

    fn first_node(&self) -> Option<Node> {
        self.top.first_node()
    }

    fn next_node(&self, n: Node) -> Option<Node> {
        self.top.next_node(n)
    }

    fn first_out(&self, n: Node) -> Option<Arc> {
        self.top.first_out(n)
    }

    fn next_out(&self, a: Arc) -> Option<Arc> {
        self.top.next_out(a)
    }

    fn first_in(&self, n: Node) -> Option<Arc> {
        self.top.first_in(n)
    }

    fn next_in(&self, a: Arc) -> Option<Arc> {
        self.top.next_in(a)
    }

    fn ends(&self, a: Arc) -> (Node, Node) {
        self.top.ends(a)
    }

    ghost valid = { λ s. subst plain.IsShown s.shows (G.valid s.top) };

    ghost below = { λ s. subst (λ (p : plain.Shown). plain.AreBelow p (G.bound s.top))
        s.shows (G.below s.top) };
}
