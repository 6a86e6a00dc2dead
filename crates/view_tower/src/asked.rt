//! What a level asks of the items below it: whether they pass, and how much room they have.

ghost use Rattle.std.specs.Prelude.{◌≡◌, true};
ghost use Rattle.base_items.specs.declared.items.ItemSort.TheVariants as sorts;
ghost use Rattle.plain_views.specs.Towers as towers;
ghost use Rattle.plain_views.specs.Marks.{arc_origin};
ghost use Rattle.view_tower.specs.Layers.{tower_of, IsGiven};
ghost use Rattle.view_tower.specs.Origins.{is_live_origin};

use crate::layers::Layer;
use crate::pulled::{arc_bool_at, arc_int_at, node_bool_at};
use crate::values::Values;
use base_items::{Arc, Node};
use view_core::{Filter, Rooms};

/// The filters of a sub layer, over the layers below it. An absent filter lets all pass.
#[derive(Drop)]
pub struct Passing<'a, V: Values> {
    below: &'a [Layer],
    values: &'a V,
    nodes: Option<u32>,
    arcs: Option<u32>,
    ghost node_map: { IsGiven (V.has_bool values.now sorts.Node) nodes },
    ghost arc_map: { IsGiven (V.has_bool values.now sorts.Arc) arcs },
}

impl<'a, V: Values> Passing<'a, V> {
    /// The filters by these bool maps, each of which must be there.
    pub fn new(
        below: &'a [Layer],
        values: &'a V,
        nodes: Option<u32>,
        arcs: Option<u32>,
    ) -> Passing<'a, V>
        requires nodes { IsGiven (V.has_bool values.now sorts.Node) nodes }
        requires arcs { IsGiven (V.has_bool values.now sorts.Arc) arcs }
        ensures below { result.below.now ≡ below.now }
        ensures values { result.values.now ≡ values.now }
        ensures nodes { result.nodes ≡ nodes }
        ensures arcs { result.arcs ≡ arcs }
    {
        Passing {
            below,
            values,
            nodes,
            arcs,
        }
    }
}

impl<'a, V: Values> Filter for Passing<'a, V> {
    ghost use Rattle.plain_views.specs.Towers.{base_node, node_bool, arc_bool, passes};

    ghost admits_node = { λ s node. V.is_live s.values.now sorts.Node
        (base_node (tower_of s.below.now) node) };

    ghost admits_arc = { λ s arc. is_live_origin (V.is_live s.values.now)
        (arc_origin (tower_of s.below.now) arc) };

    ghost keeps_node = { λ s. passes (V.values s.values.now)
        (node_bool (V.values s.values.now) (tower_of s.below.now)) s.nodes };

    ghost keeps_arc = { λ s. passes (V.values s.values.now)
        (arc_bool (V.values s.values.now) (tower_of s.below.now)) s.arcs };

    fn node(&self, n: Node) -> bool {
        match self.nodes {
            Some(map) => node_bool_at(self.below, self.values, map, n.0),
            None => true,
        }
    }

    fn arc(&self, a: Arc) -> bool {
        match self.arcs {
            Some(map) => arc_bool_at(self.below, self.values, map, a.0),
            None => true,
        }
    }
}

/// The capacity and the flow of a residual layer, over the layers below it.
#[derive(Drop)]
pub struct Flowing<'a, V: Values> {
    below: &'a [Layer],
    values: &'a V,
    cap: u32,
    flow: u32,
    ghost cap_map: { V.has_int values.now sorts.Arc cap ≡ true },
    ghost flow_map: { V.has_int values.now sorts.Arc flow ≡ true },
}

impl<'a, V: Values> Flowing<'a, V> {
    /// The capacity and the flow by these int maps of the arcs, which must be there.
    pub fn new(below: &'a [Layer], values: &'a V, cap: u32, flow: u32) -> Flowing<'a, V>
        requires cap { V.has_int values.now sorts.Arc cap ≡ true }
        requires flow { V.has_int values.now sorts.Arc flow ≡ true }
        ensures below { result.below.now ≡ below.now }
        ensures values { result.values.now ≡ values.now }
        ensures cap { result.cap ≡ cap }
        ensures flow { result.flow ≡ flow }
    {
        Flowing {
            below,
            values,
            cap,
            flow,
        }
    }
}

impl<'a, V: Values> Rooms for Flowing<'a, V> {
    ghost use Rattle.plain_views.specs.Towers.{arc_int};

    ghost admits = { λ s arc. is_live_origin (V.is_live s.values.now)
        (arc_origin (tower_of s.below.now) arc) };

    ghost cap_of = { λ s. arc_int (V.values s.values.now) (tower_of s.below.now) s.cap };

    ghost flow_of = { λ s. arc_int (V.values s.values.now) (tower_of s.below.now) s.flow };

    fn cap(&self, a: Arc) -> i128 {
        arc_int_at(self.below, self.values, self.cap, a.0)
    }

    fn flow(&self, a: Arc) -> i128 {
        arc_int_at(self.below, self.values, self.flow, a.0)
    }
}
