//! The maps of the tests: values that the ids alone tell.

ghost use Rattle.std.specs.Prelude.{◌≡◌, not, true, All};
ghost use Rattle.view_tower.specs.Layers.{HasMaps, IsGiven};
ghost use Rattle.plain_views.specs.Adaptors.{is_even};
ghost use Rattle.view_tests.specs.Columns as columns;

use view_tower::{Layer, Values};

/// Maps of even numbers have ints, and those of odd ones bools. Map 0 of the arcs is a capacity and
/// has a partner, map 1 is a filter of each sort, and map 2 of the arcs is a flow.
#[derive(Drop)]
pub struct Columns;

impl Values for Columns {
    ghost values = { λ _. columns.columns };

    ghost has_int = { λ _. columns.has_int };

    ghost has_bool = { λ _. columns.has_bool };

    ghost is_live = { λ _ _ _. true };

    fn node_int(&self, _map: u32, node: u32) -> i64 {
        i64::from(node) + 5
    }

    fn arc_int(&self, map: u32, arc: u32) -> i64 {
        if map == 0 { 2 } else { i64::from(arc) }
    }

    fn node_bool(&self, _map: u32, node: u32) -> bool {
        node != 2
    }

    fn arc_bool(&self, _map: u32, arc: u32) -> bool {
        arc != 1
    }

    fn partner(&self, arc_map: u32) -> Option<u32> {
        if arc_map < 2 { Some(arc_map) } else { None }
    }

    ghost types_differ = { λ _. columns.types_differ };

    ghost int_partner = { λ _. columns.int_partner };

    ghost bool_partner = { λ _. columns.bool_partner };
}

// Whether the filter is there, if one is named.
fn is_filter(map: Option<u32>) -> bool
    ensures { result ≡ true → IsGiven (λ m. not (is_even m)) map }
{
    match map {
        Some(map) => map % 2 == 1,
        None => true,
    }
}

// Whether the maps of the layer are there.
fn has_maps(layer: Layer) -> bool
    ensures { result ≡ true → HasMaps columns.has_int columns.has_bool layer }
{
    match layer {
        Layer::Sub { nodes, arcs } => is_filter(nodes) && is_filter(arcs),
        Layer::Residual { cap, flow } => cap % 2 == 0 && flow % 2 == 0,
        _ => true,
    }
}

/// Whether the maps of all layers are there.
pub fn have_maps(layers: &[Layer]) -> bool
    ensures { result ≡ true → All (HasMaps columns.has_int columns.has_bool) layers.now }
{
    let mut at = 0;
    'up: while at < layers.len() {
        if !has_maps(layers[at]) {
            return false;
        }
        at += 1;
    }
    true
}
