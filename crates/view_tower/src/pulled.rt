//! The values that items of a tower pull from the base, read from the layers alone.

ghost use Rattle.std.specs.Prelude.{◌≡◌, true};
ghost use Rattle.base_items.specs.declared.items.ItemSort.TheVariants as sorts;
ghost use Rattle.plain_views.specs.Towers as towers;
ghost use Rattle.plain_views.specs.Marks.{arc_origin};
ghost use Rattle.view_tower.specs.Layers.{tower_of, origin_of};
ghost use Rattle.view_tower.specs.Origins as origins;

use crate::layers::{Layer, Origin, arc_from, base_of};
use crate::values::Values;

/// The int of a node map at a node of the tower.
pub fn node_int_at<V: Values>(layers: &[Layer], values: &V, map: u32, node: u32) -> i64
    requires map { V.has_int values.now sorts.Node map ≡ true }
    requires live { V.is_live values.now sorts.Node
        (towers.base_node (tower_of layers.now) node) ≡ true }
    ensures { result ≡ towers.node_int (V.values values.now) (tower_of layers.now) map node }
{
    values.node_int(map, base_of(layers, node))
}

/// The bool of a node map at a node of the tower.
pub fn node_bool_at<V: Values>(layers: &[Layer], values: &V, map: u32, node: u32) -> bool
    requires map { V.has_bool values.now sorts.Node map ≡ true }
    requires live { V.is_live values.now sorts.Node
        (towers.base_node (tower_of layers.now) node) ≡ true }
    ensures { result ≡ towers.node_bool (V.values values.now) (tower_of layers.now) map node }
{
    values.node_bool(map, base_of(layers, node))
}

// The bool at the item that the arc comes from.
fn bool_from<V: Values>(values: &V, map: u32, from: Origin) -> bool
    requires map { V.has_bool values.now sorts.Arc map ≡ true }
    requires live { origins.is_live_origin (V.is_live values.now) (origin_of from) ≡ true }
    ensures { result ≡ origins.origin_bool (V.values values.now) map (origin_of from) }
{
    match from {
        Origin::Arc(item) => values.arc_bool(map, item),
        Origin::Bind(node) => match values.partner(map) {
            Some(partner) => values.node_bool(partner, node),
            None => true,
        },
    }
}

/// The bool of an arc map at an arc of the tower.
pub fn arc_bool_at<V: Values>(layers: &[Layer], values: &V, map: u32, arc: u32) -> bool
    requires map { V.has_bool values.now sorts.Arc map ≡ true }
    requires live { origins.is_live_origin (V.is_live values.now)
        (arc_origin (tower_of layers.now) arc) ≡ true }
    ensures { result ≡ towers.arc_bool (V.values values.now) (tower_of layers.now) map arc }
{
    bool_from(values, map, arc_from(layers, arc))
}

// The int at the item that the arc comes from.
fn int_from<V: Values>(values: &V, map: u32, from: Origin) -> i64
    requires map { V.has_int values.now sorts.Arc map ≡ true }
    requires live { origins.is_live_origin (V.is_live values.now) (origin_of from) ≡ true }
    ensures { result ≡ origins.origin_int (V.values values.now) map (origin_of from) }
{
    match from {
        Origin::Arc(item) => values.arc_int(map, item),
        Origin::Bind(node) => match values.partner(map) {
            Some(partner) => values.node_int(partner, node),
            None => 0,
        },
    }
}

/// The int of an arc map at an arc of the tower, negated on the way back through residual layers.
pub fn arc_int_at<V: Values>(layers: &[Layer], values: &V, map: u32, arc: u32) -> i128
    requires map { V.has_int values.now sorts.Arc map ≡ true }
    requires live { origins.is_live_origin (V.is_live values.now)
        (arc_origin (tower_of layers.now) arc) ≡ true }
    ensures { result ≡ towers.arc_int (V.values values.now) (tower_of layers.now) map arc }
{
    with_sign(
        goes_back(layers, arc),
        int_from(values, map, arc_from(layers, arc)),
    )
}

// The value, or its negation.
fn with_sign(back: bool, value: i64) -> i128
    ensures { result ≡ origins.signed back value }
{
    let wide = value as i128;
    if back { -wide } else { wide }
}

// Whether the arc goes an odd number of times back through a residual layer.
fn goes_back(layers: &[Layer], arc: u32) -> bool
    ensures { result ≡ origins.is_turned (tower_of layers.now) arc }
{
    let mut at = layers.len();
    let mut id = arc;
    let mut back = false;
    'down: while at > 0 {
        at -= 1;
        match layers[at] {
            Layer::Undirect => id /= 2,
            Layer::Residual { .. } => {
                if id % 2 == 1 {
                    back = !back;
                }
                id /= 2;
            }
            Layer::Split => {
                if id % 2 == 1 {
                    return back;
                }
                id /= 2;
            }
            _ => {}
        }
    }
    back
}
