//! The values that the items of a tower pull from the base, in the order of their numbers.

ghost use Rattle.std.specs.Prelude.{◌≡◌, ◌≤◌, true, map, length, All, IfOk, IfErr};
ghost use Rattle.base_items.specs.declared.items.ItemSort.TheVariants as sorts;
ghost use Rattle.plain_views.specs.Towers as towers;
ghost use Rattle.task_bounds.specs.Given.{IsValue};
ghost use Rattle.view_tower.specs.Layers.{tower_of};
ghost use Rattle.tower_numbers.specs.Live.{AreLiveArcs, AreLiveNodes};
ghost use Rattle.tower_numbers.specs.Values.{IsFirstOutside};

use crate::fault::ValueFault;
use static_digraph::Fixed;
use std::alloc::{AllocError, Global};
use view_numbers::{first_outside, narrow};
use view_tower::{Layer, Values, arc_int_at, node_bool_at, node_int_at};

// The same numbers. `OutOfRange` with the first whose magnitude is above `VALUE_LIMIT`.
fn taken(alloc: Global, ints: &[i128]) -> Result<Vec<i64>, ValueFault>
    requires { length ints.now ≤ 4194304 }
    ensures same { IfOk result (λ same. same.items ≡ ints.now) }
    ensures small { IfOk result (λ same. All IsValue same.items) }
    ensures outside { IfErr result (IsFirstOutside ints.now) }
{
    if let Some(place) = first_outside(ints) {
        return Err(ValueFault::OutOfRange(place as u32, ints[place]));
    }
    Ok(narrow(alloc, ints)?)
}

// The ints of an arc map at the arcs.
fn wide_arc_ints<V: Values>(
    alloc: Global,
    g: &Fixed,
    layers: &[Layer],
    values: &V,
    number: u32,
) -> Result<Vec<i128>, AllocError>
    requires map { V.has_int values.now sorts.Arc number ≡ true }
    requires live { AreLiveArcs (V.is_live values.now) (tower_of layers.now) g.now.arcs }
    ensures { let int = towers.arc_int (V.values values.now) (tower_of layers.now) number in
        IfOk result (λ ints. ints.items ≡ map int g.now.arcs) }
{
    let count = g.arc_count();
    let mut ints = Vec::with_capacity(alloc, count as usize)?;
    let mut arc = 0;
    while arc < count {
        ints.push(arc_int_at(layers, values, number, g.arc_item(arc)))?;
        arc += 1;
    }
    Ok(ints)
}

// The ints of a node map at the nodes.
fn wide_node_ints<V: Values>(
    alloc: Global,
    g: &Fixed,
    layers: &[Layer],
    values: &V,
    number: u32,
) -> Result<Vec<i128>, AllocError>
    requires map { V.has_int values.now sorts.Node number ≡ true }
    requires live { AreLiveNodes (V.is_live values.now) (tower_of layers.now) g.now.nodes }
    ensures { let int = towers.node_int (V.values values.now) (tower_of layers.now) number in
        IfOk result (λ ints. ints.items ≡ map int g.now.nodes) }
{
    let count = g.node_count();
    let mut ints = Vec::with_capacity(alloc, count as usize)?;
    let mut node = 0;
    while node < count {
        ints.push(node_int_at(layers, values, number, g.node_item(node)) as i128)?;
        node += 1;
    }
    Ok(ints)
}

/// The ints of an arc map at the arcs, each negated on the way back through residual layers.
/// `OutOfRange` with the first whose magnitude is above `VALUE_LIMIT`.
pub fn arc_ints<V: Values>(
    alloc: Global,
    g: &Fixed,
    layers: &[Layer],
    values: &V,
    number: u32,
) -> Result<Vec<i64>, ValueFault>
    requires map { V.has_int values.now sorts.Arc number ≡ true }
    requires live { AreLiveArcs (V.is_live values.now) (tower_of layers.now) g.now.arcs }
    ensures ints { let int = towers.arc_int (V.values values.now) (tower_of layers.now) number in
        IfOk result (λ ints. ints.items ≡ map int g.now.arcs) }
    ensures small { IfOk result (λ ints. All IsValue ints.items) }
    ensures outside { let int = towers.arc_int (V.values values.now) (tower_of layers.now) number in
        IfErr result (IsFirstOutside (map int g.now.arcs)) }
{
    let _ = g.arc_count();
    let ints = wide_arc_ints(alloc, g, layers, values, number)?;
    taken(alloc, ints.as_slice())
}

/// The ints of a node map at the nodes. `OutOfRange` with the first whose magnitude is above
/// `VALUE_LIMIT`.
pub fn node_ints<V: Values>(
    alloc: Global,
    g: &Fixed,
    layers: &[Layer],
    values: &V,
    number: u32,
) -> Result<Vec<i64>, ValueFault>
    requires map { V.has_int values.now sorts.Node number ≡ true }
    requires live { AreLiveNodes (V.is_live values.now) (tower_of layers.now) g.now.nodes }
    ensures ints { let int = towers.node_int (V.values values.now) (tower_of layers.now) number in
        IfOk result (λ ints. ints.items ≡ map int g.now.nodes) }
    ensures small { IfOk result (λ ints. All IsValue ints.items) }
    ensures outside { let int = towers.node_int (V.values values.now) (tower_of layers.now)
        number in IfErr result (IsFirstOutside (map int g.now.nodes)) }
{
    let _ = g.node_count();
    let ints = wide_node_ints(alloc, g, layers, values, number)?;
    taken(alloc, ints.as_slice())
}

/// The bools of a node map at the nodes.
pub fn node_bools<V: Values>(
    alloc: Global,
    g: &Fixed,
    layers: &[Layer],
    values: &V,
    number: u32,
) -> Result<Vec<bool>, AllocError>
    requires map { V.has_bool values.now sorts.Node number ≡ true }
    requires live { AreLiveNodes (V.is_live values.now) (tower_of layers.now) g.now.nodes }
    ensures { let bool = towers.node_bool (V.values values.now) (tower_of layers.now) number in
        IfOk result (λ bools. bools.items ≡ map bool g.now.nodes) }
{
    let count = g.node_count();
    let mut bools = Vec::with_capacity(alloc, count as usize)?;
    let mut node = 0;
    while node < count {
        bools.push(node_bool_at(layers, values, number, g.node_item(node)))?;
        node += 1;
    }
    Ok(bools)
}
