//! What the items of a tower come from, their marks, and the values that they pull.

ghost use Rattle.std.specs.Prelude.{◌≡◌, true, IfOk};
ghost use Rattle.base_items.specs.declared.items.ItemSort.TheVariants as sorts;
ghost use Rattle.plain_digraph.specs.Lists as lists;
ghost use Rattle.plain_views.specs.Shown as plain;
ghost use Rattle.plain_views.specs.Towers as towers;
ghost use Rattle.plain_views.specs.Marks as plain_marks;
ghost use Rattle.view_tower.specs.Layers.{tower_of, origin_of};
ghost use Rattle.view_tower.specs.Origins.{is_live_origin};

use crate::layers::{Origin, arc_from, base_of};
use crate::marks;
use crate::over::Over;
use crate::pulled::{arc_bool_at, arc_int_at};
use crate::values::Values;
use base_items::{Arc, ItemSort, Node};
use std::alloc::{AllocError, Global};
use token_text::Text;
use view_core::Shown;

impl<'a, V: Values, G: Shown> Over<'a, V, G> {
    /// The node of the base that a shown node comes from, which is live.
    pub fn node_origin(&self, n: Node) -> u32
        requires { lists.has (⟦<Over<'a, V, G> as Shown>⟧.graph self.now).nodes n.0 ≡ true }
        ensures origin { result ≡ towers.base_node (tower_of self.now.layers.now) n.0 }
        ensures live { V.is_live self.now.values.now sorts.Node result ≡ true }
    {
        let _ = self.base.count(ItemSort::Node);
        base_of(self.layers, n.0)
    }

    /// The item of the base that a shown arc comes from, which is live: an arc, or a node that a
    /// layer split.
    pub fn arc_origin(&self, a: Arc) -> Origin
        requires { plain.has_arc (⟦<Over<'a, V, G> as Shown>⟧.graph self.now) a.0 ≡ true }
        ensures origin { origin_of result
            ≡ plain_marks.arc_origin (tower_of self.now.layers.now) a.0 }
        ensures live { is_live_origin (V.is_live self.now.values.now) (origin_of result) ≡ true }
    {
        let _ = self.base.count(ItemSort::Node);
        arc_from(self.layers, a.0)
    }

    /// The marks of a node, as [`node_marks`](crate::marks::node_marks) has them.
    pub fn node_marks(&self, alloc: Global, n: Node) -> Result<Text, AllocError>
        ensures { IfOk result
            (λ text. text ≡ plain_marks.node_marks (tower_of self.now.layers.now) n.0) }
    {
        marks::node_marks(alloc, self.layers, n.0)
    }

    /// The marks of an arc, as [`arc_marks`](crate::marks::arc_marks) has them.
    pub fn arc_marks(&self, alloc: Global, a: Arc) -> Result<Text, AllocError>
        ensures { IfOk result
            (λ text. text ≡ plain_marks.arc_marks (tower_of self.now.layers.now) a.0) }
    {
        marks::arc_marks(alloc, self.layers, a.0)
    }

    /// The value that a shown arc pulls from an int map of the arcs. On the way back through a
    /// residual layer it is negated; the arc that binds a split node has the value of the node in
    /// the map's partner, or else 0.
    pub fn pulled_int(&self, map: u32, a: Arc) -> i128
        requires map { V.has_int self.now.values.now sorts.Arc map ≡ true }
        requires shown { plain.has_arc (⟦<Over<'a, V, G> as Shown>⟧.graph self.now) a.0 ≡ true }
        ensures { result
            ≡ towers.arc_int (V.values self.now.values.now) (tower_of self.now.layers.now) map a.0 }
    {
        let _ = self.base.count(ItemSort::Node);
        arc_int_at(self.layers, self.values, map, a.0)
    }

    /// The value that a shown arc pulls from a bool map of the arcs; the arc that binds a split
    /// node has the value of the node in the map's partner, or else true.
    pub fn pulled_bool(&self, map: u32, a: Arc) -> bool
        requires map { V.has_bool self.now.values.now sorts.Arc map ≡ true }
        requires shown { plain.has_arc (⟦<Over<'a, V, G> as Shown>⟧.graph self.now) a.0 ≡ true }
        ensures { result
            ≡ towers.arc_bool (V.values self.now.values.now) (tower_of self.now.layers.now)
            map a.0 }
    {
        let _ = self.base.count(ItemSort::Node);
        arc_bool_at(self.layers, self.values, map, a.0)
    }
}
