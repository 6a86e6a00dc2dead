//! The values of maps at the items of the base, as a tower reads them.

ghost use Rattle.std.specs.Prelude.{◌≡◌, ◌⊎◌, ℕ, Bool, true, false, Some};
ghost use Rattle.base_items.specs.declared.items.ItemSort.{ItemSort};
ghost use Rattle.base_items.specs.declared.items.ItemSort.TheVariants as sorts;
ghost use Rattle.plain_views.specs.Towers as towers;

/// The values of int and of bool maps at the live items of each sort.
///
/// Maps go by numbers, and no number is that of an int map and of a bool map of one sort. Each map
/// has one value at each live item of its sort, which no call changes.
pub trait Values {
    ghost values: { Self → towers.Values ℕ };

    ghost has_int: { Self → ItemSort → ℕ → Bool };

    ghost has_bool: { Self → ItemSort → ℕ → Bool };

    ghost is_live: { Self → ItemSort → ℕ → Bool };

    /// The value of an int map of the nodes at a live node.
    fn node_int(&self, map: u32, node: u32) -> i64
        requires map { has_int self.now sorts.Node map ≡ true }
        requires item { is_live self.now sorts.Node node ≡ true }
        ensures { result ≡ (values self.now).int sorts.Node map node };

    /// The value of an int map of the arcs at a live arc.
    fn arc_int(&self, map: u32, arc: u32) -> i64
        requires map { has_int self.now sorts.Arc map ≡ true }
        requires item { is_live self.now sorts.Arc arc ≡ true }
        ensures { result ≡ (values self.now).int sorts.Arc map arc };

    /// The value of a bool map of the nodes at a live node.
    fn node_bool(&self, map: u32, node: u32) -> bool
        requires map { has_bool self.now sorts.Node map ≡ true }
        requires item { is_live self.now sorts.Node node ≡ true }
        ensures { result ≡ (values self.now).bool sorts.Node map node };

    /// The value of a bool map of the arcs at a live arc.
    fn arc_bool(&self, map: u32, arc: u32) -> bool
        requires map { has_bool self.now sorts.Arc map ≡ true }
        requires item { is_live self.now sorts.Arc arc ≡ true }
        ensures { result ≡ (values self.now).bool sorts.Arc map arc };

    /// The map of the nodes with the name and the type of this map of the arcs, if there is one.
    fn partner(&self, arc_map: u32) -> Option<u32>
        requires { (has_int self.now sorts.Arc arc_map ≡ true)
            ⊎ (has_bool self.now sorts.Arc arc_map ≡ true) }
        ensures { result ≡ (values self.now).partner arc_map };

    ghost types_differ: { (s : Self) (sort : ItemSort) (map : ℕ) → has_int s sort map ≡ true
        → has_bool s sort map ≡ false };

    ghost int_partner: { (s : Self) (map partner : ℕ) → has_int s sorts.Arc map ≡ true
        → (values s).partner map ≡ Some partner → has_int s sorts.Node partner ≡ true };

    ghost bool_partner: { (s : Self) (map partner : ℕ) → has_bool s sorts.Arc map ≡ true
        → (values s).partner map ≡ Some partner → has_bool s sorts.Node partner ≡ true };
}

impl<V: Values> Values for &V {
    ghost values = { λ s. V.values s.now };

    ghost has_int = { λ s. V.has_int s.now };

    ghost has_bool = { λ s. V.has_bool s.now };

    ghost is_live = { λ s. V.is_live s.now };

    fn node_int(&self, map: u32, node: u32) -> i64 {
        (**self).node_int(map, node)
    }

    fn arc_int(&self, map: u32, arc: u32) -> i64 {
        (**self).arc_int(map, arc)
    }

    fn node_bool(&self, map: u32, node: u32) -> bool {
        (**self).node_bool(map, node)
    }

    fn arc_bool(&self, map: u32, arc: u32) -> bool {
        (**self).arc_bool(map, arc)
    }

    fn partner(&self, arc_map: u32) -> Option<u32> {
        (**self).partner(arc_map)
    }

    ghost types_differ = { λ s. V.types_differ s.now };

    ghost int_partner = { λ s. V.int_partner s.now };

    ghost bool_partner = { λ s. V.bool_partner s.now };
}
