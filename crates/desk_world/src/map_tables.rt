//! The tables of maps by sort.

ghost use Rattle.std.specs.Prelude.{◌≡◌, ◌≤◌, false, OnOk};
ghost use Rattle.plain_world.specs.Tables.{entry, has_entry, with_change, with_entry};
ghost use Rattle.plain_world.specs.Tables.{without_entry};
ghost use Rattle.plain_world.specs.Valid.{NamesDiffer};
ghost use Rattle.desk_world.specs.MapTables.{with_table};
ghost use Rattle.desk_world.specs.Plain as plain;
ghost use Rattle.desk_world.specs.Plain.{tables_of};

use crate::tables::{MapKind, MapRow};
use crate::world::World;
use base_items::ItemSort;
use desk_seats::Seat;
use observe_core::Observer;
use std::alloc::AllocError;
use token_text::Text;

/// The sort in whose chain a map sits: degrees of nodes hear of the arcs.
pub fn seat_sort(sort: ItemSort, kind: &MapKind) -> ItemSort
    ensures { result ≡ plain.seat_sort sort kind.now }
{
    match kind {
        MapKind::Ints => sort,
        MapKind::Bools => sort,
        MapKind::Texts => sort,
        MapKind::Degrees(_) => ItemSort::Arc,
        MapKind::Trues(_) => sort,
    }
}

impl<B: Observer> World<Seat<B>> {
    /// Makes room for one map more of a sort. The error is want of memory. The rows are as before.
    pub(crate) fn reserve_map(&mut self, sort: ItemSort) -> Result<(), AllocError>
        ensures same { self.new ≡ with_table self.old sort (tables_of self.new sort).maps }
        ensures rows { (tables_of self.new sort).maps.rows ≡ (tables_of self.old sort).maps.rows }
        ensures room { OnOk result (1 ≤ (tables_of self.new sort).maps.room) }
    {
        match sort {
            ItemSort::Node => self.nodes.maps.reserve(),
            ItemSort::Arc => self.arcs.maps.reserve(),
        }
    }

    /// Puts a map of a new name last. It takes the room of one.
    pub(crate) fn put_map(&mut self, sort: ItemSort, name: Text, row: MapRow)
        requires new { has_entry (tables_of self.old sort).maps.rows name ≡ false }
        requires room { 1 ≤ (tables_of self.old sort).maps.room }
        ensures same { self.new ≡ with_table self.old sort (tables_of self.new sort).maps }
        ensures rows { (tables_of self.new sort).maps.rows
            ≡ with_entry (tables_of self.old sort).maps.rows name row }
    {
        match sort {
            ItemSort::Node => self.nodes.maps.put(name, row),
            ItemSort::Arc => self.arcs.maps.put(name, row),
        }
    }

    /// Puts another row under the name of a map. The names and their order are as before.
    pub(crate) fn replace_map(&mut self, sort: ItemSort, name: &Text, row: MapRow)
        ensures differ { NamesDiffer (tables_of self.old sort).maps.rows }
        ensures same { self.new ≡ with_table self.old sort (tables_of self.new sort).maps }
        ensures rows { (tables_of self.new sort).maps.rows
            ≡ with_change (tables_of self.old sort).maps.rows name.now (λ _. row) }
    {
        let _ = match sort {
            ItemSort::Node => self.nodes.maps.replace(name, row),
            ItemSort::Arc => self.arcs.maps.replace(name, row),
        };
    }

    /// Takes a map out of the table. None exactly where the name isn't there.
    pub(crate) fn take_map(&mut self, sort: ItemSort, name: &Text) -> Option<MapRow>
        ensures found { result ≡ entry (tables_of self.old sort).maps.rows name.now }
        ensures differ { NamesDiffer (tables_of self.old sort).maps.rows }
        ensures same { self.new ≡ with_table self.old sort (tables_of self.new sort).maps }
        ensures rows { (tables_of self.new sort).maps.rows
            ≡ without_entry (tables_of self.old sort).maps.rows name.now }
    {
        match sort {
            ItemSort::Node => self.nodes.maps.remove(name),
            ItemSort::Arc => self.arcs.maps.remove(name),
        }
    }
}
