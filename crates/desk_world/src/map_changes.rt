//! Maps come, go, and are written to.

ghost use Rattle.std.specs.Prelude.{◌≡◌, false, Some, None, OnOk, OnErr, map, slice_get};
ghost use Rattle.observe_core.specs.Untold.{TracksNothing};
ghost use Rattle.alter_graph.specs.Attaching.{HasNoCounts, detached};
ghost use Rattle.alter_graph.specs.Chains.{chains_seen};
ghost use Rattle.alter_graph.specs.State.{state_of, IsInStep};
ghost use Rattle.plain_digraph.specs.Items.{IsLive};
ghost use Rattle.plain_world.specs.Demands as demands;
ghost use Rattle.plain_world.specs.Refusals.{breach};
ghost use Rattle.plain_world.specs.Tables.{entry, has_entry, without_entry};
ghost use Rattle.plain_world.specs.Valid.{NamesDiffer};
ghost use Rattle.plain_world.specs.World.{attached};
ghost use Rattle.plain_world.specs.Effects.{with_map, with_maps, new_map, with_map_changed};
ghost use Rattle.desk_world.specs.Claims.{Plays, role_of};
ghost use Rattle.desk_world.specs.declared.tables.MapRow.{MapRow};
ghost use Rattle.desk_world.specs.Plain.{plain_of, tables_of};
ghost use Rattle.desk_world.specs.InStep.{AreInStep};
ghost use Rattle.desk_world.specs.Placing.{AreUnplaced};
ghost use Rattle.desk_world.specs.Values.{HasType, kind_for, type_for, put_at};

use crate::map_tables::seat_sort;
use crate::opening::attach;
use crate::seat_writes::{index_key, write_seat, write_true};
use crate::tables::{MapKind, MapRow};
use crate::values::Value;
use crate::world::World;
use alter_graph::Alterable;
use base_items::ItemSort;
use desk_seats::Seat;
use notify_chain::SeatKey;
use observe_core::Observer;
use script_words::MapType;
use std::alloc::{AllocError, Global};
use token_text::{Text, copy_text};
use value_maps::{BoolMap, IntMap, TextMap};

/// A map of the type without items.
pub fn empty_map<B: Observer>(alloc: Global, kind: MapType) -> Seat<B>
    ensures role { Plays (role_of (kind_for kind)) (⟦<Seat<B> as Observer>⟧.watch result).seen }
    ensures empty { TracksNothing (⟦<Seat<B> as Observer>⟧.watch result).seen }
    ensures counts { HasNoCounts (⟦<Seat<B> as Observer>⟧.watch result).seen }
{
    match kind {
        MapType::Ints => Seat::Ints(IntMap::new(alloc)),
        MapType::Bools => Seat::Bools(BoolMap::new(alloc)),
        MapType::Texts => Seat::Texts(TextMap::new(alloc)),
    }
}

/// What a map of the type is.
pub fn kind_of(kind: MapType) -> MapKind
    ensures { result ≡ kind_for kind }
{
    match kind {
        MapType::Ints => MapKind::Ints,
        MapType::Bools => MapKind::Bools,
        MapType::Texts => MapKind::Texts,
    }
}

// Takes the observer of a seat out, and lets it go.
fn let_go<O: Observer>(graph: &mut Alterable<O>, sort: ItemSort, key: SeatKey)
    ensures graph { graph.new.graph ≡ graph.old.graph }
    ensures detached { chains_seen O.watch graph.new.chains
        ≡ detached sort key.0 (chains_seen O.watch graph.old.chains) }
    ensures in_step { IsInStep (state_of O.watch graph.old)
        → IsInStep (state_of O.watch graph.new) }
{
    let _ = graph.detach(sort, key);
}

impl<B: Observer> World<Seat<B>> {
    /// Makes a map of a new name, with the default of the type at each item. The error is want of
    /// memory; the plain world is then as before.
    pub(crate) fn add_map(
        &mut self,
        alloc: Global,
        sort: ItemSort,
        name: &Text,
        kind: MapType,
    ) -> Result<(), AllocError>
        requires in_step { AreInStep ⟦<Seat<B> as Observer>⟧.watch self.old }
        requires new { let world = plain_of ⟦<Seat<B> as Observer>⟧.watch self.old in
            has_entry (attached world sort).maps name.now ≡ false }
        ensures made { OnOk result (plain_of ⟦<Seat<B> as Observer>⟧.watch self.new
            ≡ with_map (plain_of ⟦<Seat<B> as Observer>⟧.watch self.old) sort name.now
            (new_map (plain_of ⟦<Seat<B> as Observer>⟧.watch self.old) sort kind)) }
        ensures same { OnErr result (plain_of ⟦<Seat<B> as Observer>⟧.watch self.new
            ≡ plain_of ⟦<Seat<B> as Observer>⟧.watch self.old) }
        ensures in_step { AreInStep ⟦<Seat<B> as Observer>⟧.watch self.new }
        ensures graph { self.new.graph.graph.graph ≡ self.old.graph.graph.graph }
        ensures pool { self.new.pool ≡ self.old.pool }
    {
        let name = copy_text(alloc, name.as_bytes())?;
        self.reserve_map(sort)?;
        let key = attach(alloc, &mut self.graph, sort, empty_map(alloc, kind))?;
        let kind = kind_of(kind);
        self.put_map(sort, name, MapRow { kind, key });
        Ok(())
    }

    /// Takes a map out, which nothing reads.
    pub(crate) fn remove_map(&mut self, sort: ItemSort, name: &Text)
        requires in_step { AreInStep ⟦<Seat<B> as Observer>⟧.watch self.old }
        requires unread { breach (plain_of ⟦<Seat<B> as Observer>⟧.watch self.old)
            (demands.NoneReads sort name.now) ≡ None }
        ensures gone { plain_of ⟦<Seat<B> as Observer>⟧.watch self.new
            ≡ with_maps (plain_of ⟦<Seat<B> as Observer>⟧.watch self.old) sort
            (without_entry (attached (plain_of ⟦<Seat<B> as Observer>⟧.watch self.old) sort).maps
            name.now) }
        ensures in_step { AreInStep ⟦<Seat<B> as Observer>⟧.watch self.new }
        ensures graph { self.new.graph.graph ≡ self.old.graph.graph }
    {
        match self.take_map(sort, name) {
            None => {}
            Some(row) => let_go(&mut self.graph, seat_sort(sort, &row.kind), row.key),
        }
    }

    /// Writes the value of a live item to a map of its type.
    pub(crate) fn write_value(&mut self, sort: ItemSort, map: &Text, id: u32, value: Value)
        requires in_step { AreInStep ⟦<Seat<B> as Observer>⟧.watch self.old }
        requires live { IsLive self.old.graph.graph.graph sort id }
        requires of_type { HasType (plain_of ⟦<Seat<B> as Observer>⟧.watch self.old) sort map.now
            (type_for value) }
        ensures written { plain_of ⟦<Seat<B> as Observer>⟧.watch self.new
            ≡ with_map_changed (plain_of ⟦<Seat<B> as Observer>⟧.watch self.old) sort map.now
            (put_at value id) }
        ensures in_step { AreInStep ⟦<Seat<B> as Observer>⟧.watch self.new }
        ensures graph { self.new.graph.graph ≡ self.old.graph.graph }
        ensures pool { self.new.pool ≡ self.old.pool }
    {
        let Some(row) = self.tables(sort).maps.get(map) else {
            unreachable!()
        };
        let key = row.key;
        self.write_row(sort, map, key, id, value);
    }

    /// Writes the value of a live item to the map of its type that stands at a place of the table:
    /// no name is looked up.
    pub(crate) fn write_at(
        &mut self,
        sort: ItemSort,
        place: usize,
        name: &Text,
        id: u32,
        value: Value,
    )
        requires in_step { AreInStep ⟦<Seat<B> as Observer>⟧.watch self.old }
        requires live { IsLive self.old.graph.graph.graph sort id }
        requires of_type { HasType (plain_of ⟦<Seat<B> as Observer>⟧.watch self.old) sort name.now
            (type_for value) }
        requires named { slice_get (map (λ e. e.name) (tables_of self.old sort).maps.rows) place
            ≡ Some name.now }
        requires differ { NamesDiffer (tables_of self.old sort).maps.rows }
        ensures written { plain_of ⟦<Seat<B> as Observer>⟧.watch self.new
            ≡ with_map_changed (plain_of ⟦<Seat<B> as Observer>⟧.watch self.old) sort name.now
            (put_at value id) }
        ensures in_step { AreInStep ⟦<Seat<B> as Observer>⟧.watch self.new }
        ensures graph { self.new.graph.graph ≡ self.old.graph.graph }
        ensures pool { self.new.pool ≡ self.old.pool }
    {
        let key = self.tables(sort).maps.value(place).key;
        self.write_row(sort, name, key, id, value);
    }

    // Writes the value of a live item to the map of its type whose seat has the key, and places the
    // item anew in kept views.
    fn write_row(&mut self, sort: ItemSort, map: &Text, key: SeatKey, id: u32, value: Value)
        requires in_step { AreInStep ⟦<Seat<B> as Observer>⟧.watch self.old }
        requires live { IsLive self.old.graph.graph.graph sort id }
        requires of_type { HasType (plain_of ⟦<Seat<B> as Observer>⟧.watch self.old) sort map.now
            (type_for value) }
        requires row { (row : MapRow) × (entry (tables_of self.old sort).maps.rows map.now
            ≡ Some row) × (row.key ≡ key) }
        requires differ { NamesDiffer (tables_of self.old sort).maps.rows }
        ensures written { plain_of ⟦<Seat<B> as Observer>⟧.watch self.new
            ≡ with_map_changed (plain_of ⟦<Seat<B> as Observer>⟧.watch self.old) sort map.now
            (put_at value id) }
        ensures in_step { AreInStep ⟦<Seat<B> as Observer>⟧.watch self.new }
        ensures graph { self.new.graph.graph ≡ self.old.graph.graph }
        ensures pool { self.new.pool ≡ self.old.pool }
    {
        self.write_maps(sort, map, key, id, value);
        self.place_anew(sort, id);
    }

    // Writes the value of a live item to the map of its type whose seat has the key, and a bool to
    // each index of that map too. The item is still to be placed anew.
    fn write_maps(&mut self, sort: ItemSort, map: &Text, key: SeatKey, id: u32, value: Value)
        requires in_step { AreInStep ⟦<Seat<B> as Observer>⟧.watch self.old }
        requires live { IsLive self.old.graph.graph.graph sort id }
        requires of_type { HasType (plain_of ⟦<Seat<B> as Observer>⟧.watch self.old) sort map.now
            (type_for value) }
        requires row { (row : MapRow) × (entry (tables_of self.old sort).maps.rows map.now
            ≡ Some row) × (row.key ≡ key) }
        requires differ { NamesDiffer (tables_of self.old sort).maps.rows }
        ensures written { plain_of ⟦<Seat<B> as Observer>⟧.watch self.new
            ≡ with_map_changed (plain_of ⟦<Seat<B> as Observer>⟧.watch self.old) sort map.now
            (put_at value id) }
        ensures in_step { AreUnplaced ⟦<Seat<B> as Observer>⟧.watch sort id self.new }
        ensures graph { self.new.graph.graph ≡ self.old.graph.graph }
        ensures pool { self.new.pool ≡ self.old.pool }
    {
        match value {
            Value::Int(value) => write_seat(&mut self.graph, sort, key, id, Value::Int(value)),
            Value::Bool(value) => self.write_bool(sort, map, key, id, value),
            Value::Text(value) => write_seat(&mut self.graph, sort, key, id, Value::Text(value)),
        }
    }

    // Writes a bool of a live item to the map whose seat has the key, and to each index of it. The
    // item is still to be placed anew.
    fn write_bool(&mut self, sort: ItemSort, map: &Text, key: SeatKey, id: u32, value: bool)
        requires in_step { AreInStep ⟦<Seat<B> as Observer>⟧.watch self.old }
        requires live { IsLive self.old.graph.graph.graph sort id }
        requires of_type { HasType (plain_of ⟦<Seat<B> as Observer>⟧.watch self.old) sort map.now
            MapType.Bools }
        requires row { (row : MapRow) × (entry (tables_of self.old sort).maps.rows map.now
            ≡ Some row) × (row.key ≡ key) }
        requires differ { NamesDiffer (tables_of self.old sort).maps.rows }
        ensures written { plain_of ⟦<Seat<B> as Observer>⟧.watch self.new
            ≡ with_map_changed (plain_of ⟦<Seat<B> as Observer>⟧.watch self.old) sort map.now
            (put_at (Value.Bool value) id) }
        ensures in_step { AreUnplaced ⟦<Seat<B> as Observer>⟧.watch sort id self.new }
        ensures graph { self.new.graph.graph ≡ self.old.graph.graph }
        ensures pool { self.new.pool ≡ self.old.pool }
    {
        write_seat(&mut self.graph, sort, key, id, Value::Bool(value));
        for place in 0..self.tables(sort).maps.len() {
            if let Some(index) = index_key(self.tables(sort).maps.value(place), map) {
                write_true(&mut self.graph, sort, index, id, value);
            }
        }
    }
}
