//! Maps by name.

ghost use Rattle.std.specs.Prelude.{◌≡◌, true, false, Some, IfOk, Contains, map, option_map};
ghost use Rattle.std.specs.Option.{option_map_or};
ghost use Rattle.std.specs.Str.{bytes_eq};
ghost use Rattle.lgf_file.specs.Documents.{label};
ghost use Rattle.plain_digraph.specs.Items.{IsLive};
ghost use Rattle.plain_world.specs.Demands as demands;
ghost use Rattle.plain_world.specs.Replies.{value_reply, told_at};
ghost use Rattle.plain_world.specs.Values.{text_at};
ghost use Rattle.plain_world.specs.Views.{is_type};
ghost use Rattle.desk_world.specs.Plain.{plain_of, look_of, tables_of, map_seen};
ghost use Rattle.desk_world.specs.InStep.{IsInStep, AreInStep, has_values};
ghost use Rattle.desk_world.specs.Faults.{Meets};
ghost use Rattle.desk_world.specs.Reads.{HoldsMap};
ghost use Rattle.desk_world.specs.Values.{HasType, type_by};

use crate::documents::has_values;
use crate::refusals::{taken, unknown, wrong_type};
use crate::tables::{MapKind, MapRow};
use crate::values::{count_text, int_text, told_bool};
use crate::world::World;
use base_items::ItemSort;
use desk_seats::Seat;
use observe_core::Observer;
use report_text::StepFault;
use script_words::MapType;
use std::alloc::{AllocError, Global};
use token_text::{Text, copy_text};

/// Whether the name is the one under which labels are asked for, which no map has.
pub fn is_label(name: &Text) -> bool
    ensures { result ≡ bytes_eq name.now label }
{
    name.as_bytes() == b"label".as_slice()
}

/// Whether a map of this kind has values of the type.
pub fn is_of_type(kind: &MapKind, wanted: MapType) -> bool
    ensures { result ≡ option_map_or (is_type wanted) (type_by kind.now) false }
{
    match kind {
        MapKind::Ints => wanted == MapType::Ints,
        MapKind::Bools => wanted == MapType::Bools,
        MapKind::Texts => wanted == MapType::Texts,
        MapKind::Degrees(_) => false,
        MapKind::Trues(_) => false,
    }
}

impl<B: Observer> World<Seat<B>> {
    /// Asks that there is a map of the name; `label` always is. `Unknown` where there is none.
    pub(crate) fn ask_map(
        &self,
        alloc: Global,
        sort: ItemSort,
        name: &Text,
    ) -> Result<(), StepFault>
        requires { IsInStep ⟦<Seat<B> as Observer>⟧.watch self.now }
        ensures { let world = plain_of ⟦<Seat<B> as Observer>⟧.watch self.now in
            Meets world (demands.There (demands.Maps sort) name.now) result }
    {
        if is_label(name) {
            return Ok(());
        }
        if self.tables(sort).maps.has(name) {
            return Ok(());
        }
        Err(unknown(alloc, name))
    }

    /// Asks that there is no map of the name. `Taken` where there is one.
    pub(crate) fn ask_new_map(
        &self,
        alloc: Global,
        sort: ItemSort,
        name: &Text,
    ) -> Result<(), StepFault>
        requires { IsInStep ⟦<Seat<B> as Observer>⟧.watch self.now }
        ensures { let world = plain_of ⟦<Seat<B> as Observer>⟧.watch self.now in
            Meets world (demands.New (demands.Maps sort) name.now) result }
    {
        if is_label(name) {
            return Err(taken(alloc, name));
        }
        if self.tables(sort).maps.has(name) {
            return Err(taken(alloc, name));
        }
        Ok(())
    }

    /// The type of the values of a map. `WrongType` where it has none of its own: the labels, a
    /// degree or an index.
    pub(crate) fn value_type(
        &self,
        alloc: Global,
        sort: ItemSort,
        name: &Text,
    ) -> Result<MapType, StepFault>
        requires { IsInStep ⟦<Seat<B> as Observer>⟧.watch self.now }
        ensures meets { let world = plain_of ⟦<Seat<B> as Observer>⟧.watch self.now in
            Meets world (demands.HasValues sort name.now) result }
        ensures found { let world = plain_of ⟦<Seat<B> as Observer>⟧.watch self.now in
            IfOk result (HasType world sort name.now) }
    {
        match self.tables(sort).maps.get(name) {
            None => Err(wrong_type(alloc, name)),
            Some(row) => match row.kind {
                MapKind::Ints => Ok(MapType::Ints),
                MapKind::Bools => Ok(MapType::Bools),
                MapKind::Texts => Ok(MapType::Texts),
                MapKind::Degrees(_) => Err(wrong_type(alloc, name)),
                MapKind::Trues(_) => Err(wrong_type(alloc, name)),
            },
        }
    }

    /// Asks that the map has values of the type. `WrongType` where it has none of them.
    pub(crate) fn ask_type(
        &self,
        alloc: Global,
        sort: ItemSort,
        kind: MapType,
        name: &Text,
    ) -> Result<(), StepFault>
        requires { IsInStep ⟦<Seat<B> as Observer>⟧.watch self.now }
        ensures { let world = plain_of ⟦<Seat<B> as Observer>⟧.watch self.now in
            Meets world (demands.HasType sort kind name.now) result }
    {
        self.typed_seat(alloc, sort, kind, name)?;
        Ok(())
    }

    /// The seat of a map of the type. `WrongType` where the map has no values of it.
    pub(crate) fn typed_seat(
        &self,
        alloc: Global,
        sort: ItemSort,
        kind: MapType,
        name: &Text,
    ) -> Result<&Seat<B>, StepFault>
        requires { IsInStep ⟦<Seat<B> as Observer>⟧.watch self.now }
        ensures meets { let world = plain_of ⟦<Seat<B> as Observer>⟧.watch self.now in
            Meets world (demands.HasType sort kind name.now) result }
        ensures has { let world = plain_of ⟦<Seat<B> as Observer>⟧.watch self.now in
            IfOk result (λ seat. HoldsMap world sort name.now kind
            (⟦<Seat<B> as Observer>⟧.watch seat.now).seen) }
    {
        let Some(row) = self.tables(sort).maps.get(name) else {
            return Err(wrong_type(alloc, name));
        };
        if !is_of_type(&row.kind, kind) {
            return Err(wrong_type(alloc, name));
        }
        match self.graph.seat(sort, row.key) {
            Some(seat) => Ok(seat),
            None => unreachable!(),
        }
    }

    /// What a map has at a live item, as text. Of the map `label` it is the item's own label.
    pub(crate) fn value_text(
        &self,
        alloc: Global,
        sort: ItemSort,
        map: &Text,
        id: u32,
    ) -> Result<Text, AllocError>
        requires in_step { IsInStep ⟦<Seat<B> as Observer>⟧.watch self.now }
        requires live { IsLive self.now.graph.graph.graph sort id }
        ensures { let world = plain_of ⟦<Seat<B> as Observer>⟧.watch self.now in
            IfOk result (λ text. text ≡ value_reply world sort map.now id) }
    {
        if is_label(map) {
            return copy_text(alloc, self.label_of(sort, id).as_bytes());
        }
        let Some(row) = self.tables(sort).maps.get(map) else {
            return Ok(Text::new(alloc));
        };
        if has_values(&row.kind) {
            return self.row_text(alloc, sort, row, id);
        }
        self.derived_text(alloc, sort, row, id)
    }

    /// What a map of degrees or an index has at a live item, as text. An index has what its map
    /// has.
    fn derived_text(
        &self,
        alloc: Global,
        sort: ItemSort,
        row: &MapRow,
        id: u32,
    ) -> Result<Text, AllocError>
        requires in_step { AreInStep ⟦<Seat<B> as Observer>⟧.watch self.now }
        requires live { IsLive self.now.graph.graph.graph sort id }
        requires row { Contains (map (λ e. e.value) (tables_of self.now sort).maps.rows) row.now }
        requires values { has_values row.now.kind ≡ false }
        ensures { let world = plain_of ⟦<Seat<B> as Observer>⟧.watch self.now in
            IfOk result (λ text. option_map (λ held. told_at world sort held id)
            (map_seen (look_of ⟦<Seat<B> as Observer>⟧.watch self.now) sort row.now) ≡ Some text) }
    {
        match &row.kind {
            MapKind::Degrees(_) => match self.graph.seat(ItemSort::Arc, row.key) {
                Some(seat) => count_text(alloc, seat.degree(id)),
                None => unreachable!(),
            },
            MapKind::Trues(map) => match self.tables(sort).maps.get(map) {
                Some(source) => self.row_text(alloc, sort, source, id),
                None => unreachable!(),
            },
            MapKind::Ints => unreachable!(),
            MapKind::Bools => unreachable!(),
            MapKind::Texts => unreachable!(),
        }
    }

    /// What one of the maps of values has at a live item, as text.
    pub(crate) fn row_text(
        &self,
        alloc: Global,
        sort: ItemSort,
        row: &MapRow,
        id: u32,
    ) -> Result<Text, AllocError>
        requires in_step { AreInStep ⟦<Seat<B> as Observer>⟧.watch self.now }
        requires live { IsLive self.now.graph.graph.graph sort id }
        requires row { Contains (map (λ e. e.value) (tables_of self.now sort).maps.rows) row.now }
        requires values { has_values row.now.kind ≡ true }
        ensures { IfOk result (λ text. option_map (λ held. text_at held id)
            (map_seen (look_of ⟦<Seat<B> as Observer>⟧.watch self.now) sort row.now) ≡ Some text) }
    {
        let Some(seat) = self.graph.seat(sort, row.key) else {
            unreachable!()
        };
        match row.kind {
            MapKind::Ints => int_text(alloc, seat.int(id)),
            MapKind::Bools => told_bool(alloc, seat.bool(id)),
            MapKind::Texts => copy_text(alloc, seat.text(id).as_bytes()),
            MapKind::Degrees(_) => unreachable!(),
            MapKind::Trues(_) => unreachable!(),
        }
    }
}
