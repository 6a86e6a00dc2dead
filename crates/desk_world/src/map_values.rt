//! The maps of a world as towers read them, by their numbers.

ghost use Rattle.std.specs.Prelude.{◌≡◌, ◌<◌, ◌⊎◌, ◌^◌, true, false, length, IfOk};
ghost use Rattle.script_words.specs.declared.commands.MapType.TheVariants as types;
ghost use Rattle.std.specs.Option.{option_map_or};
ghost use Rattle.plain_world.specs.Views.{is_type};
ghost use Rattle.desk_world.specs.MapNumbers as numbers;
ghost use Rattle.desk_world.specs.MapNumbers.{numbers_type};
ghost use Rattle.desk_world.specs.Plain.{plain_of};
ghost use Rattle.desk_world.specs.InStep.{IsInStep};
ghost use Rattle.desk_world.specs.Values.{type_by};

use crate::maps::is_of_type;
use crate::tables::MapKind;
use crate::world::World;
use base_items::ItemSort;
use desk_seats::Seat;
use observe_core::Observer;
use script_words::MapType;
use std::alloc::AllocError;
use view_tower::Values;

/// The values of the maps of a world. A map goes by its place in the table of its sort, so that no
/// name is looked up but that of a partner.
#[derive(Drop)]
pub struct MapValues<'a, O: Observer> {
    world: &'a World<O>,
    ghost in_step: { ∥ IsInStep O.watch world.now ∥₁ },
    ghost few: { length world.now.nodes.maps.rows < 2 ^ 32 },
}

impl<'a, O: Observer> MapValues<'a, O> {
    /// The values of the maps of this world. The error is want of numbers for the maps.
    pub fn new(world: &'a World<O>) -> Result<MapValues<'a, O>, AllocError>
        requires { IsInStep O.watch world.now }
        ensures { IfOk result (λ values. values.world.now ≡ world.now) }
    {
        if world.nodes.maps.len() > u32::MAX as usize {
            return Err(AllocError);
        }
        Ok(MapValues { world })
    }
}

// Whether two maps have values of one type.
fn are_alike(kind: &MapKind, other: &MapKind) -> bool
    ensures { result ≡ option_map_or
        (λ type. option_map_or (is_type type) (type_by other.now) false) (type_by kind.now) false }
{
    match kind {
        MapKind::Ints => is_of_type(other, MapType::Ints),
        MapKind::Bools => is_of_type(other, MapType::Bools),
        MapKind::Texts => is_of_type(other, MapType::Texts),
        MapKind::Degrees(_) => false,
        MapKind::Trues(_) => false,
    }
}

impl<B: Observer> World<Seat<B>> {
    // The int of a live item in the map of a number.
    fn int_by(&self, sort: ItemSort, map: u32, id: u32) -> i64
        requires in_step { ∥ IsInStep ⟦<Seat<B> as Observer>⟧.watch self.now ∥₁ }
        requires map { numbers_type (plain_of ⟦<Seat<B> as Observer>⟧.watch self.now) types.Ints
            sort map ≡ true }
        requires live { numbers.is_live self.now.graph.graph.graph sort id ≡ true }
        ensures { let world = plain_of ⟦<Seat<B> as Observer>⟧.watch self.now in
            result ≡ (numbers.numbered world).int sort map id }
    {
        match self
            .graph
            .seat(sort, self.tables(sort).maps.value(map as usize).key)
        {
            Some(seat) => seat.int(id),
            None => unreachable!(),
        }
    }

    // The bool of a live item in the map of a number.
    fn bool_by(&self, sort: ItemSort, map: u32, id: u32) -> bool
        requires in_step { ∥ IsInStep ⟦<Seat<B> as Observer>⟧.watch self.now ∥₁ }
        requires map { numbers_type (plain_of ⟦<Seat<B> as Observer>⟧.watch self.now) types.Bools
            sort map ≡ true }
        requires live { numbers.is_live self.now.graph.graph.graph sort id ≡ true }
        ensures { let world = plain_of ⟦<Seat<B> as Observer>⟧.watch self.now in
            result ≡ (numbers.numbered world).bool sort map id }
    {
        match self
            .graph
            .seat(sort, self.tables(sort).maps.value(map as usize).key)
        {
            Some(seat) => seat.bool(id),
            None => unreachable!(),
        }
    }

    // The number of the map of the nodes with the name and the type of this one of the arcs.
    fn partner_by(&self, map: u32) -> Option<u32>
        requires in_step { ∥ IsInStep ⟦<Seat<B> as Observer>⟧.watch self.now ∥₁ }
        requires few { length self.now.nodes.maps.rows < 2 ^ 32 }
        requires map { let world = plain_of ⟦<Seat<B> as Observer>⟧.watch self.now in
            (numbers_type world types.Ints ItemSort.Arc map ≡ true)
            ⊎ (numbers_type world types.Bools ItemSort.Arc map ≡ true) }
        ensures { let world = plain_of ⟦<Seat<B> as Observer>⟧.watch self.now in
            result ≡ (numbers.numbered world).partner map }
    {
        let row = self.arcs.maps.value(map as usize);
        let place = self.nodes.maps.place(self.arcs.maps.name(map as usize))?;
        if !are_alike(&row.kind, &self.nodes.maps.value(place).kind) {
            return None;
        }
        match u32::try_from(place) {
            Ok(number) => Some(number),
            Err(_) => unreachable!(),
        }
    }
}

impl<'a, B: Observer> Values for MapValues<'a, Seat<B>> {
    ghost use Rattle.desk_world.specs.NumberLaws.{types_differ, partner_typed};

    ghost values = { λ s. numbers.numbered (plain_of ⟦<Seat<B> as Observer>⟧.watch s.world.now) };

    ghost has_int = { λ s. numbers_type (plain_of ⟦<Seat<B> as Observer>⟧.watch s.world.now)
        types.Ints };

    ghost has_bool = { λ s. numbers_type (plain_of ⟦<Seat<B> as Observer>⟧.watch s.world.now)
        types.Bools };

    ghost is_live = { λ s. numbers.is_live s.world.now.graph.graph.graph };

    fn node_int(&self, map: u32, node: u32) -> i64 {
        self.world.int_by(ItemSort::Node, map, node)
    }

    fn arc_int(&self, map: u32, arc: u32) -> i64 {
        self.world.int_by(ItemSort::Arc, map, arc)
    }

    fn node_bool(&self, map: u32, node: u32) -> bool {
        self.world.bool_by(ItemSort::Node, map, node)
    }

    fn arc_bool(&self, map: u32, arc: u32) -> bool {
        self.world.bool_by(ItemSort::Arc, map, arc)
    }

    fn partner(&self, arc_map: u32) -> Option<u32> {
        self.world.partner_by(arc_map)
    }

    ghost types_differ = { λ s. types_differ
        (plain_of ⟦<Seat<B> as Observer>⟧.watch s.world.now) };

    ghost int_partner = { λ s. partner_typed
        (plain_of ⟦<Seat<B> as Observer>⟧.watch s.world.now) types.Ints };

    ghost bool_partner = { λ s. partner_typed
        (plain_of ⟦<Seat<B> as Observer>⟧.watch s.world.now) types.Bools };
}
