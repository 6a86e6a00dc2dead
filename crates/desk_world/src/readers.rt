//! What reads a map: views, and indexes of it.

ghost use Rattle.std.specs.Prelude.{◌≡◌};
ghost use Rattle.std.specs.Option.{option_copied};
ghost use Rattle.plain_world.specs.Demands as demands;
ghost use Rattle.plain_world.specs.Tables.{oldest};
ghost use Rattle.plain_world.specs.Views.{reads};
ghost use Rattle.desk_world.specs.Plain.{plain_of, tables_of};
ghost use Rattle.desk_world.specs.InStep.{IsInStep};
ghost use Rattle.desk_world.specs.Faults.{Meets};
ghost use Rattle.desk_world.specs.Indexes.{is_index_kind};
ghost use Rattle.desk_world.specs.Reads.{names_map};

use crate::refusals::in_use;
use crate::tables::MapKind;
use crate::world::World;
use base_items::ItemSort;
use desk_seats::Seat;
use observe_core::Observer;
use report_text::StepFault;
use script_words::LayerWord;
use std::alloc::Global;
use token_text::Text;

// Whether a map of this kind is an index of the map of the name.
fn is_index_of(kind: &MapKind, name: &Text) -> bool
    ensures { result ≡ is_index_kind name.now kind.now }
{
    match kind {
        MapKind::Trues(map) => map == name,
        MapKind::Ints => false,
        MapKind::Bools => false,
        MapKind::Texts => false,
        MapKind::Degrees(_) => false,
    }
}

// Whether a filter is there and is the map of the name.
fn is_filter(filter: &Option<Text>, map: &Text) -> bool
    ensures { result ≡ names_map map.now filter.now }
{
    match filter {
        Some(name) => map == name,
        None => false,
    }
}

// Whether a layer names the map of the sort.
fn reads(sort: ItemSort, map: &Text, layer: &LayerWord) -> bool
    ensures { result ≡ reads sort map.now layer.now }
{
    match layer {
        LayerWord::Sub(nodes, arcs) => match sort {
            ItemSort::Node => is_filter(nodes, map),
            ItemSort::Arc => is_filter(arcs, map),
        },
        LayerWord::Residual(cap, flow) => match sort {
            ItemSort::Node => false,
            ItemSort::Arc => map == cap || map == flow,
        },
        LayerWord::Reverse => false,
        LayerWord::Undirect => false,
        LayerWord::Split => false,
    }
}

impl<B: Observer> World<Seat<B>> {
    /// Asks that nothing reads the map. `InUse`, with the oldest view that reads it, or else with
    /// the oldest index of it.
    pub(crate) fn ask_unread(
        &self,
        alloc: Global,
        sort: ItemSort,
        name: &Text,
    ) -> Result<(), StepFault>
        requires { IsInStep ⟦<Seat<B> as Observer>⟧.watch self.now }
        ensures { let world = plain_of ⟦<Seat<B> as Observer>⟧.watch self.now in
            Meets world (demands.NoneReads sort name.now) result }
    {
        if let Some(view) = self.reading_view(sort, name) {
            return Err(in_use(alloc, view));
        }
        match self.index_of(sort, name) {
            Some(index) => Err(in_use(alloc, index)),
            None => Ok(()),
        }
    }

    // The oldest view that reads the map. None where none does.
    fn reading_view(&self, sort: ItemSort, map: &Text) -> Option<&Text>
        ensures { option_copied result
            ≡ oldest (λ row. reads sort map.now row.layer) self.now.views.rows }
    {
        for place in 0..self.views.len() {
            if reads(sort, map, &self.views.value(place).layer) {
                return Some(self.views.name(place));
            }
        }
        None
    }

    // The oldest index of the map. None where there is none.
    fn index_of(&self, sort: ItemSort, map: &Text) -> Option<&Text>
        ensures { option_copied result ≡ oldest (λ row. is_index_kind map.now row.kind)
            (tables_of self.now sort).maps.rows }
    {
        let maps = &self.tables(sort).maps;
        for place in 0..maps.len() {
            if is_index_of(&maps.value(place).kind, map) {
                return Some(maps.name(place));
            }
        }
        None
    }
}
