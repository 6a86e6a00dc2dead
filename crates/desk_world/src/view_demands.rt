//! What commands on views ask for.

ghost use Rattle.std.specs.Prelude.{◌≡◌, ◌∷◌, [], ◌<◌};
ghost use Rattle.std.specs.Option.{option_copied};
ghost use Rattle.std.specs.Str.{bytes_eq};
ghost use Rattle.script_words.specs.declared.commands.LayerWord.TheVariants as words;
ghost use Rattle.plain_world.specs.Demands as demands;
ghost use Rattle.plain_world.specs.Tables.{oldest};
ghost use Rattle.plain_world.specs.Views.{is_base};
ghost use Rattle.desk_world.specs.Plain.{plain_of};
ghost use Rattle.desk_world.specs.InStep.{IsInStep};
ghost use Rattle.desk_world.specs.Faults.{Meets, MeetsAll};

use crate::refusals::{in_use, taken, unknown};
use crate::views::is_base;
use crate::world::World;
use base_items::{ItemSort, MAX_LAYERS};
use desk_seats::Seat;
use observe_core::Observer;
use report_text::{Fault, StepFault};
use script_words::{LayerWord, MapType};
use std::alloc::Global;
use token_text::Text;

impl<B: Observer> World<Seat<B>> {
    /// Asks that there is a view of the name; the base always is. `Unknown` where there is none.
    pub(crate) fn ask_view(&self, alloc: Global, view: &Text) -> Result<(), StepFault>
        requires { IsInStep ⟦<Seat<B> as Observer>⟧.watch self.now }
        ensures { let world = plain_of ⟦<Seat<B> as Observer>⟧.watch self.now in
            Meets world (demands.There demands.Views view.now) result }
    {
        if is_base(view) {
            return Ok(());
        }
        if self.views.has(view) {
            return Ok(());
        }
        Err(unknown(alloc, view))
    }

    /// Asks that there is no view of the name. `Taken` where there is one.
    pub(crate) fn ask_new_view(&self, alloc: Global, view: &Text) -> Result<(), StepFault>
        requires { IsInStep ⟦<Seat<B> as Observer>⟧.watch self.now }
        ensures { let world = plain_of ⟦<Seat<B> as Observer>⟧.watch self.now in
            Meets world (demands.New demands.Views view.now) result }
    {
        if is_base(view) {
            return Err(taken(alloc, view));
        }
        if self.views.has(view) {
            return Err(taken(alloc, view));
        }
        Ok(())
    }

    /// Asks that there is a map of the name, if one is given.
    pub(crate) fn ask_given(
        &self,
        alloc: Global,
        sort: ItemSort,
        name: &Option<Text>,
    ) -> Result<(), StepFault>
        requires { IsInStep ⟦<Seat<B> as Observer>⟧.watch self.now }
        ensures { let world = plain_of ⟦<Seat<B> as Observer>⟧.watch self.now in
            MeetsAll world (demands.given (demands.There (demands.Maps sort)) name.now) result }
    {
        match name {
            Some(name) => self.ask_map(alloc, sort, name),
            None => Ok(()),
        }
    }

    /// Asks that the map has values of the type, if one is given.
    pub(crate) fn ask_given_type(
        &self,
        alloc: Global,
        sort: ItemSort,
        kind: MapType,
        name: &Option<Text>,
    ) -> Result<(), StepFault>
        requires { IsInStep ⟦<Seat<B> as Observer>⟧.watch self.now }
        ensures { let world = plain_of ⟦<Seat<B> as Observer>⟧.watch self.now in
            MeetsAll world (demands.given (demands.HasType sort kind) name.now) result }
    {
        match name {
            Some(name) => self.ask_type(alloc, sort, kind, name),
            None => Ok(()),
        }
    }

    // Asks for the filters of a new view, and that its name is new.
    fn ask_filters(
        &self,
        alloc: Global,
        view: &Text,
        nodes: &Option<Text>,
        arcs: &Option<Text>,
    ) -> Result<(), StepFault>
        requires { IsInStep ⟦<Seat<B> as Observer>⟧.watch self.now }
        ensures { let world = plain_of ⟦<Seat<B> as Observer>⟧.watch self.now in
            MeetsAll world (demands.layer_demands (words.Sub nodes.now arcs.now)
            (demands.New demands.Views view.now ∷ [])) result }
    {
        self.ask_given(alloc, ItemSort::Node, nodes)?;
        self.ask_given(alloc, ItemSort::Arc, arcs)?;
        self.ask_new_view(alloc, view)?;
        self.ask_given_type(alloc, ItemSort::Node, MapType::Bools, nodes)?;
        self.ask_given_type(alloc, ItemSort::Arc, MapType::Bools, arcs)
    }

    // Asks for the capacity and the flow of a new view, and that its name is new.
    fn ask_rooms(
        &self,
        alloc: Global,
        view: &Text,
        cap: &Text,
        flow: &Text,
    ) -> Result<(), StepFault>
        requires { IsInStep ⟦<Seat<B> as Observer>⟧.watch self.now }
        ensures { let world = plain_of ⟦<Seat<B> as Observer>⟧.watch self.now in
            MeetsAll world (demands.layer_demands (words.Residual cap.now flow.now)
            (demands.New demands.Views view.now ∷ [])) result }
    {
        self.ask_map(alloc, ItemSort::Arc, cap)?;
        self.ask_map(alloc, ItemSort::Arc, flow)?;
        self.ask_new_view(alloc, view)?;
        self.ask_type(alloc, ItemSort::Arc, MapType::Ints, cap)?;
        self.ask_type(alloc, ItemSort::Arc, MapType::Ints, flow)
    }

    /// Asks for the maps of a new view's layer, and that its name is new.
    pub(crate) fn ask_layer(
        &self,
        alloc: Global,
        view: &Text,
        layer: &LayerWord,
    ) -> Result<(), StepFault>
        requires { IsInStep ⟦<Seat<B> as Observer>⟧.watch self.now }
        ensures { let world = plain_of ⟦<Seat<B> as Observer>⟧.watch self.now in
            MeetsAll world (demands.layer_demands layer.now
            (demands.New demands.Views view.now ∷ [])) result }
    {
        match layer {
            LayerWord::Sub(nodes, arcs) => self.ask_filters(alloc, view, nodes, arcs),
            LayerWord::Residual(cap, flow) => self.ask_rooms(alloc, view, cap, flow),
            LayerWord::Reverse => self.ask_new_view(alloc, view),
            LayerWord::Undirect => self.ask_new_view(alloc, view),
            LayerWord::Split => self.ask_new_view(alloc, view),
        }
    }

    /// Asks that one layer more may stand on the view. `TooDeep` where it has all that there may
    /// be.
    pub(crate) fn ask_layer_left(&self, below: &Text) -> Result<(), StepFault>
        requires { IsInStep ⟦<Seat<B> as Observer>⟧.watch self.now }
        ensures { let world = plain_of ⟦<Seat<B> as Observer>⟧.watch self.now in
            Meets world (demands.HasLayerLeft below.now) result }
    {
        if self.depth(below) < MAX_LAYERS {
            return Ok(());
        }
        Err(StepFault::Refused(Fault::TooDeep(MAX_LAYERS)))
    }

    /// Asks that no view stands on this one. `InUse`, with the oldest that does.
    pub(crate) fn ask_alone(&self, alloc: Global, view: &Text) -> Result<(), StepFault>
        requires { IsInStep ⟦<Seat<B> as Observer>⟧.watch self.now }
        ensures { let world = plain_of ⟦<Seat<B> as Observer>⟧.watch self.now in
            Meets world (demands.NoneStandsOn view.now) result }
    {
        match self.standing_on(view) {
            Some(other) => Err(in_use(alloc, other)),
            None => Ok(()),
        }
    }

    // The oldest view that stands on this one. None where none does.
    fn standing_on(&self, view: &Text) -> Option<&Text>
        ensures { option_copied result
            ≡ oldest (λ row. bytes_eq row.below view.now) self.now.views.rows }
    {
        for place in 0..self.views.len() {
            if &self.views.value(place).below == view {
                return Some(self.views.name(place));
            }
        }
        None
    }
}
