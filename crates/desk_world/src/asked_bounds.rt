//! What the commands that find flows within bounds read.

ghost use Rattle.std.specs.Prelude.{◌≡◌, None, IfOk, IfSome, OnOk, Option, option_map};
ghost use Rattle.std.specs.Option.{option_copied};
ghost use Rattle.base_items.specs.declared.items.ItemSort.TheVariants.{Arc};
ghost use Rattle.script_words.specs.declared.commands.MapType.TheVariants.{Ints};
ghost use Rattle.plain_world.specs.Demands as demands;
ghost use Rattle.plain_world.specs.Demands.{flow_demands};
ghost use Rattle.plain_world.specs.Queries.{graph};
ghost use Rattle.plain_world.specs.Refusals.{breach};
ghost use Rattle.plain_world.specs.Tables.{Name};
ghost use Rattle.flow_replies.specs.Absent.{AreAll};
ghost use Rattle.task_bounds.specs.Given.{AreGiven};
ghost use Rattle.desk_world.specs.AskedBounds.{AsksBounds, given_on_arcs, map_demands};
ghost use Rattle.desk_world.specs.AskedBounds.{given_at_nodes};
ghost use Rattle.desk_world.specs.AskedViews.{Asks};
ghost use Rattle.desk_world.specs.Faults.{Meets, MeetsAll};
ghost use Rattle.desk_world.specs.Plain.{plain_of};
ghost use Rattle.desk_world.specs.InStep.{IsInStep};
ghost use Rattle.desk_world.specs.Values.{HasType};

use crate::asked_views::AskedView;
use crate::world::World;
use base_items::ItemSort;
use desk_seats::Seat;
use flow_replies::{first_out_of_order, slice_given};
use observe_core::Observer;
use report_text::{Fault, StepFault};
use script_words::MapType;
use std::alloc::Global;
use token_text::Text;

/// What a query of flows within bounds reads: the view by number, the bounds and costs of its arcs
/// and the supplies of its nodes, as far as they are given.
#[derive(Drop)]
pub struct AskedBounds<'a> {
    pub asked: AskedView<'a>,
    pub lower: Option<Vec<i64>>,
    pub upper: Option<Vec<i64>>,
    pub cost: Option<Vec<i64>>,
    pub supply: Option<Vec<i64>>,
}

impl<B: Observer> World<Seat<B>> {
    // The ints of a map on the arcs of a view, if one is given.
    fn given_arc_ints(
        &self,
        alloc: Global,
        asked: &AskedView<'_>,
        map: &Option<Text>,
    ) -> Result<Option<Vec<i64>>, StepFault>
        requires in_step { IsInStep ⟦<Seat<B> as Observer>⟧.watch self.now }
        requires asks { Asks (plain_of ⟦<Seat<B> as Observer>⟧.watch self.now) asked.now }
        requires typed { let world = plain_of ⟦<Seat<B> as Observer>⟧.watch self.now in
            IfSome map.now (λ name. breach world (demands.HasType Arc Ints name) ≡ None) }
        ensures ints { let world = plain_of ⟦<Seat<B> as Observer>⟧.watch self.now in
            IfOk result (λ ints. option_map (λ list. list.items) ints
            ≡ given_on_arcs world asked.now.view.now map.now) }
        ensures small { let world = plain_of ⟦<Seat<B> as Observer>⟧.watch self.now in
            IfOk result (λ ints. AreGiven (graph world asked.now.view.now).arcs
            (option_map (λ list. list.items) ints)) }
        ensures meets { let world = plain_of ⟦<Seat<B> as Observer>⟧.watch self.now in
            MeetsAll world (demands.given (demands.ArcsInRange asked.now.view.now) map.now) result }
    {
        match map {
            Some(map) => Ok(Some(self.arc_ints_of(alloc, asked, map)?)),
            None => Ok(None),
        }
    }

    // The ints of a map at the nodes of a view, if one is given.
    fn given_node_ints(
        &self,
        alloc: Global,
        asked: &AskedView<'_>,
        map: &Option<Text>,
    ) -> Result<Option<Vec<i64>>, StepFault>
        requires in_step { IsInStep ⟦<Seat<B> as Observer>⟧.watch self.now }
        requires asks { Asks (plain_of ⟦<Seat<B> as Observer>⟧.watch self.now) asked.now }
        requires typed { let world = plain_of ⟦<Seat<B> as Observer>⟧.watch self.now in
            IfSome map.now
            (λ name. breach world (demands.HasType ItemSort.Node Ints name) ≡ None) }
        ensures ints { let world = plain_of ⟦<Seat<B> as Observer>⟧.watch self.now in
            IfOk result (λ ints. option_map (λ list. list.items) ints
            ≡ given_at_nodes world asked.now.view.now map.now) }
        ensures small { let world = plain_of ⟦<Seat<B> as Observer>⟧.watch self.now in
            IfOk result (λ ints. AreGiven (graph world asked.now.view.now).nodes
            (option_map (λ list. list.items) ints)) }
        ensures meets { let world = plain_of ⟦<Seat<B> as Observer>⟧.watch self.now in
            MeetsAll world (demands.given (demands.NodesInRange asked.now.view.now) map.now)
            result }
    {
        match map {
            Some(map) => Ok(Some(self.node_ints_of(alloc, asked, map)?)),
            None => Ok(None),
        }
    }

    // Asks that no lower bound is above the upper one. `Crossed` with the first arc of which it is.
    fn ask_in_order(
        &self,
        alloc: Global,
        asked: &AskedView<'_>,
        lower: Option<&[i64]>,
        upper: Option<&[i64]>,
    ) -> Result<(), StepFault>
        requires in_step { IsInStep ⟦<Seat<B> as Observer>⟧.watch self.now }
        requires asks { Asks (plain_of ⟦<Seat<B> as Observer>⟧.watch self.now) asked.now }
        requires lower { let world = plain_of ⟦<Seat<B> as Observer>⟧.watch self.now in
            AreAll (graph world asked.now.view.now).arcs (option_copied lower) }
        requires upper { let world = plain_of ⟦<Seat<B> as Observer>⟧.watch self.now in
            AreAll (graph world asked.now.view.now).arcs (option_copied upper) }
        ensures { let world = plain_of ⟦<Seat<B> as Observer>⟧.watch self.now in
            let view = asked.now.view.now in (low up : Option Name)
            → option_copied lower.entry ≡ given_on_arcs world view low
            → option_copied upper.entry ≡ given_on_arcs world view up
            → Meets world (demands.InOrder view low up) result }
    {
        let count = asked.fixed.arc_count();
        match first_out_of_order(lower, upper, count as usize) {
            Some(arc) => {
                let name = self.name_of_arc(alloc, asked, arc as u32)?;
                Err(StepFault::Refused(Fault::Crossed(name)))
            }
            None => Ok(()),
        }
    }

    // Asks for the maps of a query of flows within bounds.
    fn ask_bound_maps(
        &self,
        alloc: Global,
        view: &Text,
        low: &Option<Text>,
        up: &Option<Text>,
        cost: &Option<Text>,
        supply: &Option<Text>,
        into: &Option<Text>,
    ) -> Result<(), StepFault>
        requires { IsInStep ⟦<Seat<B> as Observer>⟧.watch self.now }
        ensures { let world = plain_of ⟦<Seat<B> as Observer>⟧.watch self.now in
            MeetsAll world (map_demands view.now low.now up.now cost.now supply.now into.now)
            result }
    {
        self.ask_view(alloc, view)?;
        self.ask_given(alloc, ItemSort::Arc, low)?;
        self.ask_given(alloc, ItemSort::Arc, up)?;
        self.ask_given(alloc, ItemSort::Arc, cost)?;
        self.ask_given(alloc, ItemSort::Node, supply)?;
        self.ask_given(alloc, ItemSort::Arc, into)?;
        self.ask_given_type(alloc, ItemSort::Arc, MapType::Ints, low)?;
        self.ask_given_type(alloc, ItemSort::Arc, MapType::Ints, up)?;
        self.ask_given_type(alloc, ItemSort::Arc, MapType::Ints, cost)?;
        self.ask_given_type(alloc, ItemSort::Node, MapType::Ints, supply)?;
        self.ask_given_flow(alloc, view, into)
    }

    /// Reads what a query of flows within bounds asks for. The first of its demands that isn't met
    /// refuses it.
    pub(crate) fn ask_bounds<'a>(
        &self,
        alloc: Global,
        view: &'a Text,
        low: &Option<Text>,
        up: &Option<Text>,
        cost: &Option<Text>,
        supply: &Option<Text>,
        into: &Option<Text>,
    ) -> Result<AskedBounds<'a>, StepFault>
        requires { IsInStep ⟦<Seat<B> as Observer>⟧.watch self.now }
        ensures asks { let world = plain_of ⟦<Seat<B> as Observer>⟧.watch self.now in
            IfOk result (AsksBounds world view.now low.now up.now cost.now supply.now) }
        ensures takes { let world = plain_of ⟦<Seat<B> as Observer>⟧.watch self.now in
            OnOk result (IfSome into.now (λ map. HasType world Arc map Ints)) }
        ensures meets { let world = plain_of ⟦<Seat<B> as Observer>⟧.watch self.now in
            MeetsAll world (flow_demands view.now low.now up.now cost.now supply.now into.now)
            result }
    {
        self.ask_bound_maps(alloc, view, low, up, cost, supply, into)?;
        let asked = self.number_view(alloc, view)?;
        let lower = self.given_arc_ints(alloc, &asked, low)?;
        let upper = self.given_arc_ints(alloc, &asked, up)?;
        let cost = self.given_arc_ints(alloc, &asked, cost)?;
        let supply = self.given_node_ints(alloc, &asked, supply)?;
        self.ask_in_order(alloc, &asked, slice_given(&lower), slice_given(&upper))?;
        Ok(AskedBounds {
            asked,
            lower,
            upper,
            cost,
            supply,
        })
    }
}
