//! The values that a query reads, pulled once for all items of its view, and their checks.

ghost use Rattle.std.specs.Prelude.{◌≡◌, ◌≤ℤ◌, pos, All, None, length, IfOk, OnOk};
ghost use Rattle.script_words.specs.declared.commands.MapType.TheVariants as types;
ghost use Rattle.plain_world.specs.Demands as demands;
ghost use Rattle.plain_world.specs.Queries.{graph};
ghost use Rattle.plain_world.specs.Refusals.{breach};
ghost use Rattle.plain_world.specs.Tables.{Name};
ghost use Rattle.task_bounds.specs.Given.{IsValue};
ghost use Rattle.desk_world.specs.AskedViews.{Asks, arc_values, node_values, left_nodes};
ghost use Rattle.desk_world.specs.Faults.{Meets};
ghost use Rattle.desk_world.specs.Plain.{plain_of};
ghost use Rattle.desk_world.specs.InStep.{IsInStep};

use crate::asked_views::AskedView;
use crate::map_values::MapValues;
use crate::world::World;
use base_items::ItemSort;
use desk_seats::Seat;
use observe_core::Observer;
use report_text::{Fault, StepFault};
use std::alloc::{AllocError, Global};
use token_text::Text;
use tower_numbers::{ValueFault, arc_ints, node_bools, node_ints};
use view_numbers::first_below;

impl<B: Observer> World<Seat<B>> {
    /// The ints of a map on the arcs of a view. `OutOfRange` with the first arc whose value is too
    /// large in magnitude.
    pub(crate) fn arc_ints_of(
        &self,
        alloc: Global,
        asked: &AskedView<'_>,
        map: &Text,
    ) -> Result<Vec<i64>, StepFault>
        requires in_step { IsInStep ⟦<Seat<B> as Observer>⟧.watch self.now }
        requires asks { Asks (plain_of ⟦<Seat<B> as Observer>⟧.watch self.now) asked.now }
        requires typed { let world = plain_of ⟦<Seat<B> as Observer>⟧.watch self.now in
            breach world (demands.HasType ItemSort.Arc types.Ints map.now) ≡ None }
        ensures ints { let world = plain_of ⟦<Seat<B> as Observer>⟧.watch self.now in
            IfOk result (λ ints. ints.items ≡ arc_values world asked.now.view.now map.now) }
        ensures small { IfOk result (λ ints. All IsValue ints.items) }
        ensures meets { let world = plain_of ⟦<Seat<B> as Observer>⟧.watch self.now in
            Meets world (demands.ArcsInRange asked.now.view.now map.now) result }
    {
        let values = MapValues::new(self)?;
        let number = self.number(ItemSort::Arc, map)?;
        match arc_ints(
            alloc,
            &asked.fixed,
            asked.layers.as_slice(),
            &values,
            number,
        ) {
            Ok(ints) => Ok(ints),
            Err(ValueFault::OutOfRange(arc, value)) => {
                let name = self.name_of_arc(alloc, asked, arc)?;
                Err(StepFault::Refused(Fault::OutOfRange(name, value)))
            }
            Err(ValueFault::Memory) => Err(StepFault::Memory),
        }
    }

    /// The ints of a map at the nodes of a view. `OutOfRange` with the first node whose value is
    /// too large in magnitude.
    pub(crate) fn node_ints_of(
        &self,
        alloc: Global,
        asked: &AskedView<'_>,
        map: &Text,
    ) -> Result<Vec<i64>, StepFault>
        requires in_step { IsInStep ⟦<Seat<B> as Observer>⟧.watch self.now }
        requires asks { Asks (plain_of ⟦<Seat<B> as Observer>⟧.watch self.now) asked.now }
        requires typed { let world = plain_of ⟦<Seat<B> as Observer>⟧.watch self.now in
            breach world (demands.HasType ItemSort.Node types.Ints map.now) ≡ None }
        ensures ints { let world = plain_of ⟦<Seat<B> as Observer>⟧.watch self.now in
            IfOk result (λ ints. ints.items ≡ node_values world asked.now.view.now map.now) }
        ensures small { IfOk result (λ ints. All IsValue ints.items) }
        ensures meets { let world = plain_of ⟦<Seat<B> as Observer>⟧.watch self.now in
            Meets world (demands.NodesInRange asked.now.view.now map.now) result }
    {
        let values = MapValues::new(self)?;
        let number = self.number(ItemSort::Node, map)?;
        match node_ints(
            alloc,
            &asked.fixed,
            asked.layers.as_slice(),
            &values,
            number,
        ) {
            Ok(ints) => Ok(ints),
            Err(ValueFault::OutOfRange(node, value)) => {
                let name = self.name_of_node(alloc, asked, node)?;
                Err(StepFault::Refused(Fault::OutOfRange(name, value)))
            }
            Err(ValueFault::Memory) => Err(StepFault::Memory),
        }
    }

    /// Which nodes of a view are left, by a map of bools.
    pub(crate) fn left_of(
        &self,
        alloc: Global,
        asked: &AskedView<'_>,
        map: &Text,
    ) -> Result<Vec<bool>, AllocError>
        requires in_step { IsInStep ⟦<Seat<B> as Observer>⟧.watch self.now }
        requires asks { Asks (plain_of ⟦<Seat<B> as Observer>⟧.watch self.now) asked.now }
        requires typed { let world = plain_of ⟦<Seat<B> as Observer>⟧.watch self.now in
            breach world (demands.HasType ItemSort.Node types.Bools map.now) ≡ None }
        ensures { let world = plain_of ⟦<Seat<B> as Observer>⟧.watch self.now in
            IfOk result (λ left. left.items ≡ left_nodes world asked.now.view.now map.now) }
    {
        let values = MapValues::new(self)?;
        let number = self.number(ItemSort::Node, map)?;
        node_bools(
            alloc,
            &asked.fixed,
            asked.layers.as_slice(),
            &values,
            number,
        )
    }

    /// Asks that no value of a map on the arcs is below the least. `Negative` with the first arc
    /// whose value is.
    pub(crate) fn ask_at_least(
        &self,
        alloc: Global,
        asked: &AskedView<'_>,
        values: &[i64],
        least: u32,
    ) -> Result<(), StepFault>
        requires in_step { IsInStep ⟦<Seat<B> as Observer>⟧.watch self.now }
        requires asks { Asks (plain_of ⟦<Seat<B> as Observer>⟧.watch self.now) asked.now }
        requires all { let world = plain_of ⟦<Seat<B> as Observer>⟧.watch self.now in
            length values.now ≡ (graph world asked.now.view.now).arcs }
        ensures meets { let world = plain_of ⟦<Seat<B> as Observer>⟧.watch self.now in
            (map : Name) → values.now ≡ arc_values world asked.now.view.now map
            → Meets world (demands.ArcsAtLeast asked.now.view.now least map) result }
        ensures least { OnOk result (All (λ x. pos least ≤ℤ x) values.now) }
    {
        let _ = asked.fixed.arc_count();
        match first_below(values, least as i64) {
            Some(arc) => {
                let name = self.name_of_arc(alloc, asked, arc as u32)?;
                Err(StepFault::Refused(Fault::Negative(name)))
            }
            None => Ok(()),
        }
    }
}
