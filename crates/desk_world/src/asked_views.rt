//! Views by number, as queries read them: their nodes by name, and the names of what they show.

ghost use Rattle.std.specs.Prelude.{◌≡◌, ◌≤◌, ◌<◌, Some, IfOk, length};
ghost use Rattle.plain_certificates.specs.Walks.{IsCycle};
ghost use Rattle.plain_world.specs.Demands as demands;
ghost use Rattle.plain_world.specs.Queries as queries;
ghost use Rattle.plain_world.specs.Queries.{graph};
ghost use Rattle.plain_world.specs.Views.{node_named, shown_by};
ghost use Rattle.view_numbers.specs.Listed.{Numbers};
ghost use Rattle.view_tower.specs.Layers.{tower_of};
ghost use Rattle.desk_world.specs.AskedViews.{Asks};
ghost use Rattle.desk_world.specs.Faults.{Meets};
ghost use Rattle.desk_world.specs.MapNumbers.{numbered_tower};
ghost use Rattle.desk_world.specs.Plain.{plain_of};
ghost use Rattle.desk_world.specs.InStep.{IsInStep};

use crate::map_values::MapValues;
use crate::refusals::unknown;
use crate::view_lists::not_listed;
use crate::world::World;
use base_items::List;
use desk_seats::Seat;
use notify_chain::Chain;
use observe_core::Observer;
use report_text::{ArcLine, StepFault};
use static_digraph::Fixed;
use std::alloc::{AllocError, Global};
use token_text::Text;
use tower_numbers::{facts_of, number_tower, shows_node};
use view_numbers::turn_cycle;
use view_tower::Layer;

/// A view by number: its name, its layers, the lowest first, and what it shows, in its order. The
/// item of each number is its id.
#[derive(Drop)]
pub struct AskedView<'a> {
    pub view: &'a Text,
    pub layers: Vec<Layer>,
    pub fixed: Fixed,
}

impl<B: Observer> World<Seat<B>> {
    /// The node that the view shows under this name. `Unknown` where it shows none.
    pub(crate) fn ask_node_of(
        &self,
        alloc: Global,
        view: &Text,
        name: &Text,
    ) -> Result<u32, StepFault>
        requires { IsInStep ⟦<Seat<B> as Observer>⟧.watch self.now }
        ensures meets { let world = plain_of ⟦<Seat<B> as Observer>⟧.watch self.now in
            Meets world (demands.There (demands.NodesOf view.now) name.now) result }
        ensures found { let world = plain_of ⟦<Seat<B> as Observer>⟧.watch self.now in
            IfOk result (λ node. node_named world view.now name.now ≡ Some node) }
    {
        let layers = self.layers_of(alloc, view)?;
        let values = MapValues::new(self)?;
        match self.node_meant(alloc, layers.as_slice(), name)? {
            Some(node) => {
                if shows_node(self.graph.graph(), layers.as_slice(), &values, node) {
                    return Ok(node);
                }
                Err(unknown(alloc, name))
            }
            None => Err(unknown(alloc, name)),
        }
    }

    // What some layers show over the base, by number. `Full` where they show more nodes than the
    // limit, or else more arcs.
    fn number_layers(
        &self,
        alloc: Global,
        view: &Text,
        layers: &[Layer],
    ) -> Result<Fixed, StepFault>
        requires in_step { IsInStep ⟦<Seat<B> as Observer>⟧.watch self.now }
        requires layers { let world = plain_of ⟦<Seat<B> as Observer>⟧.watch self.now in
            tower_of layers.now ≡ numbered_tower world view.now }
        requires few { length layers.now ≤ 8 }
        ensures numbers { let world = plain_of ⟦<Seat<B> as Observer>⟧.watch self.now in
            IfOk result (Numbers (shown_by world view.now)) }
        ensures meets { let world = plain_of ⟦<Seat<B> as Observer>⟧.watch self.now in
            Meets world (demands.IsSmall view.now) result }
    {
        let _ = view;
        let values = MapValues::new(self)?;
        let mut nodes: Chain<Seat<B>> = Chain::new(alloc);
        let mut arcs: Chain<Seat<B>> = Chain::new(alloc);
        match number_tower(
            alloc,
            self.graph.graph(),
            layers,
            &values,
            &mut nodes,
            &mut arcs,
        ) {
            Ok(fixed) => Ok(fixed),
            Err(fault) => Err(not_listed(fault)),
        }
    }

    /// A view by number. `Full` where it shows more nodes than the limit, or else more arcs.
    pub(crate) fn number_view<'a>(
        &self,
        alloc: Global,
        view: &'a Text,
    ) -> Result<AskedView<'a>, StepFault>
        requires { IsInStep ⟦<Seat<B> as Observer>⟧.watch self.now }
        ensures asks { let world = plain_of ⟦<Seat<B> as Observer>⟧.watch self.now in
            IfOk result (Asks world) }
        ensures view { IfOk result (λ asked. asked.view.now ≡ view.now) }
        ensures meets { let world = plain_of ⟦<Seat<B> as Observer>⟧.watch self.now in
            Meets world (demands.IsSmall view.now) result }
    {
        let layers = self.layers_of(alloc, view)?;
        let fixed = self.number_layers(alloc, view, layers.as_slice())?;
        Ok(AskedView {
            view,
            layers,
            fixed,
        })
    }

    /// The name of the node of this number.
    pub(crate) fn name_of_node(
        &self,
        alloc: Global,
        asked: &AskedView<'_>,
        node: u32,
    ) -> Result<Text, AllocError>
        requires in_step { IsInStep ⟦<Seat<B> as Observer>⟧.watch self.now }
        requires asks { Asks (plain_of ⟦<Seat<B> as Observer>⟧.watch self.now) asked.now }
        requires node { let world = plain_of ⟦<Seat<B> as Observer>⟧.watch self.now in
            node < (graph world asked.now.view.now).nodes }
        ensures { let world = plain_of ⟦<Seat<B> as Observer>⟧.watch self.now in
            IfOk result (λ name. name ≡ queries.name_of_node world asked.now.view.now node) }
    {
        self.node_called(alloc, asked.layers.as_slice(), asked.fixed.node_item(node))
    }

    /// The name of the arc of this number.
    pub(crate) fn name_of_arc(
        &self,
        alloc: Global,
        asked: &AskedView<'_>,
        arc: u32,
    ) -> Result<Text, AllocError>
        requires in_step { IsInStep ⟦<Seat<B> as Observer>⟧.watch self.now }
        requires asks { Asks (plain_of ⟦<Seat<B> as Observer>⟧.watch self.now) asked.now }
        requires arc { let world = plain_of ⟦<Seat<B> as Observer>⟧.watch self.now in
            arc < (graph world asked.now.view.now).arcs }
        ensures { let world = plain_of ⟦<Seat<B> as Observer>⟧.watch self.now in
            IfOk result (λ name. name ≡ queries.name_of_arc world asked.now.view.now arc) }
    {
        self.arc_called(alloc, asked.layers.as_slice(), asked.fixed.arc_item(arc))
    }

    /// The lines of a cycle, from the arc with the least id on.
    pub(crate) fn lines_of_cycle(
        &self,
        alloc: Global,
        asked: &AskedView<'_>,
        cycle: &List<u32>,
    ) -> Result<List<ArcLine>, AllocError>
        requires in_step { IsInStep ⟦<Seat<B> as Observer>⟧.watch self.now }
        requires asks { Asks (plain_of ⟦<Seat<B> as Observer>⟧.watch self.now) asked.now }
        requires cycle { let world = plain_of ⟦<Seat<B> as Observer>⟧.watch self.now in
            IsCycle (graph world asked.now.view.now) cycle.now }
        ensures { let world = plain_of ⟦<Seat<B> as Observer>⟧.watch self.now in
            IfOk result (λ lines. lines ≡ queries.cycle_lines world asked.now.view.now cycle.now) }
    {
        let turned = turn_cycle(alloc, &asked.fixed, cycle)?;
        let arcs = facts_of(alloc, &asked.fixed, turned.as_slice())?;
        self.arc_lines(alloc, asked.layers.as_slice(), arcs.as_slice())
    }
}
