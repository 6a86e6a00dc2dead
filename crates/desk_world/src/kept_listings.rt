//! What views show: by their seats where they are kept, and else by their layers.

ghost use Rattle.std.specs.Prelude.{◌≡◌, ◌≤◌, true, map, length, is_some, unwrap_or, None};
ghost use Rattle.std.specs.Prelude.{IfSome, IfOk, IfErr, OnOk};
ghost use Rattle.report_text.specs.declared.faults.Fault.TheVariants as faults;
ghost use Rattle.kept_views.specs.Views.{nodes_of, arcs_of};
ghost use Rattle.plain_world.specs.Demands as demands;
ghost use Rattle.plain_world.specs.Demands.{is_there};
ghost use Rattle.plain_world.specs.Refusals.{unless};
ghost use Rattle.plain_world.specs.Views.{shown_by};
ghost use Rattle.view_numbers.specs.Listed.{facts_of, fact_shown};
ghost use Rattle.view_tower.specs.Layers.{tower_of};
ghost use Rattle.desk_world.specs.Claims.{Sits};
ghost use Rattle.desk_world.specs.Faults.{Is};
ghost use Rattle.desk_world.specs.InStep.{IsInStep};
ghost use Rattle.desk_world.specs.KeptViews.{items_at};
ghost use Rattle.desk_world.specs.MapNumbers.{numbered_tower};
ghost use Rattle.desk_world.specs.Naming.{called_node, called_arc};
ghost use Rattle.desk_world.specs.NodeWords.{node_called_so};
ghost use Rattle.desk_world.specs.Placing.{own_role};
ghost use Rattle.desk_world.specs.Plain.{plain_of, look_of};
ghost use Rattle.desk_world.specs.Shown.{fault_of_size, arcs_at};

use crate::map_values::MapValues;
use crate::tables::KeptKeys;
use crate::world::World;
use base_items::{ItemSort, List};
use desk_seats::Seat;
use kept_views::{KeptArcs, KeptNodes};
use kept_walks::Kept;
use observe_core::Observer;
use report_text::{ArcLine, NodeLine, StepFault};
use script_words::Direction;
use std::alloc::Global;
use token_text::Text;
use view_core::Shown;
use view_tower::Layer;

impl<B: Observer> World<Seat<B>> {
    // The nodes in the seat of a kept view.
    fn kept_nodes(&self, keys: &KeptKeys) -> &KeptNodes
        requires { Sits (own_role ItemSort.Node keys.now.maps)
            (look_of ⟦<Seat<B> as Observer>⟧.watch self.now ItemSort.Node keys.now.nodes.0) }
        ensures { nodes_of result.now ≡ items_at
            (look_of ⟦<Seat<B> as Observer>⟧.watch self.now ItemSort.Node keys.now.nodes.0) }
    {
        match self.graph.seat(ItemSort::Node, keys.nodes) {
            None => unreachable!(),
            Some(seat) => seat.kept_nodes(),
        }
    }

    // The arcs in the seat of a kept view.
    fn kept_arcs(&self, keys: &KeptKeys) -> &KeptArcs
        requires { Sits (own_role ItemSort.Arc keys.now.maps)
            (look_of ⟦<Seat<B> as Observer>⟧.watch self.now ItemSort.Arc keys.now.arcs.0) }
        ensures arcs { arcs_of result.now ≡ items_at
            (look_of ⟦<Seat<B> as Observer>⟧.watch self.now ItemSort.Arc keys.now.arcs.0) }
        ensures shape { result.now.shape ≡ keys.now.maps.shape }
    {
        match self.graph.seat(ItemSort::Arc, keys.arcs) {
            None => unreachable!(),
            Some(seat) => seat.kept_arcs(),
        }
    }

    // What a view's seats show, which is what its layers show of the base as it stands. None
    // exactly where the view isn't kept.
    fn kept_view<'a>(&'a self, view: &Text) -> Option<Kept<'a>>
        requires { IsInStep ⟦<Seat<B> as Observer>⟧.watch self.now }
        ensures shows { let world = plain_of ⟦<Seat<B> as Observer>⟧.watch self.now in
            IfSome result (λ kept. ⟦<Kept<'a> as Shown>⟧.graph kept ≡ shown_by world view.now) }
        ensures kept { let world = plain_of ⟦<Seat<B> as Observer>⟧.watch self.now in
            is_some result ≡ is_there world demands.KeptViews view.now }
    {
        let row = self.views.get(view)?;
        let Some(keys) = &row.kept else {
            return None;
        };
        Some(Kept::new(self.kept_nodes(keys), self.kept_arcs(keys)))
    }

    /// The nodes that a view with these layers shows, each with its name.
    pub(crate) fn nodes_by(
        &self,
        alloc: Global,
        view: &Text,
        layers: &[Layer],
    ) -> Result<List<NodeLine>, StepFault>
        requires in_step { IsInStep ⟦<Seat<B> as Observer>⟧.watch self.now }
        requires few { length layers.now ≤ 8 }
        requires layers { let world = plain_of ⟦<Seat<B> as Observer>⟧.watch self.now in
            tower_of layers.now ≡ numbered_tower world view.now }
        ensures lines { let world = plain_of ⟦<Seat<B> as Observer>⟧.watch self.now in
            IfOk result (λ lines. lines ≡ map (called_node world (tower_of layers.now))
            (shown_by world view.now).nodes) }
        ensures small { let world = plain_of ⟦<Seat<B> as Observer>⟧.watch self.now in
            OnOk result (fault_of_size (shown_by world view.now) ≡ None) }
        ensures full { let world = plain_of ⟦<Seat<B> as Observer>⟧.watch self.now in
            IfErr result (Is (fault_of_size (shown_by world view.now))) }
    {
        if let Some(kept) = self.kept_view(view) {
            let nodes = self.nodes_shown(alloc, layers, &kept);
            drop(kept);
            return nodes;
        }
        let values = MapValues::new(self)?;
        self.nodes_over(alloc, layers, &values)
    }

    /// The arcs that a view with these layers shows, each with its name and those of its ends.
    pub(crate) fn arcs_by(
        &self,
        alloc: Global,
        view: &Text,
        layers: &[Layer],
    ) -> Result<List<ArcLine>, StepFault>
        requires in_step { IsInStep ⟦<Seat<B> as Observer>⟧.watch self.now }
        requires few { length layers.now ≤ 8 }
        requires layers { let world = plain_of ⟦<Seat<B> as Observer>⟧.watch self.now in
            tower_of layers.now ≡ numbered_tower world view.now }
        ensures lines { let world = plain_of ⟦<Seat<B> as Observer>⟧.watch self.now in
            IfOk result (λ lines. lines ≡ map (called_arc world (tower_of layers.now))
            (facts_of (shown_by world view.now))) }
        ensures small { let world = plain_of ⟦<Seat<B> as Observer>⟧.watch self.now in
            OnOk result (fault_of_size (shown_by world view.now) ≡ None) }
        ensures full { let world = plain_of ⟦<Seat<B> as Observer>⟧.watch self.now in
            IfErr result (Is (fault_of_size (shown_by world view.now))) }
    {
        if let Some(kept) = self.kept_view(view) {
            let arcs = self.arcs_shown(alloc, layers, &kept);
            drop(kept);
            return arcs;
        }
        let values = MapValues::new(self)?;
        self.arcs_over(alloc, layers, &values)
    }

    /// The arcs from the node of this name, or to it, that a view with these layers shows.
    /// `Unknown` where no shown node has the name.
    pub(crate) fn arcs_named_by(
        &self,
        alloc: Global,
        view: &Text,
        layers: &[Layer],
        way: Direction,
        name: &Text,
    ) -> Result<List<ArcLine>, StepFault>
        requires in_step { IsInStep ⟦<Seat<B> as Observer>⟧.watch self.now }
        requires few { length layers.now ≤ 8 }
        requires layers { let world = plain_of ⟦<Seat<B> as Observer>⟧.watch self.now in
            tower_of layers.now ≡ numbered_tower world view.now }
        ensures lines { let world = plain_of ⟦<Seat<B> as Observer>⟧.watch self.now in
            let shown = shown_by world view.now in
            let node = node_called_so world (tower_of layers.now) shown name.now in
            IfOk result (λ lines. lines ≡ map (called_arc world (tower_of layers.now))
            (map fact_shown (arcs_at way shown (unwrap_or node 0)))) }
        ensures there { let world = plain_of ⟦<Seat<B> as Observer>⟧.watch self.now in
            let shown = shown_by world view.now in
            let node = node_called_so world (tower_of layers.now) shown name.now in
            OnOk result (is_some node ≡ true) }
        ensures unknown { let world = plain_of ⟦<Seat<B> as Observer>⟧.watch self.now in
            let shown = shown_by world view.now in
            let node = node_called_so world (tower_of layers.now) shown name.now in
            IfErr result (Is (unless (is_some node) (faults.Unknown name.now))) }
    {
        if let Some(kept) = self.kept_view(view) {
            let arcs = self.arcs_named(alloc, layers, &kept, way, name);
            drop(kept);
            return arcs;
        }
        let values = MapValues::new(self)?;
        self.arcs_named_over(alloc, layers, &values, way, name)
    }
}
