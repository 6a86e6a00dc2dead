//! What a view shows, with the names of its items.

ghost use Rattle.std.specs.Prelude.{◌≡◌, true, map, is_some, unwrap_or, IfOk, IfErr, OnOk};
ghost use Rattle.std.specs.Prelude.{◌≤◌, None, length};
ghost use Rattle.report_text.specs.declared.faults.Fault.TheVariants as faults;
ghost use Rattle.plain_world.specs.Refusals.{unless};
ghost use Rattle.view_numbers.specs.Listed.{facts_of, fact_shown};
ghost use Rattle.view_tower.specs.Layers.{tower_of};
ghost use Rattle.desk_world.specs.Faults.{Is};
ghost use Rattle.desk_world.specs.Naming.{called_node, called_arc, ShowsLive};
ghost use Rattle.desk_world.specs.NodeWords.{node_called_so};
ghost use Rattle.desk_world.specs.Plain.{plain_of};
ghost use Rattle.desk_world.specs.InStep.{IsInStep};
ghost use Rattle.desk_world.specs.Shown.{fault_of_size, arcs_at};

use crate::view_lists::{list_at, list_view};
use crate::world::World;
use base_items::List;
use desk_seats::Seat;
use observe_core::Observer;
use report_text::{ArcLine, NodeLine, StepFault};
use script_words::Direction;
use std::alloc::Global;
use token_text::Text;
use view_core::Shown;
use view_tower::Layer;

impl<B: Observer> World<Seat<B>> {
    /// The nodes of a view, each with its name.
    pub(crate) fn nodes_shown<G: Shown>(
        &self,
        alloc: Global,
        layers: &[Layer],
        g: &G,
    ) -> Result<List<NodeLine>, StepFault>
        requires in_step { IsInStep ⟦<Seat<B> as Observer>⟧.watch self.now }
        requires live { ShowsLive self.now.graph.graph.graph (tower_of layers.now)
            (G.graph g.now) }
        ensures lines { let world = plain_of ⟦<Seat<B> as Observer>⟧.watch self.now in
            IfOk result (λ lines. lines
            ≡ map (called_node world (tower_of layers.now)) (G.graph g.now).nodes) }
        ensures small { OnOk result (fault_of_size (G.graph g.now) ≡ None) }
        ensures full { IfErr result (Is (fault_of_size (G.graph g.now))) }
    {
        let (nodes, _) = list_view(alloc, g)?;
        Ok(self.node_lines(alloc, layers, nodes.as_slice())?)
    }

    /// The arcs of a view, each with its name and those of its ends.
    pub(crate) fn arcs_shown<G: Shown>(
        &self,
        alloc: Global,
        layers: &[Layer],
        g: &G,
    ) -> Result<List<ArcLine>, StepFault>
        requires in_step { IsInStep ⟦<Seat<B> as Observer>⟧.watch self.now }
        requires live { ShowsLive self.now.graph.graph.graph (tower_of layers.now)
            (G.graph g.now) }
        ensures lines { let world = plain_of ⟦<Seat<B> as Observer>⟧.watch self.now in
            IfOk result (λ lines. lines
            ≡ map (called_arc world (tower_of layers.now)) (facts_of (G.graph g.now))) }
        ensures small { OnOk result (fault_of_size (G.graph g.now) ≡ None) }
        ensures full { IfErr result (Is (fault_of_size (G.graph g.now))) }
    {
        let (_, arcs) = list_view(alloc, g)?;
        Ok(self.arc_lines(alloc, layers, arcs.as_slice())?)
    }

    /// The arcs from the node of this name, or to it. `Unknown` where no shown node has it.
    pub(crate) fn arcs_named<G: Shown>(
        &self,
        alloc: Global,
        layers: &[Layer],
        g: &G,
        way: Direction,
        name: &Text,
    ) -> Result<List<ArcLine>, StepFault>
        requires in_step { IsInStep ⟦<Seat<B> as Observer>⟧.watch self.now }
        requires few { length layers.now ≤ 8 }
        requires live { ShowsLive self.now.graph.graph.graph (tower_of layers.now)
            (G.graph g.now) }
        ensures lines { let world = plain_of ⟦<Seat<B> as Observer>⟧.watch self.now in
            let node = node_called_so world (tower_of layers.now) (G.graph g.now) name.now in
            IfOk result (λ lines. lines
            ≡ map (called_arc world (tower_of layers.now))
            (map fact_shown (arcs_at way (G.graph g.now) (unwrap_or node 0)))) }
        ensures there { let world = plain_of ⟦<Seat<B> as Observer>⟧.watch self.now in
            let node = node_called_so world (tower_of layers.now) (G.graph g.now) name.now in
            OnOk result (is_some node ≡ true) }
        ensures unknown { let world = plain_of ⟦<Seat<B> as Observer>⟧.watch self.now in
            let node = node_called_so world (tower_of layers.now) (G.graph g.now) name.now in
            IfErr result (Is (unless (is_some node) (faults.Unknown name.now))) }
    {
        let node = self.find_node(alloc, layers, g, name)?;
        let arcs = list_at(alloc, g, way, node)?;
        Ok(self.arc_lines(alloc, layers, arcs.as_slice())?)
    }
}
