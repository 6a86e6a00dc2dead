//! What towers of layers show, with the names of their items.

ghost use Rattle.std.specs.Prelude.{◌≡◌, ◌≤◌, ℕ, true, All, map, is_some, unwrap_or, length, None};
ghost use Rattle.std.specs.Prelude.{IfOk, IfErr, OnOk, take};
ghost use Rattle.plain_views.specs.TowerLaws.{tower_bound};
ghost use Rattle.base_items.specs.declared.items.ItemSort.{ItemSort};
ghost use Rattle.report_text.specs.declared.faults.Fault.TheVariants as faults;
ghost use Rattle.plain_digraph.specs.Items.{IsLive};
ghost use Rattle.plain_views.specs.Towers as towers;
ghost use Rattle.plain_world.specs.Refusals.{unless};
ghost use Rattle.view_numbers.specs.Listed.{facts_of, fact_shown};
ghost use Rattle.view_tower.specs.Layers.{tower_of, HasMaps};
ghost use Rattle.desk_world.specs.Faults.{Is};
ghost use Rattle.desk_world.specs.Naming.{called_node, called_arc};
ghost use Rattle.desk_world.specs.NodeWords.{node_called_so};
ghost use Rattle.desk_world.specs.Plain.{plain_of};
ghost use Rattle.desk_world.specs.InStep.{IsInStep};
ghost use Rattle.desk_world.specs.Shown.{fault_of_size, arcs_at};

use crate::world::World;
use base_items::List;
use desk_seats::Seat;
use observe_core::Observer;
use report_text::{ArcLine, NodeLine, StepFault};
use script_words::Direction;
use std::alloc::Global;
use token_text::Text;
use view_core::{Plain, Shown};
use view_tower::{Layer, Values, four};

impl<B: Observer> World<Seat<B>> {
    /// The nodes that the layers show over the digraph, each with its name.
    pub(crate) fn nodes_over<'a, V: Values>(
        &'a self,
        alloc: Global,
        layers: &'a [Layer],
        values: &'a V,
    ) -> Result<List<NodeLine>, StepFault>
        requires in_step { IsInStep ⟦<Seat<B> as Observer>⟧.watch self.now }
        requires few { length layers.now ≤ 8 }
        requires maps { All (HasMaps (V.has_int values.now) (V.has_bool values.now)) layers.now }
        requires live { (sort : ItemSort) (id : ℕ) → IsLive self.now.graph.graph.graph sort id
            → V.is_live values.now sort id ≡ true }
        ensures lines { let world = plain_of ⟦<Seat<B> as Observer>⟧.watch self.now in
            let shown = towers.shown (V.values values.now) world.graph (tower_of layers.now) in
            IfOk result (λ lines. lines
            ≡ map (called_node world (tower_of layers.now)) shown.nodes) }
        ensures small { let g = self.now.graph.graph.graph in
            let shown = towers.shown (V.values values.now) g (tower_of layers.now) in
            OnOk result (fault_of_size shown ≡ None) }
        ensures full { let g = self.now.graph.graph.graph in
            let shown = towers.shown (V.values values.now) g (tower_of layers.now) in
            IfErr result (Is (fault_of_size shown)) }
    {
        let graph = self.graph.graph();
        let half = four(Plain::new(graph), graph, layers, 0, values);
        self.nodes_above(alloc, layers, values, half)
    }

    // The same, where four levels show the lowest four layers.
    fn nodes_above<'a, V: Values, G: Shown + Drop>(
        &'a self,
        alloc: Global,
        layers: &'a [Layer],
        values: &'a V,
        half: G,
    ) -> Result<List<NodeLine>, StepFault>
        requires in_step { IsInStep ⟦<Seat<B> as Observer>⟧.watch self.now }
        requires few { length layers.now ≤ 8 }
        requires maps { All (HasMaps (V.has_int values.now) (V.has_bool values.now)) layers.now }
        requires live { (sort : ItemSort) (id : ℕ) → IsLive self.now.graph.graph.graph sort id
            → V.is_live values.now sort id ≡ true }
        requires shows { let g = self.now.graph.graph.graph in
            G.graph half ≡ towers.shown (V.values values.now) g (tower_of (take 4 layers.now)) }
        requires bound { G.bound half ≡ tower_bound (tower_of (take 4 layers.now)) }
        ensures lines { let world = plain_of ⟦<Seat<B> as Observer>⟧.watch self.now in
            let shown = towers.shown (V.values values.now) world.graph (tower_of layers.now) in
            IfOk result (λ lines. lines
            ≡ map (called_node world (tower_of layers.now)) shown.nodes) }
        ensures small { let g = self.now.graph.graph.graph in
            let shown = towers.shown (V.values values.now) g (tower_of layers.now) in
            OnOk result (fault_of_size shown ≡ None) }
        ensures full { let g = self.now.graph.graph.graph in
            let shown = towers.shown (V.values values.now) g (tower_of layers.now) in
            IfErr result (Is (fault_of_size shown)) }
    {
        let top = four(half, self.graph.graph(), layers, 4, values);
        self.nodes_shown(alloc, layers, &top)
    }

    /// The arcs that the layers show over the digraph, each with its name and those of its ends.
    pub(crate) fn arcs_over<'a, V: Values>(
        &'a self,
        alloc: Global,
        layers: &'a [Layer],
        values: &'a V,
    ) -> Result<List<ArcLine>, StepFault>
        requires in_step { IsInStep ⟦<Seat<B> as Observer>⟧.watch self.now }
        requires few { length layers.now ≤ 8 }
        requires maps { All (HasMaps (V.has_int values.now) (V.has_bool values.now)) layers.now }
        requires live { (sort : ItemSort) (id : ℕ) → IsLive self.now.graph.graph.graph sort id
            → V.is_live values.now sort id ≡ true }
        ensures lines { let world = plain_of ⟦<Seat<B> as Observer>⟧.watch self.now in
            let shown = towers.shown (V.values values.now) world.graph (tower_of layers.now) in
            IfOk result (λ lines. lines
            ≡ map (called_arc world (tower_of layers.now)) (facts_of shown)) }
        ensures small { let g = self.now.graph.graph.graph in
            let shown = towers.shown (V.values values.now) g (tower_of layers.now) in
            OnOk result (fault_of_size shown ≡ None) }
        ensures full { let g = self.now.graph.graph.graph in
            let shown = towers.shown (V.values values.now) g (tower_of layers.now) in
            IfErr result (Is (fault_of_size shown)) }
    {
        let graph = self.graph.graph();
        let half = four(Plain::new(graph), graph, layers, 0, values);
        self.arcs_above(alloc, layers, values, half)
    }

    // The same, where four levels show the lowest four layers.
    fn arcs_above<'a, V: Values, G: Shown + Drop>(
        &'a self,
        alloc: Global,
        layers: &'a [Layer],
        values: &'a V,
        half: G,
    ) -> Result<List<ArcLine>, StepFault>
        requires in_step { IsInStep ⟦<Seat<B> as Observer>⟧.watch self.now }
        requires few { length layers.now ≤ 8 }
        requires maps { All (HasMaps (V.has_int values.now) (V.has_bool values.now)) layers.now }
        requires live { (sort : ItemSort) (id : ℕ) → IsLive self.now.graph.graph.graph sort id
            → V.is_live values.now sort id ≡ true }
        requires shows { let g = self.now.graph.graph.graph in
            G.graph half ≡ towers.shown (V.values values.now) g (tower_of (take 4 layers.now)) }
        requires bound { G.bound half ≡ tower_bound (tower_of (take 4 layers.now)) }
        ensures lines { let world = plain_of ⟦<Seat<B> as Observer>⟧.watch self.now in
            let shown = towers.shown (V.values values.now) world.graph (tower_of layers.now) in
            IfOk result (λ lines. lines
            ≡ map (called_arc world (tower_of layers.now)) (facts_of shown)) }
        ensures small { let g = self.now.graph.graph.graph in
            let shown = towers.shown (V.values values.now) g (tower_of layers.now) in
            OnOk result (fault_of_size shown ≡ None) }
        ensures full { let g = self.now.graph.graph.graph in
            let shown = towers.shown (V.values values.now) g (tower_of layers.now) in
            IfErr result (Is (fault_of_size shown)) }
    {
        let top = four(half, self.graph.graph(), layers, 4, values);
        self.arcs_shown(alloc, layers, &top)
    }

    /// The arcs from the node of this name, or to it, among those that the layers show. `Unknown`
    /// where no shown node has the name.
    pub(crate) fn arcs_named_over<'a, V: Values>(
        &'a self,
        alloc: Global,
        layers: &'a [Layer],
        values: &'a V,
        way: Direction,
        name: &Text,
    ) -> Result<List<ArcLine>, StepFault>
        requires in_step { IsInStep ⟦<Seat<B> as Observer>⟧.watch self.now }
        requires few { length layers.now ≤ 8 }
        requires maps { All (HasMaps (V.has_int values.now) (V.has_bool values.now)) layers.now }
        requires live { (sort : ItemSort) (id : ℕ) → IsLive self.now.graph.graph.graph sort id
            → V.is_live values.now sort id ≡ true }
        ensures lines { let world = plain_of ⟦<Seat<B> as Observer>⟧.watch self.now in
            let shown = towers.shown (V.values values.now) world.graph (tower_of layers.now) in
            let node = node_called_so world (tower_of layers.now) shown name.now in
            IfOk result (λ lines. lines
            ≡ map (called_arc world (tower_of layers.now))
            (map fact_shown (arcs_at way shown (unwrap_or node 0)))) }
        ensures there { let world = plain_of ⟦<Seat<B> as Observer>⟧.watch self.now in
            let shown = towers.shown (V.values values.now) world.graph (tower_of layers.now) in
            let node = node_called_so world (tower_of layers.now) shown name.now in
            OnOk result (is_some node ≡ true) }
        ensures unknown { let world = plain_of ⟦<Seat<B> as Observer>⟧.watch self.now in
            let shown = towers.shown (V.values values.now) world.graph (tower_of layers.now) in
            let node = node_called_so world (tower_of layers.now) shown name.now in
            IfErr result (Is (unless (is_some node) (faults.Unknown name.now))) }
    {
        let graph = self.graph.graph();
        let half = four(Plain::new(graph), graph, layers, 0, values);
        self.arcs_named_above(alloc, layers, values, half, way, name)
    }

    // The same, where four levels show the lowest four layers.
    fn arcs_named_above<'a, V: Values, G: Shown + Drop>(
        &'a self,
        alloc: Global,
        layers: &'a [Layer],
        values: &'a V,
        half: G,
        way: Direction,
        name: &Text,
    ) -> Result<List<ArcLine>, StepFault>
        requires in_step { IsInStep ⟦<Seat<B> as Observer>⟧.watch self.now }
        requires few { length layers.now ≤ 8 }
        requires maps { All (HasMaps (V.has_int values.now) (V.has_bool values.now)) layers.now }
        requires live { (sort : ItemSort) (id : ℕ) → IsLive self.now.graph.graph.graph sort id
            → V.is_live values.now sort id ≡ true }
        requires shows { let g = self.now.graph.graph.graph in
            G.graph half ≡ towers.shown (V.values values.now) g (tower_of (take 4 layers.now)) }
        requires bound { G.bound half ≡ tower_bound (tower_of (take 4 layers.now)) }
        ensures lines { let world = plain_of ⟦<Seat<B> as Observer>⟧.watch self.now in
            let shown = towers.shown (V.values values.now) world.graph (tower_of layers.now) in
            let node = node_called_so world (tower_of layers.now) shown name.now in
            IfOk result (λ lines. lines
            ≡ map (called_arc world (tower_of layers.now))
            (map fact_shown (arcs_at way shown (unwrap_or node 0)))) }
        ensures there { let world = plain_of ⟦<Seat<B> as Observer>⟧.watch self.now in
            let shown = towers.shown (V.values values.now) world.graph (tower_of layers.now) in
            let node = node_called_so world (tower_of layers.now) shown name.now in
            OnOk result (is_some node ≡ true) }
        ensures unknown { let world = plain_of ⟦<Seat<B> as Observer>⟧.watch self.now in
            let shown = towers.shown (V.values values.now) world.graph (tower_of layers.now) in
            let node = node_called_so world (tower_of layers.now) shown name.now in
            IfErr result (Is (unless (is_some node) (faults.Unknown name.now))) }
    {
        let top = four(half, self.graph.graph(), layers, 4, values);
        self.arcs_named(alloc, layers, &top, way, name)
    }
}
