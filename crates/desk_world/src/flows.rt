//! Flows that are written into maps.

ghost use Rattle.std.specs.Prelude.{◌≡◌, pos, length, IfSome, OnOk, OnErr};
ghost use Rattle.base_items.specs.declared.items.ItemSort.TheVariants.{Arc};
ghost use Rattle.script_words.specs.declared.commands.MapType.TheVariants.{Ints};
ghost use Rattle.plain_digraph.specs.Lists.{AllOf};
ghost use Rattle.plain_views.specs.Marks.{arc_origin};
ghost use Rattle.plain_views.specs.TowerLaws.{IsLiveOrigin};
ghost use Rattle.plain_certificates.specs.Tables.{at};
ghost use Rattle.plain_world.specs.Demands as demands;
ghost use Rattle.plain_world.specs.Queries.{graph, with_flow};
ghost use Rattle.plain_world.specs.World.{live};
ghost use Rattle.view_tower.specs.Layers.{tower_of, origin_of};
ghost use Rattle.desk_world.specs.AskedViews.{Asks};
ghost use Rattle.desk_world.specs.Faults.{Meets, MeetsAll};
ghost use Rattle.desk_world.specs.Flows.{with_ints, flow_by, with_flow_at, shows_single};
ghost use Rattle.desk_world.specs.Plain.{plain_of};
ghost use Rattle.desk_world.specs.InStep.{IsInStep, AreInStep};
ghost use Rattle.desk_world.specs.Values.{HasType};

use crate::asked_views::AskedView;
use crate::orders::arc_order;
use crate::refusals::wrong_type;
use crate::values::Value;
use crate::world::World;
use base_items::{ItemSort, List};
use desk_seats::Seat;
use flow_replies::arc_items;
use observe_core::Observer;
use report_text::StepFault;
use script_words::MapType;
use std::alloc::{AllocError, Global};
use token_text::Text;
use view_tower::{Layer, Origin, arc_from};

// Whether the layers show an arc of the base once at most, as it goes.
fn shows_single(layers: &[Layer]) -> bool
    ensures { result ≡ shows_single (tower_of layers.now) }
{
    let mut at = layers.len();
    'down: while at > 0 {
        at -= 1;
        match layers[at] {
            Layer::Undirect => return false,
            Layer::Residual { .. } => return false,
            _ => {}
        }
    }
    true
}

impl<B: Observer> World<Seat<B>> {
    /// Asks that the map can take a flow of the view: it has ints, and the view shows each arc of
    /// the base once at most, as it goes. `WrongType` otherwise.
    fn ask_takes_flow(&self, alloc: Global, view: &Text, map: &Text) -> Result<(), StepFault>
        requires { IsInStep ⟦<Seat<B> as Observer>⟧.watch self.now }
        ensures { let world = plain_of ⟦<Seat<B> as Observer>⟧.watch self.now in
            Meets world (demands.TakesFlow view.now map.now) result }
    {
        self.ask_type(alloc, ItemSort::Arc, MapType::Ints, map)?;
        let layers = self.layers_of(alloc, view)?;
        if shows_single(layers.as_slice()) {
            return Ok(());
        }
        Err(wrong_type(alloc, map))
    }

    /// The same of a map that may be given.
    pub(crate) fn ask_given_flow(
        &self,
        alloc: Global,
        view: &Text,
        into: &Option<Text>,
    ) -> Result<(), StepFault>
        requires { IsInStep ⟦<Seat<B> as Observer>⟧.watch self.now }
        ensures { let world = plain_of ⟦<Seat<B> as Observer>⟧.watch self.now in
            MeetsAll world (demands.given (demands.TakesFlow view.now) into.now) result }
    {
        match into {
            Some(map) => self.ask_takes_flow(alloc, view, map),
            None => Ok(()),
        }
    }

    /// Writes a flow of the arcs of a view into a map, if one is given. The error is want of
    /// memory; the plain world is then as before.
    pub(crate) fn write_into(
        &mut self,
        alloc: Global,
        into: &Option<Text>,
        asked: &AskedView<'_>,
        flow: &List<i64>,
    ) -> Result<(), AllocError>
        requires in_step { IsInStep ⟦<Seat<B> as Observer>⟧.watch self.old }
        requires asks { Asks (plain_of ⟦<Seat<B> as Observer>⟧.watch self.old) asked.now }
        requires takes { IfSome into.now (λ map. HasType
            (plain_of ⟦<Seat<B> as Observer>⟧.watch self.old) Arc map Ints) }
        requires sizes { let world = plain_of ⟦<Seat<B> as Observer>⟧.watch self.old in
            length flow.now ≡ (graph world asked.now.view.now).arcs }
        ensures written { let world = plain_of ⟦<Seat<B> as Observer>⟧.watch self.old in
            OnOk result (plain_of ⟦<Seat<B> as Observer>⟧.watch self.new
            ≡ with_flow world asked.now.view.now into.now (at (pos 0) flow.now)) }
        ensures same { OnErr result (plain_of ⟦<Seat<B> as Observer>⟧.watch self.new
            ≡ plain_of ⟦<Seat<B> as Observer>⟧.watch self.old) }
        ensures in_step { AreInStep ⟦<Seat<B> as Observer>⟧.watch self.new }
        ensures graph { self.new.graph.graph ≡ self.old.graph.graph }
    {
        let Some(map) = into else {
            return Ok(());
        };
        let arcs = arc_items(alloc, &asked.fixed)?;
        let layers = asked.layers.as_slice();
        self.write_flow(alloc, map, layers, arcs.as_slice(), flow.as_slice())
    }

    /// Writes a flow into a map of ints of the arcs: what flows on each arc of the base, where
    /// these are the arcs that the layers show, each with its flow. The error is want of memory;
    /// the plain world is then as before.
    fn write_flow(
        &mut self,
        alloc: Global,
        map: &Text,
        layers: &[Layer],
        arcs: &[u32],
        flow: &[i64],
    ) -> Result<(), AllocError>
        requires in_step { IsInStep ⟦<Seat<B> as Observer>⟧.watch self.old }
        requires of_type { HasType (plain_of ⟦<Seat<B> as Observer>⟧.watch self.old) Arc map.now
            Ints }
        requires sizes { length flow.now ≡ length arcs.now }
        requires live { AllOf (λ arc. IsLiveOrigin self.old.graph.graph.graph
            (arc_origin (tower_of layers.now) arc)) arcs.now }
        ensures written { OnOk result (plain_of ⟦<Seat<B> as Observer>⟧.watch self.new
            ≡ with_ints (plain_of ⟦<Seat<B> as Observer>⟧.watch self.old) map.now
            (flow_by (tower_of layers.now) arcs.now flow.now)) }
        ensures same { OnErr result (plain_of ⟦<Seat<B> as Observer>⟧.watch self.new
            ≡ plain_of ⟦<Seat<B> as Observer>⟧.watch self.old) }
        ensures in_step { AreInStep ⟦<Seat<B> as Observer>⟧.watch self.new }
        ensures graph { self.new.graph.graph ≡ self.old.graph.graph }
    {
        let order = arc_order(alloc, self.graph.graph())?;
        self.clear_flow(map, &order);
        self.put_flow(map, layers, arcs, flow);
        Ok(())
    }

    // Writes 0 at each of the live arcs.
    fn clear_flow(&mut self, map: &Text, order: &[u32])
        requires in_step { IsInStep ⟦<Seat<B> as Observer>⟧.watch self.old }
        requires of_type { HasType (plain_of ⟦<Seat<B> as Observer>⟧.watch self.old) Arc map.now
            Ints }
        requires order { order.now ≡ live (plain_of ⟦<Seat<B> as Observer>⟧.watch self.old) Arc }
        ensures cleared { plain_of ⟦<Seat<B> as Observer>⟧.watch self.new
            ≡ with_ints (plain_of ⟦<Seat<B> as Observer>⟧.watch self.old) map.now (λ _. pos 0) }
        ensures in_step { AreInStep ⟦<Seat<B> as Observer>⟧.watch self.new }
        ensures graph { self.new.graph.graph ≡ self.old.graph.graph }
    {
        for id in order {
            self.write_value(ItemSort::Arc, map, *id, Value::Int(0));
        }
    }

    // Writes the flows into a map that has 0 at each arc: those of the last arcs first, so that of
    // several that come from one arc the first one's flow stays.
    fn put_flow(&mut self, map: &Text, layers: &[Layer], arcs: &[u32], flow: &[i64])
        requires in_step { AreInStep ⟦<Seat<B> as Observer>⟧.watch self.old }
        requires of_type { HasType (plain_of ⟦<Seat<B> as Observer>⟧.watch self.old) Arc map.now
            Ints }
        requires cleared { plain_of ⟦<Seat<B> as Observer>⟧.watch self.old
            ≡ with_ints (plain_of ⟦<Seat<B> as Observer>⟧.watch self.old) map.now (λ _. pos 0) }
        requires sizes { length flow.now ≡ length arcs.now }
        requires live { AllOf (λ arc. IsLiveOrigin self.old.graph.graph.graph
            (arc_origin (tower_of layers.now) arc)) arcs.now }
        ensures written { plain_of ⟦<Seat<B> as Observer>⟧.watch self.new
            ≡ with_ints (plain_of ⟦<Seat<B> as Observer>⟧.watch self.old) map.now
            (flow_by (tower_of layers.now) arcs.now flow.now) }
        ensures in_step { AreInStep ⟦<Seat<B> as Observer>⟧.watch self.new }
        ensures graph { self.new.graph.graph ≡ self.old.graph.graph }
    {
        let mut left = arcs.len();
        while left > 0 {
            left -= 1;
            self.put_flow_at(map, arc_from(layers, arcs[left]), flow[left]);
        }
    }

    // Writes a flow at the arc of the base from which an arc comes, if it comes from one.
    fn put_flow_at(&mut self, map: &Text, origin: Origin, flow: i64)
        requires in_step { AreInStep ⟦<Seat<B> as Observer>⟧.watch self.old }
        requires of_type { HasType (plain_of ⟦<Seat<B> as Observer>⟧.watch self.old) Arc map.now
            Ints }
        requires live { IsLiveOrigin self.old.graph.graph.graph (origin_of origin) }
        ensures put { plain_of ⟦<Seat<B> as Observer>⟧.watch self.new
            ≡ with_flow_at (plain_of ⟦<Seat<B> as Observer>⟧.watch self.old) map.now
            (origin_of origin) flow }
        ensures in_step { AreInStep ⟦<Seat<B> as Observer>⟧.watch self.new }
        ensures graph { self.new.graph.graph ≡ self.old.graph.graph }
    {
        match origin {
            Origin::Arc(arc) => self.write_value(ItemSort::Arc, map, arc, Value::Int(flow)),
            Origin::Bind(_) => {}
        }
    }
}
