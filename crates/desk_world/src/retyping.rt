//! A map of values becomes one of another type.

ghost use Rattle.std.specs.Prelude.{◌≡◌, ◌+◌, ◌<◌, ◌^◌, true, None, is_some, IfOk, IfErr, OnOk};
ghost use Rattle.std.specs.Prelude.{Contains, map};
ghost use Rattle.plain_digraph.specs.Items.{IsLive, facts};
ghost use Rattle.script_words.specs.declared.commands.Command.TheVariants as command;
ghost use Rattle.report_text.specs.declared.faults.Fault.TheVariants as faults;
ghost use Rattle.alter_graph.specs.Chains.{chains_seen};
ghost use Rattle.plain_world.specs.Demands as demands;
ghost use Rattle.plain_world.specs.Effects.{with_map_changed, new_map, retyped};
ghost use Rattle.plain_world.specs.Refusals.{breach, unless};
ghost use Rattle.plain_world.specs.Values.{spells};
ghost use Rattle.plain_world.specs.World.{live, label_of};
ghost use Rattle.desk_world.specs.InStep.{IsInStep, AreInStep, HasStamps, has_values};
ghost use Rattle.desk_world.specs.Faults.{Answers, Meets, Is};
ghost use Rattle.desk_world.specs.Looks.{look_in};
ghost use Rattle.desk_world.specs.Plain.{plain_of, look_of, tables_of, map_seen, held_by};
ghost use Rattle.desk_world.specs.Retyping.{IsMapOf, IsRespelled, Reseated, text_by};
ghost use Rattle.desk_world.specs.Values.{kind_for, type_for, Spells};

use crate::map_changes::{empty_map, kind_of};
use crate::orders::{arc_order, node_order};
use crate::seat_writes::write_to;
use crate::tables::MapRow;
use crate::values::{Value, read_value};
use crate::world::World;
use alter_graph::{Alterable, all_facts};
use base_items::ItemSort;
use desk_seats::Seat;
use notify_chain::SeatKey;
use observe_core::Observer;
use report_text::{Reply, StepFault};
use script_words::MapType;
use std::alloc::{AllocError, Global};
use token_text::Text;

// Puts another observer into a seat.
fn reseat<O: Observer>(graph: &mut Alterable<O>, sort: ItemSort, key: SeatKey, now: O)
    requires { is_some (look_in (chains_seen O.watch graph.old.chains) sort key.0) ≡ true }
    ensures { Reseated O.watch sort key.0 now graph.old graph.new }
{
    match graph.seat_mut(sort, key) {
        None => unreachable!(),
        Some(seat) => *seat = now,
    }
}

impl<B: Observer> World<Seat<B>> {
    /// Changes the type of a map: each item gets the value that the text of its old one spells. The
    /// map keeps its place. `BadValue` of the first item, in the order of the base, whose text
    /// spells none.
    pub(crate) fn retype(
        &mut self,
        alloc: Global,
        sort: ItemSort,
        map: &Text,
        kind: MapType,
    ) -> Result<Reply, StepFault>
        requires in_step { IsInStep ⟦<Seat<B> as Observer>⟧.watch self.old }
        requires stamps { HasStamps self.old }
        ensures step { Answers (plain_of ⟦<Seat<B> as Observer>⟧.watch self.old)
            (command.Retype sort map.now kind)
            (plain_of ⟦<Seat<B> as Observer>⟧.watch self.new) result }
        ensures in_step { IsInStep ⟦<Seat<B> as Observer>⟧.watch self.new }
        ensures stamps { self.new.graph.graph.graph.stamps
            < self.old.graph.graph.graph.stamps + 2 ^ 24 }
    {
        self.ask_map(alloc, sort, map)?;
        self.value_type(alloc, sort, map)?;
        self.ask_unread(alloc, sort, map)?;
        let values = self.respelled(alloc, sort, map, kind)?;
        self.put_values(sort, map, kind, values);
        Ok(Reply::Quiet)
    }

    // The values of a map of values as ones of another type, before they get its seat. `BadValue`
    // of the first item, in the order of the base, whose text spells none.
    fn respelled(
        &self,
        alloc: Global,
        sort: ItemSort,
        map: &Text,
        kind: MapType,
    ) -> Result<Seat<B>, StepFault>
        requires in_step { IsInStep ⟦<Seat<B> as Observer>⟧.watch self.now }
        requires values { breach (plain_of ⟦<Seat<B> as Observer>⟧.watch self.now)
            (demands.HasValues sort map.now) ≡ None }
        ensures meets { let world = plain_of ⟦<Seat<B> as Observer>⟧.watch self.now in
            Meets world (demands.AllSpell sort map.now kind) result }
        ensures seat { IfOk result (λ seat. IsMapOf kind (facts self.now.graph.graph.graph sort)
            (⟦<Seat<B> as Observer>⟧.watch seat).seen) }
        ensures values { let world = plain_of ⟦<Seat<B> as Observer>⟧.watch self.now in
            IfOk result (λ seat. IsRespelled world sort map.now kind
            (⟦<Seat<B> as Observer>⟧.watch seat).seen.held) }
    {
        let Some(row) = self.tables(sort).maps.get(map) else {
            unreachable!()
        };
        let mut seat = self.new_values(alloc, sort, kind)?;
        let order = self.base_order(alloc, sort)?;
        for id in order.as_slice() {
            let value = self.value_as(alloc, sort, row, kind, *id)?;
            write_to(&mut seat, *id, value);
        }
        Ok(seat)
    }

    // A map of the type that has the default at each live item, before it gets a seat.
    fn new_values(
        &self,
        alloc: Global,
        sort: ItemSort,
        kind: MapType,
    ) -> Result<Seat<B>, AllocError>
        requires { AreInStep ⟦<Seat<B> as Observer>⟧.watch self.now }
        ensures seat { IfOk result (λ seat. IsMapOf kind (facts self.now.graph.graph.graph sort)
            (⟦<Seat<B> as Observer>⟧.watch seat).seen) }
        ensures new { let world = plain_of ⟦<Seat<B> as Observer>⟧.watch self.now in
            IfOk result (λ seat. held_by (kind_for kind)
            (⟦<Seat<B> as Observer>⟧.watch seat).seen.held ≡ new_map world sort kind) }
    {
        let all = all_facts(self.graph.graph(), sort, alloc)?;
        let mut seat = empty_map(alloc, kind);
        match seat.build(all.as_slice()) {
            Ok(()) => Ok(seat),
            Err(_) => Err(AllocError),
        }
    }

    // The ids of the live items of a sort in the order of the base.
    fn base_order(&self, alloc: Global, sort: ItemSort) -> Result<Vec<u32>, AllocError>
        ensures { let world = plain_of ⟦<Seat<B> as Observer>⟧.watch self.now in
            IfOk result (λ order. order.items ≡ live world sort) }
    {
        match sort {
            ItemSort::Node => node_order(alloc, self.graph.graph()),
            ItemSort::Arc => arc_order(alloc, self.graph.graph()),
        }
    }

    // What a map of values has at a live item, as a value of another type. `BadValue`, with the
    // item's label, where its text spells none.
    fn value_as(
        &self,
        alloc: Global,
        sort: ItemSort,
        row: &MapRow,
        kind: MapType,
        id: u32,
    ) -> Result<Value, StepFault>
        requires in_step { IsInStep ⟦<Seat<B> as Observer>⟧.watch self.now }
        requires live { IsLive self.now.graph.graph.graph sort id }
        requires row { Contains (map (λ e. e.value) (tables_of self.now sort).maps.rows) row.now }
        requires values { has_values row.now.kind ≡ true }
        ensures spells { let look = look_of ⟦<Seat<B> as Observer>⟧.watch self.now in
            let text = text_by (map_seen look sort row.now) id in
            OnOk result (spells kind text ≡ true) }
        ensures value { let look = look_of ⟦<Seat<B> as Observer>⟧.watch self.now in
            let text = text_by (map_seen look sort row.now) id in
            IfOk result (λ value. Spells text value) }
        ensures of_type { IfOk result (λ value. type_for value ≡ kind) }
        ensures refused { let look = look_of ⟦<Seat<B> as Observer>⟧.watch self.now in
            let text = text_by (map_seen look sort row.now) id in
            let label = label_of (plain_of ⟦<Seat<B> as Observer>⟧.watch self.now) sort id in
            IfErr result (Is (unless (spells kind text) (faults.BadValue label text))) }
    {
        let text = self.row_text(alloc, sort, row, id)?;
        read_value(alloc, kind, self.label_of(sort, id), &text)
    }

    // Puts values of a type in the place of those of a map that nothing reads.
    fn put_values(&mut self, sort: ItemSort, map: &Text, kind: MapType, values: Seat<B>)
        requires in_step { AreInStep ⟦<Seat<B> as Observer>⟧.watch self.old }
        requires own { breach (plain_of ⟦<Seat<B> as Observer>⟧.watch self.old)
            (demands.HasValues sort map.now) ≡ None }
        requires unread { breach (plain_of ⟦<Seat<B> as Observer>⟧.watch self.old)
            (demands.NoneReads sort map.now) ≡ None }
        requires seat { IsMapOf kind (facts self.old.graph.graph.graph sort)
            (⟦<Seat<B> as Observer>⟧.watch values).seen }
        requires values { IsRespelled (plain_of ⟦<Seat<B> as Observer>⟧.watch self.old) sort
            map.now kind (⟦<Seat<B> as Observer>⟧.watch values).seen.held }
        ensures put { let world = plain_of ⟦<Seat<B> as Observer>⟧.watch self.old in
            plain_of ⟦<Seat<B> as Observer>⟧.watch self.new
            ≡ with_map_changed world sort map.now (retyped world sort kind) }
        ensures in_step { AreInStep ⟦<Seat<B> as Observer>⟧.watch self.new }
        ensures graph { self.new.graph.graph ≡ self.old.graph.graph }
    {
        let Some(row) = self.tables(sort).maps.get(map) else {
            unreachable!()
        };
        let key = row.key;
        let kind = kind_of(kind);
        reseat(&mut self.graph, sort, key, values);
        self.replace_map(sort, map, MapRow { kind, key });
    }
}
