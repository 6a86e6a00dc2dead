//! Indexes of maps of bools are made.

ghost use Rattle.std.specs.Prelude.{◌≡◌, false, Some, ◌+◌, ◌<◌, ◌^◌, IfOk, OnOk, OnErr};
ghost use Rattle.alter_graph.specs.Chains.{chains_seen};
ghost use Rattle.alter_graph.specs.State.{state_of, IsInStep as StandsInStep, IsSame};
ghost use Rattle.script_words.specs.declared.commands.Command.TheVariants as command;
ghost use Rattle.script_words.specs.Slots.{is_dash};
ghost use Rattle.plain_world.specs.Tables.{entry, has_entry};
ghost use Rattle.plain_world.specs.World as plain;
ghost use Rattle.plain_world.specs.World.{attached};
ghost use Rattle.plain_world.specs.Effects.{with_map};
ghost use Rattle.desk_world.specs.declared.tables.MapRow.{MapRow};
ghost use Rattle.desk_world.specs.declared.tables.MapKind.TheVariants as maps;
ghost use Rattle.desk_world.specs.Claims as claims;
ghost use Rattle.desk_world.specs.Claims.{Sits};
ghost use Rattle.desk_world.specs.Faults.{Answers};
ghost use Rattle.desk_world.specs.Indexes.{Indexes};
ghost use Rattle.desk_world.specs.InStep.{AreInStep, IsInStep, HasStamps};
ghost use Rattle.desk_world.specs.Looks.{look_in};
ghost use Rattle.desk_world.specs.Plain.{plain_of, tables_of};
ghost use Rattle.desk_world.specs.Values.{HasType};

use crate::opening::attach;
use crate::seat_writes::{bool_at, write_true};
use crate::tables::{MapKind, MapRow};
use crate::world::World;
use alter_graph::Alterable;
use base_items::ItemSort;
use desk_seats::Seat;
use index_maps::TrueItems;
use notify_chain::SeatKey;
use observe_core::Observer;
use report_text::{Reply, StepFault};
use script_words::MapType;
use std::alloc::{AllocError, Global};
use token_text::{Text, copy_text};

// Attaches an index that has what the map of bools in another seat has. The error is want of
// memory; all is then as before.
fn attach_index<B: Observer>(
    alloc: Global,
    graph: &mut Alterable<Seat<B>>,
    sort: ItemSort,
    source: SeatKey,
) -> Result<SeatKey, AllocError>
    requires in_step { StandsInStep (state_of ⟦<Seat<B> as Observer>⟧.watch graph.old) }
    requires bools { Sits claims.Bools
        (look_in (chains_seen ⟦<Seat<B> as Observer>⟧.watch graph.old.chains) sort source.0) }
    ensures indexes { IfOk result (λ key. Indexes sort key.0 source.0
        (state_of ⟦<Seat<B> as Observer>⟧.watch graph.old)
        (state_of ⟦<Seat<B> as Observer>⟧.watch graph.new)) }
    ensures same { OnErr result (IsSame (state_of ⟦<Seat<B> as Observer>⟧.watch graph.old)
        (state_of ⟦<Seat<B> as Observer>⟧.watch graph.new)) }
    ensures in_step { StandsInStep (state_of ⟦<Seat<B> as Observer>⟧.watch graph.new) }
{
    let key = attach(alloc, graph, sort, Seat::Trues(TrueItems::new(alloc)))?;
    for id in 0..graph.graph().used(sort) {
        if graph.graph().fact(sort, id).is_some() {
            let value = bool_at(&*graph, sort, source, id);
            write_true(graph, sort, key, id, value);
        }
    }
    Ok(key)
}

impl<B: Observer> World<Seat<B>> {
    // The key of the seat of a map of bools.
    fn bools_key(&self, sort: ItemSort, map: &Text) -> SeatKey
        requires in_step { AreInStep ⟦<Seat<B> as Observer>⟧.watch self.now }
        requires bools { HasType (plain_of ⟦<Seat<B> as Observer>⟧.watch self.now) sort map.now
            MapType.Bools }
        ensures { (row : MapRow) × (entry (tables_of self.now sort).maps.rows map.now ≡ Some row)
            × (row.kind ≡ maps.Bools) × (row.key ≡ result) }
    {
        match self.tables(sort).maps.get(map) {
            None => unreachable!(),
            Some(row) => row.key,
        }
    }

    /// Makes an index of a map of bools, of a new name. The error is want of memory; the plain
    /// world is then as before.
    pub(crate) fn add_index(
        &mut self,
        alloc: Global,
        sort: ItemSort,
        index: &Text,
        map: &Text,
    ) -> Result<(), AllocError>
        requires in_step { AreInStep ⟦<Seat<B> as Observer>⟧.watch self.old }
        requires new { let world = plain_of ⟦<Seat<B> as Observer>⟧.watch self.old in
            has_entry (attached world sort).maps index.now ≡ false }
        requires bools { HasType (plain_of ⟦<Seat<B> as Observer>⟧.watch self.old) sort map.now
            MapType.Bools }
        ensures made { OnOk result (plain_of ⟦<Seat<B> as Observer>⟧.watch self.new
            ≡ with_map (plain_of ⟦<Seat<B> as Observer>⟧.watch self.old) sort index.now
            (plain.Trues map.now)) }
        ensures same { OnErr result (plain_of ⟦<Seat<B> as Observer>⟧.watch self.new
            ≡ plain_of ⟦<Seat<B> as Observer>⟧.watch self.old) }
        ensures in_step { AreInStep ⟦<Seat<B> as Observer>⟧.watch self.new }
        ensures graph { self.new.graph.graph.graph ≡ self.old.graph.graph.graph }
    {
        let source = self.bools_key(sort, map);
        let name = copy_text(alloc, index.as_bytes())?;
        let kind = copy_text(alloc, map.as_bytes())?;
        self.reserve_map(sort)?;
        let key = attach_index(alloc, &mut self.graph, sort, source)?;
        let kind = MapKind::Trues(kind);
        self.put_map(sort, name, MapRow { kind, key });
        Ok(())
    }

    /// Makes an index of a map of bools: which items are true.
    pub(crate) fn new_index(
        &mut self,
        alloc: Global,
        sort: ItemSort,
        index: &Text,
        map: &Text,
    ) -> Result<Reply, StepFault>
        requires name { is_dash index.now ≡ false }
        requires in_step { IsInStep ⟦<Seat<B> as Observer>⟧.watch self.old }
        requires stamps { HasStamps self.old }
        ensures step { Answers (plain_of ⟦<Seat<B> as Observer>⟧.watch self.old)
            (command.Trues sort index.now map.now)
            (plain_of ⟦<Seat<B> as Observer>⟧.watch self.new) result }
        ensures in_step { IsInStep ⟦<Seat<B> as Observer>⟧.watch self.new }
        ensures stamps { self.new.graph.graph.graph.stamps
            < self.old.graph.graph.graph.stamps + 2 ^ 24 }
    {
        self.ask_map(alloc, sort, map)?;
        self.ask_new_map(alloc, sort, index)?;
        self.ask_type(alloc, sort, MapType::Bools, map)?;
        self.add_index(alloc, sort, index, map)?;
        Ok(Reply::Quiet)
    }
}
