//! Maps of the degrees of nodes are made.

ghost use Rattle.std.specs.Prelude.{◌≡◌, false, ◌+◌, ◌<◌, ◌^◌, OnOk, OnErr};
ghost use Rattle.alter_graph.specs.Attaching.{HasNoCounts};
ghost use Rattle.observe_core.specs.Untold.{TracksNothing};
ghost use Rattle.script_words.specs.declared.commands.Command.TheVariants as command;
ghost use Rattle.script_words.specs.Slots.{is_dash};
ghost use Rattle.plain_world.specs.Tables.{has_entry};
ghost use Rattle.plain_world.specs.World as plain;
ghost use Rattle.plain_world.specs.Effects.{with_map};
ghost use Rattle.desk_world.specs.declared.tables.MapKind.TheVariants as maps;
ghost use Rattle.desk_world.specs.Claims.{Plays, role_of};
ghost use Rattle.desk_world.specs.Faults.{Answers};
ghost use Rattle.desk_world.specs.InStep.{AreInStep, IsInStep, HasStamps};
ghost use Rattle.desk_world.specs.Plain.{plain_of};

use crate::opening::attach;
use crate::tables::{MapKind, MapRow};
use crate::world::World;
use base_items::ItemSort;
use desk_seats::Seat;
use index_maps::Degree;
use observe_core::Observer;
use report_text::{Reply, StepFault};
use script_words::Direction;
use std::alloc::{AllocError, Global};
use token_text::{Text, copy_text};

/// Degrees that were told of no arc.
fn no_degrees<B: Observer>(alloc: Global, way: Direction) -> Seat<B>
    ensures role { Plays (role_of (maps.Degrees way))
        (⟦<Seat<B> as Observer>⟧.watch result).seen }
    ensures empty { TracksNothing (⟦<Seat<B> as Observer>⟧.watch result).seen }
    ensures counts { HasNoCounts (⟦<Seat<B> as Observer>⟧.watch result).seen }
{
    match way {
        Direction::Out => Seat::Degrees(Degree::new(true, alloc)),
        Direction::In => Seat::Degrees(Degree::new(false, alloc)),
    }
}

impl<B: Observer> World<Seat<B>> {
    /// Makes a map of the degrees of nodes, of a new name. The error is want of memory; the plain
    /// world is then as before.
    pub(crate) fn add_degree(
        &mut self,
        alloc: Global,
        name: &Text,
        way: Direction,
    ) -> Result<(), AllocError>
        requires in_step { AreInStep ⟦<Seat<B> as Observer>⟧.watch self.old }
        requires new { let world = plain_of ⟦<Seat<B> as Observer>⟧.watch self.old in
            has_entry world.nodes.maps name.now ≡ false }
        ensures made { OnOk result (plain_of ⟦<Seat<B> as Observer>⟧.watch self.new
            ≡ with_map (plain_of ⟦<Seat<B> as Observer>⟧.watch self.old) ItemSort.Node name.now
            (plain.Degrees way)) }
        ensures same { OnErr result (plain_of ⟦<Seat<B> as Observer>⟧.watch self.new
            ≡ plain_of ⟦<Seat<B> as Observer>⟧.watch self.old) }
        ensures in_step { AreInStep ⟦<Seat<B> as Observer>⟧.watch self.new }
        ensures graph { self.new.graph.graph.graph ≡ self.old.graph.graph.graph }
    {
        let name = copy_text(alloc, name.as_bytes())?;
        self.reserve_map(ItemSort::Node)?;
        let key = attach(
            alloc,
            &mut self.graph,
            ItemSort::Arc,
            no_degrees(alloc, way),
        )?;
        let kind = MapKind::Degrees(way);
        self.put_map(ItemSort::Node, name, MapRow { kind, key });
        Ok(())
    }

    /// Makes a map of the degrees of nodes: how many arcs go from each, or to it.
    pub(crate) fn new_degree(
        &mut self,
        alloc: Global,
        name: &Text,
        way: Direction,
    ) -> Result<Reply, StepFault>
        requires name { is_dash name.now ≡ false }
        requires in_step { IsInStep ⟦<Seat<B> as Observer>⟧.watch self.old }
        requires stamps { HasStamps self.old }
        ensures step { Answers (plain_of ⟦<Seat<B> as Observer>⟧.watch self.old)
            (command.Degree name.now way)
            (plain_of ⟦<Seat<B> as Observer>⟧.watch self.new) result }
        ensures in_step { IsInStep ⟦<Seat<B> as Observer>⟧.watch self.new }
        ensures stamps { self.new.graph.graph.graph.stamps
            < self.old.graph.graph.graph.stamps + 2 ^ 24 }
    {
        self.ask_new_map(alloc, ItemSort::Node, name)?;
        self.add_degree(alloc, name, way)?;
        Ok(Reply::Quiet)
    }
}
