//! The commands on maps.

ghost use Rattle.std.specs.Prelude.{◌≡◌, false, ◌+◌, ◌<◌, ◌^◌};
ghost use Rattle.script_words.specs.declared.commands.Command.TheVariants as command;
ghost use Rattle.script_words.specs.Slots.{is_dash};
ghost use Rattle.desk_world.specs.Values.{new_map_command};
ghost use Rattle.desk_world.specs.Plain.{plain_of};
ghost use Rattle.desk_world.specs.InStep.{IsInStep, HasStamps};
ghost use Rattle.desk_world.specs.Faults.{Answers};

use crate::maps::is_label;
use crate::refusals::wrong_type;
use crate::values::read_value;
use crate::world::World;
use base_items::ItemSort;
use desk_seats::Seat;
use observe_core::Observer;
use report_text::{Reply, StepFault};
use script_words::MapType;
use std::alloc::Global;
use token_text::Text;

impl<B: Observer> World<Seat<B>> {
    /// Makes a map.
    pub(crate) fn new_map(
        &mut self,
        alloc: Global,
        sort: ItemSort,
        name: &Text,
        kind: MapType,
    ) -> Result<Reply, StepFault>
        requires name { is_dash name.now ≡ false }
        requires in_step { IsInStep ⟦<Seat<B> as Observer>⟧.watch self.old }
        requires stamps { HasStamps self.old }
        ensures step { Answers (plain_of ⟦<Seat<B> as Observer>⟧.watch self.old)
            (new_map_command sort name.now kind)
            (plain_of ⟦<Seat<B> as Observer>⟧.watch self.new) result }
        ensures in_step { IsInStep ⟦<Seat<B> as Observer>⟧.watch self.new }
        ensures stamps { self.new.graph.graph.graph.stamps
            < self.old.graph.graph.graph.stamps + 2 ^ 24 }
    {
        self.ask_new_map(alloc, sort, name)?;
        self.add_map(alloc, sort, name, kind)?;
        Ok(Reply::Quiet)
    }

    /// Writes a value.
    pub(crate) fn set(
        &mut self,
        alloc: Global,
        sort: ItemSort,
        map: &Text,
        item: &Text,
        text: &Text,
    ) -> Result<Reply, StepFault>
        requires in_step { IsInStep ⟦<Seat<B> as Observer>⟧.watch self.old }
        requires stamps { HasStamps self.old }
        ensures step { Answers (plain_of ⟦<Seat<B> as Observer>⟧.watch self.old)
            (command.Set sort map.now item.now text.now)
            (plain_of ⟦<Seat<B> as Observer>⟧.watch self.new) result }
        ensures in_step { IsInStep ⟦<Seat<B> as Observer>⟧.watch self.new }
        ensures stamps { self.new.graph.graph.graph.stamps
            < self.old.graph.graph.graph.stamps + 2 ^ 24 }
    {
        self.ask_map(alloc, sort, map)?;
        let id = self.find_item(alloc, sort, item)?;
        let kind = self.value_type(alloc, sort, map)?;
        let value = read_value(alloc, kind, item, text)?;
        self.write_value(sort, map, id, value);
        Ok(Reply::Quiet)
    }

    /// Tells a value.
    pub(crate) fn get(
        &self,
        alloc: Global,
        sort: ItemSort,
        map: &Text,
        item: &Text,
    ) -> Result<Reply, StepFault>
        requires { IsInStep ⟦<Seat<B> as Observer>⟧.watch self.now }
        ensures { Answers (plain_of ⟦<Seat<B> as Observer>⟧.watch self.now)
            (command.Get sort map.now item.now)
            (plain_of ⟦<Seat<B> as Observer>⟧.watch self.now) result }
    {
        self.ask_map(alloc, sort, map)?;
        let id = self.find_item(alloc, sort, item)?;
        Ok(Reply::Value(self.value_text(alloc, sort, map, id)?))
    }

    /// Drops a map, which no view and no index reads.
    pub(crate) fn drop_map(
        &mut self,
        alloc: Global,
        sort: ItemSort,
        name: &Text,
    ) -> Result<Reply, StepFault>
        requires in_step { IsInStep ⟦<Seat<B> as Observer>⟧.watch self.old }
        requires stamps { HasStamps self.old }
        ensures step { Answers (plain_of ⟦<Seat<B> as Observer>⟧.watch self.old)
            (command.DropMap sort name.now)
            (plain_of ⟦<Seat<B> as Observer>⟧.watch self.new) result }
        ensures in_step { IsInStep ⟦<Seat<B> as Observer>⟧.watch self.new }
        ensures stamps { self.new.graph.graph.graph.stamps
            < self.old.graph.graph.graph.stamps + 2 ^ 24 }
    {
        self.ask_map(alloc, sort, name)?;
        if is_label(name) {
            return Err(wrong_type(alloc, name));
        }
        self.ask_unread(alloc, sort, name)?;
        self.remove_map(sort, name);
        Ok(Reply::Quiet)
    }
}
