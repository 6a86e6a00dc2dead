//! Sums, least values and counts of maps.

ghost use Rattle.script_words.specs.declared.commands.Command.TheVariants as command;
ghost use Rattle.desk_world.specs.Plain.{plain_of};
ghost use Rattle.desk_world.specs.InStep.{IsInStep};
ghost use Rattle.desk_world.specs.Faults.{Answers};

use crate::world::World;
use base_items::ItemSort;
use desk_seats::Seat;
use observe_core::Observer;
use report_text::{Reply, StepFault};
use script_words::MapType;
use std::alloc::Global;
use token_text::{Text, copy_text};

impl<B: Observer> World<Seat<B>> {
    /// The sum of a map of ints.
    pub(crate) fn total(
        &self,
        alloc: Global,
        sort: ItemSort,
        map: &Text,
    ) -> Result<Reply, StepFault>
        requires { IsInStep ⟦<Seat<B> as Observer>⟧.watch self.now }
        ensures { Answers (plain_of ⟦<Seat<B> as Observer>⟧.watch self.now)
            (command.Total sort map.now) (plain_of ⟦<Seat<B> as Observer>⟧.watch self.now) result }
    {
        self.ask_map(alloc, sort, map)?;
        let seat = self.typed_seat(alloc, sort, MapType::Ints, map)?;
        Ok(Reply::Total(seat.total()))
    }

    /// The least value of a map of ints, with the item that has it; of several the one with the
    /// least id.
    pub(crate) fn least(
        &self,
        alloc: Global,
        sort: ItemSort,
        map: &Text,
    ) -> Result<Reply, StepFault>
        requires { IsInStep ⟦<Seat<B> as Observer>⟧.watch self.now }
        ensures { Answers (plain_of ⟦<Seat<B> as Observer>⟧.watch self.now)
            (command.Least sort map.now) (plain_of ⟦<Seat<B> as Observer>⟧.watch self.now) result }
    {
        self.ask_map(alloc, sort, map)?;
        let seat = self.typed_seat(alloc, sort, MapType::Ints, map)?;
        let Some((id, value)) = seat.least() else {
            return Ok(Reply::Least(None));
        };
        let label = copy_text(alloc, self.label_of(sort, id).as_bytes())?;
        Ok(Reply::Least(Some((value, label))))
    }

    /// How many items of a map of bools are true.
    pub(crate) fn count(
        &self,
        alloc: Global,
        sort: ItemSort,
        map: &Text,
    ) -> Result<Reply, StepFault>
        requires { IsInStep ⟦<Seat<B> as Observer>⟧.watch self.now }
        ensures { Answers (plain_of ⟦<Seat<B> as Observer>⟧.watch self.now)
            (command.Count sort map.now) (plain_of ⟦<Seat<B> as Observer>⟧.watch self.now) result }
    {
        self.ask_map(alloc, sort, map)?;
        let seat = self.typed_seat(alloc, sort, MapType::Bools, map)?;
        Ok(Reply::Count(seat.count()))
    }
}
