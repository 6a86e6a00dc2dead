//! Items get other labels.

ghost use Rattle.std.specs.Prelude.{◌≡◌, ◌+◌, ◌<◌, ◌≤◌, ◌^◌};
ghost use Rattle.script_words.specs.declared.commands.Command.TheVariants as command;
ghost use Rattle.index_maps.specs.RefViews.{IsFreeLabel};
ghost use Rattle.plain_digraph.specs.Items.{IsLive};
ghost use Rattle.plain_world.specs.Following.{labelled};
ghost use Rattle.desk_world.specs.Entries.{labels_at, room_for_labels};
ghost use Rattle.desk_world.specs.Plain.{plain_of};
ghost use Rattle.desk_world.specs.InStep.{IsInStep, AreInStep, HasStamps};
ghost use Rattle.desk_world.specs.Faults.{Answers};

use crate::world::World;
use base_items::ItemSort;
use desk_seats::Seat;
use observe_core::Observer;
use report_text::{Reply, StepFault};
use std::alloc::Global;
use token_text::Text;

impl<B: Observer> World<Seat<B>> {
    /// Gives an item another label.
    pub(crate) fn relabel(
        &mut self,
        alloc: Global,
        sort: ItemSort,
        old: &Text,
        new: &Text,
    ) -> Result<Reply, StepFault>
        requires in_step { IsInStep ⟦<Seat<B> as Observer>⟧.watch self.old }
        requires stamps { HasStamps self.old }
        ensures step { Answers (plain_of ⟦<Seat<B> as Observer>⟧.watch self.old)
            (command.Relabel sort old.now new.now)
            (plain_of ⟦<Seat<B> as Observer>⟧.watch self.new) result }
        ensures in_step { IsInStep ⟦<Seat<B> as Observer>⟧.watch self.new }
        ensures stamps { self.new.graph.graph.graph.stamps
            < self.old.graph.graph.graph.stamps + 2 ^ 24 }
    {
        let id = self.find_item(alloc, sort, old)?;
        self.ask_new_label(alloc, sort, new)?;
        let label = self.ready_label(alloc, sort, new)?;
        self.change_label(sort, id, label);
        Ok(Reply::Quiet)
    }

    // Gives a label that no item has to a live item in place of its own, by the room of one label.
    fn change_label(&mut self, sort: ItemSort, id: u32, label: Text)
        requires in_step { IsInStep ⟦<Seat<B> as Observer>⟧.watch self.old }
        requires live { IsLive self.old.graph.graph.graph sort id }
        requires free { IsFreeLabel label (labels_at ⟦<Seat<B> as Observer>⟧.watch self.old sort) }
        requires room { 1 ≤ room_for_labels ⟦<Seat<B> as Observer>⟧.watch self.old sort }
        ensures labelled { plain_of ⟦<Seat<B> as Observer>⟧.watch self.new
            ≡ labelled (plain_of ⟦<Seat<B> as Observer>⟧.watch self.old) sort id label }
        ensures in_step { AreInStep ⟦<Seat<B> as Observer>⟧.watch self.new }
        ensures graph { self.new.graph.graph ≡ self.old.graph.graph }
    {
        let key = self.tables(sort).labels;
        match self.graph.seat_mut(sort, key) {
            None => unreachable!(),
            Some(seat) => {
                let _ = seat.replace_label(id, label);
            }
        }
    }
}
