//! Labels of new items.

ghost use Rattle.std.specs.Prelude.{◌≡◌, ◌≤◌, false, None, OnOk, IfOk};
ghost use Rattle.base_items.specs.declared.items.ItemSort.{ItemSort};
ghost use Rattle.alter_graph.specs.Verdict.{is_sort};
ghost use Rattle.index_maps.specs.RefViews.{HasLabel, IsFreeLabel};
ghost use Rattle.plain_world.specs.Following.{labelled};
ghost use Rattle.desk_world.specs.Plain.{plain_of};
ghost use Rattle.desk_world.specs.InStep.{AreInStep};
ghost use Rattle.desk_world.specs.Entries.{labels_at, room_for_labels};

use crate::world::World;
use base_items::ItemSort;
use desk_seats::Seat;
use observe_core::Observer;
use std::alloc::{AllocError, Global};
use token_text::{Text, copy_text};

impl<B: Observer> World<Seat<B>> {
    /// Makes room for a label that no item has. The error is want of memory; all else is as before.
    pub(crate) fn reserve_label(&mut self, sort: ItemSort, label: &Text) -> Result<(), AllocError>
        requires in_step { AreInStep ⟦<Seat<B> as Observer>⟧.watch self.old }
        requires free { IsFreeLabel label.now
            (labels_at ⟦<Seat<B> as Observer>⟧.watch self.old sort) }
        ensures same { plain_of ⟦<Seat<B> as Observer>⟧.watch self.new
            ≡ plain_of ⟦<Seat<B> as Observer>⟧.watch self.old }
        ensures labels { labels_at ⟦<Seat<B> as Observer>⟧.watch self.new sort
            ≡ labels_at ⟦<Seat<B> as Observer>⟧.watch self.old sort }
        ensures graph { self.new.graph.graph ≡ self.old.graph.graph }
        ensures room { OnOk result
            (1 ≤ room_for_labels ⟦<Seat<B> as Observer>⟧.watch self.new sort) }
        ensures others { (other : ItemSort) → is_sort sort other ≡ false
            → room_for_labels ⟦<Seat<B> as Observer>⟧.watch self.new other
            ≡ room_for_labels ⟦<Seat<B> as Observer>⟧.watch self.old other }
        ensures in_step { AreInStep ⟦<Seat<B> as Observer>⟧.watch self.new }
        ensures pool { self.new.pool ≡ self.old.pool }
    {
        let key = self.tables(sort).labels;
        match self.graph.seat_mut(sort, key) {
            None => unreachable!(),
            Some(seat) => seat.reserve_label(label),
        }
    }

    /// A label that no item has, copied, with room for it. The error is want of memory; all else is
    /// as before.
    pub(crate) fn ready_label(
        &mut self,
        alloc: Global,
        sort: ItemSort,
        label: &Text,
    ) -> Result<Text, AllocError>
        requires in_step { AreInStep ⟦<Seat<B> as Observer>⟧.watch self.old }
        requires free { IsFreeLabel label.now
            (labels_at ⟦<Seat<B> as Observer>⟧.watch self.old sort) }
        ensures label { IfOk result (λ text. text ≡ label.now) }
        ensures same { plain_of ⟦<Seat<B> as Observer>⟧.watch self.new
            ≡ plain_of ⟦<Seat<B> as Observer>⟧.watch self.old }
        ensures labels { labels_at ⟦<Seat<B> as Observer>⟧.watch self.new sort
            ≡ labels_at ⟦<Seat<B> as Observer>⟧.watch self.old sort }
        ensures graph { self.new.graph.graph ≡ self.old.graph.graph }
        ensures room { OnOk result
            (1 ≤ room_for_labels ⟦<Seat<B> as Observer>⟧.watch self.new sort) }
        ensures others { (other : ItemSort) → is_sort sort other ≡ false
            → room_for_labels ⟦<Seat<B> as Observer>⟧.watch self.new other
            ≡ room_for_labels ⟦<Seat<B> as Observer>⟧.watch self.old other }
        ensures in_step { AreInStep ⟦<Seat<B> as Observer>⟧.watch self.new }
        ensures pool { self.new.pool ≡ self.old.pool }
    {
        let text = copy_text(alloc, label.as_bytes())?;
        self.reserve_label(sort, &text)?;
        Ok(text)
    }

    /// Gives a label that no item has to a live item without one, by the room of one label.
    pub(crate) fn put_label(&mut self, sort: ItemSort, id: u32, label: Text)
        requires in_step { AreInStep ⟦<Seat<B> as Observer>⟧.watch self.old }
        requires live { HasLabel id None (labels_at ⟦<Seat<B> as Observer>⟧.watch self.old sort) }
        requires free { IsFreeLabel label (labels_at ⟦<Seat<B> as Observer>⟧.watch self.old sort) }
        requires room { 1 ≤ room_for_labels ⟦<Seat<B> as Observer>⟧.watch self.old sort }
        ensures labelled { plain_of ⟦<Seat<B> as Observer>⟧.watch self.new
            ≡ labelled (plain_of ⟦<Seat<B> as Observer>⟧.watch self.old) sort id label }
        ensures in_step { AreInStep ⟦<Seat<B> as Observer>⟧.watch self.new }
        ensures graph { self.new.graph.graph ≡ self.old.graph.graph }
        ensures others { (other : ItemSort) → is_sort sort other ≡ false
            → room_for_labels ⟦<Seat<B> as Observer>⟧.watch self.new other
            ≡ room_for_labels ⟦<Seat<B> as Observer>⟧.watch self.old other }
        ensures pool { self.new.pool ≡ self.old.pool }
    {
        let key = self.tables(sort).labels;
        match self.graph.seat_mut(sort, key) {
            None => unreachable!(),
            Some(seat) => seat.put_label(id, label),
        }
    }
}
