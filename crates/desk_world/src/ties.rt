//! The commands on attributes.

ghost use Rattle.std.specs.Prelude.{◌≡◌, ◌+◌, ◌<◌, ◌^◌, ℕ, List, Some, OnOk, OnErr};
ghost use Rattle.script_words.specs.declared.commands.Command.TheVariants as command;
ghost use Rattle.plain_world.specs.Effects.{tied, attribute_text};
ghost use Rattle.plain_world.specs.Tables.{entry};
ghost use Rattle.plain_world.specs.World.{Plain};
ghost use Rattle.desk_world.specs.Attributes.{with_attribute, TellsItem, IsTiedTo};
ghost use Rattle.desk_world.specs.Plain.{plain_of};
ghost use Rattle.desk_world.specs.InStep.{IsInStep, AreInStep, HasStamps};
ghost use Rattle.desk_world.specs.Faults.{Answers};

use crate::refusals::unknown;
use crate::tables::AttributeRow;
use crate::world::World;
use base_items::ItemSort;
use desk_seats::Seat;
use observe_core::Observer;
use report_text::{Reply, StepFault};
use std::alloc::{AllocError, Global};
use token_text::{Text, copy_text};

impl<B: Observer> World<Seat<B>> {
    /// Ties an attribute to the item whose label its text is.
    pub(crate) fn tie(
        &mut self,
        alloc: Global,
        attribute: &Text,
        sort: ItemSort,
    ) -> Result<Reply, StepFault>
        requires in_step { IsInStep ⟦<Seat<B> as Observer>⟧.watch self.old }
        requires stamps { HasStamps self.old }
        ensures step { Answers (plain_of ⟦<Seat<B> as Observer>⟧.watch self.old)
            (command.Tie attribute.now sort)
            (plain_of ⟦<Seat<B> as Observer>⟧.watch self.new) result }
        ensures in_step { IsInStep ⟦<Seat<B> as Observer>⟧.watch self.new }
        ensures stamps { self.new.graph.graph.graph.stamps
            < self.old.graph.graph.graph.stamps + 2 ^ 24 }
    {
        let id = self.item_told(alloc, attribute, sort)?;
        self.start_tie(attribute, sort, id)?;
        Ok(Reply::Quiet)
    }

    /// Lets a tied attribute be plain, with the present label of its item as text.
    pub(crate) fn untie(&mut self, alloc: Global, attribute: &Text) -> Result<Reply, StepFault>
        requires in_step { IsInStep ⟦<Seat<B> as Observer>⟧.watch self.old }
        requires stamps { HasStamps self.old }
        ensures step { Answers (plain_of ⟦<Seat<B> as Observer>⟧.watch self.old)
            (command.Untie attribute.now)
            (plain_of ⟦<Seat<B> as Observer>⟧.watch self.new) result }
        ensures in_step { IsInStep ⟦<Seat<B> as Observer>⟧.watch self.new }
        ensures stamps { self.new.graph.graph.graph.stamps
            < self.old.graph.graph.graph.stamps + 2 ^ 24 }
    {
        let text = self.tied_label(alloc, attribute)?;
        self.end_tie(attribute, text);
        Ok(Reply::Quiet)
    }

    /// Tells the text of an attribute, or the label of its item.
    pub(crate) fn attr(&self, alloc: Global, attribute: &Text) -> Result<Reply, StepFault>
        requires { IsInStep ⟦<Seat<B> as Observer>⟧.watch self.now }
        ensures { Answers (plain_of ⟦<Seat<B> as Observer>⟧.watch self.now)
            (command.Attr attribute.now)
            (plain_of ⟦<Seat<B> as Observer>⟧.watch self.now) result }
    {
        match self.attribute_text(attribute) {
            None => Err(unknown(alloc, attribute)),
            Some(text) => Ok(Reply::Value(copy_text(alloc, text.as_bytes())?)),
        }
    }

    // Ties a plain attribute to the item whose label its text is. The error is want of memory, or
    // of a number for the tie: all is then as before.
    fn start_tie(&mut self, name: &Text, sort: ItemSort, id: u32) -> Result<(), AllocError>
        requires in_step { IsInStep ⟦<Seat<B> as Observer>⟧.watch self.old }
        requires told { TellsItem ⟦<Seat<B> as Observer>⟧.watch self.old name.now sort id }
        ensures tied { let old = plain_of ⟦<Seat<B> as Observer>⟧.watch self.old in
            OnOk result (plain_of ⟦<Seat<B> as Observer>⟧.watch self.new
            ≡ with_attribute old name.now (tied old sort)) }
        ensures same { OnErr result (plain_of ⟦<Seat<B> as Observer>⟧.watch self.new
            ≡ plain_of ⟦<Seat<B> as Observer>⟧.watch self.old) }
        ensures in_step { AreInStep ⟦<Seat<B> as Observer>⟧.watch self.new }
        ensures graph { self.new.graph.graph ≡ self.old.graph.graph }
    {
        let Some(place) = self.attributes.place(name) else {
            unreachable!()
        };
        let Ok(number) = u32::try_from(place) else {
            return Err(AllocError);
        };
        let key = self.tables(sort).ties;
        let Some(seat) = self.graph.seat_mut(sort, key) else {
            unreachable!()
        };
        seat.put_tie(number, id)?;
        let _ = self
            .attributes
            .replace(name, AttributeRow::Tied(sort, number));
        Ok(())
    }

    // Ends the tie of an attribute, which is plain then, with this text: the label of its item.
    fn end_tie(&mut self, name: &Text, text: Text)
        requires in_step { AreInStep ⟦<Seat<B> as Observer>⟧.watch self.old }
        requires tied { IsTiedTo (plain_of ⟦<Seat<B> as Observer>⟧.watch self.old) name.now text }
        ensures plain { let old = plain_of ⟦<Seat<B> as Observer>⟧.watch self.old in
            plain_of ⟦<Seat<B> as Observer>⟧.watch self.new
            ≡ with_attribute old name.now (λ value. Plain (attribute_text old value)) }
        ensures in_step { AreInStep ⟦<Seat<B> as Observer>⟧.watch self.new }
        ensures graph { self.new.graph.graph ≡ self.old.graph.graph }
    {
        let (sort, number) = self.tie_named(name);
        let _ = self.attributes.replace(name, AttributeRow::Plain(text));
        let key = self.tables(sort).ties;
        let Some(seat) = self.graph.seat_mut(sort, key) else {
            unreachable!()
        };
        seat.drop_tie(number);
    }

    // The tie of an attribute that is tied: its sort and its number.
    fn tie_named(&self, name: &Text) -> (ItemSort, u32)
        requires { (text : List ℕ) × IsTiedTo (plain_of ⟦<Seat<B> as Observer>⟧.watch self.now)
            name.now text }
        ensures { entry self.now.attributes.rows name.now
            ≡ Some (AttributeRow.Tied result.0 result.1) }
    {
        match self.attributes.get(name) {
            Some(AttributeRow::Tied(sort, number)) => (*sort, *number),
            Some(AttributeRow::Plain(_)) => unreachable!(),
            None => unreachable!(),
        }
    }
}
