//! What attributes are: plain text, or items to which they are tied.

ghost use Rattle.std.specs.Prelude.{◌≡◌, ◌∷◌, [], IfSome, IfOk, option_map};
ghost use Rattle.std.specs.Option.{option_copied};
ghost use Rattle.plain_digraph.specs.Items.{IsLive};
ghost use Rattle.plain_world.specs.Demands as demands;
ghost use Rattle.plain_world.specs.Effects.{attribute_text};
ghost use Rattle.plain_world.specs.Tables.{entry};
ghost use Rattle.plain_world.specs.World as plain;
ghost use Rattle.desk_world.specs.Attributes.{TellsItem, IsTiedTo};
ghost use Rattle.desk_world.specs.Plain.{plain_of, look_of, attribute_seen, ties_seen};
ghost use Rattle.desk_world.specs.InStep.{IsInStep, AreInStep};
ghost use Rattle.desk_world.specs.Faults.{Meets, MeetsAll};

use crate::refusals::{bad_value, taken, unknown};
use crate::tables::AttributeRow;
use crate::world::World;
use base_items::ItemSort;
use desk_seats::Seat;
use observe_core::Observer;
use report_text::StepFault;
use std::alloc::Global;
use token_text::{Text, copy_text};

impl<B: Observer> World<Seat<B>> {
    /// The item of a tie, by its number. None where the tie has ended.
    pub(crate) fn tied_item(&self, sort: ItemSort, number: u32) -> Option<u32>
        requires { AreInStep ⟦<Seat<B> as Observer>⟧.watch self.now }
        ensures item { let look = look_of ⟦<Seat<B> as Observer>⟧.watch self.now in
            attribute_seen (ties_seen look self.now) (AttributeRow.Tied sort number)
            ≡ option_map (plain.Tied sort) result }
        ensures live { IfSome result (IsLive self.now.graph.graph.graph sort) }
    {
        match self.graph.seat(sort, self.tables(sort).ties) {
            Some(seat) => seat.tie(number),
            None => unreachable!(),
        }
    }

    /// The text of an attribute by its row, or the present label of the item to which it is tied.
    /// None where the tie has ended.
    pub(crate) fn row_attribute<'a>(&'a self, row: &'a AttributeRow) -> Option<&'a Text>
        requires { IsInStep ⟦<Seat<B> as Observer>⟧.watch self.now }
        ensures { let world = plain_of ⟦<Seat<B> as Observer>⟧.watch self.now in
            let ties = ties_seen (look_of ⟦<Seat<B> as Observer>⟧.watch self.now) self.now in
            option_copied result
            ≡ option_map (attribute_text world) (attribute_seen ties row.now) }
    {
        match row {
            AttributeRow::Plain(text) => Some(text),
            AttributeRow::Tied(sort, number) => match self.tied_item(*sort, *number) {
                Some(id) => Some(self.label_of(*sort, id)),
                None => None,
            },
        }
    }

    /// The text of an attribute, or the present label of the item to which it is tied. None exactly
    /// where the name isn't there.
    pub(crate) fn attribute_text(&self, name: &Text) -> Option<&Text>
        requires { IsInStep ⟦<Seat<B> as Observer>⟧.watch self.now }
        ensures { let world = plain_of ⟦<Seat<B> as Observer>⟧.watch self.now in
            option_copied result
            ≡ option_map (attribute_text world) (entry world.attributes name.now) }
    {
        match self.attributes.get(name) {
            Some(row) => self.row_attribute(row),
            None => None,
        }
    }

    /// The item whose label the text of an attribute is. `Unknown` where there is no attribute of
    /// the name, `Taken` where it is tied, `BadValue` where no item has its text as label.
    pub(crate) fn item_told(
        &self,
        alloc: Global,
        name: &Text,
        sort: ItemSort,
    ) -> Result<u32, StepFault>
        requires { IsInStep ⟦<Seat<B> as Observer>⟧.watch self.now }
        ensures meets { let world = plain_of ⟦<Seat<B> as Observer>⟧.watch self.now in
            MeetsAll world (demands.There demands.Attributes name.now
            ∷ demands.New demands.TiedAttributes name.now
            ∷ demands.TellsLabel sort name.now ∷ []) result }
        ensures found { IfOk result
            (TellsItem ⟦<Seat<B> as Observer>⟧.watch self.now name.now sort) }
    {
        match self.attributes.get(name) {
            None => Err(unknown(alloc, name)),
            Some(AttributeRow::Tied(other, number)) => match self.tied_item(*other, *number) {
                None => Err(unknown(alloc, name)),
                Some(_) => Err(taken(alloc, name)),
            },
            Some(AttributeRow::Plain(text)) => match self.item_named(sort, text) {
                None => Err(bad_value(alloc, name, text)),
                Some(id) => Ok(id),
            },
        }
    }

    /// The present label of the item to which an attribute is tied, copied. `Unknown` where no tied
    /// attribute has the name.
    pub(crate) fn tied_label(&self, alloc: Global, name: &Text) -> Result<Text, StepFault>
        requires { IsInStep ⟦<Seat<B> as Observer>⟧.watch self.now }
        ensures meets { let world = plain_of ⟦<Seat<B> as Observer>⟧.watch self.now in
            Meets world (demands.There demands.TiedAttributes name.now) result }
        ensures label { let world = plain_of ⟦<Seat<B> as Observer>⟧.watch self.now in
            IfOk result (IsTiedTo world name.now) }
    {
        match self.attributes.get(name) {
            None => Err(unknown(alloc, name)),
            Some(AttributeRow::Plain(_)) => Err(unknown(alloc, name)),
            Some(AttributeRow::Tied(sort, number)) => match self.tied_item(*sort, *number) {
                None => Err(unknown(alloc, name)),
                Some(id) => Ok(copy_text(alloc, self.label_of(*sort, id).as_bytes())?),
            },
        }
    }
}
