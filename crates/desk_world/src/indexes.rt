//! Indexes of maps of bools, and the items that they have.

ghost use Rattle.std.specs.Prelude.{◌≡◌, IfOk, map};
ghost use Rattle.script_words.specs.declared.commands.Command.TheVariants as command;
ghost use Rattle.plain_world.specs.Demands as demands;
ghost use Rattle.plain_world.specs.Replies.{item_line};
ghost use Rattle.plain_digraph.specs.Items.{IsLive};
ghost use Rattle.plain_digraph.specs.Lists.{AllOf};
ghost use Rattle.desk_seats.specs.Contents.{trues_in};
ghost use Rattle.desk_seats.specs.Forms.{HasForm, trues_form};
ghost use Rattle.desk_world.specs.Plain.{plain_of};
ghost use Rattle.desk_world.specs.InStep.{IsInStep};
ghost use Rattle.desk_world.specs.Faults.{Answers, Meets};
ghost use Rattle.desk_world.specs.Reads.{HoldsIndex, is_index, trues_from};

use crate::refusals::wrong_type;
use crate::tables::MapKind;
use crate::world::World;
use base_items::{ItemSort, List};
use desk_seats::Seat;
use observe_core::Observer;
use report_text::{NodeLine, Reply, StepFault};
use std::alloc::{AllocError, Global};
use token_text::{Text, copy_text};

// Whether a map of this kind is an index.
fn is_index(kind: &MapKind) -> bool
    ensures { result ≡ is_index kind.now }
{
    match kind {
        MapKind::Trues(_) => true,
        MapKind::Ints => false,
        MapKind::Bools => false,
        MapKind::Texts => false,
        MapKind::Degrees(_) => false,
    }
}

impl<B: Observer> World<Seat<B>> {
    /// The seat of an index. `WrongType` where the map of the name is none.
    fn index_seat(&self, alloc: Global, sort: ItemSort, name: &Text) -> Result<&Seat<B>, StepFault>
        requires { IsInStep ⟦<Seat<B> as Observer>⟧.watch self.now }
        ensures meets { let world = plain_of ⟦<Seat<B> as Observer>⟧.watch self.now in
            Meets world (demands.IsIndex sort name.now) result }
        ensures has { let world = plain_of ⟦<Seat<B> as Observer>⟧.watch self.now in
            IfOk result (λ seat. HoldsIndex world sort name.now
            (⟦<Seat<B> as Observer>⟧.watch seat.now).seen) }
    {
        let Some(row) = self.tables(sort).maps.get(name) else {
            return Err(wrong_type(alloc, name));
        };
        if !is_index(&row.kind) {
            return Err(wrong_type(alloc, name));
        }
        match self.graph.seat(sort, row.key) {
            Some(seat) => Ok(seat),
            None => unreachable!(),
        }
    }

    /// The items of an index, by rising id, each with its label.
    pub(crate) fn items(
        &self,
        alloc: Global,
        sort: ItemSort,
        index: &Text,
    ) -> Result<Reply, StepFault>
        requires { IsInStep ⟦<Seat<B> as Observer>⟧.watch self.now }
        ensures { Answers (plain_of ⟦<Seat<B> as Observer>⟧.watch self.now)
            (command.Items sort index.now) (plain_of ⟦<Seat<B> as Observer>⟧.watch self.now)
            result }
    {
        self.ask_map(alloc, sort, index)?;
        let seat = self.index_seat(alloc, sort, index)?;
        Ok(Reply::Items(self.item_lines(alloc, sort, seat)?))
    }

    // The true items of the seat of an index, by rising id, each with its label.
    fn item_lines(
        &self,
        alloc: Global,
        sort: ItemSort,
        seat: &Seat<B>,
    ) -> Result<List<NodeLine>, AllocError>
        requires in_step { IsInStep ⟦<Seat<B> as Observer>⟧.watch self.now }
        requires form { HasForm trues_form (⟦<Seat<B> as Observer>⟧.watch seat.now) }
        requires live { AllOf (λ e. IsLive self.now.graph.graph.graph sort e.id)
            (trues_in (⟦<Seat<B> as Observer>⟧.watch seat.now).seen) }
        ensures { let world = plain_of ⟦<Seat<B> as Observer>⟧.watch self.now in
            IfOk result (λ lines. lines ≡ map (item_line world sort)
            (trues_from 0 (trues_in (⟦<Seat<B> as Observer>⟧.watch seat.now).seen))) }
    {
        let labels = self.labels(sort);
        let mut lines = Vec::new(alloc);
        let mut next = seat.next_true(None);
        'items: while let Some(id) = next {
            let name = copy_text(alloc, self.label_in(labels, sort, id).as_bytes())?;
            lines.push(NodeLine { id, name })?;
            next = seat.next_true(Some(id));
        }
        Ok(List::from_vec(lines))
    }
}
