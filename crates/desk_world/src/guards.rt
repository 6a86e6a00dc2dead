//! Guards by name.

ghost use Rattle.std.specs.Prelude.{◌≡◌, ◌<◌, ◌+◌, ◌^◌, IfOk, Some, length, slice_get, map};
ghost use Rattle.script_words.specs.declared.commands.Command.TheVariants as command;
ghost use Rattle.script_words.specs.Valid.{IsGuard};
ghost use Rattle.plain_world.specs.Demands as demands;
ghost use Rattle.plain_world.specs.Replies.{guard_line};
ghost use Rattle.desk_world.specs.Lines.{numbers_by};
ghost use Rattle.desk_world.specs.Plain.{plain_of};
ghost use Rattle.desk_world.specs.InStep.{IsInStep, HasStamps};
ghost use Rattle.desk_world.specs.Faults.{Answers, Meets};

use crate::refusals::{taken, unknown};
use crate::tables::GuardRow;
use crate::world::World;
use base_items::{ItemSort, List};
use desk_seats::Seat;
use observe_core::{Kind, Observer, Readout, Veto};
use report_text::{Fault, GuardLine, GuardNumbers, Reply, StepFault};
use script_words::GuardWord;
use std::alloc::{AllocError, Global};
use token_text::{Text, copy_text};

/// The numbers that the line of a guard shows.
fn numbers_of(kind: Kind, readout: &Readout) -> GuardNumbers
    ensures { result ≡ numbers_by kind readout.now }
{
    match kind {
        Kind::Quota => GuardNumbers::Quota {
            k: readout.k,
            items: readout.items,
        },
        Kind::Loopless => GuardNumbers::Loopless {
            items: readout.items,
        },
        Kind::Simple => GuardNumbers::Simple {
            items: readout.items,
        },
        Kind::OutCap => GuardNumbers::OutCap {
            k: readout.k,
            items: readout.items,
        },
        Kind::Fuse => GuardNumbers::Fuse { left: readout.left },
        Kind::Map | Kind::Tally => GuardNumbers::Tally {
            added: readout.added,
            erased: readout.erased,
            moved: readout.moved,
        },
    }
}

impl<B: Observer> World<Seat<B>> {
    /// Asks that no guard has the name. `Taken` where one has it.
    fn ask_new_guard(&self, alloc: Global, name: &Text) -> Result<(), StepFault>
        requires { IsInStep ⟦<Seat<B> as Observer>⟧.watch self.now }
        ensures { let world = plain_of ⟦<Seat<B> as Observer>⟧.watch self.now in
            Meets world (demands.New demands.Guards name.now) result }
    {
        if self.guards.has(name) {
            return Err(taken(alloc, name));
        }
        Ok(())
    }

    /// Attaches the first box of the kind in the pool under a new name, as the newest guard. The
    /// limit stands where the kind has a number.
    pub(crate) fn guard(
        &mut self,
        alloc: Global,
        name: &Text,
        sort: ItemSort,
        kind: GuardWord,
        limit: Option<u32>,
    ) -> Result<Reply, StepFault>
        requires valid { IsGuard sort kind limit }
        requires in_step { IsInStep ⟦<Seat<B> as Observer>⟧.watch self.old }
        requires stamps { HasStamps self.old }
        ensures step { Answers (plain_of ⟦<Seat<B> as Observer>⟧.watch self.old)
            (command.Guard name.now sort kind limit)
            (plain_of ⟦<Seat<B> as Observer>⟧.watch self.new) result }
        ensures in_step { IsInStep ⟦<Seat<B> as Observer>⟧.watch self.new }
        ensures stamps { self.new.graph.graph.graph.stamps
            < self.old.graph.graph.graph.stamps + 2 ^ 24 }
    {
        self.ask_new_guard(alloc, name)?;
        let place = self.find_box(alloc, kind)?;
        let name = copy_text(alloc, name.as_bytes())?;
        self.guards.reserve()?;
        match self.seat_box(alloc, place, sort, limit.unwrap_or(0)) {
            Ok(key) => {
                self.guards.put(name, GuardRow { sort, key });
                Ok(Reply::Quiet)
            }
            Err(Veto::Refused) => Err(StepFault::Refused(Fault::Vetoed(name))),
            Err(Veto::Memory) => Err(StepFault::Memory),
        }
    }

    /// Takes a guard out. Its box, which is told that all items go, is the last of the pool then.
    pub(crate) fn unguard(&mut self, alloc: Global, name: &Text) -> Result<Reply, StepFault>
        requires in_step { IsInStep ⟦<Seat<B> as Observer>⟧.watch self.old }
        requires stamps { HasStamps self.old }
        ensures step { Answers (plain_of ⟦<Seat<B> as Observer>⟧.watch self.old)
            (command.Unguard name.now) (plain_of ⟦<Seat<B> as Observer>⟧.watch self.new) result }
        ensures in_step { IsInStep ⟦<Seat<B> as Observer>⟧.watch self.new }
        ensures stamps { self.new.graph.graph.graph.stamps
            < self.old.graph.graph.graph.stamps + 2 ^ 24 }
    {
        if !self.guards.has(name) {
            return Err(unknown(alloc, name));
        }
        self.pool.reserve(1)?;
        match self.guards.remove(name) {
            None => unreachable!(),
            Some(row) => self.unseat_box(row.sort, row.key),
        }
        Ok(Reply::Quiet)
    }

    /// The guards, oldest first, each with its numbers.
    pub(crate) fn list_guards(&self, alloc: Global) -> Result<Reply, StepFault>
        requires { IsInStep ⟦<Seat<B> as Observer>⟧.watch self.now }
        ensures { Answers (plain_of ⟦<Seat<B> as Observer>⟧.watch self.now) command.Guards
            (plain_of ⟦<Seat<B> as Observer>⟧.watch self.now) result }
    {
        Ok(Reply::Guards(self.guard_lines(alloc)?))
    }

    /// A line for each guard, oldest first.
    fn guard_lines(&self, alloc: Global) -> Result<List<GuardLine>, AllocError>
        requires { IsInStep ⟦<Seat<B> as Observer>⟧.watch self.now }
        ensures { let world = plain_of ⟦<Seat<B> as Observer>⟧.watch self.now in
            IfOk result (λ lines. lines ≡ map (guard_line world) world.guards) }
    {
        let mut lines = Vec::new(alloc);
        let mut place = 0;
        while place < self.guards.len() {
            lines.push(self.guard_line(alloc, place)?)?;
            place += 1;
        }
        Ok(List::from_vec(lines))
    }

    /// The line of the guard at a place of the table.
    fn guard_line(&self, alloc: Global, place: usize) -> Result<GuardLine, AllocError>
        requires in_step { IsInStep ⟦<Seat<B> as Observer>⟧.watch self.now }
        requires there { place < length self.now.guards.rows }
        ensures { let world = plain_of ⟦<Seat<B> as Observer>⟧.watch self.now in
            IfOk result (λ line.
            slice_get (map (guard_line world) world.guards) place ≡ Some line) }
    {
        let row = *self.guards.value(place);
        let Some(seat) = self.graph.seat(row.sort, row.key) else {
            unreachable!()
        };
        let name = copy_text(alloc, self.guards.name(place).as_bytes())?;
        Ok(GuardLine {
            name,
            sort: row.sort,
            numbers: numbers_of(seat.kind(), &seat.readout()),
        })
    }
}
