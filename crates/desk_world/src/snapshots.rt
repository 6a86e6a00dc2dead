//! Snapshots by name.

ghost use Rattle.std.specs.Prelude.{◌≡◌, ◌<◌, ◌+◌, ◌^◌, IfOk, Some, length, slice_get, map};
ghost use Rattle.script_words.specs.declared.commands.Command.TheVariants as command;
ghost use Rattle.alter_graph.specs.Chains.{chains_seen, seats_in};
ghost use Rattle.alter_graph.specs.Snaps.{held_at, added_of};
ghost use Rattle.plain_world.specs.Demands as demands;
ghost use Rattle.plain_world.specs.Replies.{snap_line};
ghost use Rattle.desk_world.specs.Plain.{plain_of};
ghost use Rattle.desk_world.specs.InStep.{IsInStep, HasStamps};
ghost use Rattle.desk_world.specs.Faults.{Answers, Meets};

use crate::refusals::{taken, unknown};
use crate::world::World;
use alter_graph::{Alterable, HoldsHalf};
use base_items::{ItemSort, List};
use desk_seats::Seat;
use notify_chain::SeatKey;
use observe_core::Observer;
use report_text::{Reply, SnapLine, StepFault};
use std::alloc::{AllocError, Global};
use token_text::{Text, copy_text};

/// How many items of the sort were added since the half of the key was made; 0 where the key leads
/// to no half.
fn added_since<O: HoldsHalf>(graph: &Alterable<O>, sort: ItemSort, key: SeatKey) -> u32
    ensures { result
        ≡ length (added_of (held_at key.0 (seats_in sort (chains_seen O.watch graph.now.chains)))) }
{
    match graph.seat(sort, key) {
        Some(seat) => match seat.half() {
            Some(half) => half.added_count(),
            None => 0,
        },
        None => 0,
    }
}

impl<B: Observer> World<Seat<B>> {
    /// Asks that no snapshot has the name. `Taken` where one has it.
    fn ask_new_snapshot(&self, alloc: Global, name: &Text) -> Result<(), StepFault>
        requires { IsInStep ⟦<Seat<B> as Observer>⟧.watch self.now }
        ensures { let world = plain_of ⟦<Seat<B> as Observer>⟧.watch self.now in
            Meets world (demands.New demands.Snapshots name.now) result }
    {
        if self.snapshots.has(name) {
            return Err(taken(alloc, name));
        }
        Ok(())
    }

    /// Makes a snapshot of all items under a new name, as the newest. Nothing is copied.
    pub(crate) fn snap(&mut self, alloc: Global, name: &Text) -> Result<Reply, StepFault>
        requires in_step { IsInStep ⟦<Seat<B> as Observer>⟧.watch self.old }
        requires stamps { HasStamps self.old }
        ensures step { Answers (plain_of ⟦<Seat<B> as Observer>⟧.watch self.old)
            (command.Snap name.now) (plain_of ⟦<Seat<B> as Observer>⟧.watch self.new) result }
        ensures in_step { IsInStep ⟦<Seat<B> as Observer>⟧.watch self.new }
        ensures stamps { self.new.graph.graph.graph.stamps
            < self.old.graph.graph.graph.stamps + 2 ^ 24 }
    {
        self.ask_new_snapshot(alloc, name)?;
        let name = copy_text(alloc, name.as_bytes())?;
        self.snapshots.reserve()?;
        match self.graph.snapshot(alloc) {
            Some(keys) => {
                self.snapshots.put(name, keys);
                Ok(Reply::Quiet)
            }
            None => Err(StepFault::Memory),
        }
    }

    /// Lets a snapshot go, valid or stale.
    pub(crate) fn forget(&mut self, alloc: Global, name: &Text) -> Result<Reply, StepFault>
        requires in_step { IsInStep ⟦<Seat<B> as Observer>⟧.watch self.old }
        requires stamps { HasStamps self.old }
        ensures step { Answers (plain_of ⟦<Seat<B> as Observer>⟧.watch self.old)
            (command.Forget name.now) (plain_of ⟦<Seat<B> as Observer>⟧.watch self.new) result }
        ensures in_step { IsInStep ⟦<Seat<B> as Observer>⟧.watch self.new }
        ensures stamps { self.new.graph.graph.graph.stamps
            < self.old.graph.graph.graph.stamps + 2 ^ 24 }
    {
        if !self.snapshots.has(name) {
            return Err(unknown(alloc, name));
        }
        match self.snapshots.remove(name) {
            None => unreachable!(),
            Some(keys) => self.graph.forget(keys),
        }
        Ok(Reply::Quiet)
    }

    /// The snapshots, oldest first: whether each is valid, and what was added since.
    pub(crate) fn snaps(&self, alloc: Global) -> Result<Reply, StepFault>
        requires { IsInStep ⟦<Seat<B> as Observer>⟧.watch self.now }
        ensures { Answers (plain_of ⟦<Seat<B> as Observer>⟧.watch self.now) command.Snaps
            (plain_of ⟦<Seat<B> as Observer>⟧.watch self.now) result }
    {
        Ok(Reply::Snaps(self.snap_lines(alloc)?))
    }

    /// A line for each snapshot, oldest first.
    fn snap_lines(&self, alloc: Global) -> Result<List<SnapLine>, AllocError>
        requires { IsInStep ⟦<Seat<B> as Observer>⟧.watch self.now }
        ensures { let world = plain_of ⟦<Seat<B> as Observer>⟧.watch self.now in
            IfOk result (λ lines. lines ≡ map (snap_line world) world.snapshots) }
    {
        let mut lines = Vec::new(alloc);
        let mut place = 0;
        while place < self.snapshots.len() {
            lines.push(self.snap_line(alloc, place)?)?;
            place += 1;
        }
        Ok(List::from_vec(lines))
    }

    /// The line of the snapshot at a place of the table.
    fn snap_line(&self, alloc: Global, place: usize) -> Result<SnapLine, AllocError>
        requires in_step { IsInStep ⟦<Seat<B> as Observer>⟧.watch self.now }
        requires there { place < length self.now.snapshots.rows }
        ensures { let world = plain_of ⟦<Seat<B> as Observer>⟧.watch self.now in
            IfOk result (λ line.
            slice_get (map (snap_line world) world.snapshots) place ≡ Some line) }
    {
        let keys = *self.snapshots.value(place);
        let name = copy_text(alloc, self.snapshots.name(place).as_bytes())?;
        if !self.graph.snapshot_valid(keys) {
            return Ok(SnapLine::Stale { name });
        }
        Ok(SnapLine::Valid {
            name,
            nodes: added_since(&self.graph, ItemSort::Node, keys.nodes),
            arcs: added_since(&self.graph, ItemSort::Arc, keys.arcs),
        })
    }
}
