//! A snapshot is restored.

ghost use Rattle.std.specs.Prelude.{◌≡◌, ◌<◌, ◌+◌, ◌^◌, [], ◌∷◌, IfOk, Some, true};
ghost use Rattle.script_words.specs.declared.commands.Command.TheVariants as command;
ghost use Rattle.alter_graph.specs.Chains.{chains_seen};
ghost use Rattle.alter_graph.specs.Snaps as snaps;
ghost use Rattle.plain_world.specs.Tables.{entry};
ghost use Rattle.plain_world.specs.Demands as demands;
ghost use Rattle.desk_world.specs.Plain.{plain_of};
ghost use Rattle.desk_world.specs.InStep.{IsInStep, HasStamps};
ghost use Rattle.desk_world.specs.Faults.{Answers, MeetsAll};

use crate::refusals::{stale, unknown};
use crate::world::World;
use alter_graph::SnapKeys;
use desk_seats::Seat;
use observe_core::Observer;
use report_text::{Reply, StepFault};
use std::alloc::Global;
use token_text::Text;

impl<B: Observer> World<Seat<B>> {
    /// The keys of a valid snapshot. `Unknown` and `Stale`.
    fn find_valid(&self, alloc: Global, name: &Text) -> Result<SnapKeys, StepFault>
        requires { IsInStep ⟦<Seat<B> as Observer>⟧.watch self.now }
        ensures meets { MeetsAll (plain_of ⟦<Seat<B> as Observer>⟧.watch self.now)
            (demands.There demands.Snapshots name.now ∷ demands.IsValid name.now ∷ []) result }
        ensures found { IfOk result (λ keys. entry self.now.snapshots.rows name.now ≡ Some keys) }
        ensures valid { IfOk result (λ keys. snaps.is_valid keys
            (chains_seen ⟦<Seat<B> as Observer>⟧.watch self.now.graph.chains) ≡ true) }
    {
        match self.snapshots.get(name) {
            None => Err(unknown(alloc, name)),
            Some(keys) => {
                if !self.graph.snapshot_valid(*keys) {
                    return Err(stale(alloc, name));
                }
                Ok(*keys)
            }
        }
    }

    /// Gives the nodes, the arcs and the orders of a valid snapshot back: places the arcs that
    /// moved since back, erases what was added since, and lets the guards go that leave at it. The
    /// snapshot is then gone. Values of maps and labels aren't taken back, and other snapshots
    /// follow.
    ///
    /// `Unknown`, `Stale`, or `Vetoed` where a guard refuses; all is then as before, and the
    /// snapshot stays.
    pub(crate) fn restore(&mut self, alloc: Global, name: &Text) -> Result<Reply, StepFault>
        requires in_step { IsInStep ⟦<Seat<B> as Observer>⟧.watch self.old }
        requires stamps { HasStamps self.old }
        ensures step { Answers (plain_of ⟦<Seat<B> as Observer>⟧.watch self.old)
            (command.Restore name.now) (plain_of ⟦<Seat<B> as Observer>⟧.watch self.new) result }
        ensures in_step { IsInStep ⟦<Seat<B> as Observer>⟧.watch self.new }
        ensures stamps { self.new.graph.graph.graph.stamps
            < self.old.graph.graph.graph.stamps + 2 ^ 24 }
    {
        let keys = self.find_valid(alloc, name)?;
        match self.graph.restore(keys, alloc) {
            Err(fault) => Err(self.refusal(alloc, fault)),
            Ok(()) => {
                self.snapshots.remove(name);
                self.let_guards_go();
                Ok(Reply::Quiet)
            }
        }
    }
}
