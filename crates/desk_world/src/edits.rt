//! Alterations of the digraph that make no item.

ghost use Rattle.std.specs.Prelude.{◌≤◌, ◌<◌, ◌+◌, ◌*◌, ◌^◌, [], length, OnOk, IfErr};
ghost use Rattle.alter_graph.specs.State.{state_of};
ghost use Rattle.alter_graph.specs.State as states;
ghost use Rattle.alter_graph.specs.Outcome.{Happens, Refuses};
ghost use Rattle.plain_digraph.specs.Alterations.{refusable_steps};
ghost use Rattle.desk_world.specs.Edits.{alteration_by, CanEdit, Edits};
ghost use Rattle.desk_world.specs.Plain.{plain_of};
ghost use Rattle.desk_world.specs.InStep.{AreInStep, IsInStep, HasStamps};

use crate::alterations::Edit;
use crate::world::World;
use alter_graph::{AlterFault, Alterable};
use base_items::MAX_ARCS;
use desk_seats::Seat;
use observe_core::Observer;
use report_text::{Reply, StepFault};
use std::alloc::Global;

/// Alters a digraph. The error says why all is as before.
fn apply<O: Observer>(graph: &mut Alterable<O>, alloc: Global, edit: Edit) -> Result<(), AlterFault>
    requires in_step { states.IsInStep (state_of O.watch graph.old) }
    requires can { CanEdit edit graph.old.graph.graph }
    ensures happens { OnOk result (Happens (alteration_by edit)
        (state_of O.watch graph.old) (state_of O.watch graph.new)) }
    ensures refuses { IfErr result (Refuses (alteration_by edit)
        (state_of O.watch graph.old) (state_of O.watch graph.new)) }
{
    match edit {
        Edit::EraseNode(node) => {
            graph.erase_node(node);
            Ok(())
        }
        Edit::EraseArc(arc) => {
            graph.erase_arc(arc);
            Ok(())
        }
        Edit::Clear => {
            graph.clear();
            Ok(())
        }
        Edit::MoveFrom(arc, node) => graph.move_from(arc, node),
        Edit::MoveTo(arc, node) => graph.move_to(arc, node),
        Edit::Turn(arc) => graph.turn(arc),
        Edit::Contract(into, node, loops) => graph.contract(into, node, loops, alloc),
    }
}

impl<B: Observer> World<Seat<B>> {
    /// Alters the digraph, and lets the guards go that leave at it. `Vetoed` where a guard refuses;
    /// all is then as before.
    pub(crate) fn edit(&mut self, alloc: Global, edit: Edit) -> Result<Reply, StepFault>
        requires in_step { IsInStep ⟦<Seat<B> as Observer>⟧.watch self.old }
        requires stamps { HasStamps self.old }
        requires can { CanEdit edit self.old.graph.graph.graph }
        requires few { length (refusable_steps self.old.graph.graph.graph (alteration_by edit))
            ≤ 2 * MAX_ARCS }
        ensures edits { Edits (plain_of ⟦<Seat<B> as Observer>⟧.watch self.old) []
            (alteration_by edit) [] (plain_of ⟦<Seat<B> as Observer>⟧.watch self.new) result }
        ensures in_step { AreInStep ⟦<Seat<B> as Observer>⟧.watch self.new }
        ensures stamps { self.new.graph.graph.graph.stamps
            < self.old.graph.graph.graph.stamps + 2 ^ 24 }
    {
        match apply(&mut self.graph, alloc, edit) {
            Err(fault) => Err(self.refusal(alloc, fault)),
            Ok(()) => {
                self.let_guards_go();
                Ok(Reply::Quiet)
            }
        }
    }
}
