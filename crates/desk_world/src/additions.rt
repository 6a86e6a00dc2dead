//! Nodes and arcs are added.

ghost use Rattle.std.specs.Prelude.{◌+◌, ◌<◌, ◌^◌};
ghost use Rattle.script_words.specs.declared.commands.Command.TheVariants as command;
ghost use Rattle.desk_world.specs.Plain.{plain_of};
ghost use Rattle.desk_world.specs.InStep.{IsInStep, HasStamps};
ghost use Rattle.desk_world.specs.Faults.{Answers};

use crate::world::World;
use base_items::{ItemSort, Node};
use desk_seats::Seat;
use observe_core::Observer;
use report_text::{Reply, StepFault};
use std::alloc::Global;
use token_text::{Text, copy_text};

impl<B: Observer> World<Seat<B>> {
    /// Adds a node with this label.
    pub(crate) fn add_node(&mut self, alloc: Global, label: &Text) -> Result<Reply, StepFault>
        requires in_step { IsInStep ⟦<Seat<B> as Observer>⟧.watch self.old }
        requires stamps { HasStamps self.old }
        ensures step { Answers (plain_of ⟦<Seat<B> as Observer>⟧.watch self.old)
            (command.AddNode label.now)
            (plain_of ⟦<Seat<B> as Observer>⟧.watch self.new) result }
        ensures in_step { IsInStep ⟦<Seat<B> as Observer>⟧.watch self.new }
        ensures stamps { self.new.graph.graph.graph.stamps
            < self.old.graph.graph.graph.stamps + 2 ^ 24 }
    {
        self.ask_new_label(alloc, ItemSort::Node, label)?;
        self.ask_room(1, 0)?;
        let label = copy_text(alloc, label.as_bytes())?;
        self.reserve_label(ItemSort::Node, &label)?;
        match self.graph.add_node() {
            Err(fault) => Err(self.refusal(alloc, fault)),
            Ok(node) => {
                self.put_label(ItemSort::Node, node.0, label);
                Ok(Reply::Quiet)
            }
        }
    }

    /// Adds an arc with this label between two nodes, which are named by their labels.
    pub(crate) fn add_arc(
        &mut self,
        alloc: Global,
        label: &Text,
        from: &Text,
        to: &Text,
    ) -> Result<Reply, StepFault>
        requires in_step { IsInStep ⟦<Seat<B> as Observer>⟧.watch self.old }
        requires stamps { HasStamps self.old }
        ensures step { Answers (plain_of ⟦<Seat<B> as Observer>⟧.watch self.old)
            (command.AddArc label.now from.now to.now)
            (plain_of ⟦<Seat<B> as Observer>⟧.watch self.new) result }
        ensures in_step { IsInStep ⟦<Seat<B> as Observer>⟧.watch self.new }
        ensures stamps { self.new.graph.graph.graph.stamps
            < self.old.graph.graph.graph.stamps + 2 ^ 24 }
    {
        let source = self.find_item(alloc, ItemSort::Node, from)?;
        let target = self.find_item(alloc, ItemSort::Node, to)?;
        self.ask_new_label(alloc, ItemSort::Arc, label)?;
        self.ask_room(0, 1)?;
        let label = copy_text(alloc, label.as_bytes())?;
        self.reserve_label(ItemSort::Arc, &label)?;
        match self.graph.add_arc(Node(source), Node(target)) {
            Err(fault) => Err(self.refusal(alloc, fault)),
            Ok(arc) => {
                self.put_label(ItemSort::Arc, arc.0, label);
                Ok(Reply::Quiet)
            }
        }
    }
}
