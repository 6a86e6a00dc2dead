//! The commands that erase items, move arcs and contract nodes.

ghost use Rattle.std.specs.Prelude.{◌≡◌, ◌+◌, ◌<◌, ◌^◌};
ghost use Rattle.script_words.specs.declared.commands.Command.TheVariants as command;
ghost use Rattle.desk_world.specs.Plain.{plain_of};
ghost use Rattle.desk_world.specs.InStep.{IsInStep, HasStamps};
ghost use Rattle.desk_world.specs.Faults.{Answers};

use crate::alterations::Edit;
use crate::refusals::same_node;
use crate::world::World;
use base_items::{Arc, ItemSort, Node};
use desk_seats::Seat;
use observe_core::Observer;
use report_text::{Reply, StepFault};
use std::alloc::Global;
use token_text::Text;

impl<B: Observer> World<Seat<B>> {
    /// Erases a node with its arcs.
    pub(crate) fn del_node(&mut self, alloc: Global, node: &Text) -> Result<Reply, StepFault>
        requires in_step { IsInStep ⟦<Seat<B> as Observer>⟧.watch self.old }
        requires stamps { HasStamps self.old }
        ensures step { Answers (plain_of ⟦<Seat<B> as Observer>⟧.watch self.old)
            (command.DelNode node.now)
            (plain_of ⟦<Seat<B> as Observer>⟧.watch self.new) result }
        ensures in_step { IsInStep ⟦<Seat<B> as Observer>⟧.watch self.new }
        ensures stamps { self.new.graph.graph.graph.stamps
            < self.old.graph.graph.graph.stamps + 2 ^ 24 }
    {
        let id = self.find_item(alloc, ItemSort::Node, node)?;
        self.edit(alloc, Edit::EraseNode(Node(id)))
    }

    /// Erases an arc.
    pub(crate) fn del_arc(&mut self, alloc: Global, arc: &Text) -> Result<Reply, StepFault>
        requires in_step { IsInStep ⟦<Seat<B> as Observer>⟧.watch self.old }
        requires stamps { HasStamps self.old }
        ensures step { Answers (plain_of ⟦<Seat<B> as Observer>⟧.watch self.old)
            (command.DelArc arc.now)
            (plain_of ⟦<Seat<B> as Observer>⟧.watch self.new) result }
        ensures in_step { IsInStep ⟦<Seat<B> as Observer>⟧.watch self.new }
        ensures stamps { self.new.graph.graph.graph.stamps
            < self.old.graph.graph.graph.stamps + 2 ^ 24 }
    {
        let id = self.find_item(alloc, ItemSort::Arc, arc)?;
        self.edit(alloc, Edit::EraseArc(Arc(id)))
    }

    /// Lets an arc go from another node.
    pub(crate) fn source(
        &mut self,
        alloc: Global,
        arc: &Text,
        node: &Text,
    ) -> Result<Reply, StepFault>
        requires in_step { IsInStep ⟦<Seat<B> as Observer>⟧.watch self.old }
        requires stamps { HasStamps self.old }
        ensures step { Answers (plain_of ⟦<Seat<B> as Observer>⟧.watch self.old)
            (command.Source arc.now node.now)
            (plain_of ⟦<Seat<B> as Observer>⟧.watch self.new) result }
        ensures in_step { IsInStep ⟦<Seat<B> as Observer>⟧.watch self.new }
        ensures stamps { self.new.graph.graph.graph.stamps
            < self.old.graph.graph.graph.stamps + 2 ^ 24 }
    {
        let found = self.find_with_node(alloc, ItemSort::Arc, arc, node)?;
        self.edit(alloc, Edit::MoveFrom(Arc(found.0), Node(found.1)))
    }

    /// Lets an arc go to another node.
    pub(crate) fn target(
        &mut self,
        alloc: Global,
        arc: &Text,
        node: &Text,
    ) -> Result<Reply, StepFault>
        requires in_step { IsInStep ⟦<Seat<B> as Observer>⟧.watch self.old }
        requires stamps { HasStamps self.old }
        ensures step { Answers (plain_of ⟦<Seat<B> as Observer>⟧.watch self.old)
            (command.Target arc.now node.now)
            (plain_of ⟦<Seat<B> as Observer>⟧.watch self.new) result }
        ensures in_step { IsInStep ⟦<Seat<B> as Observer>⟧.watch self.new }
        ensures stamps { self.new.graph.graph.graph.stamps
            < self.old.graph.graph.graph.stamps + 2 ^ 24 }
    {
        let found = self.find_with_node(alloc, ItemSort::Arc, arc, node)?;
        self.edit(alloc, Edit::MoveTo(Arc(found.0), Node(found.1)))
    }

    /// Exchanges the ends of an arc.
    pub(crate) fn turn(&mut self, alloc: Global, arc: &Text) -> Result<Reply, StepFault>
        requires in_step { IsInStep ⟦<Seat<B> as Observer>⟧.watch self.old }
        requires stamps { HasStamps self.old }
        ensures step { Answers (plain_of ⟦<Seat<B> as Observer>⟧.watch self.old)
            (command.Turn arc.now)
            (plain_of ⟦<Seat<B> as Observer>⟧.watch self.new) result }
        ensures in_step { IsInStep ⟦<Seat<B> as Observer>⟧.watch self.new }
        ensures stamps { self.new.graph.graph.graph.stamps
            < self.old.graph.graph.graph.stamps + 2 ^ 24 }
    {
        let id = self.find_item(alloc, ItemSort::Arc, arc)?;
        self.edit(alloc, Edit::Turn(Arc(id)))
    }

    /// Lets the node v go into the node u. Whether the arcs between the two stay, as loops.
    pub(crate) fn contract(
        &mut self,
        alloc: Global,
        u: &Text,
        v: &Text,
        loops: bool,
    ) -> Result<Reply, StepFault>
        requires in_step { IsInStep ⟦<Seat<B> as Observer>⟧.watch self.old }
        requires stamps { HasStamps self.old }
        ensures step { Answers (plain_of ⟦<Seat<B> as Observer>⟧.watch self.old)
            (command.Contract u.now v.now loops)
            (plain_of ⟦<Seat<B> as Observer>⟧.watch self.new) result }
        ensures in_step { IsInStep ⟦<Seat<B> as Observer>⟧.watch self.new }
        ensures stamps { self.new.graph.graph.graph.stamps
            < self.old.graph.graph.graph.stamps + 2 ^ 24 }
    {
        let found = self.find_with_node(alloc, ItemSort::Node, u, v)?;
        if u == v {
            return Err(same_node(alloc, u));
        }
        self.edit(alloc, Edit::Contract(Node(found.0), Node(found.1), loops))
    }

    /// Erases all items.
    pub(crate) fn clear(&mut self, alloc: Global) -> Result<Reply, StepFault>
        requires in_step { IsInStep ⟦<Seat<B> as Observer>⟧.watch self.old }
        requires stamps { HasStamps self.old }
        ensures step { Answers (plain_of ⟦<Seat<B> as Observer>⟧.watch self.old) command.Clear
            (plain_of ⟦<Seat<B> as Observer>⟧.watch self.new) result }
        ensures in_step { IsInStep ⟦<Seat<B> as Observer>⟧.watch self.new }
        ensures stamps { self.new.graph.graph.graph.stamps
            < self.old.graph.graph.graph.stamps + 2 ^ 24 }
    {
        self.edit(alloc, Edit::Clear)
    }
}
