//! A node or an arc is split.

ghost use Rattle.std.specs.Prelude.{◌≡◌, ◌<◌, ◌+◌, ◌*◌, ◌^◌, ◌≤◌, false, []};
ghost use Rattle.std.specs.Prelude.{◌∷◌, length, map, None, OnOk, IfOk, IfErr};
ghost use Rattle.script_words.specs.declared.commands.Command.TheVariants as command;
ghost use Rattle.plain_digraph.specs.Items.{IsLive};
ghost use Rattle.plain_digraph.specs.Alterations.{refusable_steps, node_split};
ghost use Rattle.plain_digraph.specs.Steps.{new_node, new_arc};
ghost use Rattle.alter_graph.specs.State.{state_of};
ghost use Rattle.alter_graph.specs.State as states;
ghost use Rattle.alter_graph.specs.Outcome.{Happens, Refuses};
ghost use Rattle.index_maps.specs.RefViews.{IsFreeLabel};
ghost use Rattle.plain_world.specs.Refusals.{breach, first_of};
ghost use Rattle.desk_world.specs.Edits.{node_demands, split_by, split_demands, CanSplit};
ghost use Rattle.desk_world.specs.Edits.{Edits};
ghost use Rattle.desk_world.specs.Plain.{plain_of};
ghost use Rattle.desk_world.specs.InStep.{AreInStep, IsInStep, HasStamps};
ghost use Rattle.desk_world.specs.Entries.{labels_at, room_for_labels};
ghost use Rattle.desk_world.specs.Faults.{Answers, MeetsAll};

use crate::alterations::Split;
use crate::world::World;
use alter_graph::{AlterFault, Alterable};
use base_items::{Arc, ItemSort, MAX_ARCS, Node};
use desk_seats::Seat;
use observe_core::Observer;
use report_text::{Reply, StepFault};
use std::alloc::Global;
use token_text::Text;

/// Splits a node or an arc of a digraph, and answers the new node and the new arc. The error says
/// why all is as before.
fn split_item<O: Observer>(
    graph: &mut Alterable<O>,
    alloc: Global,
    split: Split,
) -> Result<(Node, Arc), AlterFault>
    requires in_step { states.IsInStep (state_of O.watch graph.old) }
    requires can { CanSplit split graph.old.graph.graph }
    ensures happens { OnOk result (Happens (split_by graph.old.graph.graph split)
        (state_of O.watch graph.old) (state_of O.watch graph.new)) }
    ensures node { IfOk result (λ made. made.0.0 ≡ new_node graph.old.graph.graph) }
    ensures arc { IfOk result (λ made. made.1.0 ≡ new_arc graph.old.graph.graph) }
    ensures refuses { IfErr result (Refuses (split_by graph.old.graph.graph split)
        (state_of O.watch graph.old) (state_of O.watch graph.new)) }
{
    match split {
        Split::Arc(arc) => graph.split_arc(arc, alloc),
        Split::Node(node) => match graph.split_node(node, true, alloc) {
            Err(fault) => Err(fault),
            Ok(made) => match made.1 {
                None => unreachable!(),
                Some(arc) => Ok((made.0, arc)),
            },
        },
    }
}

impl<B: Observer> World<Seat<B>> {
    /// Splits a node, and gives the new node this label, for which there is room. No arc goes to it
    /// from the old one. `Vetoed` where a guard refuses; all is then as before.
    fn split_off_labelled(
        &mut self,
        alloc: Global,
        node: Node,
        label: Text,
    ) -> Result<Reply, StepFault>
        requires in_step { IsInStep ⟦<Seat<B> as Observer>⟧.watch self.old }
        requires stamps { HasStamps self.old }
        requires live { IsLive self.old.graph.graph.graph ItemSort.Node node.0 }
        requires few { length (refusable_steps self.old.graph.graph.graph
            (node_split self.old.graph.graph.graph node.0 false)) ≤ 2 * MAX_ARCS }
        requires met { first_of (map (breach (plain_of ⟦<Seat<B> as Observer>⟧.watch self.old))
            (node_demands label))
            ≡ None }
        requires room { 1 ≤ room_for_labels ⟦<Seat<B> as Observer>⟧.watch self.old ItemSort.Node }
        ensures edits { Edits (plain_of ⟦<Seat<B> as Observer>⟧.watch self.old) (node_demands label)
            (node_split self.old.graph.graph.graph node.0 false)
            ((ItemSort.Node, label) ∷ []) (plain_of ⟦<Seat<B> as Observer>⟧.watch self.new) result }
        ensures in_step { AreInStep ⟦<Seat<B> as Observer>⟧.watch self.new }
        ensures stamps { self.new.graph.graph.graph.stamps
            < self.old.graph.graph.graph.stamps + 2 ^ 24 }
    {
        match self.graph.split_node(node, false, alloc) {
            Err(fault) => Err(self.refusal(alloc, fault)),
            Ok(made) => {
                self.let_guards_go();
                self.put_label(ItemSort::Node, made.0.0, label);
                Ok(Reply::Quiet)
            }
        }
    }

    /// Splits a node. The new node has this label; no arc goes to it from the old one. `Taken`,
    /// `Full` or `Vetoed`; all is then as before.
    fn split_off(&mut self, alloc: Global, node: Node, label: &Text) -> Result<Reply, StepFault>
        requires in_step { IsInStep ⟦<Seat<B> as Observer>⟧.watch self.old }
        requires stamps { HasStamps self.old }
        requires live { IsLive self.old.graph.graph.graph ItemSort.Node node.0 }
        requires few { length (refusable_steps self.old.graph.graph.graph
            (node_split self.old.graph.graph.graph node.0 false)) ≤ 2 * MAX_ARCS }
        ensures edits { Edits (plain_of ⟦<Seat<B> as Observer>⟧.watch self.old) (node_demands
            label.now)
            (node_split self.old.graph.graph.graph node.0 false)
            ((ItemSort.Node, label.now) ∷ []) (plain_of ⟦<Seat<B> as Observer>⟧.watch self.new)
            result }
        ensures in_step { AreInStep ⟦<Seat<B> as Observer>⟧.watch self.new }
        ensures stamps { self.new.graph.graph.graph.stamps
            < self.old.graph.graph.graph.stamps + 2 ^ 24 }
    {
        self.ask_new_label(alloc, ItemSort::Node, label)?;
        self.ask_room(1, 0)?;
        let text = self.ready_label(alloc, ItemSort::Node, label)?;
        self.split_off_labelled(alloc, node, text)
    }

    /// Asks for two new labels, and for room for the items. `Taken` and `Full`.
    fn ask_split(&self, alloc: Global, label: &Text, arc_label: &Text) -> Result<(), StepFault>
        requires { IsInStep ⟦<Seat<B> as Observer>⟧.watch self.now }
        ensures meets { MeetsAll (plain_of ⟦<Seat<B> as Observer>⟧.watch self.now)
            (split_demands label.now arc_label.now) result }
        ensures free { OnOk result (IsFreeLabel label.now
            (labels_at ⟦<Seat<B> as Observer>⟧.watch self.now ItemSort.Node)) }
    {
        self.ask_new_label(alloc, ItemSort::Node, label)?;
        self.ask_new_label(alloc, ItemSort::Arc, arc_label)?;
        self.ask_room(1, 1)
    }

    /// Splits a node or an arc, and gives the new node and the new arc these labels, for which
    /// there is room. `Vetoed` where a guard refuses; all is then as before.
    fn split_labelled(
        &mut self,
        alloc: Global,
        split: Split,
        label: Text,
        arc_label: Text,
    ) -> Result<Reply, StepFault>
        requires in_step { IsInStep ⟦<Seat<B> as Observer>⟧.watch self.old }
        requires stamps { HasStamps self.old }
        requires can { CanSplit split self.old.graph.graph.graph }
        requires few { length (refusable_steps self.old.graph.graph.graph
            (split_by self.old.graph.graph.graph split)) ≤ 2 * MAX_ARCS }
        requires met { first_of (map (breach (plain_of ⟦<Seat<B> as Observer>⟧.watch self.old))
            (split_demands label arc_label)) ≡ None }
        requires room { 1 ≤ room_for_labels ⟦<Seat<B> as Observer>⟧.watch self.old ItemSort.Node }
        requires arc_room { 1
            ≤ room_for_labels ⟦<Seat<B> as Observer>⟧.watch self.old ItemSort.Arc }
        ensures edits { Edits (plain_of ⟦<Seat<B> as Observer>⟧.watch self.old) (split_demands
            label arc_label)
            (split_by self.old.graph.graph.graph split)
            ((ItemSort.Node, label) ∷ (ItemSort.Arc, arc_label) ∷ [])
            (plain_of ⟦<Seat<B> as Observer>⟧.watch self.new) result }
        ensures in_step { AreInStep ⟦<Seat<B> as Observer>⟧.watch self.new }
        ensures stamps { self.new.graph.graph.graph.stamps
            < self.old.graph.graph.graph.stamps + 2 ^ 24 }
    {
        match split_item(&mut self.graph, alloc, split) {
            Err(fault) => Err(self.refusal(alloc, fault)),
            Ok(made) => {
                self.let_guards_go();
                self.put_label(ItemSort::Node, made.0.0, label);
                self.put_label(ItemSort::Arc, made.1.0, arc_label);
                Ok(Reply::Quiet)
            }
        }
    }

    /// Splits a node or an arc. The new node and the new arc have these labels. `Taken`, `Full` or
    /// `Vetoed`; all is then as before.
    fn split(
        &mut self,
        alloc: Global,
        split: Split,
        label: &Text,
        arc_label: &Text,
    ) -> Result<Reply, StepFault>
        requires in_step { IsInStep ⟦<Seat<B> as Observer>⟧.watch self.old }
        requires stamps { HasStamps self.old }
        requires can { CanSplit split self.old.graph.graph.graph }
        requires few { length (refusable_steps self.old.graph.graph.graph
            (split_by self.old.graph.graph.graph split)) ≤ 2 * MAX_ARCS }
        ensures edits { Edits (plain_of ⟦<Seat<B> as Observer>⟧.watch self.old) (split_demands
            label.now arc_label.now)
            (split_by self.old.graph.graph.graph split)
            ((ItemSort.Node, label.now) ∷ (ItemSort.Arc, arc_label.now) ∷ [])
            (plain_of ⟦<Seat<B> as Observer>⟧.watch self.new) result }
        ensures in_step { AreInStep ⟦<Seat<B> as Observer>⟧.watch self.new }
        ensures stamps { self.new.graph.graph.graph.stamps
            < self.old.graph.graph.graph.stamps + 2 ^ 24 }
    {
        self.ask_split(alloc, label, arc_label)?;
        let text = self.ready_label(alloc, ItemSort::Node, label)?;
        let arc_text = self.ready_label(alloc, ItemSort::Arc, arc_label)?;
        self.split_labelled(alloc, split, text, arc_text)
    }

    /// Moves the arcs that go from a node to a new node with this label. Where there is a label for
    /// it, an arc goes from the old node to the new one.
    pub(crate) fn split_node(
        &mut self,
        alloc: Global,
        node: &Text,
        label: &Text,
        arc_label: &Option<Text>,
    ) -> Result<Reply, StepFault>
        requires in_step { IsInStep ⟦<Seat<B> as Observer>⟧.watch self.old }
        requires stamps { HasStamps self.old }
        ensures step { Answers (plain_of ⟦<Seat<B> as Observer>⟧.watch self.old)
            (command.SplitNode node.now label.now arc_label.now)
            (plain_of ⟦<Seat<B> as Observer>⟧.watch self.new) result }
        ensures in_step { IsInStep ⟦<Seat<B> as Observer>⟧.watch self.new }
        ensures stamps { self.new.graph.graph.graph.stamps
            < self.old.graph.graph.graph.stamps + 2 ^ 24 }
    {
        let id = self.find_item(alloc, ItemSort::Node, node)?;
        match arc_label {
            None => self.split_off(alloc, Node(id), label),
            Some(arc_label) => self.split(alloc, Split::Node(Node(id)), label, arc_label),
        }
    }

    /// Lets an arc end at a new node with this label, from which a new arc goes on.
    pub(crate) fn split_arc(
        &mut self,
        alloc: Global,
        arc: &Text,
        label: &Text,
        arc_label: &Text,
    ) -> Result<Reply, StepFault>
        requires in_step { IsInStep ⟦<Seat<B> as Observer>⟧.watch self.old }
        requires stamps { HasStamps self.old }
        ensures step { Answers (plain_of ⟦<Seat<B> as Observer>⟧.watch self.old)
            (command.SplitArc arc.now label.now arc_label.now)
            (plain_of ⟦<Seat<B> as Observer>⟧.watch self.new) result }
        ensures in_step { IsInStep ⟦<Seat<B> as Observer>⟧.watch self.new }
        ensures stamps { self.new.graph.graph.graph.stamps
            < self.old.graph.graph.graph.stamps + 2 ^ 24 }
    {
        let id = self.find_item(alloc, ItemSort::Arc, arc)?;
        self.split(alloc, Split::Arc(Arc(id)), label, arc_label)
    }
}
