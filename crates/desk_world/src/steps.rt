//! One step of a world.

ghost use Rattle.std.specs.Prelude.{◌≡◌, ◌+◌, ◌^◌, ◌<◌, true, IfOk, IfErr};
ghost use Rattle.script_words.specs.Valid.{IsValid};
ghost use Rattle.plain_world.specs.Steps.{Step};
ghost use Rattle.plain_world.specs.declared.answers.Answer.TheVariants.{Answered};
ghost use Rattle.plain_machine.specs.Built.{is_built, RefusedBy};
ghost use Rattle.desk_world.specs.Plain.{plain_of};
ghost use Rattle.desk_world.specs.InStep.{IsInStep, HasStamps};
ghost use Rattle.script_words.specs.declared.commands.Command.TheVariants as commands;
ghost use Rattle.desk_world.specs.Faults.{Answers};

use crate::world::World;
use base_items::{ItemSort, List};
use desk_seats::Seat;
use observe_core::Observer;
use report_text::{Reply, StepFault};
use script_words::Command;
use std::alloc::Global;
use token_text::{Text, copy_text};

/// Whether the command is one that [`World::step`](crate::World::step) runs.
pub fn built(command: &Command) -> bool
    ensures { result ≡ is_built command.now }
{
    match command {
        Command::AddNode(_) => true,
        Command::AddArc(_, _, _) => true,
        Command::DelNode(_) => true,
        Command::DelArc(_) => true,
        Command::Source(_, _) => true,
        Command::Target(_, _) => true,
        Command::Turn(_) => true,
        Command::Contract(_, _, _) => true,
        Command::SplitNode(_, _, _) => true,
        Command::SplitArc(_, _, _) => true,
        Command::Clear => true,
        Command::NodeMap(_, _) => true,
        Command::ArcMap(_, _) => true,
        Command::Retype(_, _, _) => true,
        Command::Set(_, _, _, _) => true,
        Command::Get(_, _, _) => true,
        Command::Degree(_, _) => true,
        Command::Trues(_, _, _) => true,
        Command::Items(_, _) => true,
        Command::DropMap(_, _) => true,
        Command::Total(_, _) => true,
        Command::Least(_, _) => true,
        Command::Count(_, _) => true,
        Command::Guard(_, _, _, _) => true,
        Command::Unguard(_) => true,
        Command::Guards => true,
        Command::Snap(_) => true,
        Command::Restore(_) => true,
        Command::Forget(_) => true,
        Command::Snaps => true,
        Command::View(_, _, _) => true,
        Command::Keep(_) => true,
        Command::Unview(_) => true,
        Command::Nodes(_) => true,
        Command::Arcs(_) => true,
        Command::Out(_, _) => true,
        Command::In(_, _) => true,
        Command::Dijkstra(_, _, _) => true,
        Command::Bellman(_, _, _) => true,
        Command::MaxFlow(_, _, _, _, _) => true,
        Command::Circulate(_, _, _, _, _) => true,
        Command::MinCost(_, _, _, _, _, _) => true,
        Command::Simplex(_, _, _, _, _, _) => true,
        Command::Match(_, _) => true,
        Command::Tie(_, _) => true,
        Command::Untie(_) => true,
        Command::Attr(_) => true,
        Command::Relabel(_, _, _) => true,
        Command::Save(_) => true,
        _ => false,
    }
}

impl<B: Observer> World<Seat<B>> {
    /// What the command answers, which has to be valid and one that is [`built`](crate::built). It
    /// needs 2^24 stamps, and uses fewer.
    ///
    /// `Refused` tells the first fault that refuses the command, in the order of the table of
    /// faults. After it, and where memory runs out, the plain world is as before.
    pub fn step(&mut self, alloc: Global, command: &Command) -> Result<Reply, StepFault>
        requires built { is_built command.now ≡ true }
        requires valid { IsValid command.now }
        requires in_step { IsInStep ⟦<Seat<B> as Observer>⟧.watch self.old }
        requires stamps { HasStamps self.old }
        ensures answered { IfOk result (λ reply. Step
            (plain_of ⟦<Seat<B> as Observer>⟧.watch self.old) command.now (Answered reply)
            (plain_of ⟦<Seat<B> as Observer>⟧.watch self.new)) }
        ensures refused { IfErr result (RefusedBy (plain_of ⟦<Seat<B> as Observer>⟧.watch self.old)
            command.now (plain_of ⟦<Seat<B> as Observer>⟧.watch self.new)) }
        ensures in_step { IsInStep ⟦<Seat<B> as Observer>⟧.watch self.new }
        ensures stamps { self.new.graph.graph.graph.stamps
            < self.old.graph.graph.graph.stamps + 2 ^ 24 }
    {
        match command {
            Command::AddNode(label) => self.add_node(alloc, label),
            Command::AddArc(label, from, to) => self.add_arc(alloc, label, from, to),
            Command::DelNode(node) => self.del_node(alloc, node),
            Command::DelArc(arc) => self.del_arc(alloc, arc),
            Command::Source(arc, node) => self.source(alloc, arc, node),
            Command::Target(arc, node) => self.target(alloc, arc, node),
            Command::Turn(arc) => self.turn(alloc, arc),
            Command::Contract(u, v, loops) => self.contract(alloc, u, v, *loops),
            Command::SplitNode(node, label, arc) => self.split_node(alloc, node, label, arc),
            Command::SplitArc(arc, label, new) => self.split_arc(alloc, arc, label, new),
            Command::Clear => self.clear(alloc),
            Command::NodeMap(name, kind) => self.new_map(alloc, ItemSort::Node, name, *kind),
            Command::ArcMap(name, kind) => self.new_map(alloc, ItemSort::Arc, name, *kind),
            Command::Retype(sort, map, kind) => self.retype(alloc, *sort, map, *kind),
            Command::Set(sort, map, item, value) => self.set(alloc, *sort, map, item, value),
            Command::Get(sort, map, item) => self.get(alloc, *sort, map, item),
            Command::Degree(name, way) => self.new_degree(alloc, name, *way),
            Command::Trues(sort, index, map) => self.new_index(alloc, *sort, index, map),
            Command::Items(sort, index) => self.items(alloc, *sort, index),
            Command::DropMap(sort, name) => self.drop_map(alloc, *sort, name),
            Command::Total(sort, map) => self.total(alloc, *sort, map),
            Command::Least(sort, map) => self.least(alloc, *sort, map),
            Command::Count(sort, map) => self.count(alloc, *sort, map),
            Command::Guard(name, sort, kind, limit) => {
                self.guard(alloc, name, *sort, *kind, *limit)
            }
            Command::Unguard(name) => self.unguard(alloc, name),
            Command::Guards => self.list_guards(alloc),
            Command::Snap(name) => self.snap(alloc, name),
            Command::Restore(name) => self.restore(alloc, name),
            Command::Forget(name) => self.forget(alloc, name),
            Command::Snaps => self.snaps(alloc),
            Command::View(name, layer, below) => self.view(alloc, name, layer, below),
            Command::Keep(name) => self.keep(alloc, name),
            Command::Unview(name) => self.unview(alloc, name),
            Command::Nodes(view) => self.nodes_of(alloc, view),
            Command::Arcs(view) => self.arcs_of(alloc, view),
            Command::Out(view, node) => self.out_of(alloc, view, node),
            Command::In(view, node) => self.in_of(alloc, view, node),
            Command::Dijkstra(view, length, start) => self.dijkstra(alloc, view, length, start),
            Command::Bellman(view, length, start) => self.bellman(alloc, view, length, start),
            Command::MaxFlow(view, cap, s, t, into) => self.flow(alloc, view, cap, s, t, into),
            Command::Circulate(view, low, up, supply, into) => {
                self.circulation(alloc, view, low, up, supply, into)
            }
            Command::MinCost(view, low, up, cost, supply, into) => {
                self.cheapest(alloc, view, low, up, cost, supply, into)
            }
            Command::Simplex(view, low, up, cost, supply, into) => {
                self.cheapest(alloc, view, low, up, cost, supply, into)
            }
            Command::Match(view, left) => self.pair(alloc, view, left),
            Command::Tie(attribute, sort) => self.tie(alloc, attribute, *sort),
            Command::Untie(attribute) => self.untie(alloc, attribute),
            Command::Attr(attribute) => self.attr(alloc, attribute),
            Command::Relabel(sort, old, new) => self.relabel(alloc, *sort, old, new),
            Command::Save(file) => self.save(alloc, file),
            _ => unreachable!(),
        }
    }

    /// The graph file of the world, under a name.
    fn save(&self, alloc: Global, file: &Text) -> Result<Reply, StepFault>
        requires { IsInStep ⟦<Seat<B> as Observer>⟧.watch self.now }
        ensures { Answers (plain_of ⟦<Seat<B> as Observer>⟧.watch self.now) (commands.Save file.now)
            (plain_of ⟦<Seat<B> as Observer>⟧.watch self.now) result }
    {
        let name = copy_text(alloc, file.as_bytes())?;
        Ok(Reply::Save(name, List::from_vec(self.written(alloc)?)))
    }
}
