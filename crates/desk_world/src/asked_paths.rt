//! The commands that find shortest paths from a node of a view.

ghost use Rattle.std.specs.Prelude.{◌≡◌, ◌<◌, ℕ, pos, All, map, length, None, IfOk};
ghost use Rattle.script_words.specs.declared.commands.Command.TheVariants as commands;
ghost use Rattle.report_text.specs.declared.replies.Reply.TheVariants as replies;
ghost use Rattle.plain_certificates.specs.Tables.{at};
ghost use Rattle.plain_certificates.specs.Walks.{IsCycle, along};
ghost use Rattle.plain_world.specs.Demands.{path_demands};
ghost use Rattle.plain_world.specs.Queries as queries;
ghost use Rattle.plain_world.specs.Queries.{graph};
ghost use Rattle.static_digraph.specs.Fixed.{graph_of};
ghost use Rattle.task_bounds.specs.Given.{IsValue};
ghost use Rattle.desk_world.specs.AskedPaths.{AsksPaths};
ghost use Rattle.desk_world.specs.AskedViews.{Asks, IsBelow};
ghost use Rattle.desk_world.specs.Faults.{Answers, MeetsAll};
ghost use Rattle.desk_world.specs.Plain.{plain_of};
ghost use Rattle.desk_world.specs.InStep.{IsInStep};

use crate::asked_views::AskedView;
use crate::world::World;
use base_items::{ItemSort, List};
use desk_seats::Seat;
use observe_core::Observer;
use path_search::{Paths, Walks, bellman, dijkstra};
use report_text::{PathLine, Reply, StepFault};
use script_words::MapType;
use std::alloc::{AllocError, Global};
use token_text::Text;
use tower_numbers::{cycle_sum, node_number};

/// What a query of ways from a node reads: the view by number, the lengths of its arcs, and the
/// number of the node.
#[derive(Drop)]
pub struct AskedPaths<'a> {
    pub asked: AskedView<'a>,
    pub lengths: Vec<i64>,
    pub start: u32,
}

impl<B: Observer> World<Seat<B>> {
    // Reads what a query of ways from a node asks for. The first of its demands that isn't met
    // refuses it.
    fn ask_paths<'a>(
        &self,
        alloc: Global,
        view: &'a Text,
        length: &Text,
        start: &Text,
    ) -> Result<AskedPaths<'a>, StepFault>
        requires { IsInStep ⟦<Seat<B> as Observer>⟧.watch self.now }
        ensures asks { let world = plain_of ⟦<Seat<B> as Observer>⟧.watch self.now in
            IfOk result (AsksPaths world view.now length.now start.now) }
        ensures meets { let world = plain_of ⟦<Seat<B> as Observer>⟧.watch self.now in
            MeetsAll world (path_demands view.now length.now start.now) result }
    {
        self.ask_view(alloc, view)?;
        self.ask_map(alloc, ItemSort::Arc, length)?;
        let node = self.ask_node_of(alloc, view, start)?;
        self.ask_type(alloc, ItemSort::Arc, MapType::Ints, length)?;
        let asked = self.number_view(alloc, view)?;
        let lengths = self.arc_ints_of(alloc, &asked, length)?;
        let start = node_number(&asked.fixed, node);
        Ok(AskedPaths {
            asked,
            lengths,
            start,
        })
    }

    // The line of a node, by its distance and the last arc on the way to it.
    fn line_of_path(
        &self,
        alloc: Global,
        asked: &AskedView<'_>,
        node: u32,
        dist: Option<i64>,
        via: Option<u32>,
    ) -> Result<PathLine, AllocError>
        requires in_step { IsInStep ⟦<Seat<B> as Observer>⟧.watch self.now }
        requires asks { Asks (plain_of ⟦<Seat<B> as Observer>⟧.watch self.now) asked.now }
        requires node { let world = plain_of ⟦<Seat<B> as Observer>⟧.watch self.now in
            node < (graph world asked.now.view.now).nodes }
        requires via { let world = plain_of ⟦<Seat<B> as Observer>⟧.watch self.now in
            IsBelow (graph world asked.now.view.now).arcs via }
        ensures { let world = plain_of ⟦<Seat<B> as Observer>⟧.watch self.now in
            IfOk result (λ line. line
            ≡ queries.path_line world asked.now.view.now (λ _. dist) (λ _. via) node) }
    {
        let name = self.name_of_node(alloc, asked, node)?;
        let Some(dist) = dist else {
            return Ok(PathLine::Unreached { node: name });
        };
        match via {
            Some(arc) => {
                let arc = self.name_of_arc(alloc, asked, arc)?;
                Ok(PathLine::Reached {
                    node: name,
                    dist,
                    arc: Some(arc),
                })
            }
            None => Ok(PathLine::Reached {
                node: name,
                dist,
                arc: None,
            }),
        }
    }

    // The line of each node, by the distances and the last arcs.
    fn lines_of_paths(
        &self,
        alloc: Global,
        asked: &AskedView<'_>,
        paths: &Paths,
    ) -> Result<List<PathLine>, AllocError>
        requires in_step { IsInStep ⟦<Seat<B> as Observer>⟧.watch self.now }
        requires asks { Asks (plain_of ⟦<Seat<B> as Observer>⟧.watch self.now) asked.now }
        requires dists { let world = plain_of ⟦<Seat<B> as Observer>⟧.watch self.now in
            length paths.now.dist ≡ (graph world asked.now.view.now).nodes }
        requires vias { let world = plain_of ⟦<Seat<B> as Observer>⟧.watch self.now in
            length paths.now.via ≡ (graph world asked.now.view.now).nodes }
        requires arcs { let world = plain_of ⟦<Seat<B> as Observer>⟧.watch self.now in
            (k : ℕ) → k < length paths.now.via
            → IsBelow (graph world asked.now.view.now).arcs (at None paths.now.via k) }
        ensures { let world = plain_of ⟦<Seat<B> as Observer>⟧.watch self.now in
            let view = asked.now.view.now in IfOk result (λ lines. lines
            ≡ map (queries.path_line world view (at None paths.now.dist) (at None paths.now.via))
            (queries.node_numbers world view)) }
    {
        let dist = paths.dist.as_slice();
        let via = paths.via.as_slice();
        let count = asked.fixed.node_count();
        let mut lines = Vec::with_capacity(alloc, count as usize)?;
        let mut node = 0;
        while node < count {
            let k = node as usize;
            lines.push(self.line_of_path(alloc, asked, node, dist[k], via[k])?)?;
            node += 1;
        }
        Ok(List::from_vec(lines))
    }

    // The answer that tells a cycle, with its length.
    fn told_cycle(
        &self,
        alloc: Global,
        asked: &AskedView<'_>,
        lengths: &[i64],
        cycle: &List<u32>,
    ) -> Result<Reply, AllocError>
        requires in_step { IsInStep ⟦<Seat<B> as Observer>⟧.watch self.now }
        requires asks { Asks (plain_of ⟦<Seat<B> as Observer>⟧.watch self.now) asked.now }
        requires cycle { IsCycle (graph_of asked.now.fixed) cycle.now }
        requires lengths { length lengths.now ≡ (graph_of asked.now.fixed).arcs }
        requires small { All IsValue lengths.now }
        ensures { let world = plain_of ⟦<Seat<B> as Observer>⟧.watch self.now in
            IfOk result (λ reply. reply
            ≡ replies.Cycle (queries.cycle_lines world asked.now.view.now cycle.now)
            (along (at (pos 0) lengths.now) cycle.now)) }
    {
        let sum = cycle_sum(&asked.fixed, lengths, cycle.as_slice());
        let lines = self.lines_of_cycle(alloc, asked, cycle)?;
        Ok(Reply::Cycle(lines, sum))
    }

    /// Shortest paths from a node of a view, where no length is below 0.
    pub(crate) fn dijkstra(
        &self,
        alloc: Global,
        view: &Text,
        length: &Text,
        start: &Text,
    ) -> Result<Reply, StepFault>
        requires { IsInStep ⟦<Seat<B> as Observer>⟧.watch self.now }
        ensures { Answers (plain_of ⟦<Seat<B> as Observer>⟧.watch self.now)
            (commands.Dijkstra view.now length.now start.now)
            (plain_of ⟦<Seat<B> as Observer>⟧.watch self.now) result }
    {
        let read = self.ask_paths(alloc, view, length, start)?;
        let lengths = read.lengths.as_slice();
        self.ask_at_least(alloc, &read.asked, lengths, 0)?;
        let paths = dijkstra(alloc, &read.asked.fixed, lengths, read.start)?;
        let lines = self.lines_of_paths(alloc, &read.asked, &paths)?;
        Ok(Reply::Paths(lines))
    }

    /// Shortest paths from a node of a view, or a cycle of negative length to which a walk leads.
    pub(crate) fn bellman(
        &self,
        alloc: Global,
        view: &Text,
        length: &Text,
        start: &Text,
    ) -> Result<Reply, StepFault>
        requires { IsInStep ⟦<Seat<B> as Observer>⟧.watch self.now }
        ensures { Answers (plain_of ⟦<Seat<B> as Observer>⟧.watch self.now)
            (commands.Bellman view.now length.now start.now)
            (plain_of ⟦<Seat<B> as Observer>⟧.watch self.now) result }
    {
        let read = self.ask_paths(alloc, view, length, start)?;
        let lengths = read.lengths.as_slice();
        match bellman(alloc, &read.asked.fixed, lengths, read.start)? {
            Walks::Paths(paths) => {
                let lines = self.lines_of_paths(alloc, &read.asked, &paths)?;
                Ok(Reply::Paths(lines))
            }
            Walks::Cycle(cycle) => {
                let reply = self.told_cycle(alloc, &read.asked, lengths, &cycle)?;
                Ok(reply)
            }
        }
    }
}
