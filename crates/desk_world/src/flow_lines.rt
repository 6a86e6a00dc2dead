//! The lines of replies about flows and pairings.

ghost use Rattle.std.specs.Prelude.{◌≡◌, ◌<◌, pos, false, length, map, All, IfOk};
ghost use Rattle.plain_certificates.specs.Tables.{at};
ghost use Rattle.plain_world.specs.Queries as queries;
ghost use Rattle.plain_world.specs.Queries.{graph};
ghost use Rattle.plain_world.specs.Tables.{Name};
ghost use Rattle.desk_world.specs.AskedViews.{Asks, left_nodes};
ghost use Rattle.desk_world.specs.Plain.{plain_of};
ghost use Rattle.desk_world.specs.InStep.{IsInStep};

use crate::asked_views::AskedView;
use crate::world::World;
use base_items::List;
use desk_seats::Seat;
use flow_replies::{left_first, numbers_in, numbers_with_flow};
use observe_core::Observer;
use report_text::{FlowLine, PairLine, PotentialLine};
use std::alloc::{AllocError, Global};
use token_text::Text;

impl<B: Observer> World<Seat<B>> {
    // The names of the nodes of these numbers.
    fn names_of_nodes(
        &self,
        alloc: Global,
        asked: &AskedView<'_>,
        numbers: &[u32],
    ) -> Result<List<Text>, AllocError>
        requires in_step { IsInStep ⟦<Seat<B> as Observer>⟧.watch self.now }
        requires asks { Asks (plain_of ⟦<Seat<B> as Observer>⟧.watch self.now) asked.now }
        requires below { let world = plain_of ⟦<Seat<B> as Observer>⟧.watch self.now in
            All (λ k. k < (graph world asked.now.view.now).nodes) numbers.now }
        ensures { let world = plain_of ⟦<Seat<B> as Observer>⟧.watch self.now in
            IfOk result (λ names. names
            ≡ map (queries.name_of_node world asked.now.view.now) numbers.now) }
    {
        let mut names = Vec::with_capacity(alloc, numbers.len())?;
        for number in numbers {
            let name = self.name_of_node(alloc, asked, *number)?;
            names.push(name)?;
        }
        Ok(List::from_vec(names))
    }

    /// The names of the nodes of a set, which says of each node whether it is in it.
    pub(crate) fn names_in(
        &self,
        alloc: Global,
        asked: &AskedView<'_>,
        set: &List<bool>,
    ) -> Result<List<Text>, AllocError>
        requires in_step { IsInStep ⟦<Seat<B> as Observer>⟧.watch self.now }
        requires asks { Asks (plain_of ⟦<Seat<B> as Observer>⟧.watch self.now) asked.now }
        requires all { let world = plain_of ⟦<Seat<B> as Observer>⟧.watch self.now in
            length set.now ≡ (graph world asked.now.view.now).nodes }
        ensures { let world = plain_of ⟦<Seat<B> as Observer>⟧.watch self.now in
            IfOk result (λ names. names
            ≡ queries.names_in world asked.now.view.now (at false set.now)) }
    {
        let _few = asked.fixed.node_count();
        let numbers = numbers_in(alloc, set.as_slice())?;
        self.names_of_nodes(alloc, asked, numbers.as_slice())
    }

    /// The lines of the arcs with flow.
    pub(crate) fn flow_lines(
        &self,
        alloc: Global,
        asked: &AskedView<'_>,
        flow: &List<i64>,
    ) -> Result<List<FlowLine>, AllocError>
        requires in_step { IsInStep ⟦<Seat<B> as Observer>⟧.watch self.now }
        requires asks { Asks (plain_of ⟦<Seat<B> as Observer>⟧.watch self.now) asked.now }
        requires all { let world = plain_of ⟦<Seat<B> as Observer>⟧.watch self.now in
            length flow.now ≡ (graph world asked.now.view.now).arcs }
        ensures { let world = plain_of ⟦<Seat<B> as Observer>⟧.watch self.now in
            IfOk result (λ lines. lines
            ≡ queries.flow_lines world asked.now.view.now (at (pos 0) flow.now)) }
    {
        let _few = asked.fixed.arc_count();
        let flows = flow.as_slice();
        let numbers = numbers_with_flow(alloc, flows)?;
        let arcs = numbers.as_slice();
        let mut lines = Vec::with_capacity(alloc, arcs.len())?;
        for number in arcs {
            let arc = self.name_of_arc(alloc, asked, *number)?;
            let flow = flows[*number as usize];
            lines.push(FlowLine { arc, flow })?;
        }
        Ok(List::from_vec(lines))
    }

    /// The lines of the potentials of all nodes.
    pub(crate) fn potential_lines(
        &self,
        alloc: Global,
        asked: &AskedView<'_>,
        pi: &List<i64>,
    ) -> Result<List<PotentialLine>, AllocError>
        requires in_step { IsInStep ⟦<Seat<B> as Observer>⟧.watch self.now }
        requires asks { Asks (plain_of ⟦<Seat<B> as Observer>⟧.watch self.now) asked.now }
        requires all { let world = plain_of ⟦<Seat<B> as Observer>⟧.watch self.now in
            length pi.now ≡ (graph world asked.now.view.now).nodes }
        ensures { let world = plain_of ⟦<Seat<B> as Observer>⟧.watch self.now in
            IfOk result (λ lines. lines
            ≡ queries.potential_lines world asked.now.view.now (at (pos 0) pi.now)) }
    {
        let prices = pi.as_slice();
        let count = asked.fixed.node_count();
        let mut lines = Vec::with_capacity(alloc, count as usize)?;
        for number in 0..count {
            let node = self.name_of_node(alloc, asked, number)?;
            let pi = prices[number as usize];
            lines.push(PotentialLine { node, pi })?;
        }
        Ok(List::from_vec(lines))
    }

    // The line of a pair, by which nodes are left.
    fn pair_line(
        &self,
        alloc: Global,
        asked: &AskedView<'_>,
        left: &[bool],
        arc: u32,
    ) -> Result<PairLine, AllocError>
        requires in_step { IsInStep ⟦<Seat<B> as Observer>⟧.watch self.now }
        requires asks { Asks (plain_of ⟦<Seat<B> as Observer>⟧.watch self.now) asked.now }
        requires all { let world = plain_of ⟦<Seat<B> as Observer>⟧.watch self.now in
            length left.now ≡ (graph world asked.now.view.now).nodes }
        requires arc { let world = plain_of ⟦<Seat<B> as Observer>⟧.watch self.now in
            arc < (graph world asked.now.view.now).arcs }
        ensures { let world = plain_of ⟦<Seat<B> as Observer>⟧.watch self.now in
            let view = asked.now.view.now in (side : Name)
            → left.now ≡ left_nodes world view side → IfOk result (λ line. line
            ≡ queries.pair_line world view (queries.on_left world view side) arc) }
    {
        let _ends_are_nodes = asked.fixed.arc_count();
        let (own, other) = left_first(&asked.fixed, left, arc);
        let name = self.name_of_arc(alloc, asked, arc)?;
        let left = self.name_of_node(alloc, asked, own)?;
        let right = self.name_of_node(alloc, asked, other)?;
        Ok(PairLine {
            arc: name,
            left,
            right,
        })
    }

    /// The lines of pairs, by which nodes are left.
    pub(crate) fn pair_lines(
        &self,
        alloc: Global,
        asked: &AskedView<'_>,
        left: &[bool],
        arcs: &List<u32>,
    ) -> Result<List<PairLine>, AllocError>
        requires in_step { IsInStep ⟦<Seat<B> as Observer>⟧.watch self.now }
        requires asks { Asks (plain_of ⟦<Seat<B> as Observer>⟧.watch self.now) asked.now }
        requires all { let world = plain_of ⟦<Seat<B> as Observer>⟧.watch self.now in
            length left.now ≡ (graph world asked.now.view.now).nodes }
        requires below { let world = plain_of ⟦<Seat<B> as Observer>⟧.watch self.now in
            All (λ arc. arc < (graph world asked.now.view.now).arcs) arcs.now }
        ensures { let world = plain_of ⟦<Seat<B> as Observer>⟧.watch self.now in
            let view = asked.now.view.now in (side : Name)
            → left.now ≡ left_nodes world view side → IfOk result (λ lines. lines
            ≡ map (queries.pair_line world view (queries.on_left world view side)) arcs.now) }
    {
        let arcs = arcs.as_slice();
        let mut lines = Vec::with_capacity(alloc, arcs.len())?;
        for number in arcs {
            let line = self.pair_line(alloc, asked, left, *number)?;
            lines.push(line)?;
        }
        Ok(List::from_vec(lines))
    }
}
