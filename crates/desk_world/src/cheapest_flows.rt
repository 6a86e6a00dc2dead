//! The commands that find flows within bounds that meet supplies.

ghost use Rattle.std.specs.Prelude.{◌≡◌, ◌+◌, ◌<◌, ◌^◌, false, length, IfOk};
ghost use Rattle.report_text.specs.declared.replies.Reply.TheVariants as replies;
ghost use Rattle.script_words.specs.declared.commands.Command.TheVariants as commands;
ghost use Rattle.script_words.specs.Valid.{IsValid};
ghost use Rattle.plain_certificates.specs.Tables.{at};
ghost use Rattle.plain_world.specs.Queries as queries;
ghost use Rattle.plain_world.specs.Queries.{graph};
ghost use Rattle.desk_world.specs.AskedViews.{Asks};
ghost use Rattle.desk_world.specs.Faults.{Answers};
ghost use Rattle.desk_world.specs.Plain.{plain_of};
ghost use Rattle.desk_world.specs.InStep.{IsInStep, HasStamps};

use crate::asked_views::AskedView;
use crate::world::World;
use desk_seats::Seat;
use flow_circulate::{Circulation, circulate};
use flow_replies::slice_given;
use net_simplex::simplex;
use observe_core::Observer;
use report_text::{Reply, StepFault};
use static_digraph::{Barrier, CostAnswer};
use std::alloc::{AllocError, Global};
use token_text::{Text, copy_text};

impl<B: Observer> World<Seat<B>> {
    // The answer that tells a barrier.
    fn told_barrier(
        &self,
        alloc: Global,
        asked: &AskedView<'_>,
        barrier: &Barrier,
    ) -> Result<Reply, AllocError>
        requires in_step { IsInStep ⟦<Seat<B> as Observer>⟧.watch self.now }
        requires asks { Asks (plain_of ⟦<Seat<B> as Observer>⟧.watch self.now) asked.now }
        requires all { let world = plain_of ⟦<Seat<B> as Observer>⟧.watch self.now in
            length barrier.now.nodes ≡ (graph world asked.now.view.now).nodes }
        ensures { let world = plain_of ⟦<Seat<B> as Observer>⟧.watch self.now in
            IfOk result (λ reply. reply ≡ replies.Barrier
            (queries.names_in world asked.now.view.now (at false barrier.now.nodes))
            barrier.now.over barrier.now.supply barrier.now.limit) }
    {
        let names = self.names_in(alloc, asked, &barrier.nodes)?;
        Ok(Reply::Barrier(names, barrier.over, barrier.supply, barrier.limit))
    }

    /// A flow of a view within bounds that meets supplies, which is written into a map, if one is
    /// given; or a set of nodes that shows that there is none.
    pub(crate) fn circulation(
        &mut self,
        alloc: Global,
        view: &Text,
        low: &Option<Text>,
        up: &Option<Text>,
        supply: &Option<Text>,
        into: &Option<Text>,
    ) -> Result<Reply, StepFault>
        requires valid { IsValid (commands.Circulate view.now low.now up.now supply.now into.now) }
        requires in_step { IsInStep ⟦<Seat<B> as Observer>⟧.watch self.old }
        requires stamps { HasStamps self.old }
        ensures step { Answers (plain_of ⟦<Seat<B> as Observer>⟧.watch self.old)
            (commands.Circulate view.now low.now up.now supply.now into.now)
            (plain_of ⟦<Seat<B> as Observer>⟧.watch self.new) result }
        ensures in_step { IsInStep ⟦<Seat<B> as Observer>⟧.watch self.new }
        ensures stamps { self.new.graph.graph.graph.stamps
            < self.old.graph.graph.graph.stamps + 2 ^ 24 }
    {
        let read = self.ask_bounds(alloc, view, low, up, &None, supply, into)?;
        let lower = slice_given(&read.lower);
        let upper = slice_given(&read.upper);
        let supplies = slice_given(&read.supply);
        match circulate(alloc, &read.asked.fixed, lower, upper, supplies)? {
            Circulation::Flow(flow) => {
                let lines = self.flow_lines(alloc, &read.asked, &flow)?;
                self.write_into(alloc, into, &read.asked, &flow)?;
                Ok(Reply::Circulation(lines))
            }
            Circulation::Barrier(barrier) => {
                let reply = self.told_barrier(alloc, &read.asked, &barrier)?;
                Ok(reply)
            }
        }
    }

    /// A cheapest flow of a view within bounds that meets supplies, which is basic and is written
    /// into a map, if one is given; or a set of nodes that shows that there is none; or a flow with
    /// a cycle along which it gets ever cheaper, which is written too.
    pub(crate) fn cheapest(
        &mut self,
        alloc: Global,
        view: &Text,
        low: &Option<Text>,
        up: &Option<Text>,
        cost: &Text,
        supply: &Option<Text>,
        into: &Option<Text>,
    ) -> Result<Reply, StepFault>
        requires valid { IsValid
            (commands.Simplex view.now low.now up.now cost.now supply.now into.now) }
        requires in_step { IsInStep ⟦<Seat<B> as Observer>⟧.watch self.old }
        requires stamps { HasStamps self.old }
        ensures step { Answers (plain_of ⟦<Seat<B> as Observer>⟧.watch self.old)
            (commands.Simplex view.now low.now up.now cost.now supply.now into.now)
            (plain_of ⟦<Seat<B> as Observer>⟧.watch self.new) result }
        ensures less { Answers (plain_of ⟦<Seat<B> as Observer>⟧.watch self.old)
            (commands.MinCost view.now low.now up.now cost.now supply.now into.now)
            (plain_of ⟦<Seat<B> as Observer>⟧.watch self.new) result }
        ensures in_step { IsInStep ⟦<Seat<B> as Observer>⟧.watch self.new }
        ensures stamps { self.new.graph.graph.graph.stamps
            < self.old.graph.graph.graph.stamps + 2 ^ 24 }
    {
        let named = Some(copy_text(alloc, cost.as_bytes())?);
        let read = self.ask_bounds(alloc, view, low, up, &named, supply, into)?;
        let Some(costs) = &read.cost else {
            unreachable!()
        };
        let lower = slice_given(&read.lower);
        let upper = slice_given(&read.upper);
        let supplies = slice_given(&read.supply);
        let fixed = &read.asked.fixed;
        match simplex(alloc, fixed, lower, upper, costs.as_slice(), supplies)? {
            CostAnswer::Optimal { flow, pi, cost } => {
                let lines = self.flow_lines(alloc, &read.asked, &flow)?;
                let prices = self.potential_lines(alloc, &read.asked, &pi)?;
                self.write_into(alloc, into, &read.asked, &flow)?;
                Ok(Reply::Cheapest(lines, prices, cost))
            }
            CostAnswer::Barrier(barrier) => {
                let reply = self.told_barrier(alloc, &read.asked, &barrier)?;
                Ok(reply)
            }
            CostAnswer::FreeCycle { flow, cycle, cost } => {
                let lines = self.flow_lines(alloc, &read.asked, &flow)?;
                let round = self.lines_of_cycle(alloc, &read.asked, &cycle)?;
                self.write_into(alloc, into, &read.asked, &flow)?;
                Ok(Reply::FreeCycle(lines, round, cost))
            }
        }
    }
}
