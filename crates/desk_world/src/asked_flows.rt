//! The command that finds a largest flow between two nodes of a view.

ghost use Rattle.std.specs.Prelude.{◌+◌, ◌<◌, ◌^◌, IfOk, IfSome, OnOk};
ghost use Rattle.base_items.specs.declared.items.ItemSort.TheVariants.{Arc};
ghost use Rattle.script_words.specs.declared.commands.Command.TheVariants as commands;
ghost use Rattle.script_words.specs.declared.commands.MapType.TheVariants.{Ints};
ghost use Rattle.plain_world.specs.Demands as demands;
ghost use Rattle.desk_world.specs.AskedFlows.{AsksFlow};
ghost use Rattle.desk_world.specs.Faults.{Answers, Meets, MeetsAll};
ghost use Rattle.desk_world.specs.Plain.{plain_of};
ghost use Rattle.desk_world.specs.InStep.{IsInStep, HasStamps};
ghost use Rattle.desk_world.specs.Values.{HasType};

use crate::asked_views::AskedView;
use crate::refusals::same_node;
use crate::world::World;
use base_items::ItemSort;
use desk_seats::Seat;
use flow_preflow::max_flow;
use observe_core::Observer;
use report_text::{Reply, StepFault};
use script_words::MapType;
use std::alloc::Global;
use token_text::Text;
use tower_numbers::node_number;

/// What a query of a largest flow reads: the view by number, the capacity of each arc, and the
/// numbers of the two nodes.
#[derive(Drop)]
pub struct AskedFlow<'a> {
    pub asked: AskedView<'a>,
    pub caps: Vec<i64>,
    pub source: u32,
    pub target: u32,
}

// Asks that two names differ. `SameNode` where they don't.
fn ask_differ(alloc: Global, u: &Text, v: &Text) -> Result<(), StepFault>
    ensures { (world : _) → Meets world (demands.Differ u.now v.now) result }
{
    if u == v {
        return Err(same_node(alloc, u));
    }
    Ok(())
}

impl<B: Observer> World<Seat<B>> {
    // Reads what a query of a largest flow asks for. The first of its demands that isn't met
    // refuses it.
    fn ask_flow<'a>(
        &self,
        alloc: Global,
        view: &'a Text,
        cap: &Text,
        s: &Text,
        t: &Text,
        into: &Option<Text>,
    ) -> Result<AskedFlow<'a>, StepFault>
        requires { IsInStep ⟦<Seat<B> as Observer>⟧.watch self.now }
        ensures asks { let world = plain_of ⟦<Seat<B> as Observer>⟧.watch self.now in
            IfOk result (AsksFlow world view.now cap.now s.now t.now) }
        ensures takes { let world = plain_of ⟦<Seat<B> as Observer>⟧.watch self.now in
            OnOk result (IfSome into.now (λ map. HasType world Arc map Ints)) }
        ensures meets { let world = plain_of ⟦<Seat<B> as Observer>⟧.watch self.now in
            MeetsAll world (demands.demands
            (commands.MaxFlow view.now cap.now s.now t.now into.now)) result }
    {
        self.ask_view(alloc, view)?;
        self.ask_map(alloc, ItemSort::Arc, cap)?;
        let from = self.ask_node_of(alloc, view, s)?;
        let to = self.ask_node_of(alloc, view, t)?;
        self.ask_given(alloc, ItemSort::Arc, into)?;
        self.ask_type(alloc, ItemSort::Arc, MapType::Ints, cap)?;
        self.ask_given_flow(alloc, view, into)?;
        let asked = self.number_view(alloc, view)?;
        ask_differ(alloc, s, t)?;
        let caps = self.arc_ints_of(alloc, &asked, cap)?;
        self.ask_at_least(alloc, &asked, caps.as_slice(), 0)?;
        let source = node_number(&asked.fixed, from);
        let target = node_number(&asked.fixed, to);
        Ok(AskedFlow {
            asked,
            caps,
            source,
            target,
        })
    }

    /// A largest flow from a node of a view to another, with a least cut. It is written into a map,
    /// if one is given.
    pub(crate) fn flow(
        &mut self,
        alloc: Global,
        view: &Text,
        cap: &Text,
        s: &Text,
        t: &Text,
        into: &Option<Text>,
    ) -> Result<Reply, StepFault>
        requires in_step { IsInStep ⟦<Seat<B> as Observer>⟧.watch self.old }
        requires stamps { HasStamps self.old }
        ensures step { Answers (plain_of ⟦<Seat<B> as Observer>⟧.watch self.old)
            (commands.MaxFlow view.now cap.now s.now t.now into.now)
            (plain_of ⟦<Seat<B> as Observer>⟧.watch self.new) result }
        ensures in_step { IsInStep ⟦<Seat<B> as Observer>⟧.watch self.new }
        ensures stamps { self.new.graph.graph.graph.stamps
            < self.old.graph.graph.graph.stamps + 2 ^ 24 }
    {
        let read = self.ask_flow(alloc, view, cap, s, t, into)?;
        let caps = read.caps.as_slice();
        let cut = max_flow(alloc, &read.asked.fixed, caps, read.source, read.target)?;
        let lines = self.flow_lines(alloc, &read.asked, &cut.flow)?;
        let side = self.names_in(alloc, &read.asked, &cut.side)?;
        self.write_into(alloc, into, &read.asked, &cut.flow)?;
        Ok(Reply::MaxFlow(lines, side, cut.value))
    }
}
