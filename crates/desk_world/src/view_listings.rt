//! The commands that tell what views show.

ghost use Rattle.std.specs.Prelude.{◌≡◌, ◌∷◌, [], map, unwrap_or, IfOk};
ghost use Rattle.script_words.specs.declared.commands.Command.TheVariants as commands;
ghost use Rattle.plain_world.specs.Demands as demands;
ghost use Rattle.plain_world.specs.Views as views;
ghost use Rattle.desk_world.specs.Faults.{Answers, MeetsAll};
ghost use Rattle.desk_world.specs.Plain.{plain_of};
ghost use Rattle.desk_world.specs.InStep.{IsInStep};
ghost use Rattle.desk_world.specs.Shown.{arcs_at};

use crate::world::World;
use base_items::List;
use desk_seats::Seat;
use observe_core::Observer;
use report_text::{ArcLine, Reply, StepFault};
use script_words::Direction;
use std::alloc::Global;
use token_text::Text;

impl<B: Observer> World<Seat<B>> {
    /// The nodes that a view shows.
    pub(crate) fn nodes_of(&self, alloc: Global, view: &Text) -> Result<Reply, StepFault>
        requires { IsInStep ⟦<Seat<B> as Observer>⟧.watch self.now }
        ensures { Answers (plain_of ⟦<Seat<B> as Observer>⟧.watch self.now)
            (commands.Nodes view.now) (plain_of ⟦<Seat<B> as Observer>⟧.watch self.now) result }
    {
        self.ask_view(alloc, view)?;
        if !self.views.has(view) {
            return Ok(Reply::Nodes(self.list_nodes(alloc)?));
        }
        let layers = self.layers_of(alloc, view)?;
        Ok(Reply::Nodes(self.nodes_by(alloc, view, layers.as_slice())?))
    }

    /// The arcs that it shows.
    pub(crate) fn arcs_of(&self, alloc: Global, view: &Text) -> Result<Reply, StepFault>
        requires { IsInStep ⟦<Seat<B> as Observer>⟧.watch self.now }
        ensures { Answers (plain_of ⟦<Seat<B> as Observer>⟧.watch self.now) (commands.Arcs view.now)
            (plain_of ⟦<Seat<B> as Observer>⟧.watch self.now) result }
    {
        self.ask_view(alloc, view)?;
        if !self.views.has(view) {
            return Ok(Reply::Arcs(self.list_arcs(alloc)?));
        }
        let layers = self.layers_of(alloc, view)?;
        Ok(Reply::Arcs(self.arcs_by(alloc, view, layers.as_slice())?))
    }

    // The arcs from a node of a view, or to it. `Unknown` of the view, or else of the node.
    fn arcs_beside(
        &self,
        alloc: Global,
        view: &Text,
        way: Direction,
        node: &Text,
    ) -> Result<List<ArcLine>, StepFault>
        requires { IsInStep ⟦<Seat<B> as Observer>⟧.watch self.now }
        ensures lines { let world = plain_of ⟦<Seat<B> as Observer>⟧.watch self.now in
            IfOk result (λ lines. lines ≡ map (views.arc_line world view.now)
            (arcs_at way (views.shown_by world view.now)
            (unwrap_or (views.node_named world view.now node.now) 0))) }
        ensures meets { let world = plain_of ⟦<Seat<B> as Observer>⟧.watch self.now in
            MeetsAll world (demands.There demands.Views view.now
            ∷ demands.There (demands.NodesOf view.now) node.now ∷ []) result }
    {
        self.ask_view(alloc, view)?;
        let layers = self.layers_of(alloc, view)?;
        self.arcs_named_by(alloc, view, layers.as_slice(), way, node)
    }

    /// The arcs from a node that a view shows.
    pub(crate) fn out_of(&self, alloc: Global, view: &Text, node: &Text) -> Result<Reply, StepFault>
        requires { IsInStep ⟦<Seat<B> as Observer>⟧.watch self.now }
        ensures { Answers (plain_of ⟦<Seat<B> as Observer>⟧.watch self.now)
            (commands.Out view.now node.now)
            (plain_of ⟦<Seat<B> as Observer>⟧.watch self.now) result }
    {
        Ok(Reply::Out(self.arcs_beside(alloc, view, Direction::Out, node)?))
    }

    /// The arcs to a node that a view shows.
    pub(crate) fn in_of(&self, alloc: Global, view: &Text, node: &Text) -> Result<Reply, StepFault>
        requires { IsInStep ⟦<Seat<B> as Observer>⟧.watch self.now }
        ensures { Answers (plain_of ⟦<Seat<B> as Observer>⟧.watch self.now)
            (commands.In view.now node.now)
            (plain_of ⟦<Seat<B> as Observer>⟧.watch self.now) result }
    {
        Ok(Reply::In(self.arcs_beside(alloc, view, Direction::In, node)?))
    }
}
