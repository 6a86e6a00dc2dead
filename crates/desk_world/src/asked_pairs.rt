//! The command that finds a largest pairing of left nodes of a view with others.

ghost use Rattle.std.specs.Prelude.{◌≡◌, IfOk, OnOk, false, None, length};
ghost use Rattle.script_words.specs.declared.commands.Command.TheVariants as commands;
ghost use Rattle.plain_certificates.specs.Pairings.{IsBipartite};
ghost use Rattle.plain_certificates.specs.Tables.{at};
ghost use Rattle.plain_world.specs.Demands as demands;
ghost use Rattle.plain_world.specs.Demands.{pair_demands};
ghost use Rattle.plain_world.specs.Queries.{graph};
ghost use Rattle.plain_world.specs.Tables.{Name};
ghost use Rattle.static_digraph.specs.Fixed.{graph_of};
ghost use Rattle.desk_world.specs.AskedPairs.{AsksPairs};
ghost use Rattle.desk_world.specs.AskedViews.{Asks, left_nodes};
ghost use Rattle.desk_world.specs.Faults.{Answers, Meets, MeetsAll};
ghost use Rattle.desk_world.specs.Plain.{plain_of};
ghost use Rattle.desk_world.specs.InStep.{IsInStep};

use crate::asked_views::AskedView;
use crate::world::World;
use base_items::ItemSort;
use desk_seats::Seat;
use observe_core::Observer;
use pair_match::largest;
use report_text::{Fault, Reply, StepFault};
use script_words::MapType;
use std::alloc::Global;
use token_text::Text;
use view_numbers::first_one_sided;

/// What a query of pairs reads: the view by number, and of each node whether it is left.
#[derive(Drop)]
pub struct AskedPairs<'a> {
    pub asked: AskedView<'a>,
    pub left: Vec<bool>,
}

impl<B: Observer> World<Seat<B>> {
    // Asks that each arc joins a left node and one that isn't. `NotBipartite` with the first arc
    // that doesn't.
    fn ask_two_sided(
        &self,
        alloc: Global,
        asked: &AskedView<'_>,
        left: &[bool],
    ) -> Result<(), StepFault>
        requires in_step { IsInStep ⟦<Seat<B> as Observer>⟧.watch self.now }
        requires asks { Asks (plain_of ⟦<Seat<B> as Observer>⟧.watch self.now) asked.now }
        requires all { let world = plain_of ⟦<Seat<B> as Observer>⟧.watch self.now in
            length left.now ≡ (graph world asked.now.view.now).nodes }
        ensures meets { let world = plain_of ⟦<Seat<B> as Observer>⟧.watch self.now in
            let view = asked.now.view.now in (side : Name)
            → left.now ≡ left_nodes world view side
            → Meets world (demands.JoinsSides view side) result }
        ensures two_sided { OnOk result (IsBipartite (graph_of asked.now.fixed)
            (at false left.now)) }
    {
        let _ends_are_nodes = asked.fixed.arc_count();
        match first_one_sided(&asked.fixed, left) {
            Some(arc) => {
                let name = self.name_of_arc(alloc, asked, arc)?;
                Err(StepFault::Refused(Fault::NotBipartite(name)))
            }
            None => Ok(()),
        }
    }

    // Reads what a query of pairs asks for. The first of its demands that isn't met refuses it.
    fn ask_pairs<'a>(
        &self,
        alloc: Global,
        view: &'a Text,
        left: &Text,
    ) -> Result<AskedPairs<'a>, StepFault>
        requires { IsInStep ⟦<Seat<B> as Observer>⟧.watch self.now }
        ensures asks { let world = plain_of ⟦<Seat<B> as Observer>⟧.watch self.now in
            IfOk result (AsksPairs world view.now left.now) }
        ensures meets { let world = plain_of ⟦<Seat<B> as Observer>⟧.watch self.now in
            MeetsAll world (pair_demands view.now left.now None) result }
    {
        self.ask_view(alloc, view)?;
        self.ask_map(alloc, ItemSort::Node, left)?;
        self.ask_type(alloc, ItemSort::Node, MapType::Bools, left)?;
        let asked = self.number_view(alloc, view)?;
        let sides = self.left_of(alloc, &asked, left)?;
        self.ask_two_sided(alloc, &asked, sides.as_slice())?;
        Ok(AskedPairs { asked, left: sides })
    }

    /// A largest pairing of the left nodes of a view with others, and a set of left nodes that
    /// shows that there is no larger one.
    pub(crate) fn pair(&self, alloc: Global, view: &Text, left: &Text) -> Result<Reply, StepFault>
        requires { IsInStep ⟦<Seat<B> as Observer>⟧.watch self.now }
        ensures { Answers (plain_of ⟦<Seat<B> as Observer>⟧.watch self.now)
            (commands.Match view.now left.now)
            (plain_of ⟦<Seat<B> as Observer>⟧.watch self.now) result }
    {
        let read = self.ask_pairs(alloc, view, left)?;
        let sides = read.left.as_slice();
        let pairing = largest(alloc, &read.asked.fixed, sides)?;
        let lines = self.pair_lines(alloc, &read.asked, sides, &pairing.arcs)?;
        let hall = self.names_in(alloc, &read.asked, &pairing.hall)?;
        Ok(Reply::Match(lines, hall))
    }
}
