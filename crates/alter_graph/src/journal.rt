//! The journal of an alteration: a step is told to all or taken by none, and where one is refused,
//! all steps before it are taken back.

ghost use Rattle.std.specs.Prelude.{◌≡◌, List, [], ◌∷◌, OnOk, IfOk, IfErr};
ghost use Rattle.alter_graph.specs.Chains.{chains_seen};
ghost use Rattle.alter_graph.specs.State.{state_of, IsSame, IsInStep};
ghost use Rattle.alter_graph.specs.Steps.{plain_step, plain_steps, CanTake, CanTakeAll};
ghost use Rattle.alter_graph.specs.Steps.{HasOwnPlace, HaveOwnPlaces, done_of, fact_in};
ghost use Rattle.alter_graph.specs.Steps.{back, CanGoBack, undone, CanUndo};
ghost use Rattle.alter_graph.specs.Room.{nodes_in, arcs_in};
ghost use Rattle.alter_graph.specs.Verdict.{guards_of};
ghost use Rattle.alter_graph.specs.Outcome.{Alters, Stays};
ghost use Rattle.alter_graph.specs.Parts.{Grows, Takes, Fails, Denied};

use crate::faults::{AlterFault, limit, refusal};
use crate::graph::Alterable;
use crate::steps::{Done, Step, take_step, untake};
use base_items::Fact;
use observe_core::Observer;
use std::alloc::Global;

impl<O: Observer> Alterable<O> {
    /// Takes one step and tells the chain of its sort, or does nothing.
    pub(crate) fn step(&mut self, step: Step) -> Result<Done, AlterFault>
        requires step { IsInStep (state_of O.watch self.old) }
        requires can { CanTake (plain_step step) self.old.graph.graph }
        requires own { HasOwnPlace (plain_step step) (state_of O.watch self.old) }
        ensures done { IfOk result (λ d. d ≡ done_of (plain_step step) self.old.graph.graph) }
        ensures happens { OnOk result (Alters (plain_step step ∷ []) (plain_step step ∷ [])
            (state_of O.watch self.old) (state_of O.watch self.new)) }
        ensures grows { OnOk result
            (Grows (plain_step step ∷ []) self.old.graph.graph self.new.graph.graph) }
        ensures may_return { let done = done_of (plain_step step) self.old.graph.graph in
            OnOk result (CanGoBack done (state_of O.watch self.new)) }
        ensures returns { let done = done_of (plain_step step) self.old.graph.graph in
            OnOk result (IsSame (state_of O.watch self.old)
            (back done (state_of O.watch self.new))) }
        ensures denied { IfErr result (Denied (guards_of (chains_seen O.watch self.old.chains))
            (plain_step step ∷ []) self.old.graph.graph) }
        ensures stays { IfErr result (Stays (plain_step step ∷ [])
            (state_of O.watch self.old) (state_of O.watch self.new)) }
    {
        match take_step(&mut self.graph, step) {
            Ok(done) => match self.chains.tell(&done) {
                Ok(()) => Ok(done),
                Err((key, veto)) => {
                    untake(&mut self.graph, &done);
                    Err(refusal(done.sort(), key, veto))
                }
            },
            Err(fault) => Err(limit(fault)),
        }
    }

    /// Takes one step back.
    fn step_back(&mut self, done: &Done)
        requires { CanGoBack done.now (state_of O.watch self.old) }
        ensures { IsSame (back done.now (state_of O.watch self.old)) (state_of O.watch self.new) }
    {
        untake(&mut self.graph, done);
        self.chains.untell(done);
    }

    /// Takes all of a journal back, the newest step first.
    pub(crate) fn unwind(&mut self, journal: &mut Vec<Done>)
        requires { CanUndo journal.old.items (state_of O.watch self.old) }
        ensures { IsSame (undone journal.old.items (state_of O.watch self.old))
            (state_of O.watch self.new) }
    {
        while let Some(done) = journal.pop() {
            self.step_back(&done);
        }
    }

    /// One step of an alteration. Where it is refused, all of the journal is taken back.
    pub(crate) fn attempt(
        &mut self,
        step: Step,
        journal: &mut Vec<Done>,
    ) -> Result<Fact, AlterFault>
        requires step { IsInStep (state_of O.watch self.old) }
        requires can { CanTake (plain_step step) self.old.graph.graph }
        requires own { HasOwnPlace (plain_step step) (state_of O.watch self.old) }
        requires undo { CanUndo journal.old.items (state_of O.watch self.old) }
        ensures fact { IfOk result
            (λ f. f ≡ fact_in (done_of (plain_step step) self.old.graph.graph)) }
        ensures takes { OnOk result (Takes (plain_step step ∷ []) (state_of O.watch self.old)
            (state_of O.watch self.new) journal.old.items journal.new.items) }
        ensures fails { IfErr result (Fails (plain_step step ∷ []) (state_of O.watch self.old)
            (state_of O.watch self.new) journal.old.items) }
    {
        if journal.reserve(1).is_err() {
            self.unwind(journal);
            return Err(AlterFault::Memory);
        }
        match self.step(step) {
            Ok(done) => match journal.push(done) {
                Ok(()) => Ok(done.fact()),
                Err(_) => unreachable!(),
            },
            Err(fault) => {
                self.unwind(journal);
                Err(fault)
            }
        }
    }

    /// The steps of a part of an alteration, in order.
    pub(crate) fn run(&mut self, steps: &[Step], journal: &mut Vec<Done>) -> Result<(), AlterFault>
        requires step { IsInStep (state_of O.watch self.old) }
        requires can { CanTakeAll (plain_steps steps.now) self.old.graph.graph }
        requires own { HaveOwnPlaces (plain_steps steps.now) (state_of O.watch self.old) }
        requires undo { CanUndo journal.old.items (state_of O.watch self.old) }
        ensures takes { OnOk result (Takes (plain_steps steps.now) (state_of O.watch self.old)
            (state_of O.watch self.new) journal.old.items journal.new.items) }
        ensures fails { IfErr result (Fails (plain_steps steps.now) (state_of O.watch self.old)
            (state_of O.watch self.new) journal.old.items) }
    {
        // Room for all of them at once; where it is wanting, the step that has none says so.
        let _ = journal.reserve(steps.len());
        for step in steps {
            if let Err(fault) = self.attempt(*step, journal) {
                return Err(fault);
            }
        }
        Ok(())
    }

    /// Steps that add nothing, all of them or none.
    pub(crate) fn run_moves(&mut self, steps: &[Step], alloc: Global) -> Result<(), AlterFault>
        requires step { IsInStep (state_of O.watch self.old) }
        requires can { CanTakeAll (plain_steps steps.now) self.old.graph.graph }
        requires own { HaveOwnPlaces (plain_steps steps.now) (state_of O.watch self.old) }
        requires no_nodes { nodes_in (plain_steps steps.now) ≡ 0 }
        requires no_arcs { arcs_in (plain_steps steps.now) ≡ 0 }
        ensures happens { OnOk result (Alters (plain_steps steps.now) (plain_steps steps.now)
            (state_of O.watch self.old) (state_of O.watch self.new)) }
        ensures stays { IfErr result (Stays (plain_steps steps.now)
            (state_of O.watch self.old) (state_of O.watch self.new)) }
    {
        if let Some(limit) = self.limit_passed(0, 0, steps.len() as u64) {
            return Err(AlterFault::Full(limit));
        }
        let mut journal = Vec::new(alloc);
        self.run(steps, &mut journal)
    }
}
