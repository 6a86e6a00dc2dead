//! Contraction: a node goes into another.

ghost use Rattle.std.specs.Prelude.{◌≡◌, OnOk, IfOk, IfErr};
ghost use Rattle.plain_digraph.specs.Items.{IsLive};
ghost use Rattle.plain_digraph.specs.Alterations.{refusable_steps};
ghost use Rattle.plain_digraph.specs.Valid.{IsValid};
ghost use Rattle.alter_graph.specs.State.{state_of, IsInStep};
ghost use Rattle.alter_graph.specs.Steps.{plain_steps};
ghost use Rattle.alter_graph.specs.Outcome.{Alters, Stays};
ghost use Rattle.alter_graph.specs.Contraction.{contraction_of, Contracts, Keeps};

use crate::faults::AlterFault;
use crate::gathering::{push_inward, push_outward};
use crate::graph::Alterable;
use crate::steps::Step;
use base_items::{ItemSort, Node};
use list_digraph::ListDigraph;
use observe_core::Observer;
use std::alloc::{AllocError, Global};

// Room for so many moves is made at once.
const USUAL_MOVES: usize = 16;

/// All moves of a contraction of v into u. Those of targets are known before those of sources.
fn contraction_steps(
    graph: &ListDigraph,
    u: Node,
    v: Node,
    loops: bool,
    alloc: Global,
) -> Result<Vec<Step>, AllocError>
    requires valid { IsValid graph.now.graph }
    requires live { IsLive graph.now.graph ItemSort.Node v.0 }
    ensures { IfOk result (λ steps. plain_steps steps.items
        ≡ refusable_steps graph.now.graph (contraction_of loops u v)) }
{
    let mut steps = Vec::with_capacity(alloc, USUAL_MOVES)?;
    push_outward(graph, &mut steps, u, v, loops)?;
    push_inward(graph, &mut steps, u, v, loops)?;
    Ok(steps)
}

impl<O: Observer> Alterable<O> {
    /// Moves the arcs of v to u, or nothing.
    fn contract_moves(
        &mut self,
        u: Node,
        v: Node,
        loops: bool,
        alloc: Global,
    ) -> Result<(), AlterFault>
        requires in_step { IsInStep (state_of O.watch self.old) }
        requires into { IsLive self.old.graph.graph ItemSort.Node u.0 }
        requires from { IsLive self.old.graph.graph ItemSort.Node v.0 }
        ensures happens { let moves = refusable_steps self.old.graph.graph
            (contraction_of loops u v) in
            OnOk result (Alters moves moves (state_of O.watch self.old)
            (state_of O.watch self.new)) }
        ensures stays { let moves = refusable_steps self.old.graph.graph
            (contraction_of loops u v) in
            IfErr result (Stays moves (state_of O.watch self.old) (state_of O.watch self.new)) }
    {
        match contraction_steps(self.graph(), u, v, loops, alloc) {
            Ok(steps) => self.run_moves(steps.as_slice(), alloc),
            Err(_) => Err(AlterFault::Memory),
        }
    }

    /// Moves arcs of v to u, and erases v with what is left of its arcs: with `loops` all of them
    /// move, and otherwise those whose other end is neither of the two.
    ///
    /// `SameNode` exactly where u is v; `Full`, `Vetoed` or `Memory`. All is then as before.
    pub fn contract(
        &mut self,
        u: Node,
        v: Node,
        loops: bool,
        alloc: Global,
    ) -> Result<(), AlterFault>
        requires in_step { IsInStep (state_of O.watch self.old) }
        requires into { IsLive self.old.graph.graph ItemSort.Node u.0 }
        requires from { IsLive self.old.graph.graph ItemSort.Node v.0 }
        ensures contracts { OnOk result (Contracts loops u v
            (state_of O.watch self.old) (state_of O.watch self.new)) }
        ensures keeps { IfErr result (Keeps loops u v
            (state_of O.watch self.old) (state_of O.watch self.new)) }
    {
        if u.0 == v.0 {
            return Err(AlterFault::SameNode);
        }
        if let Err(fault) = self.contract_moves(u, v, loops, alloc) {
            return Err(fault);
        }
        self.erase_node(v);
        Ok(())
    }
}
