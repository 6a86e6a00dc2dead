//! Alterations of a single step.

ghost use Rattle.std.specs.Prelude.{◌≡◌, OnOk, IfOk, IfErr};
ghost use Rattle.plain_digraph.specs.Items.{IsLive};
ghost use Rattle.plain_digraph.specs.Steps.{new_node, new_arc};
ghost use Rattle.plain_digraph.specs.PlainSteps as plain;
ghost use Rattle.plain_digraph.specs.Alterations.{single};
ghost use Rattle.alter_graph.specs.State.{state_of, IsInStep};
ghost use Rattle.alter_graph.specs.Outcome.{Happens, Refuses};

use crate::faults::AlterFault;
use crate::graph::Alterable;
use crate::steps::Step;
use base_items::{Arc, ItemSort, Node};
use observe_core::Observer;

impl<O: Observer> Alterable<O> {
    /// Adds a node, and answers it.
    ///
    /// `Full`, `Vetoed` or `Memory`; all is then as before.
    pub fn add_node(&mut self) -> Result<Node, AlterFault>
        requires in_step { IsInStep (state_of O.watch self.old) }
        ensures happens { OnOk result (Happens (single plain.AddNode)
            (state_of O.watch self.old) (state_of O.watch self.new)) }
        ensures node { IfOk result (λ n. n.0 ≡ new_node self.old.graph.graph) }
        ensures refuses { IfErr result (Refuses (single plain.AddNode)
            (state_of O.watch self.old) (state_of O.watch self.new)) }
    {
        match self.step(Step::AddNode) {
            Ok(done) => Ok(Node(done.fact().id)),
            Err(fault) => Err(fault),
        }
    }

    /// Adds an arc between two live nodes, and answers it.
    ///
    /// `Full`, `Vetoed` or `Memory`; all is then as before.
    pub fn add_arc(&mut self, u: Node, v: Node) -> Result<Arc, AlterFault>
        requires in_step { IsInStep (state_of O.watch self.old) }
        requires from { IsLive self.old.graph.graph ItemSort.Node u.0 }
        requires to { IsLive self.old.graph.graph ItemSort.Node v.0 }
        ensures happens { OnOk result (Happens (single (plain.AddArc u.0 v.0))
            (state_of O.watch self.old) (state_of O.watch self.new)) }
        ensures arc { IfOk result (λ a. a.0 ≡ new_arc self.old.graph.graph) }
        ensures refuses { IfErr result (Refuses (single (plain.AddArc u.0 v.0))
            (state_of O.watch self.old) (state_of O.watch self.new)) }
    {
        match self.step(Step::AddArc(u, v)) {
            Ok(done) => Ok(Arc(done.fact().id)),
            Err(fault) => Err(fault),
        }
    }

    /// Moves the source of a live arc to a live node.
    ///
    /// `Full`, `Vetoed` or `Memory`; all is then as before.
    pub fn move_from(&mut self, a: Arc, u: Node) -> Result<(), AlterFault>
        requires in_step { IsInStep (state_of O.watch self.old) }
        requires arc { IsLive self.old.graph.graph ItemSort.Arc a.0 }
        requires node { IsLive self.old.graph.graph ItemSort.Node u.0 }
        ensures happens { OnOk result (Happens (single (plain.MoveFrom a.0 u.0))
            (state_of O.watch self.old) (state_of O.watch self.new)) }
        ensures refuses { IfErr result (Refuses (single (plain.MoveFrom a.0 u.0))
            (state_of O.watch self.old) (state_of O.watch self.new)) }
    {
        match self.step(Step::MoveFrom(a, u)) {
            Ok(_) => Ok(()),
            Err(fault) => Err(fault),
        }
    }

    /// Moves the target of a live arc to a live node.
    ///
    /// `Full`, `Vetoed` or `Memory`; all is then as before.
    pub fn move_to(&mut self, a: Arc, v: Node) -> Result<(), AlterFault>
        requires in_step { IsInStep (state_of O.watch self.old) }
        requires arc { IsLive self.old.graph.graph ItemSort.Arc a.0 }
        requires node { IsLive self.old.graph.graph ItemSort.Node v.0 }
        ensures happens { OnOk result (Happens (single (plain.MoveTo a.0 v.0))
            (state_of O.watch self.old) (state_of O.watch self.new)) }
        ensures refuses { IfErr result (Refuses (single (plain.MoveTo a.0 v.0))
            (state_of O.watch self.old) (state_of O.watch self.new)) }
    {
        match self.step(Step::MoveTo(a, v)) {
            Ok(_) => Ok(()),
            Err(fault) => Err(fault),
        }
    }

    /// Exchanges the ends of a live arc.
    ///
    /// `Full`, `Vetoed` or `Memory`; all is then as before.
    pub fn turn(&mut self, a: Arc) -> Result<(), AlterFault>
        requires in_step { IsInStep (state_of O.watch self.old) }
        requires arc { IsLive self.old.graph.graph ItemSort.Arc a.0 }
        ensures happens { OnOk result (Happens (single (plain.Turn a.0))
            (state_of O.watch self.old) (state_of O.watch self.new)) }
        ensures refuses { IfErr result (Refuses (single (plain.Turn a.0))
            (state_of O.watch self.old) (state_of O.watch self.new)) }
    {
        match self.step(Step::Turn(a)) {
            Ok(_) => Ok(()),
            Err(fault) => Err(fault),
        }
    }
}
