//! Restoring a snapshot.

ghost use Rattle.std.specs.Prelude.{◌≡◌, IsTrue, [], map, Contains, OnOk, IfErr};
ghost use Rattle.plain_digraph.specs.PlainSteps as plain;
ghost use Rattle.alter_graph.specs.Chains.{chains_seen};
ghost use Rattle.alter_graph.specs.Snaps.{is_valid, node_half, arc_half, added_of, kept_of};
ghost use Rattle.alter_graph.specs.Outcome.{Goes};
ghost use Rattle.alter_graph.specs.State.{state_of, IsInStep};
ghost use Rattle.alter_graph.specs.Restoring.{PlacesBack, LeavesAll, Restores};

use crate::faults::AlterFault;
use crate::graph::Alterable;
use crate::snaps::SnapKeys;
use crate::snapshots::HoldsHalf;
use base_items::{Arc, Node};
use std::alloc::Global;

impl<O: HoldsHalf> Alterable<O> {
    /// The part of a restore that may be refused: places the arcs that moved since the making
    /// back, by rising id, or does nothing.
    pub(crate) fn place_back(&mut self, name: SnapKeys, alloc: Global) -> Result<(), AlterFault>
        requires in_step { IsInStep (state_of O.watch self.old) }
        requires there { Contains self.old.chains.snaps name }
        ensures places { OnOk result (PlacesBack name
            (state_of O.watch self.old) (state_of O.watch self.new)) }
        ensures leaves { IfErr result (LeavesAll name
            (state_of O.watch self.old) (state_of O.watch self.new)) }
    {
        if !self.snapshot_valid(name) {
            return Err(AlterFault::Stale);
        }
        match self.chains().places(name, alloc) {
            Ok(steps) => self.run_moves(steps.as_slice(), alloc),
            Err(_) => Err(AlterFault::Memory),
        }
    }

    /// Erases the arcs that were added since the making, by rising id. It takes no memory.
    pub(crate) fn erase_added_arcs(&mut self, name: SnapKeys)
        requires in_step { IsInStep (state_of O.watch self.old) }
        requires there { Contains self.old.chains.snaps name }
        requires valid { IsTrue (is_valid name (chains_seen O.watch self.old.chains)) }
        requires back { kept_of (arc_half name (chains_seen O.watch self.old.chains)) ≡ [] }
        ensures goes { Goes
            (map plain.EraseArc (added_of (arc_half name (chains_seen O.watch self.old.chains))))
            (state_of O.watch self.old) (state_of O.watch self.new) }
        ensures there { Contains self.new.chains.snaps name }
        ensures valid { IsTrue (is_valid name (chains_seen O.watch self.new.chains)) }
        ensures back { kept_of (arc_half name (chains_seen O.watch self.new.chains)) ≡ [] }
        ensures none { added_of (arc_half name (chains_seen O.watch self.new.chains)) ≡ [] }
        ensures nodes { node_half name (chains_seen O.watch self.new.chains)
            ≡ node_half name (chains_seen O.watch self.old.chains) }
    {
        while let Some(id) = self.chains().added_arc(name) {
            self.erase_arc(Arc(id));
        }
    }

    /// Erases the nodes that were added since the making, by rising id, once no added arc is left
    /// and all moved ones are back: no arc is at them. It takes no memory.
    pub(crate) fn erase_added_nodes(&mut self, name: SnapKeys)
        requires in_step { IsInStep (state_of O.watch self.old) }
        requires there { Contains self.old.chains.snaps name }
        requires valid { IsTrue (is_valid name (chains_seen O.watch self.old.chains)) }
        requires back { kept_of (arc_half name (chains_seen O.watch self.old.chains)) ≡ [] }
        requires no_arcs { added_of (arc_half name (chains_seen O.watch self.old.chains)) ≡ [] }
        ensures goes { Goes
            (map plain.EraseNode (added_of (node_half name (chains_seen O.watch self.old.chains))))
            (state_of O.watch self.old) (state_of O.watch self.new) }
        ensures there { Contains self.new.chains.snaps name }
        ensures valid { IsTrue (is_valid name (chains_seen O.watch self.new.chains)) }
        ensures none { added_of (node_half name (chains_seen O.watch self.new.chains)) ≡ [] }
        ensures arcs { arc_half name (chains_seen O.watch self.new.chains)
            ≡ arc_half name (chains_seen O.watch self.old.chains) }
    {
        while let Some(id) = self.chains().added_node(name) {
            self.erase_bare(Node(id));
        }
    }

    /// Gives a valid snapshot's structure back: places the arcs that moved since the making back,
    /// each as a step that may be refused, then erases the added arcs and the added nodes, each
    /// by rising id. The snapshot is then gone. Values of maps, stamps and free ids aren't taken
    /// back, and other snapshots follow the steps as they follow all others.
    ///
    /// `Stale` exactly where an item that was there at the making was erased or cleared since;
    /// `Full(Stamps)` where fewer stamps are left than arcs moved; `Vetoed` or `Memory`. All is
    /// then as before, and the snapshot stays.
    pub fn restore(&mut self, name: SnapKeys, alloc: Global) -> Result<(), AlterFault>
        requires in_step { IsInStep (state_of O.watch self.old) }
        requires there { Contains self.old.chains.snaps name }
        ensures restores { OnOk result (Restores name
            (state_of O.watch self.old) (state_of O.watch self.new)) }
        ensures leaves { IfErr result (LeavesAll name
            (state_of O.watch self.old) (state_of O.watch self.new)) }
    {
        if let Err(fault) = self.place_back(name, alloc) {
            return Err(fault);
        }
        self.erase_added_arcs(name);
        self.erase_added_nodes(name);
        self.forget(name);
        Ok(())
    }
}
