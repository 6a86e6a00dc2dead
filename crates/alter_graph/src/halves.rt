//! What the halves of a snapshot say of their sorts.

ghost use Rattle.std.specs.Prelude.{◌≡◌, map, IfOk};
ghost use Rattle.plain_digraph.specs.Lists.{first};
ghost use Rattle.plain_digraph.specs.PlainSteps as plain;
ghost use Rattle.notify_chain.specs.Seats.{seats};
ghost use Rattle.snap_shots.specs.HalfViews as views;
ghost use Rattle.alter_graph.specs.Chains.{chains_seen};
ghost use Rattle.alter_graph.specs.Snaps.{held_at, added_of, kept_of, node_half, arc_half};
ghost use Rattle.alter_graph.specs.Steps.{plain_steps};
ghost use Rattle.alter_graph.specs.Restoring as restoring;

use crate::chains::Chains;
use crate::snaps::SnapKeys;
use crate::snapshots::HoldsHalf;
use crate::steps::Step;
use notify_chain::{Chain, SeatKey};
use snap_shots::Half;
use std::alloc::{AllocError, Global};

// The first added id of the half at a key.
fn first_added<O: HoldsHalf>(chain: &Chain<O>, key: SeatKey) -> Option<u32>
    ensures { result ≡ first (added_of (held_at key.0 (seats O.watch chain.now))) }
{
    match chain.get(key) {
        Some(o) => match o.half() {
            Some(h) => h.next_added(None),
            None => None,
        },
        None => None,
    }
}

// The placing back of all that a half keeps, by rising id.
fn gather(half: &Half, alloc: Global) -> Result<Vec<Step>, AllocError>
    ensures { IfOk result (λ steps. plain_steps steps.items
        ≡ map plain.PlaceBack (views.kept_facts half.now)) }
{
    let mut steps = Vec::new(alloc);
    let mut after = None;
    'facts: while let Some(fact) = half.next_moved(after) {
        steps.push(Step::Place(fact))?;
        after = Some(fact.id);
    }
    Ok(steps)
}

// The placing back of all that the half at a key keeps, by rising id.
fn kept_places<O: HoldsHalf>(
    chain: &Chain<O>,
    key: SeatKey,
    alloc: Global,
) -> Result<Vec<Step>, AllocError>
    ensures { IfOk result (λ steps. plain_steps steps.items
        ≡ map plain.PlaceBack (kept_of (held_at key.0 (seats O.watch chain.now)))) }
{
    match chain.get(key) {
        Some(o) => match o.half() {
            Some(h) => gather(h, alloc),
            None => Ok(Vec::new(alloc)),
        },
        None => Ok(Vec::new(alloc)),
    }
}

impl<O: HoldsHalf> Chains<O> {
    /// The placing back of the arcs that moved since the making of a snapshot, by rising id.
    pub fn places(&self, name: SnapKeys, alloc: Global) -> Result<Vec<Step>, AllocError>
        ensures { IfOk result (λ steps. plain_steps steps.items
            ≡ restoring.places name (chains_seen O.watch self.now)) }
    {
        kept_places(&self.arcs, name.arcs, alloc)
    }

    /// The first arc that was added since the making of a snapshot.
    pub fn added_arc(&self, name: SnapKeys) -> Option<u32>
        ensures { result ≡ first (added_of (arc_half name (chains_seen O.watch self.now))) }
    {
        first_added(&self.arcs, name.arcs)
    }

    /// The first node that was added since the making of a snapshot.
    pub fn added_node(&self, name: SnapKeys) -> Option<u32>
        ensures { result ≡ first (added_of (node_half name (chains_seen O.watch self.now))) }
    {
        first_added(&self.nodes, name.nodes)
    }
}
