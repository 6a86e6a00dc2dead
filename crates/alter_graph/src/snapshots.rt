//! Snapshots are made, asked, and forgotten.

ghost use Rattle.std.specs.Prelude.{◌≡◌, IfSome, IfNone};
ghost use Rattle.observe_core.specs.Saved as saved;
ghost use Rattle.notify_chain.specs.Seats.{seats};
ghost use Rattle.alter_graph.specs.Chains.{chains_seen};
ghost use Rattle.alter_graph.specs.Snaps.{held_at, is_valid};
ghost use Rattle.alter_graph.specs.Snapping.{Makes, forgotten};
ghost use Rattle.alter_graph.specs.State.{state_of, IsSame, IsInStep, SnapsStay};

use crate::gathering::all_facts;
use crate::graph::Alterable;
use crate::snaps::SnapKeys;
use base_items::ItemSort;
use notify_chain::{Chain, SeatKey};
use observe_core::Observer;
use snap_shots::Half;
use std::alloc::Global;

/// An observer that may be half of a snapshot.
pub trait HoldsHalf: Observer {
    ghost use Rattle.std.specs.Prelude.{◌≡◌, IfSome, IfNone};
    ghost use Rattle.snap_shots.specs.HalfViews.{half_seen};
    ghost use Rattle.alter_graph.specs.Snaps.{half_of, IsHalf};

    /// The observer that is this half, seen as the half is by itself.
    fn from_half(half: Half) -> Self
        ensures { (Self.watch result).seen ≡ half_seen half };

    /// The half that it is. None exactly where it isn't one: something with another form may hold a
    /// half, but isn't one.
    fn half(&self) -> Option<&Half>
        ensures some { IfSome result (λ h. half_seen h.now ≡ (Self.watch self.now).seen) }
        ensures none { IfNone result (IsHalf (half_of (Self.watch self.now).seen) → ⊥) };
}

impl HoldsHalf for Half {
    fn from_half(half: Half) -> Half {
        half
    }

    fn half(&self) -> Option<&Half> {
        Some(self)
    }
}

/// Whether the half at a key is valid.
fn half_valid<O: HoldsHalf>(chain: &Chain<O>, key: SeatKey) -> bool
    ensures { result ≡ saved.is_valid (held_at key.0 (seats O.watch chain.now)) }
{
    match chain.get(key) {
        Some(o) => match o.half() {
            Some(h) => h.valid(),
            None => true,
        },
        None => true,
    }
}

impl<O: HoldsHalf> Alterable<O> {
    /// Makes a snapshot of all items that are there, by the build of a half for either sort.
    /// Nothing is copied. None for want of memory; all is then as before.
    pub fn snapshot(&mut self, alloc: Global) -> Option<SnapKeys>
        requires in_step { IsInStep (state_of O.watch self.old) }
        ensures makes { IfSome result (λ name. Makes name
            (state_of O.watch self.old) (state_of O.watch self.new)) }
        ensures same { IfNone result
            (IsSame (state_of O.watch self.old) (state_of O.watch self.new)) }
        ensures in_step { IsInStep (state_of O.watch self.new) }
    {
        let nodes = match all_facts(&self.graph, ItemSort::Node, alloc) {
            Ok(nodes) => nodes,
            Err(_) => return None,
        };
        let arcs = match all_facts(&self.graph, ItemSort::Arc, alloc) {
            Ok(arcs) => arcs,
            Err(_) => return None,
        };
        let node = O::from_half(Half::new(alloc));
        let arc = O::from_half(Half::new(alloc));
        self.chains
            .snapshot(node, arc, nodes.as_slice(), arcs.as_slice())
    }

    /// Whether no item that was there at the making of a snapshot was erased or cleared.
    pub fn snapshot_valid(&self, name: SnapKeys) -> bool
        ensures { result ≡ is_valid name (chains_seen O.watch self.now.chains) }
    {
        half_valid(&self.chains.nodes, name.nodes) && half_valid(&self.chains.arcs, name.arcs)
    }

    /// Takes both halves of a snapshot out, which is then gone. The digraph, the other seats and
    /// the other snapshots stay.
    pub fn forget(&mut self, name: SnapKeys)
        ensures graph { self.new.graph ≡ self.old.graph }
        ensures forgotten { chains_seen O.watch self.new.chains
            ≡ forgotten name (chains_seen O.watch self.old.chains) }
        ensures in_step { IsInStep (state_of O.watch self.old)
            → IsInStep (state_of O.watch self.new) }
        ensures snaps { IsInStep (state_of O.watch self.old) → SnapsStay self.new.chains.snaps
            (state_of O.watch self.old) (state_of O.watch self.new) }
    {
        self.detach(ItemSort::Node, name.nodes);
        self.detach(ItemSort::Arc, name.arcs);
    }
}
