//! A largest flow between two nodes, and a least cut.

ghost use Rattle.std.specs.Prelude.{◌≡◌, ◌≢◌, ℕ, ◌+◌, ◌<◌, ◌≤◌, ◌^◌, length, pos, ◌<ℤ◌};
ghost use Rattle.plain_certificates.specs.Cuts.{IsCut};
ghost use Rattle.plain_certificates.specs.Numbered.{sum_to, net};
ghost use Rattle.plain_certificates.specs.Rooms.{as_flow};
ghost use Rattle.push_flow.specs.Held.{supply_of, IsHeld};
ghost use Rattle.push_flow.specs.Search.{side_of, IsShut};
ghost use Rattle.push_flow.specs.Slices.{at, ends_at, graph_of, spoke_at, task_of, AreRows};
ghost use Rattle.push_flow.specs.Slices.{AreNodes};

use crate::push::{Ends, Spoke};
use crate::settle::solve;

/// More than all arcs together can carry.
const ALL: u64 = 4611686018427387904;

/// `solve` from height 0, which is over at once where no node has excess. `none` has zeros.
fn send_back(
    ends: &[Ends],
    cap: &[u64],
    flow: &mut [u64],
    start: &[u32],
    row: &[Spoke],
    excess: &mut [u64],
    want: &mut [u64],
    before: &mut [u32],
    height: &mut [u32],
    queue: &mut [u32],
    ring: &mut [u32],
    none: &[u64],
)
    requires sizes { (length cap.now ≡ length ends.now) × (length flow.old ≡ length ends.now) }
    requires lens { (length want.old ≡ length height.old)
        × (length excess.old ≡ length height.old) × (length ring.old ≡ length height.old)
        × (length start.now ≡ length height.old + 1) × (length height.old ≤ 2 ^ 20) }
    requires more { (length before.old ≡ length height.old)
        × (length queue.old ≡ length height.old) }
    requires ends_in { (k : ℕ) → k < length ends.now
        → ((ends_at ends.now k).from < length height.old)
        × ((ends_at ends.now k).to < length height.old) }
    requires rows { AreRows (task_of (length height.old) ends.now cap.now) (at start.now)
        (spoke_at row.now) (length row.now) }
    requires held { let t = task_of (length height.old) ends.now cap.now in IsHeld t
        (supply_of t (at flow.old) (at excess.old) (at want.old)) (at flow.old) (at excess.old)
        (at want.old) (at height.old) }
    requires ring { AreNodes (length height.old) ring.old }
    requires low { (v : ℕ) → at height.old v ≡ 0 }
    requires zeros { (v : ℕ) → at none.now v ≡ 0 }
    ensures held { let t = task_of (length height.old) ends.now cap.now in IsHeld t
        (supply_of t (at flow.old) (at excess.old) (at want.old)) (at flow.new) (at excess.new)
        (at want.new) (at height.new) }
    ensures shut { IsShut (task_of (length height.old) ends.now cap.now) (at flow.new)
        (at height.new) }
    ensures quiet { (v : ℕ) → v < length height.old → at height.new v < length height.old
        → at excess.new v ≡ 0 }
{
    if &*excess == none {
        return;
    }
    solve(
        ends, cap, flow, start, row, excess, want, before, height, queue, ring,
    );
}

/// Sends as much as can be from `source` to `target`, and finds a least cut.
///
/// In the end `flow` has the flow of each arc, and the nodes where `side` has the number of nodes
/// are the cut's side: it has the source and not the target, and the arcs that leave it can carry
/// no more than the source sends. The other slices that are written to are room to work in.
///
/// There are at most 2^20 nodes, and all capacities together are below 2^61. `start` and `row` have
/// for each node the arcs at it, so each arc is at both of its ends. `flow`, `excess`, `want`,
/// `height`, `none` and `low` begin with zeros.
pub fn find_cut(
    ends: &[Ends],
    cap: &[u64],
    flow: &mut [u64],
    start: &[u32],
    row: &[Spoke],
    excess: &mut [u64],
    want: &mut [u64],
    before: &mut [u32],
    height: &mut [u32],
    queue: &mut [u32],
    ring: &mut [u32],
    side: &mut [u32],
    none: &[u64],
    low: &[u32],
    source: u32,
    target: u32,
)
    requires sizes { (length cap.now ≡ length ends.now) × (length flow.old ≡ length ends.now) }
    requires lens { (length want.old ≡ length height.old)
        × (length excess.old ≡ length height.old) × (length ring.old ≡ length height.old)
        × (length start.now ≡ length height.old + 1) × (length height.old ≤ 2 ^ 20) }
    requires more { (length before.old ≡ length height.old)
        × (length queue.old ≡ length height.old) × (length side.old ≡ length height.old)
        × (length none.now ≡ length height.old) × (length low.now ≡ length height.old) }
    requires ends_in { (k : ℕ) → k < length ends.now
        → ((ends_at ends.now k).from < length height.old)
        × ((ends_at ends.now k).to < length height.old) }
    requires rows { AreRows (task_of (length height.old) ends.now cap.now) (at start.now)
        (spoke_at row.now) (length row.now) }
    requires ring { AreNodes (length height.old) ring.old }
    requires nodes { (source < length height.old) × (target < length height.old)
        × (source ≢ target) }
    requires zero { ((k : ℕ) → at flow.old k ≡ 0) × ((v : ℕ) → at excess.old v ≡ 0)
        × ((v : ℕ) → at want.old v ≡ 0) × ((v : ℕ) → at height.old v ≡ 0) }
    requires zeros { ((v : ℕ) → at none.now v ≡ 0) × ((v : ℕ) → at low.now v ≡ 0) }
    requires light { sum_to (length ends.now) (as_flow (at cap.now)) <ℤ pos (2 ^ 61) }
    ensures { let g = graph_of (length height.old) ends.now in IsCut g (as_flow (at cap.now))
        source target (as_flow (at flow.new)) (side_of (length height.old) (at side.new))
        (net g (as_flow (at flow.new)) source) }
{
    excess[source as usize] = ALL;
    want[target as usize] = ALL;
    solve(
        ends, cap, flow, start, row, excess, want, before, height, queue, ring,
    );
    side.copy_from_slice(height);
    excess[source as usize] = 0;
    want.copy_from_slice(none);
    want[source as usize] = ALL;
    height.copy_from_slice(low);
    send_back(
        ends, cap, flow, start, row, excess, want, before, height, queue, ring, none,
    );
}
