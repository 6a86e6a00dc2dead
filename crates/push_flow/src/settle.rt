//! The main loop: heights, then pushes, until no excess can go where it is wanted.

ghost use Rattle.std.specs.Prelude.{◌≡◌, ◌≢◌, ◌⊎◌, ℕ, ◌+◌, ◌-◌, ◌<◌, ◌≤◌, ◌^◌, length, slice_set};
ghost use Rattle.push_flow.specs.Held.{supply_of, IsHeld, toil};
ghost use Rattle.push_flow.specs.Search.{IsWave, IsShut};
ghost use Rattle.push_flow.specs.Slices.{at, ends_at, spoke_at, task_of, AreRows, AreNodes};

use crate::discharge::discharge;
use crate::push::{Ends, Spoke};
use crate::wave::{Waved, wave};

/// The place after `place` in a ring.
fn after(place: u32, size: usize) -> u32
    requires { (place < size) × (size ≤ 2 ^ 21) }
    ensures { result < size }
{
    if place as usize + 1 == size {
        0
    } else {
        place + 1
    }
}

/// Pushes from v, where it has excess and isn't at the highest height.
fn visit(
    ends: &[Ends],
    cap: &[u64],
    flow: &mut [u64],
    start: &[u32],
    row: &[Spoke],
    excess: &mut [u64],
    want: &mut [u64],
    height: &mut [u32],
    ring: &mut [u32],
    tail: u32,
    v: u32,
) -> u32
    requires sizes { (length cap.now ≡ length ends.now) × (length flow.old ≡ length ends.now) }
    requires lens { (length want.old ≡ length height.old)
        × (length excess.old ≡ length height.old) × (length ring.old ≡ length height.old)
        × (length start.now ≡ length height.old + 1) × (length height.old ≤ 2 ^ 20) }
    requires node { v < length height.old }
    requires rows { AreRows (task_of (length height.old) ends.now cap.now) (at start.now)
        (spoke_at row.now) (length row.now) }
    requires held { let t = task_of (length height.old) ends.now cap.now in IsHeld t
        (supply_of t (at flow.old) (at excess.old) (at want.old)) (at flow.old) (at excess.old)
        (at want.old) (at height.old) }
    requires ring { (tail < length ring.old) × AreNodes (length height.old) ring.old }
    ensures held { let t = task_of (length height.old) ends.now cap.now in IsHeld t
        (supply_of t (at flow.old) (at excess.old) (at want.old)) (at flow.new) (at excess.new)
        (at want.new) (at height.new) }
    ensures toil { toil (length height.old) (at excess.new) (at height.new)
        ≤ toil (length height.old) (at excess.old) (at height.old) }
    ensures ring { (result < length ring.new) × AreNodes (length height.old) ring.new }
{
    if excess[v as usize] == 0 {
        return tail;
    }
    if height[v as usize] as usize == height.len() {
        return tail;
    }
    discharge(
        ends, cap, flow, start, row, excess, want, height, ring, tail, v,
    )
}

/// Pushes from `found`, from the nodes of the queue, the last first, and from the nodes that get
/// excess meanwhile.
fn turn(
    ends: &[Ends],
    cap: &[u64],
    flow: &mut [u64],
    start: &[u32],
    row: &[Spoke],
    excess: &mut [u64],
    want: &mut [u64],
    height: &mut [u32],
    queue: &[u32],
    ring: &mut [u32],
    found: u32,
    size: u32,
)
    requires sizes { (length cap.now ≡ length ends.now) × (length flow.old ≡ length ends.now) }
    requires lens { (length want.old ≡ length height.old)
        × (length excess.old ≡ length height.old) × (length ring.old ≡ length height.old)
        × (length start.now ≡ length height.old + 1) × (length height.old ≤ 2 ^ 20) }
    requires node { found < length height.old }
    requires rows { AreRows (task_of (length height.old) ends.now cap.now) (at start.now)
        (spoke_at row.now) (length row.now) }
    requires held { let t = task_of (length height.old) ends.now cap.now in IsHeld t
        (supply_of t (at flow.old) (at excess.old) (at want.old)) (at flow.old) (at excess.old)
        (at want.old) (at height.old) }
    requires has { (0 < at excess.old found) × (at height.old found < length height.old) }
    requires queue { (size ≤ length queue.now)
        × ((i : ℕ) → i < size → at queue.now i < length height.old) }
    requires ring { AreNodes (length height.old) ring.old }
    ensures held { let t = task_of (length height.old) ends.now cap.now in IsHeld t
        (supply_of t (at flow.old) (at excess.old) (at want.old)) (at flow.new) (at excess.new)
        (at want.new) (at height.new) }
    ensures toil { toil (length height.old) (at excess.new) (at height.new)
        < toil (length height.old) (at excess.old) (at height.old) }
    ensures ring { AreNodes (length height.old) ring.new }
{
    let mut tail = discharge(
        ends, cap, flow, start, row, excess, want, height, ring, 0, found,
    );
    let mut i = size;
    while i > 0 {
        i -= 1;
        tail = visit(
            ends,
            cap,
            flow,
            start,
            row,
            excess,
            want,
            height,
            ring,
            tail,
            queue[i as usize],
        );
    }
    let mut head: u32 = 0;
    let mut fuel = 4 * ring.len() as u32;
    while fuel > 0 {
        if head == tail {
            return;
        }
        let v = ring[head as usize];
        tail = visit(
            ends, cap, flow, start, row, excess, want, height, ring, tail, v,
        );
        head = after(head, ring.len());
        fuel -= 1;
    }
}

/// Moves excess to where it is wanted, until none can be moved: the nodes that are below the number
/// of nodes in `height` have no excess then, and no arc with room leads to them from the others.
///
/// Each node sends out what it did and what it loses of its excess or its want. `start` and `row`
/// have for each node the arcs at it; `before`, `queue` and `ring` are room to work in.
pub fn solve(
    ends: &[Ends],
    cap: &[u64],
    flow: &mut [u64],
    start: &[u32],
    row: &[Spoke],
    excess: &mut [u64],
    want: &mut [u64],
    before: &mut [u32],
    height: &mut [u32],
    queue: &mut [u32],
    ring: &mut [u32],
)
    requires sizes { (length cap.now ≡ length ends.now) × (length flow.old ≡ length ends.now) }
    requires lens { (length want.old ≡ length height.old)
        × (length excess.old ≡ length height.old) × (length ring.old ≡ length height.old)
        × (length start.now ≡ length height.old + 1) × (length height.old ≤ 2 ^ 20) }
    requires more { (length before.old ≡ length height.old)
        × (length queue.old ≡ length height.old) }
    requires ends_in { (k : ℕ) → k < length ends.now
        → ((ends_at ends.now k).from < length height.old)
        × ((ends_at ends.now k).to < length height.old) }
    requires rows { AreRows (task_of (length height.old) ends.now cap.now) (at start.now)
        (spoke_at row.now) (length row.now) }
    requires held { let t = task_of (length height.old) ends.now cap.now in IsHeld t
        (supply_of t (at flow.old) (at excess.old) (at want.old)) (at flow.old) (at excess.old)
        (at want.old) (at height.old) }
    requires ring { AreNodes (length height.old) ring.old }
    ensures held { let t = task_of (length height.old) ends.now cap.now in IsHeld t
        (supply_of t (at flow.old) (at excess.old) (at want.old)) (at flow.new) (at excess.new)
        (at want.new) (at height.new) }
    ensures ring { AreNodes (length height.old) ring.new }
    ensures shut { IsShut (task_of (length height.old) ends.now cap.now) (at flow.new)
        (at height.new) }
    ensures quiet { (v : ℕ) → v < length height.old → at height.new v < length height.old
        → at excess.new v ≡ 0 }
{
    let nodes = height.len();
    before.copy_from_slice(height);
    let mut waved = wave(
        ends, cap, flow, start, row, excess, want, before, height, queue,
    );
    while (waved.found as usize) < nodes {
        turn(
            ends,
            cap,
            flow,
            start,
            row,
            excess,
            want,
            height,
            queue,
            ring,
            waved.found,
            waved.tail,
        );
        before.copy_from_slice(height);
        waved = wave(
            ends, cap, flow, start, row, excess, want, before, height, queue,
        );
    }
}
