//! Heights: from how far a node that wants can be reached.

ghost use Rattle.std.specs.Prelude.{◌≡◌, ◌≢◌, ◌⊎◌, ℕ, ◌+◌, ◌-◌, ◌<◌, ◌≤◌, ◌^◌, length, slice_set};
ghost use Rattle.push_flow.specs.Held.{supply_of, IsHeld};
ghost use Rattle.push_flow.specs.Search.{AreRoots, IsWave};
ghost use Rattle.push_flow.specs.Slices.{at, spoke_at, task_of, AreRows};

use crate::push::{Ends, Spoke, room_to};

#[derive(Clone, Copy)]
pub struct Waved {
    pub found: u32,
    pub tail: u32,
}

/// Puts the nodes that want into the queue, at height 0, and all others at the number of nodes.
fn roots(want: &[u64], height: &mut [u32], queue: &mut [u32]) -> u32
    requires lens { (length height.old ≡ length want.now) × (length queue.old ≡ length want.now)
        × (length want.now ≤ 2 ^ 20) }
    ensures { AreRoots (length want.now) (at want.now) (at height.new) (at queue.new)
        (length want.now) result }
{
    let nodes = want.len();
    let mut tail: u32 = 0;
    let mut v: usize = 0;
    while v < nodes {
        if want[v] > 0 {
            height[v] = 0;
            queue[tail as usize] = v as u32;
            tail += 1;
            v += 1;
        } else {
            height[v] = nodes as u32;
            v += 1;
        }
    }
    tail
}

/// Reaches what has room to the node at `head`.
fn reach(
    ends: &[Ends],
    cap: &[u64],
    flow: &[u64],
    start: &[u32],
    row: &[Spoke],
    excess: &[u64],
    want: &[u64],
    before: &[u32],
    height: &mut [u32],
    queue: &mut [u32],
    found: u32,
    head: u32,
    tail: u32,
) -> u32
    requires sizes { (length cap.now ≡ length ends.now) × (length flow.now ≡ length ends.now) }
    requires lens { (length queue.old ≡ length height.old)
        × (length start.now ≡ length height.old + 1) × (length height.old ≤ 2 ^ 20) }
    requires rows { AreRows (task_of (length height.old) ends.now cap.now) (at start.now)
        (spoke_at row.now) (length row.now) }
    requires held { let t = task_of (length height.old) ends.now cap.now in IsHeld t
        (supply_of t (at flow.now) (at excess.now) (at want.now)) (at flow.now) (at excess.now)
        (at want.now) (at before.now) }
    requires wave { IsWave (task_of (length height.old) ends.now cap.now) (at flow.now)
        (at excess.now) (at want.now) (at before.now) (at height.old) (at queue.old) found head
        tail }
    requires here { (head < tail)
        × (length height.old ≤ found → at excess.now (at queue.old head) ≡ 0) }
    ensures { IsWave (task_of (length height.old) ends.now cap.now) (at flow.now) (at excess.now)
        (at want.now) (at before.now) (at height.new) (at queue.new) found (head + 1) result }
{
    let nodes = height.len() as u32;
    let v = queue[head as usize];
    let over = height[v as usize] + 1;
    let end = start[v as usize + 1];
    let mut p = start[v as usize];
    let mut tail = tail;
    while p < end {
        let spoke = row[p as usize];
        if height[spoke.far as usize] < nodes {
            p += 1;
        } else {
            let room = room_to(ends, cap, flow, spoke.arc, v);
            if room == 0 {
                p += 1;
            } else {
                height[spoke.far as usize] = over;
                queue[tail as usize] = spoke.far;
                tail += 1;
                p += 1;
            }
        }
    }
    tail
}

/// The node, where it has excess, else what was found before.
fn noted(excess: &[u64], v: u32, found: u32) -> u32
    requires { v < length excess.now }
    ensures some { 0 < at excess.now v → result ≡ v }
    ensures none { at excess.now v ≡ 0 → result ≡ found }
{
    if excess[v as usize] > 0 { v } else { found }
}

/// Raises the heights to the distances from nodes that want. The result has excess and isn't at the
/// highest height, or is the number of nodes, where nothing with excess is reached. `before` has
/// the heights as they were.
pub fn wave(
    ends: &[Ends],
    cap: &[u64],
    flow: &[u64],
    start: &[u32],
    row: &[Spoke],
    excess: &[u64],
    want: &[u64],
    before: &[u32],
    height: &mut [u32],
    queue: &mut [u32],
) -> Waved
    requires sizes { (length cap.now ≡ length ends.now) × (length flow.now ≡ length ends.now) }
    requires lens { (length queue.old ≡ length height.old)
        × (length excess.now ≡ length height.old) × (length want.now ≡ length height.old)
        × (length start.now ≡ length height.old + 1) × (length height.old ≤ 2 ^ 20) }
    requires rows { AreRows (task_of (length height.old) ends.now cap.now) (at start.now)
        (spoke_at row.now) (length row.now) }
    requires held { let t = task_of (length height.old) ends.now cap.now in IsHeld t
        (supply_of t (at flow.now) (at excess.now) (at want.now)) (at flow.now) (at excess.now)
        (at want.now) (at before.now) }
    ensures { IsWave (task_of (length height.old) ends.now cap.now) (at flow.now) (at excess.now)
        (at want.now) (at before.now) (at height.new) (at queue.new) result.found result.tail
        result.tail }
{
    let nodes = height.len() as u32;
    let mut tail = roots(want, height, queue);
    let mut head: u32 = 0;
    let mut found = nodes;
    while head < tail {
        let v = queue[head as usize];
        found = noted(excess, v, found);
        tail = reach(
            ends, cap, flow, start, row, excess, want, before, height, queue, found, head, tail,
        );
        head += 1;
    }
    Waved { found, tail }
}
