//! All that a node with excess can do at its height.

ghost use Rattle.std.specs.Prelude.{◌≡◌, ◌≢◌, ◌⊎◌, ℕ, ◌+◌, ◌-◌, ◌<◌, ◌≤◌, ◌^◌, length, slice_set};
ghost use Rattle.push_flow.specs.Held.{supply_of, IsHeld, toil};
ghost use Rattle.push_flow.specs.Slices.{at, spoke_at, task_of, AreRows, AreNodes};

use crate::push::{Ends, Spoke, push, room_from};

/// The less of two numbers.
fn less_of(a: u64, b: u64) -> u64
    ensures { (result ≤ a) × (result ≤ b) × ((result ≡ a) ⊎ (result ≡ b)) }
{
    if a < b { a } else { b }
}

/// Puts x into the ring at `tail`, and gives the place after it.
fn queued(ring: &mut [u32], tail: u32, x: u32, nodes: u32) -> u32
    requires room { (tail < length ring.old) × (length ring.old ≤ 2 ^ 21) × (x < nodes) }
    requires nodes { AreNodes nodes ring.old }
    ensures tail { result < length ring.new }
    ensures nodes { AreNodes nodes ring.new }
{
    ring[tail as usize] = x;
    let next = tail as usize + 1;
    if next == ring.len() { 0 } else { next as u32 }
}

/// Pushes from v where that leads lower; where excess is left, v rises. Nodes with new excess are
/// put into the ring.
pub fn discharge(
    ends: &[Ends],
    cap: &[u64],
    flow: &mut [u64],
    start: &[u32],
    row: &[Spoke],
    excess: &mut [u64],
    want: &mut [u64],
    height: &mut [u32],
    ring: &mut [u32],
    tail: u32,
    v: u32,
) -> u32
    requires sizes { (length cap.now ≡ length ends.now) × (length flow.old ≡ length ends.now) }
    requires lens { (length want.old ≡ length height.old)
        × (length excess.old ≡ length height.old) × (length ring.old ≡ length height.old)
        × (length start.now ≡ length height.old + 1) × (length height.old ≤ 2 ^ 20) }
    requires node { v < length height.old }
    requires rows { AreRows (task_of (length height.old) ends.now cap.now) (at start.now)
        (spoke_at row.now) (length row.now) }
    requires held { let t = task_of (length height.old) ends.now cap.now in IsHeld t
        (supply_of t (at flow.old) (at excess.old) (at want.old)) (at flow.old) (at excess.old)
        (at want.old) (at height.old) }
    requires has { (0 < at excess.old v) × (at height.old v < length height.old) }
    requires ring { (tail < length ring.old) × AreNodes (length height.old) ring.old }
    ensures held { let t = task_of (length height.old) ends.now cap.now in IsHeld t
        (supply_of t (at flow.old) (at excess.old) (at want.old)) (at flow.new) (at excess.new)
        (at want.new) (at height.new) }
    ensures toil { toil (length height.old) (at excess.new) (at height.new)
        < toil (length height.old) (at excess.old) (at height.old) }
    ensures ring { (result < length ring.new) × AreNodes (length height.old) ring.new }
{
    let nodes = height.len() as u32;
    let here = height[v as usize];
    let end = start[v as usize + 1];
    let mut p = start[v as usize];
    let mut least = nodes;
    let mut tail = tail;
    while p < end {
        let spoke = row[p as usize];
        let over = height[spoke.far as usize] + 1;
        if over > least {
            p += 1;
        } else {
            let room = room_from(ends, cap, flow, spoke.arc, v);
            if room == 0 {
                p += 1;
            } else if over != here {
                least = over;
                p += 1;
            } else {
                let step = less_of(room, excess[v as usize]);
                push(ends, cap, flow, excess, want, spoke.arc, v, spoke.far, step);
                tail = queued(ring, tail, spoke.far, nodes);
                if excess[v as usize] == 0 {
                    return tail;
                }
                p += 1;
            }
        }
    }
    height[v as usize] = least;
    queued(ring, tail, v, nodes)
}
