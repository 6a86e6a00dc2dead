//! Sending round a cycle.

ghost use Rattle.std.specs.Prelude.{◌≡◌, ℕ, ◌+◌, ◌-◌, ◌<◌, ◌≤◌, length, slice_set};
ghost use Rattle.plain_certificates.specs.Rooms.{room_from, room_to, sent_from, sent_to};
ghost use Rattle.pivot_flow.specs.Send.{CanSend, IsSent};
ghost use Rattle.pivot_flow.specs.Tree.{IsHung, at, graph_of, task_of, tree_of};

use crate::look::{Ends, Found};

/// Sends `step` over the arc k to its end v.
fn send_to(ends: &[Ends], cap: &[u64], flow: &mut [u64], k: u32, v: u32, step: u64)
    requires arc { k < length ends.now }
    requires sizes { (length cap.now ≡ length ends.now) × (length flow.old ≡ length ends.now) }
    requires within { at flow.old k ≤ at cap.now k }
    requires room { step ≤ room_to (graph_of 0 ends.now) (at cap.now) (at flow.old) k v }
    ensures { flow.new ≡ slice_set flow.old k
        (sent_to (graph_of 0 ends.now) (at flow.old) k v step) }
{
    let k = k as usize;
    prove!(flow[k] <= cap[k]);
    if ends[k].from == v {
        flow[k] -= step;
    } else {
        flow[k] += step;
    }
}

/// Sends `step` over the arc k away from its end v.
fn send_from(ends: &[Ends], cap: &[u64], flow: &mut [u64], k: u32, v: u32, step: u64)
    requires arc { k < length ends.now }
    requires sizes { (length cap.now ≡ length ends.now) × (length flow.old ≡ length ends.now) }
    requires within { at flow.old k ≤ at cap.now k }
    requires room { step ≤ room_from (graph_of 0 ends.now) (at cap.now) (at flow.old) k v }
    ensures { flow.new ≡ slice_set flow.old k
        (sent_from (graph_of 0 ends.now) (at flow.old) k v step) }
{
    let k = k as usize;
    prove!(flow[k] <= cap[k]);
    if ends[k].from == v {
        flow[k] += step;
    } else {
        flow[k] -= step;
    }
}

/// Sends `step` along the tree from the apex down to i, and from j up to the apex.
#[inline(never)]
pub fn send(
    ends: &[Ends],
    cap: &[u64],
    flow: &mut [u64],
    parent: &[u32],
    arc: &[u32],
    depth: &[u32],
    i: u32,
    j: u32,
    found: &Found,
)
    requires sizes { (length cap.now ≡ length ends.now) × (length flow.old ≡ length ends.now) }
    requires nodes { (length arc.now ≡ length parent.now) × (length depth.now ≡ length parent.now) }
    requires ends_in { (i < length parent.now) × (j < length parent.now) }
    requires within { (k : ℕ) → k < length ends.now → at flow.old k ≤ at cap.now k }
    requires hung { IsHung (task_of (length parent.now) ends.now cap.now)
        (tree_of parent.now arc.now depth.now) }
    requires can { CanSend (task_of (length parent.now) ends.now cap.now)
        (tree_of parent.now arc.now depth.now) (at flow.old) i j found.now.apex found.now.step }
    ensures { IsSent (task_of (length parent.now) ends.now cap.now)
        (tree_of parent.now arc.now depth.now) (at flow.old) (at flow.new) i j found.now.apex
        found.now.apex found.now.step }
{
    let step = found.step;
    let mut a = i;
    let mut b = j;
    while a != b {
        if depth[a as usize] >= depth[b as usize] {
            send_to(ends, cap, flow, arc[a as usize], a, step);
            a = parent[a as usize];
        } else {
            send_from(ends, cap, flow, arc[b as usize], b, step);
            b = parent[b as usize];
        }
    }
}
