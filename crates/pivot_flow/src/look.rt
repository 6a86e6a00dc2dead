//! The cycle that an entering arc closes, and the arc that leaves the tree.

ghost use Rattle.std.specs.Prelude.{◌≡◌, ℕ, ◌+◌, ◌-◌, ◌<◌, ◌≤◌, length, All};
ghost use Rattle.plain_certificates.specs.Rooms.{room_from, room_to};
ghost use Rattle.pivot_flow.specs.Look.{IsLook};
ghost use Rattle.pivot_flow.specs.Tree.{IsHung, at, graph_of, task_of, tree_of};

#[derive(Clone, Copy)]
pub struct Ends {
    pub from: u32,
    pub to: u32,
}

/// Which arc of the cycle leaves the tree: the entering arc itself, or the arc above a node of
/// the part of the cycle before the entering arc, or of the part after it.
#[derive(Clone, Copy)]
pub enum Leaves {
    Enters,
    Before(u32),
    After(u32),
}

#[derive(Clone, Copy)]
pub struct Found {
    pub apex: u32,
    pub step: u64,
    pub leaves: Leaves,
}

/// What can be sent to v over the arc k, whose end it is.
fn room_to(ends: &[Ends], cap: &[u64], flow: &[u64], k: u32, v: u32) -> u64
    requires arc { k < length ends.now }
    requires sizes { (length cap.now ≡ length ends.now) × (length flow.now ≡ length ends.now) }
    requires within { at flow.now k ≤ at cap.now k }
    ensures { result ≡ room_to (graph_of 0 ends.now) (at cap.now) (at flow.now) k v }
{
    let k = k as usize;
    let sent = flow[k];
    let left = cap[k] - sent;
    if ends[k].from == v { sent } else { left }
}

/// What can be sent away from v over the arc k, whose end it is.
fn room_from(ends: &[Ends], cap: &[u64], flow: &[u64], k: u32, v: u32) -> u64
    requires arc { k < length ends.now }
    requires sizes { (length cap.now ≡ length ends.now) × (length flow.now ≡ length ends.now) }
    requires within { at flow.now k ≤ at cap.now k }
    ensures { result ≡ room_from (graph_of 0 ends.now) (at cap.now) (at flow.now) k v }
{
    let k = k as usize;
    let sent = flow[k];
    let left = cap[k] - sent;
    if ends[k].from == v { left } else { sent }
}

/// The arc that leaves the tree when an arc from i to j with some room enters, and what is sent
/// round then.
#[inline(never)]
pub fn look(
    ends: &[Ends],
    cap: &[u64],
    flow: &[u64],
    parent: &[u32],
    arc: &[u32],
    depth: &[u32],
    i: u32,
    j: u32,
    room: u64,
) -> Found
    requires sizes { (length cap.now ≡ length ends.now) × (length flow.now ≡ length ends.now) }
    requires nodes { (length arc.now ≡ length parent.now) × (length depth.now ≡ length parent.now) }
    requires ends_in { (i < length parent.now) × (j < length parent.now) }
    requires within { (k : ℕ) → k < length ends.now → at flow.now k ≤ at cap.now k }
    requires hung { IsHung (task_of (length parent.now) ends.now cap.now)
        (tree_of parent.now arc.now depth.now) }
    ensures { IsLook (task_of (length parent.now) ends.now cap.now)
        (tree_of parent.now arc.now depth.now) (at flow.now) i j room result.apex result.apex
        result.step result.leaves }
{
    let mut a = i;
    let mut b = j;
    let mut step = room;
    let mut leaves = Leaves::Enters;
    while a != b {
        if depth[a as usize] >= depth[b as usize] {
            let found = room_to(ends, cap, flow, arc[a as usize], a);
            if found <= step {
                step = found;
                leaves = Leaves::Before(a);
            }
            a = parent[a as usize];
        } else {
            let found = room_from(ends, cap, flow, arc[b as usize], b);
            if found < step {
                step = found;
                leaves = Leaves::After(b);
            }
            b = parent[b as usize];
        }
    }
    Found {
        apex: a,
        step,
        leaves,
    }
}
