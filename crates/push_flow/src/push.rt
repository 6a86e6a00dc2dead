//! One push along one arc.

ghost use Rattle.std.specs.Prelude.{◌≡◌, ◌≢◌, ℕ, ◌+◌, ◌-◌, ◌<◌, ◌≤◌, ◌^◌, length, slice_set};
ghost use Rattle.plain_certificates.specs.Rooms.{Joins, room_from, room_to, sent_from};
ghost use Rattle.push_flow.specs.Slices.{at, graph_of};

#[derive(Clone, Copy)]
pub struct Ends {
    pub from: u32,
    pub to: u32,
}

/// An arc at a node, and its other end.
#[derive(Clone, Copy)]
pub struct Spoke {
    pub arc: u32,
    pub far: u32,
}

/// What can be sent away from v over the arc k, whose end it is.
pub fn room_from(ends: &[Ends], cap: &[u64], flow: &[u64], k: u32, v: u32) -> u64
    requires arc { k < length ends.now }
    requires sizes { (length cap.now ≡ length ends.now) × (length flow.now ≡ length ends.now) }
    requires within { at flow.now k ≤ at cap.now k }
    ensures { result ≡ room_from (graph_of 0 ends.now) (at cap.now) (at flow.now) k v }
{
    let k = k as usize;
    if ends[k].from == v {
        cap[k] - flow[k]
    } else {
        flow[k]
    }
}

/// What can be sent to v over the arc k, whose end it is.
pub fn room_to(ends: &[Ends], cap: &[u64], flow: &[u64], k: u32, v: u32) -> u64
    requires arc { k < length ends.now }
    requires sizes { (length cap.now ≡ length ends.now) × (length flow.now ≡ length ends.now) }
    requires within { at flow.now k ≤ at cap.now k }
    ensures { result ≡ room_to (graph_of 0 ends.now) (at cap.now) (at flow.now) k v }
{
    let k = k as usize;
    if ends[k].from == v {
        flow[k]
    } else {
        cap[k] - flow[k]
    }
}

/// Sends `step` over the arc k away from its end v.
fn send_from(ends: &[Ends], cap: &[u64], flow: &mut [u64], k: u32, v: u32, step: u64)
    requires arc { k < length ends.now }
    requires sizes { (length cap.now ≡ length ends.now) × (length flow.old ≡ length ends.now) }
    requires within { at flow.old k ≤ at cap.now k }
    requires room { step ≤ room_from (graph_of 0 ends.now) (at cap.now) (at flow.old) k v }
    ensures { flow.new ≡ slice_set flow.old k
        (sent_from (graph_of 0 ends.now) (at flow.old) k v step) }
{
    let k = k as usize;
    prove!(flow[k] <= cap[k]);
    if ends[k].from == v {
        flow[k] += step;
    } else {
        flow[k] -= step;
    }
}

/// Gives `step` to u, what it wants first.
fn give(excess: &mut [u64], want: &mut [u64], u: u32, step: u64)
    requires sizes { (u < length excess.old) × (length want.old ≡ length excess.old) }
    requires small { at excess.old u + step ≤ 2 ^ 63 }
    ensures excess { excess.new
        ≡ slice_set excess.old u (at excess.old u + (step - at want.old u)) }
    ensures want { want.new ≡ slice_set want.old u (at want.old u - step) }
{
    let u = u as usize;
    let wanted = want[u];
    if step <= wanted {
        want[u] = wanted - step;
        excess[u] += 0;
    } else {
        want[u] = 0;
        excess[u] += step - wanted;
    }
}

/// Sends `step` of the excess of v over the arc k to u.
pub fn push(
    ends: &[Ends],
    cap: &[u64],
    flow: &mut [u64],
    excess: &mut [u64],
    want: &mut [u64],
    k: u32,
    v: u32,
    u: u32,
    step: u64,
)
    requires arc { k < length ends.now }
    requires sizes { (length cap.now ≡ length ends.now) × (length flow.old ≡ length ends.now) }
    requires nodes { (v < length excess.old) × (u < length excess.old)
        × (length want.old ≡ length excess.old) × (v ≢ u) }
    requires within { at flow.old k ≤ at cap.now k }
    requires room { step ≤ room_from (graph_of 0 ends.now) (at cap.now) (at flow.old) k v }
    requires has { step ≤ at excess.old v }
    requires small { at excess.old u + step ≤ 2 ^ 63 }
    ensures flow { flow.new
        ≡ slice_set flow.old k (sent_from (graph_of 0 ends.now) (at flow.old) k v step) }
    ensures excess { excess.new
        ≡ slice_set (slice_set excess.old v (at excess.old v - step)) u
        (at excess.old u + (step - at want.old u)) }
    ensures want { want.new ≡ slice_set want.old u (at want.old u - step) }
{
    send_from(ends, cap, flow, k, v, step);
    excess[v as usize] -= step;
    give(excess, want, u, step);
}
