//! Pivots until none is left.

ghost use Rattle.std.specs.Prelude.{[], ◌≡◌, ◌≢◌, ℕ, ◌+◌, ◌-◌, ◌*◌, ◌<◌, ◌≤◌, ◌^◌, length, pos};
ghost use Rattle.std.specs.Prelude.{neg_ℤ, ◌+ℤ◌, ◌≤ℤ◌, MatchOption};
ghost use Rattle.plain_certificates.specs.Cheapest.{IsBasic};
ghost use Rattle.plain_certificates.specs.Numbered.{EndsAreNodes};
ghost use Rattle.plain_certificates.specs.Rooms.{as_flow};
ghost use Rattle.pivot_flow.specs.Enter.{MayEnter, NoneEnters, enter_room, head_of, tail_of};
ghost use Rattle.pivot_flow.specs.Kids.{AreKids, bare, links_of};
ghost use Rattle.pivot_flow.specs.Look.{IsLook};
ghost use Rattle.pivot_flow.specs.Open.{IsOpenFree, IsRoomy};
ghost use Rattle.pivot_flow.specs.Spread.{price_at};
ghost use Rattle.pivot_flow.specs.State.{IsCosted, IsState, cap_bounds, sends_of};
ghost use Rattle.pivot_flow.specs.Tree.{at, task_of, tree_of};

use crate::entering::{Entering, seek};
use crate::look::{Ends, Found, look};
use crate::pivot::{head_of, pivot, tail_of};

/// No cycle with a bound has so much room.
const ENDLESS: u64 = 2305843009213693952;

/// An arc that enters, and the cycle that it closes, on which nothing blocks.
#[derive(Clone, Copy)]
pub struct Endless {
    pub entering: Entering,
    pub found: Found,
}

/// What can be sent over the arc e.
fn room_of(ends: &[Ends], cap: &[u64], flow: &[u64], e: u32, forward: bool) -> u64
    requires arc { e < length ends.now }
    requires sizes { (length cap.now ≡ length ends.now) × (length flow.now ≡ length ends.now) }
    requires within { at flow.now e ≤ at cap.now e }
    ensures { result ≡ enter_room (task_of 0 ends.now cap.now) (at flow.now) e forward }
{
    let k = e as usize;
    if forward { cap[k] - flow[k] } else { flow[k] }
}

/// Where the next search begins, when the last one ended at `after`.
fn next_start(after: u32, front: u32) -> u32
    ensures { result ≤ front }
{
    if after < front { after } else { 0 }
}

/// Pivots until no arc may enter, or until a cycle has more room than any bound leaves.
///
/// The arcs below `front` are sought first, and the others only where none of these may enter.
pub fn solve(
    ends: &[Ends],
    cap: &[u64],
    cost: &[i64],
    flow: &mut [u64],
    first: &mut [u32],
    next: &mut [u32],
    prev: &mut [u32],
    parent: &mut [u32],
    arc: &mut [u32],
    depth: &mut [u32],
    price: &mut [i64],
    queue: &mut [u32],
    front: u32,
    block: u32,
) -> Option<Endless>
    requires arcs { (length cap.now ≡ length ends.now) × (length flow.old ≡ length ends.now)
        × (length cost.now ≡ length ends.now) }
    requires sizes { (length first.old ≡ length parent.old) × (length next.old ≡ length parent.old)
        × (length prev.old ≡ length parent.old) }
    requires lens { (length arc.old ≡ length parent.old) × (length depth.old ≡ length parent.old)
        × (length price.old ≡ length parent.old) × (length queue.old ≡ length parent.old) }
    requires front { front ≤ length ends.now }
    requires block { (0 < block) × (length ends.now ≤ 2 ^ 23) }
    requires shape { EndsAreNodes (task_of (length parent.old) ends.now cap.now).net }
    requires costed { IsCosted (task_of (length parent.old) ends.now cap.now) (price_at cost.now) }
    requires kids { AreKids (bare (length parent.old)) (links_of first.old next.old prev.old)
        (at parent.old) }
    requires state { let t = task_of (length parent.old) ends.now cap.now in
        IsState t (sends_of t (at flow.old)) (price_at cost.now)
        (tree_of parent.old arc.old depth.old) (at flow.old) (price_at price.old) }
    requires roomy { let t = task_of (length parent.old) ends.now cap.now in
        IsRoomy t (sends_of t (at flow.old)) }
    requires free { IsOpenFree (task_of (length parent.old) ends.now cap.now) (at flow.old)
        (2 ^ 37) }
    ensures basic { let t = task_of (length parent.old) ends.now cap.now in
        IsBasic t.net
        (cap_bounds t (sends_of t (at flow.old))) (as_flow (at flow.new)) }
    ensures free { IsOpenFree (task_of (length parent.old) ends.now cap.now) (at flow.new)
        (2 ^ 37) }
    ensures kids { AreKids (bare (length parent.old)) (links_of first.new next.new prev.new)
        (at parent.new) }
    ensures state { let t = task_of (length parent.old) ends.now cap.now in
        IsState t (sends_of t (at flow.old)) (price_at cost.now)
        (tree_of parent.new arc.new depth.new) (at flow.new) (price_at price.new) }
    ensures ends { let t = task_of (length parent.old) ends.now cap.now in
        MatchOption result (NoneEnters t (price_at cost.now) (at flow.new) (price_at price.new))
        (λ x. MayEnter t (price_at cost.now) (at flow.new) (price_at price.new) x.entering.arc
        x.entering.forward
        × (IsLook t (tree_of parent.new arc.new depth.new) (at flow.new)
        (tail_of t.net x.entering.arc x.entering.forward)
        (head_of t.net x.entering.arc x.entering.forward)
        (enter_room t (at flow.new) x.entering.arc x.entering.forward) x.found.apex x.found.apex
        x.found.step x.found.leaves × (2 ^ 61 ≤ x.found.step))) }
{
    let mut start = 0;
    while let Some(entering) = seek(ends, cap, cost, flow, price, start, front, block) {
        let e = entering.arc;
        let forward = entering.forward;
        let i = tail_of(ends, e, forward);
        let j = head_of(ends, e, forward);
        let room = room_of(ends, cap, flow, e, forward);
        let found = look(ends, cap, flow, parent, arc, depth, i, j, room);
        if found.step >= ENDLESS {
            return Some(Endless { entering, found });
        }
        pivot(
            ends, cap, cost, flow, first, next, prev, parent, arc, depth, price, queue, e, forward,
            &found,
        );
        start = next_start(entering.after, front);
    }
    None
}
