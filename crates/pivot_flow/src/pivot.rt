//! One pivot.

ghost use Rattle.std.specs.Prelude.{[], ◌≡◌, ◌≢◌, ℕ, ◌+◌, ◌-◌, ◌*◌, ◌<◌, ◌≤◌, ◌^◌, length};
ghost use Rattle.std.specs.Prelude.{slice_set, pos, neg_ℤ, ◌+ℤ◌, ◌≤ℤ◌};
ghost use Rattle.plain_certificates.specs.Cheapest.{reduced_cost};
ghost use Rattle.plain_certificates.specs.Numbered.{EndsAreNodes};
ghost use Rattle.pivot_flow.specs.Enter.{IsSettled, MayEnter, enter_room, entered, head_of};
ghost use Rattle.pivot_flow.specs.Enter.{saving, tail_of};
ghost use Rattle.pivot_flow.specs.Kids.{AreKids, bare, links_of};
ghost use Rattle.pivot_flow.specs.Look.{IsLook};
ghost use Rattle.pivot_flow.specs.Open.{IsOpenFree, IsRoomy};
ghost use Rattle.pivot_flow.specs.Spread.{price_at};
ghost use Rattle.pivot_flow.specs.State.{IsCosted, IsState, height_of, sends_of};
ghost use Rattle.pivot_flow.specs.Tree.{ComesTo, IsHung, IsLow, at, task_of, tree_of};
ghost use Rattle.pivot_flow.specs.Turn.{IsTurned};

use crate::hang::hang;
use crate::look::{Ends, Found, Leaves};
use crate::send::send;
use crate::spread::spread;

/// Hangs the part below x on again at `inner`, under `outer`, and changes its potentials by `by`.
fn rehang(
    ends: &[Ends],
    first: &mut [u32],
    next: &mut [u32],
    prev: &mut [u32],
    parent: &mut [u32],
    arc: &mut [u32],
    depth: &mut [u32],
    price: &mut [i64],
    queue: &mut [u32],
    inner: u32,
    outer: u32,
    entering: u32,
    x: u32,
    by: i64,
)
    requires sizes { (length first.old ≡ length parent.old) × (length next.old ≡ length parent.old)
        × (length prev.old ≡ length parent.old) × (length parent.old ≤ 2 ^ 21) }
    requires lens { (length arc.old ≡ length parent.old) × (length depth.old ≡ length parent.old)
        × (length price.old ≡ length parent.old) × (length queue.old ≡ length parent.old) }
    requires inside { (inner < length parent.old) × (outer < length parent.old) }
    requires cut { IsLow (bare (length parent.old)) x }
    requires over { ComesTo (tree_of parent.old arc.old depth.old) inner x }
    requires apart { ComesTo (tree_of parent.old arc.old depth.old) outer x → ⊥ }
    requires hung { IsHung (task_of (length parent.old) ends.now [])
        (tree_of parent.old arc.old depth.old) }
    requires kids { AreKids (bare (length parent.old)) (links_of first.old next.old prev.old)
        (at parent.old) }
    requires low { (neg_ℤ (pos (2 ^ 61)) ≤ℤ by) × (by ≤ℤ pos (2 ^ 61)) }
    requires prices { (v : ℕ) → v < length parent.old
        → (neg_ℤ (pos (2 ^ 61)) ≤ℤ price_at price.old v) × (price_at price.old v ≤ℤ pos (2 ^ 61)) }
    requires depths { (v : ℕ) → v < length parent.old → at depth.old v ≤ 2 ^ 22 }
    ensures turned { IsTurned (task_of (length parent.old) ends.now [])
        (tree_of parent.old arc.old depth.old) (at parent.new) (at arc.new) inner outer entering x }
    ensures settled { IsSettled (bare (length parent.old)) (at parent.new) (price_at price.old)
        (price_at price.new) (at depth.new) inner outer by }
    ensures kids { AreKids (bare (length parent.old)) (links_of first.new next.new prev.new)
        (at parent.new) }
{
    hang(
        ends, first, next, prev, parent, arc, depth, inner, outer, entering, x,
    );
    spread(first, next, prev, parent, depth, price, queue, inner, by);
}

/// Where the sending over the arc e starts.
pub fn tail_of(ends: &[Ends], e: u32, forward: bool) -> u32
    requires { e < length ends.now }
    ensures { result ≡ tail_of (task_of 0 ends.now []).net e forward }
{
    let arc = ends[e as usize];
    if forward { arc.from } else { arc.to }
}

/// Where the sending over the arc e ends.
pub fn head_of(ends: &[Ends], e: u32, forward: bool) -> u32
    requires { e < length ends.now }
    ensures { result ≡ head_of (task_of 0 ends.now []).net e forward }
{
    let arc = ends[e as usize];
    if forward { arc.to } else { arc.from }
}

/// The reduced cost of the arc e.
pub fn reduced_of(ends: &[Ends], cost: &[i64], price: &[i64], e: u32) -> i64
    requires arc { (e < length ends.now) × (length cost.now ≡ length ends.now) }
    requires shape { EndsAreNodes (task_of (length price.now) ends.now []).net }
    requires cost { (neg_ℤ (pos (2 ^ 57)) ≤ℤ price_at cost.now e)
        × (price_at cost.now e ≤ℤ pos (2 ^ 57)) }
    requires prices { (v : ℕ) → v < length price.now
        → (neg_ℤ (pos (2 ^ 58)) ≤ℤ price_at price.now v) × (price_at price.now v ≤ℤ pos (2 ^ 58)) }
    ensures is { result ≡ reduced_cost (task_of 0 ends.now []).net (price_at cost.now)
        (price_at price.now) e }
    ensures small { (neg_ℤ (pos (2 ^ 60)) ≤ℤ result) × (result ≤ℤ pos (2 ^ 60)) }
{
    let arc = ends[e as usize];
    cost[e as usize] + price[arc.from as usize] - price[arc.to as usize]
}

/// What a unit that is sent over the arc e and round the tree saves.
pub fn saving_of(ends: &[Ends], cost: &[i64], price: &[i64], e: u32, forward: bool) -> i64
    requires arc { (e < length ends.now) × (length cost.now ≡ length ends.now) }
    requires shape { EndsAreNodes (task_of (length price.now) ends.now []).net }
    requires cost { (neg_ℤ (pos (2 ^ 57)) ≤ℤ price_at cost.now e)
        × (price_at cost.now e ≤ℤ pos (2 ^ 57)) }
    requires prices { (v : ℕ) → v < length price.now
        → (neg_ℤ (pos (2 ^ 58)) ≤ℤ price_at price.now v) × (price_at price.now v ≤ℤ pos (2 ^ 58)) }
    ensures is { result ≡ saving (task_of 0 ends.now []).net (price_at cost.now)
        (price_at price.now) e forward }
    ensures small { (neg_ℤ (pos (2 ^ 60)) ≤ℤ result) × (result ≤ℤ pos (2 ^ 60)) }
{
    let reduced = reduced_of(ends, cost, price, e);
    if forward { -reduced } else { reduced }
}

/// Sends `step` over the entering arc e.
fn enter(cap: &[u64], flow: &mut [u64], e: u32, forward: bool, step: u64)
    requires arc { (e < length cap.now) × (length flow.old ≡ length cap.now) }
    requires within { at flow.old e ≤ at cap.now e }
    requires room { step ≤ enter_room (task_of 0 [] cap.now) (at flow.old) e forward }
    ensures { flow.new ≡ slice_set flow.old e (entered (at flow.old) e forward step) }
{
    let k = e as usize;
    prove!(flow[k] <= cap[k]);
    if forward {
        flow[k] += step;
    } else {
        flow[k] -= step;
    }
}

/// The arc e enters the tree and the arc that was found leaves it.
pub fn pivot(
    ends: &[Ends],
    cap: &[u64],
    cost: &[i64],
    flow: &mut [u64],
    first: &mut [u32],
    next: &mut [u32],
    prev: &mut [u32],
    parent: &mut [u32],
    arc: &mut [u32],
    depth: &mut [u32],
    price: &mut [i64],
    queue: &mut [u32],
    e: u32,
    forward: bool,
    found: &Found,
)
    requires arcs { (length cap.now ≡ length ends.now) × (length flow.old ≡ length ends.now)
        × (length cost.now ≡ length ends.now) }
    requires sizes { (length first.old ≡ length parent.old) × (length next.old ≡ length parent.old)
        × (length prev.old ≡ length parent.old) }
    requires lens { (length arc.old ≡ length parent.old) × (length depth.old ≡ length parent.old)
        × (length price.old ≡ length parent.old) × (length queue.old ≡ length parent.old) }
    requires shape { EndsAreNodes (task_of (length parent.old) ends.now cap.now).net }
    requires costed { IsCosted (task_of (length parent.old) ends.now cap.now) (price_at cost.now) }
    requires kids { AreKids (bare (length parent.old)) (links_of first.old next.old prev.old)
        (at parent.old) }
    requires state { let t = task_of (length parent.old) ends.now cap.now in
        IsState t (sends_of t (at flow.old)) (price_at cost.now)
        (tree_of parent.old arc.old depth.old) (at flow.old) (price_at price.old) }
    requires may { MayEnter (task_of (length parent.old) ends.now cap.now) (price_at cost.now)
        (at flow.old) (price_at price.old) e forward }
    requires look { let t = task_of (length parent.old) ends.now cap.now in
        IsLook t (tree_of parent.old arc.old depth.old) (at flow.old) (tail_of t.net e forward)
        (head_of t.net e forward) (enter_room t (at flow.old) e forward) found.now.apex
        found.now.apex found.now.step found.now.leaves }
    requires roomy { let t = task_of (length parent.old) ends.now cap.now in
        IsRoomy t (sends_of t (at flow.old)) }
    requires free { IsOpenFree (task_of (length parent.old) ends.now cap.now) (at flow.old)
        (2 ^ 37) }
    requires short { found.now.step < 2 ^ 61 }
    ensures kids { AreKids (bare (length parent.old)) (links_of first.new next.new prev.new)
        (at parent.new) }
    ensures free { IsOpenFree (task_of (length parent.old) ends.now cap.now) (at flow.new)
        (2 ^ 37) }
    ensures state { let t = task_of (length parent.old) ends.now cap.now in
        IsState t (sends_of t (at flow.old)) (price_at cost.now)
        (tree_of parent.new arc.new depth.new) (at flow.new) (price_at price.new) }
    ensures falls { let t = task_of (length parent.old) ends.now cap.now in
        height_of t (price_at cost.now) (at flow.new) (price_at price.new)
        < height_of t (price_at cost.now) (at flow.old) (price_at price.old) }
{
    let i = tail_of(ends, e, forward);
    let j = head_of(ends, e, forward);
    let saving = saving_of(ends, cost, price, e, forward);
    send(ends, cap, flow, parent, arc, depth, i, j, found);
    enter(cap, flow, e, forward, found.step);
    match found.leaves {
        Leaves::Enters => {}
        Leaves::Before(x) => {
            rehang(
                ends, first, next, prev, parent, arc, depth, price, queue, i, j, e, x, saving,
            );
        }
        Leaves::After(x) => {
            rehang(
                ends, first, next, prev, parent, arc, depth, price, queue, j, i, e, x, -saving,
            );
        }
    }
}
