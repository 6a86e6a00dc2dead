//! The arc that enters the tree.

ghost use Rattle.std.specs.Prelude.{[], ◌≡◌, ◌≢◌, ℕ, ◌+◌, ◌-◌, ◌*◌, ◌<◌, ◌≤◌, ◌^◌, length};
ghost use Rattle.std.specs.Prelude.{slice_set, pos, neg_ℤ, ◌+ℤ◌, ◌≤ℤ◌, ◌<ℤ◌, Bool, MatchOption};
ghost use Rattle.plain_certificates.specs.Numbered.{EndsAreNodes};
ghost use Rattle.pivot_flow.specs.Enter.{MayEnter, NoneEnters};
ghost use Rattle.pivot_flow.specs.Spread.{price_at};
ghost use Rattle.pivot_flow.specs.State.{IsCosted};
ghost use Rattle.pivot_flow.specs.Tree.{at, task_of};

use crate::look::Ends;
use crate::pivot::reduced_of;

/// What an arc saves when it enters, in the direction that saves; 0 where it may not enter.
#[derive(Clone, Copy)]
pub struct Gain {
    pub arc: u32,
    pub saving: i64,
    pub forward: bool,
}

/// An arc that enters, and the place after its block, where the next search goes on.
#[derive(Clone, Copy)]
pub struct Entering {
    pub arc: u32,
    pub forward: bool,
    pub after: u32,
}

/// What the arc e saves.
fn gain_of(ends: &[Ends], cap: &[u64], cost: &[i64], flow: &[u64], price: &[i64], e: u32) -> Gain
    requires arc { e < length ends.now }
    requires arcs { (length cap.now ≡ length ends.now) × (length flow.now ≡ length ends.now)
        × (length cost.now ≡ length ends.now) }
    requires shape { EndsAreNodes (task_of (length price.now) ends.now cap.now).net }
    requires costed { IsCosted (task_of (length price.now) ends.now cap.now) (price_at cost.now) }
    requires prices { (v : ℕ) → v < length price.now
        → (neg_ℤ (pos (2 ^ 58)) ≤ℤ price_at price.now v) × (price_at price.now v ≤ℤ pos (2 ^ 58)) }
    ensures low { pos 0 ≤ℤ result.saving }
    ensures some { pos 0 <ℤ result.saving
        → MayEnter (task_of (length price.now) ends.now cap.now) (price_at cost.now) (at flow.now)
        (price_at price.now) result.arc result.forward }
    ensures none { result.saving ≡ pos 0 → (forward : Bool)
        → MayEnter (task_of (length price.now) ends.now cap.now) (price_at cost.now) (at flow.now)
        (price_at price.now) e forward → ⊥ }
{
    let reduced = reduced_of(ends, cost, price, e);
    let k = e as usize;
    let ahead = if flow[k] < cap[k] { -reduced } else { 0 };
    let back = if flow[k] > 0 { reduced } else { 0 };
    if ahead > back {
        Gain {
            arc: e,
            saving: ahead,
            forward: true,
        }
    } else {
        Gain {
            arc: e,
            saving: back,
            forward: false,
        }
    }
}

/// The arc that saves most of those from `start` to below `end`; it saves 0 where none may enter.
#[inline(never)]
fn best_of(
    ends: &[Ends],
    cap: &[u64],
    cost: &[i64],
    flow: &[u64],
    price: &[i64],
    start: u32,
    end: u32,
) -> Gain
    requires range { end ≤ length ends.now }
    requires arcs { (length cap.now ≡ length ends.now) × (length flow.now ≡ length ends.now)
        × (length cost.now ≡ length ends.now) }
    requires shape { EndsAreNodes (task_of (length price.now) ends.now cap.now).net }
    requires costed { IsCosted (task_of (length price.now) ends.now cap.now) (price_at cost.now) }
    requires prices { (v : ℕ) → v < length price.now
        → (neg_ℤ (pos (2 ^ 58)) ≤ℤ price_at price.now v) × (price_at price.now v ≤ℤ pos (2 ^ 58)) }
    ensures low { pos 0 ≤ℤ result.saving }
    ensures some { pos 0 <ℤ result.saving
        → MayEnter (task_of (length price.now) ends.now cap.now) (price_at cost.now) (at flow.now)
        (price_at price.now) result.arc result.forward }
    ensures none { result.saving ≡ pos 0 → (e : ℕ) → start ≤ e → e < end → (forward : Bool)
        → MayEnter (task_of (length price.now) ends.now cap.now) (price_at cost.now) (at flow.now)
        (price_at price.now) e forward → ⊥ }
{
    let mut best = Gain {
        arc: start,
        saving: 0,
        forward: true,
    };
    for e in start..end {
        let gain = gain_of(ends, cap, cost, flow, price, e);
        if gain.saving > best.saving {
            best = gain;
        }
    }
    best
}

/// An arc that may enter of those from `start` to below `stop`, sought block by block.
fn seek_from(
    ends: &[Ends],
    cap: &[u64],
    cost: &[i64],
    flow: &[u64],
    price: &[i64],
    start: u32,
    stop: u32,
    block: u32,
) -> Option<Entering>
    requires range { (start ≤ stop) × (stop ≤ length ends.now) }
    requires block { 0 < block }
    requires few { length ends.now ≤ 2 ^ 23 }
    requires arcs { (length cap.now ≡ length ends.now) × (length flow.now ≡ length ends.now)
        × (length cost.now ≡ length ends.now) }
    requires shape { EndsAreNodes (task_of (length price.now) ends.now cap.now).net }
    requires costed { IsCosted (task_of (length price.now) ends.now cap.now) (price_at cost.now) }
    requires prices { (v : ℕ) → v < length price.now
        → (neg_ℤ (pos (2 ^ 58)) ≤ℤ price_at price.now v) × (price_at price.now v ≤ℤ pos (2 ^ 58)) }
    ensures { MatchOption result ((e : ℕ) → start ≤ e → e < stop → (forward : Bool)
        → MayEnter (task_of (length price.now) ends.now cap.now) (price_at cost.now) (at flow.now)
        (price_at price.now) e forward → ⊥)
        (λ x. MayEnter (task_of (length price.now) ends.now cap.now) (price_at cost.now)
        (at flow.now) (price_at price.now) x.arc x.forward × (x.after ≤ stop)) }
{
    let mut k = start;
    while k < stop {
        let end = if stop - k > block { k + block } else { stop };
        let best = best_of(ends, cap, cost, flow, price, k, end);
        if best.saving > 0 {
            return Some(Entering {
                arc: best.arc,
                forward: best.forward,
                after: end,
            });
        }
        k = end;
    }
    None
}

/// An arc that may enter: of those below `front`, from `start` on and around; of the others only
/// where none of these may.
pub fn seek(
    ends: &[Ends],
    cap: &[u64],
    cost: &[i64],
    flow: &[u64],
    price: &[i64],
    start: u32,
    front: u32,
    block: u32,
) -> Option<Entering>
    requires start { (start ≤ front) × (front ≤ length ends.now) }
    requires block { 0 < block }
    requires few { length ends.now ≤ 2 ^ 23 }
    requires arcs { (length cap.now ≡ length ends.now) × (length flow.now ≡ length ends.now)
        × (length cost.now ≡ length ends.now) }
    requires shape { EndsAreNodes (task_of (length price.now) ends.now cap.now).net }
    requires costed { IsCosted (task_of (length price.now) ends.now cap.now) (price_at cost.now) }
    requires prices { (v : ℕ) → v < length price.now
        → (neg_ℤ (pos (2 ^ 58)) ≤ℤ price_at price.now v) × (price_at price.now v ≤ℤ pos (2 ^ 58)) }
    ensures { MatchOption result (NoneEnters (task_of (length price.now) ends.now cap.now)
        (price_at cost.now) (at flow.now) (price_at price.now))
        (λ x. MayEnter (task_of (length price.now) ends.now cap.now) (price_at cost.now)
        (at flow.now) (price_at price.now) x.arc x.forward × (x.after ≤ length ends.now)) }
{
    if let Some(entering) = seek_from(ends, cap, cost, flow, price, start, front, block) {
        return Some(entering);
    }
    if let Some(entering) = seek_from(ends, cap, cost, flow, price, 0, start, block) {
        return Some(entering);
    }
    let all = ends.len() as u32;
    seek_from(ends, cap, cost, flow, price, front, all, block)
}
