//! Depths and potentials below a node that hangs anew.

ghost use Rattle.std.specs.Prelude.{[], ◌≡◌, ◌≢◌, ℕ, ◌+◌, ◌-◌, ◌*◌, ◌<◌, ◌≤◌, ◌^◌, length};
ghost use Rattle.std.specs.Prelude.{slice_set, pos, neg_ℤ, ◌+ℤ◌, ◌≤ℤ◌};
ghost use Rattle.pivot_flow.specs.Enter.{IsSettled};
ghost use Rattle.pivot_flow.specs.Kids.{AreKids, bare, links_of};
ghost use Rattle.pivot_flow.specs.Spread.{IsCut, price_at};
ghost use Rattle.pivot_flow.specs.Tree.{at};

/// Changes the potential of v by `by`.
fn raise(price: &mut [i64], v: u32, by: i64)
    requires node { v < length price.old }
    requires low { (neg_ℤ (pos (2 ^ 61)) ≤ℤ by) × (by ≤ℤ pos (2 ^ 61)) }
    requires price { (neg_ℤ (pos (2 ^ 61)) ≤ℤ price_at price.old v)
        × (price_at price.old v ≤ℤ pos (2 ^ 61)) }
    ensures { price.new ≡ slice_set price.old v (price_at price.old v +ℤ by) }
{
    price[v as usize] += by;
}

/// Puts w at the end of the queue, where it is no mark of an end.
fn queued(queue: &mut [u32], tail: usize, w: u32, root: u32) -> usize
    requires room { (tail < length queue.old) × (length queue.old ≤ 2 ^ 21) }
    ensures queue { queue.new ≡ slice_set queue.old tail w }
    ensures none { w ≡ root → result ≡ tail }
    ensures one { w ≢ root → result ≡ tail + 1 }
{
    queue[tail] = w;
    if w == root { tail } else { tail + 1 }
}

/// Sets the depths below `inner`, and changes the potentials there by `by`; `queue` is overwritten.
#[inline(never)]
pub fn spread(
    first: &[u32],
    next: &[u32],
    prev: &[u32],
    parent: &[u32],
    depth: &mut [u32],
    price: &mut [i64],
    queue: &mut [u32],
    inner: u32,
    by: i64,
)
    requires sizes { (length first.now ≡ length parent.now) × (length next.now ≡ length parent.now)
        × (length parent.now ≤ 2 ^ 21) }
    requires lens { (length depth.old ≡ length parent.now) × (length price.old ≡ length parent.now)
        × (length queue.old ≡ length parent.now) }
    requires low { (neg_ℤ (pos (2 ^ 61)) ≤ℤ by) × (by ≤ℤ pos (2 ^ 61)) }
    requires prices { (v : ℕ) → v < length parent.now
        → (neg_ℤ (pos (2 ^ 61)) ≤ℤ price_at price.old v) × (price_at price.old v ≤ℤ pos (2 ^ 61)) }
    requires depths { (v : ℕ) → v < length parent.now → at depth.old v ≤ 2 ^ 22 }
    requires top { at depth.old (length parent.now - 1) ≡ 0 }
    requires kids { AreKids (bare (length parent.now)) (links_of first.now next.now prev.now)
        (at parent.now) }
    requires cut { IsCut (bare (length parent.now)) (at parent.now) (at depth.old) inner
        (at parent.now inner) }
    ensures { IsSettled (bare (length parent.now)) (at parent.now) (price_at price.old)
        (price_at price.new) (at depth.new) inner (at parent.now inner) by }
{
    let root = (parent.len() - 1) as u32;
    let outer = parent[inner as usize];
    depth[inner as usize] = depth[outer as usize] + 1;
    raise(price, inner, by);
    let mut head: usize = 0;
    let mut tail = queued(queue, 0, first[inner as usize], root);
    let mut last = inner;
    while head < tail {
        let w = queue[head];
        depth[w as usize] = depth[parent[w as usize] as usize] + 1;
        raise(price, w, by);
        let mid = queued(queue, tail, first[w as usize], root);
        tail = queued(queue, mid, next[w as usize], root);
        head += 1;
        last = w;
    }
}
