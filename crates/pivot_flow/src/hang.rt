//! Hanging a part of the tree on again.

ghost use Rattle.std.specs.Prelude.{[], ◌≡◌, ◌≢◌, ℕ, ◌+◌, ◌-◌, ◌<◌, ◌≤◌, length, slice_set};
ghost use Rattle.pivot_flow.specs.Kids.{AreKids, AreKidsBut, bare, links_of};
ghost use Rattle.pivot_flow.specs.Tree.{ComesTo, IsHung, IsLow, at, task_of, tree_of};
ghost use Rattle.pivot_flow.specs.Turn.{IsTurned};

use crate::look::Ends;

/// Takes v out of the list of its parent's children.
fn unlink(first: &mut [u32], next: &mut [u32], prev: &mut [u32], parent: &[u32], v: u32)
    requires sizes { (length first.old ≡ length parent.now) × (length next.old ≡ length parent.now)
        × (length prev.old ≡ length parent.now) }
    requires child { IsLow (bare (length parent.now)) v }
    requires parent { at parent.now v < length parent.now }
    requires kids { AreKids (bare (length parent.now)) (links_of first.old next.old prev.old)
        (at parent.now) }
    ensures { AreKidsBut (bare (length parent.now)) (links_of first.new next.new prev.new)
        (at parent.now) v }
{
    let root = parent.len() - 1;
    let before = prev[v as usize];
    let after = next[v as usize];
    next[before as usize] = after;
    prev[after as usize] = before;
    if before as usize == root {
        first[parent[v as usize] as usize] = after;
    }
}

/// Puts v, which stands in no list, in front of the children of u.
fn link(first: &mut [u32], next: &mut [u32], prev: &mut [u32], parent: &mut [u32], v: u32, u: u32)
    requires sizes { (length first.old ≡ length parent.old) × (length next.old ≡ length parent.old)
        × (length prev.old ≡ length parent.old) }
    requires child { IsLow (bare (length parent.old)) v }
    requires node { u < length parent.old }
    requires kids { AreKidsBut (bare (length parent.old)) (links_of first.old next.old prev.old)
        (at parent.old) v }
    ensures kids { AreKids (bare (length parent.old)) (links_of first.new next.new prev.new)
        (at parent.new) }
    ensures parent { parent.new ≡ slice_set parent.old v u }
{
    let root = (parent.len() - 1) as u32;
    let after = first[u as usize];
    prev[after as usize] = v;
    prev[v as usize] = root;
    next[v as usize] = after;
    first[u as usize] = v;
    parent[v as usize] = u;
}

/// Hangs the part below x on again: at `inner`, under `outer`, by the arc `entering`.
#[inline(never)]
pub fn hang(
    ends: &[Ends],
    first: &mut [u32],
    next: &mut [u32],
    prev: &mut [u32],
    parent: &mut [u32],
    arc: &mut [u32],
    depth: &[u32],
    inner: u32,
    outer: u32,
    entering: u32,
    x: u32,
)
    requires sizes { (length first.old ≡ length parent.old) × (length next.old ≡ length parent.old)
        × (length prev.old ≡ length parent.old) }
    requires nodes { (length arc.old ≡ length parent.old) × (length depth.now ≡ length parent.old) }
    requires inside { (inner < length parent.old) × (outer < length parent.old) }
    requires cut { IsLow (bare (length parent.old)) x }
    requires over { ComesTo (tree_of parent.old arc.old depth.now) inner x }
    requires hung { IsHung (task_of (length parent.old) ends.now [])
        (tree_of parent.old arc.old depth.now) }
    requires kids { AreKids (bare (length parent.old)) (links_of first.old next.old prev.old)
        (at parent.old) }
    ensures turned { IsTurned (task_of (length parent.old) ends.now [])
        (tree_of parent.old arc.old depth.now) (at parent.new) (at arc.new) inner outer entering x }
    ensures kids { AreKids (bare (length parent.old)) (links_of first.new next.new prev.new)
        (at parent.new) }
{
    let level = depth[x as usize];
    let mut child = inner;
    let mut hook = outer;
    let mut by = entering;
    while depth[child as usize] >= level {
        let above = parent[child as usize];
        let old = arc[child as usize];
        unlink(first, next, prev, parent, child);
        link(first, next, prev, parent, child, hook);
        arc[child as usize] = by;
        hook = child;
        by = old;
        child = above;
    }
}
