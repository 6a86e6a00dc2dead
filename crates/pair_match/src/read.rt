//! The answer, read from what the engine left.

ghost use Rattle.std.specs.Prelude.{◌≡◌, ◌≤◌, ◌==◌, ◌&&◌, not, length, map, filter, IfOk};
ghost use Rattle.std.specs.List.{range_with_len};
ghost use Rattle.plain_certificates.specs.Tables.{at};
ghost use Rattle.pair_match.specs.Facing.{flags};

use base_items::List;
use std::alloc::{AllocError, Global};

/// Whether a node is left and at the top.
fn is_stuck(left: bool, height: u32, top: usize) -> bool
    ensures { result ≡ (left && height == top) }
{
    if left { height as usize == top } else { false }
}

/// Of each node whether it is left and at the top.
pub fn stuck_left(alloc: Global, left: &[bool], heights: &[u32]) -> Result<List<bool>, AllocError>
    requires { length heights.now ≡ length left.now }
    ensures { IfOk result (λ list. list
        ≡ map (λ v. flags left.now v && at 0 heights.now v == length left.now)
        (range_with_len 0 (length left.now))) }
{
    let mut list = Vec::with_capacity(alloc, left.len())?;
    let mut v = 0;
    while v < left.len() {
        list.push(is_stuck(left[v], heights[v], left.len()))?;
        v += 1;
    }
    Ok(List::from_vec(list))
}

/// The arcs whose flow isn't 0, by rising number.
pub fn arcs_in_use(alloc: Global, flow: &[u64]) -> Result<List<u32>, AllocError>
    requires { length flow.now ≤ 4194304 }
    ensures { IfOk result (λ arcs. arcs
        ≡ filter (λ k. not (at 0 flow.now k == 0)) (range_with_len 0 (length flow.now))) }
{
    let mut arcs = Vec::new(alloc);
    let mut k: u32 = 0;
    while (k as usize) < flow.len() {
        if flow[k as usize] != 0 {
            arcs.push(k)?;
            k += 1;
        } else {
            k += 1;
        }
    }
    Ok(List::from_vec(arcs))
}
