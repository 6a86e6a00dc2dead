//! The numbers that replies name.

ghost use Rattle.std.specs.Prelude.{◌≡◌, ◌<◌, ◌≤◌, false, length, filter, All, IfOk};
ghost use Rattle.std.specs.List.{range_with_len};
ghost use Rattle.plain_certificates.specs.Tables.{at};
ghost use Rattle.flow_replies.specs.Numbers.{carries, is_some_flow};

use static_digraph::Fixed;
use std::alloc::{AllocError, Global};

/// The item of each arc.
pub fn arc_items(alloc: Global, g: &Fixed) -> Result<Vec<u32>, AllocError>
    ensures { IfOk result (λ items. items.items ≡ g.now.arcs) }
{
    let count = g.arc_count();
    let mut items = Vec::with_capacity(alloc, count as usize)?;
    for arc in 0..count {
        items.push(g.arc_item(arc))?;
    }
    Ok(items)
}

/// The numbers of a set, rising.
pub fn numbers_in(alloc: Global, set: &[bool]) -> Result<Vec<u32>, AllocError>
    requires { length set.now ≤ 4194304 }
    ensures numbers { IfOk result (λ numbers. numbers.items
        ≡ filter (at false set.now) (range_with_len 0 (length set.now))) }
    ensures below { IfOk result (λ numbers. All (λ k. k < length set.now) numbers.items) }
{
    let mut numbers = Vec::new(alloc);
    let mut k: u32 = 0;
    while (k as usize) < set.len() {
        if set[k as usize] {
            numbers.push(k)?;
            k += 1;
        } else {
            k += 1;
        }
    }
    Ok(numbers)
}

// Whether the flow isn't 0.
fn is_some_flow(flow: i64) -> bool
    ensures { result ≡ is_some_flow flow }
{
    flow.unsigned_abs() != 0
}

/// The numbers of the arcs whose flow isn't 0, rising.
pub fn numbers_with_flow(alloc: Global, flow: &[i64]) -> Result<Vec<u32>, AllocError>
    requires { length flow.now ≤ 4194304 }
    ensures numbers { IfOk result (λ numbers. numbers.items
        ≡ filter (carries flow.now) (range_with_len 0 (length flow.now))) }
    ensures below { IfOk result (λ numbers. All (λ k. k < length flow.now) numbers.items) }
{
    let mut numbers = Vec::new(alloc);
    let mut k: u32 = 0;
    while (k as usize) < flow.len() {
        if is_some_flow(flow[k as usize]) {
            numbers.push(k)?;
            k += 1;
        } else {
            k += 1;
        }
    }
    Ok(numbers)
}
