//! Values with a sign and without, and nodes at the top.

ghost use Rattle.std.specs.Prelude.{◌≡◌, ◌==◌, ◌<◌, ◌^◌, pos, ◌≤ℤ◌, IfOk, All, map};

use base_items::List;
use std::alloc::{AllocError, Global};

/// The same values, which are at least 0, without a sign.
pub fn unsigned(alloc: Global, values: &[i64]) -> Result<Vec<u64>, AllocError>
    requires { All (λ value. pos 0 ≤ℤ value) values.now }
    ensures { IfOk result (λ list. map pos list.items ≡ values.now) }
{
    let mut list = vec![in alloc; 0u64; values.len()]?;
    for place in 0..values.len() {
        list[place] = values[place] as u64;
    }
    Ok(list)
}

/// The same values with a sign.
pub fn signed(alloc: Global, values: &[u64]) -> Result<List<i64>, AllocError>
    requires { All (λ value. value < 2 ^ 63) values.now }
    ensures { IfOk result (λ list. list ≡ map pos values.now) }
{
    let mut list = vec![in alloc; 0i64; values.len()]?;
    for place in 0..values.len() {
        list[place] = values[place] as i64;
    }
    Ok(List::from_vec(list))
}

/// Of each node whether its height is the top.
pub fn at_top(alloc: Global, heights: &[u32], top: u32) -> Result<List<bool>, AllocError>
    ensures { IfOk result (λ list. list ≡ map (λ height. height == top) heights.now) }
{
    let mut list = vec![in alloc; false; heights.len()]?;
    for node in 0..heights.len() {
        list[node] = heights[node] == top;
    }
    Ok(List::from_vec(list))
}
