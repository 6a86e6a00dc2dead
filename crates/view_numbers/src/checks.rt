//! Values by number: narrowed, and the first places that break a rule.

ghost use Rattle.std.specs.Prelude.{◌≡◌, ◌≤◌, ◌^◌, ℤ, pos, neg_ℤ, ◌≤ℤ◌, IfOk, All, length};
ghost use Rattle.view_numbers.specs.Breaches.{IsFirst, is_outside, is_under, is_crossed};

use base_items::VALUE_LIMIT;
use std::alloc::{AllocError, Global};

/// The same numbers, whose magnitude is at most `VALUE_LIMIT`.
pub fn narrow(alloc: Global, values: &[i128]) -> Result<Vec<i64>, AllocError>
    requires low { All (λ x. neg_ℤ (pos (2 ^ 36)) ≤ℤ x) values.now }
    requires high { All (λ x. x ≤ℤ pos (2 ^ 36)) values.now }
    ensures { IfOk result (λ same. same.items ≡ values.now) }
{
    let mut same = Vec::with_capacity(alloc, values.len())?;
    for value in values {
        same.push(*value as i64)?;
    }
    Ok(same)
}

/// The first place with a value whose magnitude is above `VALUE_LIMIT`; None exactly where there is
/// none.
pub fn first_outside(values: &[i128]) -> Option<usize>
    ensures { IsFirst (length values.now) (is_outside values.now) result }
{
    let mut place = 0;
    while place < values.len() {
        if values[place].unsigned_abs() > VALUE_LIMIT as u128 {
            return Some(place);
        }
        place += 1;
    }
    None
}

/// The first place with a value below `least`; None exactly where there is none.
pub fn first_below(values: &[i64], least: i64) -> Option<usize>
    ensures { IsFirst (length values.now) (is_under values.now least) result }
{
    let mut place = 0;
    while place < values.len() {
        if values[place] < least {
            return Some(place);
        }
        place += 1;
    }
    None
}

/// The first place where lower is above upper; None exactly where there is none.
pub fn first_crossed(lower: &[i64], upper: &[i64]) -> Option<usize>
    requires { length lower.now ≡ length upper.now }
    ensures { IsFirst (length lower.now) (is_crossed lower.now upper.now) result }
{
    let mut place = 0;
    while place < lower.len() {
        if lower[place] > upper[place] {
            return Some(place);
        }
        place += 1;
    }
    None
}
