//! The values of a task, with those that aren't given.

ghost use Rattle.std.specs.Prelude.{◌≡◌, ℕ, ◌<◌, ◌≤◌, ◌≤ℤ◌, Some, IfOk, All, length, pos};
ghost use Rattle.std.specs.Option.{option_copied};
ghost use Rattle.plain_certificates.specs.Tables.{at};
ghost use Rattle.plain_certificates.specs.Feasible.{IsAtMost};
ghost use Rattle.task_bounds.specs.Given.{AreGiven, IsValue, given, upper_given};
ghost use Rattle.task_bounds.specs.Given.{AreRooms, AreValues};
ghost use Rattle.task_bounds.specs.Given.{IsSpan};

use std::alloc::{AllocError, Global};

/// A capacity that stands for none: 2^62.
pub const OPEN: u64 = 4_611_686_018_427_387_904;

/// So many values: those that are given, or zeros.
pub fn values_of(
    alloc: Global,
    values: Option<&[i64]>,
    count: usize,
) -> Result<Vec<i64>, AllocError>
    requires { AreGiven count (option_copied values) }
    ensures { IfOk result (λ list. AreValues count (given (option_copied values.entry))
        list.items) }
{
    match values {
        Some(values) => Vec::from_slice(alloc, values),
        None => vec![in alloc; 0; count],
    }
}

/// The room between two bounds.
fn span(lower: i64, upper: i64) -> u64
    requires lower { IsValue lower }
    requires upper { IsValue upper }
    requires ordered { lower ≤ℤ upper }
    ensures { IsSpan lower (Some upper) result }
{
    (upper - lower) as u64
}

/// The room between the bounds of each arc, where all have an upper one, and open places after it.
fn spans_of(alloc: Global, lower: &[i64], upper: &[i64], all: usize) -> Result<Vec<u64>, AllocError>
    requires sizes { (length upper.now ≡ length lower.now) × (length lower.now ≤ all) }
    requires lower { (k : ℕ) → k < length lower.now → IsValue (at (pos 0) lower.now k) }
    requires upper { All IsValue upper.now }
    requires ordered { (k : ℕ) → k < length lower.now
        → at (pos 0) lower.now k ≤ℤ at (pos 0) upper.now k }
    ensures { IfOk result (λ caps. AreRooms (length lower.now) all (at (pos 0) lower.now)
        (λ k. Some (at (pos 0) upper.now k)) caps.items) }
{
    let mut caps = vec![in alloc; OPEN; all]?;
    for k in 0..lower.len() {
        caps[k] = span(lower[k], upper[k]);
    }
    Ok(caps)
}

/// The room between the bounds of each arc, and open places after it.
pub fn rooms_of(
    alloc: Global,
    lower: &[i64],
    upper: Option<&[i64]>,
    all: usize,
) -> Result<Vec<u64>, AllocError>
    requires sizes { length lower.now ≤ all }
    requires lower { (k : ℕ) → k < length lower.now → IsValue (at (pos 0) lower.now k) }
    requires upper { AreGiven (length lower.now) (option_copied upper) }
    requires ordered { (k : ℕ) → k < length lower.now
        → IsAtMost (at (pos 0) lower.now k) (upper_given (option_copied upper) k) }
    ensures { IfOk result (λ caps. AreRooms (length lower.now) all (at (pos 0) lower.now)
        (upper_given (option_copied upper.entry)) caps.items) }
{
    match upper {
        Some(upper) => spans_of(alloc, lower, upper, all),
        None => vec![in alloc; OPEN; all],
    }
}
