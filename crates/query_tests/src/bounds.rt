//! Bounds of a task, of which some may be absent.

ghost use Rattle.std.specs.Prelude.{◌≡◌, ℕ, ◌<◌, true, All};
ghost use Rattle.std.specs.Option.{option_copied};
ghost use Rattle.plain_certificates.specs.Feasible.{IsAtMost};
ghost use Rattle.task_bounds.specs.Given.{AreGiven, IsValue, given, upper_given};

use crate::tasks::are_within;

/// Whether all are values that the libraries take.
pub fn are_values(values: &[i64]) -> bool
    ensures { result ≡ true → All IsValue values.now }
{
    are_within(values, -68719476736, 68719476736)
}

/// Whether there are so many values, or none at all.
pub fn are_given(values: Option<&[i64]>, count: usize) -> bool
    ensures { result ≡ true → AreGiven count (option_copied values.entry) }
{
    match values {
        Some(values) => values.len() == count && are_values(values),
        None => true,
    }
}

// The value at a place, and 0 where none are given.
fn value_at(values: Option<&[i64]>, place: usize) -> i64
    ensures { result ≡ given (option_copied values.entry) place }
{
    match values {
        Some(values) => {
            if place < values.len() {
                values[place]
            } else {
                0
            }
        }
        None => 0,
    }
}

/// Whether each lower bound is at most the upper one.
pub fn are_ordered(lower: Option<&[i64]>, upper: Option<&[i64]>, count: usize) -> bool
    ensures { result ≡ true → (k : ℕ) → k < count
        → IsAtMost (given (option_copied lower.entry) k)
        (upper_given (option_copied upper.entry) k) }
{
    let Some(upper) = upper else {
        return true;
    };
    if upper.len() != count {
        return false;
    }
    let mut place = 0;
    'on: while place < upper.len() {
        if value_at(lower, place) > upper[place] {
            return false;
        }
        place += 1;
    }
    true
}
