//! Values that may be absent.

ghost use Rattle.std.specs.Prelude.{◌≡◌, ◌≤◌, length, option_map};
ghost use Rattle.std.specs.Option.{option_copied};
ghost use Rattle.view_numbers.specs.Breaches.{IsFirst};
ghost use Rattle.flow_replies.specs.Absent.{AreAll, is_out_of_order};

use view_numbers::{first_below, first_crossed};

/// The values as a slice, where there are some.
pub fn slice_given(values: &Option<Vec<i64>>) -> Option<&[i64]>
    ensures { option_copied result ≡ option_map (λ list. list.items) values.now }
{
    match values {
        Some(list) => Some(list.as_slice()),
        None => None,
    }
}

/// The first of so many arcs whose upper bound, where there is one, is below the lower one; absent
/// lower bounds are 0. None exactly where there is none.
pub fn first_out_of_order(
    lower: Option<&[i64]>,
    upper: Option<&[i64]>,
    count: usize,
) -> Option<usize>
    requires lower { AreAll count (option_copied lower) }
    requires upper { AreAll count (option_copied upper) }
    ensures { IsFirst count
        (is_out_of_order (option_copied lower.entry) (option_copied upper.entry)) result }
{
    let Some(upper) = upper else {
        return None;
    };
    match lower {
        Some(lower) => first_crossed(lower, upper),
        None => first_below(upper, 0),
    }
}
