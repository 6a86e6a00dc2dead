//! Values, sets and barriers as a row has them.

use static_digraph::Barrier;
use std::alloc::AllocError;
use std::fmt::Write;

/// The values, each behind a blank.
pub fn push_values(text: &mut String, values: &[i64]) -> Result<(), AllocError> {
    for value in values {
        write!(text, " {value}")?;
    }
    Ok(())
}

/// The places of a set, each behind a blank.
pub fn push_set(text: &mut String, set: &[bool]) -> Result<(), AllocError> {
    let mut place = 0;
    for inside in set {
        if *inside {
            write!(text, " {place}")?;
        }
        place = u32::wrapping_add(place, 1);
    }
    Ok(())
}

/// Which nodes a barrier has, with what they supply and what it is above or below.
pub fn push_barrier(text: &mut String, barrier: &Barrier) -> Result<(), AllocError> {
    text.push_str(if barrier.over { "over" } else { "under" })?;
    for inside in barrier.nodes.as_slice() {
        text.push_str(if *inside { " 1" } else { " 0" })?;
    }
    let way = if barrier.over { "above" } else { "below" };
    let (supply, limit) = (barrier.supply, barrier.limit);
    write!(text, "; {supply} {way} {limit}")?;
    Ok(())
}
