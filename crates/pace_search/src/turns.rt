//! Lists of numbers that begin at their least one.

ghost use Rattle.std.specs.Prelude.{◌<◌, length, IfOk};
ghost use Rattle.pace_search.specs.Turns.{IsLeastOf, BeginsLeast};

use std::alloc::{AllocError, Global};

/// The place of the least of some numbers.
fn least_place(numbers: &[u32]) -> usize
    requires { 0 < length numbers.now }
    ensures { IsLeastOf numbers.now (length numbers.now) result }
{
    let mut least = 0;
    let mut place = 1;
    while place < numbers.len() {
        if numbers[place] < numbers[least] {
            least = place;
        }
        place += 1;
    }
    least
}

/// A round from its least number on.
pub fn least_first(alloc: Global, round: &[u32]) -> Result<Vec<u32>, AllocError>
    requires { 0 < length round.now }
    ensures { IfOk result (λ turned. BeginsLeast round.now turned.items) }
{
    let place = least_place(round);
    let mut turned = Vec::with_capacity(alloc, round.len())?;
    turned.extend_from_slice(&round[place..])?;
    turned.extend_from_slice(&round[..place])?;
    Ok(turned)
}
