//! The first place with the least value among the live ones.

ghost use Rattle.std.specs.Prelude.{◌≡◌, ◌+◌, ◌<◌, ◌≤◌, length, false, ◌≤ℤ◌};
ghost use Rattle.lane_kernels.specs.Least.{IsFirstLive, IsLeastLive};

use std::simd::prelude::*;

/// Whether one of four values is below `best`.
fn any_below(first: i64, second: i64, third: i64, fourth: i64, best: i64) -> bool
    ensures { result ≡ false
        → (best ≤ℤ first) × (best ≤ℤ second) × (best ≤ℤ third) × (best ≤ℤ fourth) }
{
    let lanes = i64x4::from_array([first, second, third, fourth]);
    lanes.simd_lt(i64x4::splat(best)).to_bitmask() != 0
}

/// How many places on from one have no value below the least: four or none.
fn pass(values: &[i64], live: &[bool], at: usize, place: usize, least: i64) -> usize
    requires within { at ≤ length values.now }
    requires least { IsFirstLive values.now live.now at place least }
    ensures within { at + result ≤ length values.now }
    ensures least { IsFirstLive values.now live.now (at + result) place least }
{
    let _ = live;
    let _ = place;
    if values.len() - at < 4 {
        return 0;
    }
    if any_below(
        values[at],
        values[at + 1],
        values[at + 2],
        values[at + 3],
        least,
    ) {
        return 0;
    }
    4
}

/// How many places on from one can be passed over.
fn skip(values: &[i64], live: &[bool], at: usize, best: Option<(usize, i64)>) -> usize
    requires within { at ≤ length values.now }
    requires least { IsLeastLive values.now live.now at best }
    ensures within { at + result ≤ length values.now }
    ensures least { IsLeastLive values.now live.now (at + result) best }
{
    match best {
        None => 0,
        Some((place, least)) => pass(values, live, at, place, least),
    }
}

/// The best with one place more.
fn look(
    values: &[i64],
    live: &[bool],
    at: usize,
    best: Option<(usize, i64)>,
) -> Option<(usize, i64)>
    requires lengths { length values.now ≡ length live.now }
    requires within { at < length values.now }
    requires least { IsLeastLive values.now live.now at best }
    ensures { IsLeastLive values.now live.now (at + 1) result }
{
    if !live[at] {
        return best;
    }
    let value = values[at];
    match best {
        None => Some((at, value)),
        Some((_, least)) => {
            if value < least {
                return Some((at, value));
            }
            best
        }
    }
}

/// The first place with the least live value, and that value. None exactly where no place is live.
/// There is a flag for each value.
pub fn min_masked(values: &[i64], live: &[bool]) -> Option<(usize, i64)>
    requires { length values.now ≡ length live.now }
    ensures { IsLeastLive values.now live.now (length values.now) result }
{
    let mut best: Option<(usize, i64)> = None;
    let mut at = 0;
    while at < values.len() {
        let passed = skip(values, live, at, best);
        if passed > 0 {
            at += passed;
        } else {
            best = look(values, live, at, best);
            at += 1;
        }
    }
    best
}
