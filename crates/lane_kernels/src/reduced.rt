//! The first place with the least reduced cost.

ghost use Rattle.std.specs.Prelude.{◌≡◌, ◌+◌, ◌<◌, ◌≤◌, ◌∷◌, [], length, false, ◌≤ℤ◌};
ghost use Rattle.lane_kernels.specs.Least.{value_at, reduced_at, IsFirstReduced, IsLeastReduced};
ghost use Rattle.lane_kernels.specs.Least.{AllModest};

use std::simd::prelude::*;

/// Four values from a place on.
fn four_at(values: &[i64], at: usize) -> i64x4
    requires { at + 4 ≤ length values.now }
    ensures { result ≡ value_at values.now at ∷ value_at values.now (at + 1)
        ∷ value_at values.now (at + 2) ∷ value_at values.now (at + 3) ∷ [] }
{
    i64x4::from_array([values[at], values[at + 1], values[at + 2], values[at + 3]])
}

/// Whether one of four reduced costs is below `best`.
fn any_below(costs: &[i64], from_pi: &[i64], to_pi: &[i64], at: usize, best: i64) -> bool
    requires lengths { (length from_pi.now ≡ length costs.now)
        × (length to_pi.now ≡ length costs.now) }
    requires within { at + 4 ≤ length costs.now }
    requires small { AllModest costs.now × (AllModest from_pi.now × AllModest to_pi.now) }
    ensures { result ≡ false → (best ≤ℤ reduced_at costs.now from_pi.now to_pi.now at)
        × (best ≤ℤ reduced_at costs.now from_pi.now to_pi.now (at + 1))
        × (best ≤ℤ reduced_at costs.now from_pi.now to_pi.now (at + 2))
        × (best ≤ℤ reduced_at costs.now from_pi.now to_pi.now (at + 3)) }
{
    let cost = four_at(costs, at);
    let from = four_at(from_pi, at);
    let to = four_at(to_pi, at);
    let reduced = cost.strict_add(from).strict_sub(to);
    reduced.simd_lt(i64x4::splat(best)).to_bitmask() != 0
}

/// How many places on from one have no reduced cost below the least: four or none.
fn pass(costs: &[i64], from_pi: &[i64], to_pi: &[i64], at: usize, place: usize, least: i64) -> usize
    requires lengths { (length from_pi.now ≡ length costs.now)
        × (length to_pi.now ≡ length costs.now) }
    requires small { AllModest costs.now × (AllModest from_pi.now × AllModest to_pi.now) }
    requires within { at ≤ length costs.now }
    requires least { IsFirstReduced costs.now from_pi.now to_pi.now at place least }
    ensures within { at + result ≤ length costs.now }
    ensures least { IsFirstReduced costs.now from_pi.now to_pi.now (at + result) place least }
{
    let _ = place;
    if costs.len() - at < 4 {
        return 0;
    }
    if any_below(costs, from_pi, to_pi, at, least) {
        return 0;
    }
    4
}

/// The reduced cost of one place.
fn reduced(costs: &[i64], from_pi: &[i64], to_pi: &[i64], at: usize) -> i64
    requires lengths { (length from_pi.now ≡ length costs.now)
        × (length to_pi.now ≡ length costs.now) }
    requires small { AllModest costs.now × (AllModest from_pi.now × AllModest to_pi.now) }
    requires within { at < length costs.now }
    ensures { result ≡ reduced_at costs.now from_pi.now to_pi.now at }
{
    costs[at] + from_pi[at] - to_pi[at]
}

/// The best with one place more.
fn look(
    costs: &[i64],
    from_pi: &[i64],
    to_pi: &[i64],
    at: usize,
    place: usize,
    least: i64,
) -> (usize, i64)
    requires lengths { (length from_pi.now ≡ length costs.now)
        × (length to_pi.now ≡ length costs.now) }
    requires small { AllModest costs.now × (AllModest from_pi.now × AllModest to_pi.now) }
    requires within { at < length costs.now }
    requires least { IsFirstReduced costs.now from_pi.now to_pi.now at place least }
    ensures { IsFirstReduced costs.now from_pi.now to_pi.now (at + 1) result.0 result.1 }
{
    let cost = reduced(costs, from_pi, to_pi, at);
    if cost < least {
        return (at, cost);
    }
    (place, least)
}

/// The first place with the least `cost + from - to`, and that number. None exactly where the
/// slices, which are equally long, are empty. No number is above 2^60 in magnitude.
pub fn least_reduced(costs: &[i64], from_pi: &[i64], to_pi: &[i64]) -> Option<(usize, i64)>
    requires lengths { (length from_pi.now ≡ length costs.now)
        × (length to_pi.now ≡ length costs.now) }
    requires small { AllModest costs.now × (AllModest from_pi.now × AllModest to_pi.now) }
    ensures { IsLeastReduced costs.now from_pi.now to_pi.now (length costs.now) result }
{
    if costs.is_empty() {
        return None;
    }
    let mut best = (0, reduced(costs, from_pi, to_pi, 0));
    let mut at = 1;
    while at < costs.len() {
        let (place, least) = best;
        let passed = pass(costs, from_pi, to_pi, at, place, least);
        if passed > 0 {
            at += passed;
        } else {
            best = look(costs, from_pi, to_pi, at, place, least);
            at += 1;
        }
    }
    Some(best)
}
