//! The sum of numbers, by their halves: a number that isn't below 0 is its lower 32 bits and 2^32
//! times its upper ones, and fewer than 2^32 halves add up without overflow.

ghost use Rattle.std.specs.Prelude.{◌≡◌, ◌+◌, ◌*◌, ◌<◌, ◌≤◌, length, drop, pos, ◌+ℤ◌, ◌≤ℤ◌};
ghost use Rattle.std.specs.Simd.Lanes.{sum_l};
ghost use Rattle.lane_kernels.specs.Sums.{total_of};

use std::simd::prelude::*;

/// A number and 2^63 more, which isn't below 0.
fn raise(value: i64) -> u64
    ensures { pos result ≡ value +ℤ pos 9223372036854775808 }
{
    value
        .cast_unsigned()
        .wrapping_add(9_223_372_036_854_775_808)
}

/// Four numbers from a place on, each with 2^63 more.
fn raise_four(values: &[i64], at: usize) -> u64x4
    requires { at + 4 ≤ length values.now }
    ensures lanes { length result ≡ 4 }
    ensures sum { pos (sum_l result) +ℤ total_of (drop (at + 4) values.now)
        ≡ total_of (drop at values.now) +ℤ pos 36893488147419103232 }
{
    u64x4::from_array([
        raise(values[at]),
        raise(values[at + 1]),
        raise(values[at + 2]),
        raise(values[at + 3]),
    ])
}

/// The lower halves of four numbers, and the upper ones.
fn halves(lanes: u64x4) -> (u64x4, u64x4)
    requires { length lanes ≡ 4 }
    ensures lanes { (length result.0 ≡ 4) × (length result.1 ≡ 4) }
    ensures small { (sum_l result.0 ≤ 17179869180) × (sum_l result.1 ≤ 17179869180) }
    ensures sum { sum_l result.0 + 4294967296 * sum_l result.1 ≡ sum_l lanes }
{
    (
        lanes & u64x4::splat(4_294_967_295),
        lanes >> u64x4::splat(32),
    )
}

/// Four sums, each with one number more.
fn add_four(sums: u64x4, lanes: u64x4) -> u64x4
    requires lanes { (length sums ≡ 4) × (length lanes ≡ 4) }
    requires small { sum_l sums + sum_l lanes < 18446744073709551616 }
    ensures lanes { length result ≡ 4 }
    ensures sum { sum_l result ≡ sum_l sums + sum_l lanes }
{
    sums.strict_add(lanes)
}

/// The sum of four numbers.
fn sum_four(lanes: u64x4) -> u64
    requires { sum_l lanes < 18446744073709551616 }
    ensures { result ≡ sum_l lanes }
{
    lanes.strict_reduce_sum()
}

/// The sum of the values before a place, which is the last multiple of four.
fn sum_fours(values: &[i64]) -> (usize, i128)
    requires { length values.now < 4294967296 }
    ensures within { result.0 ≤ length values.now }
    ensures low { pos 0 ≤ℤ (result.1 +ℤ pos (result.0 * 9223372036854775808)) }
    ensures high { result.1 ≤ℤ pos (result.0 * 9223372036854775808) }
    ensures sum { (result.1 +ℤ total_of (drop result.0 values.now)) ≡ total_of values.now }
{
    let mut low = u64x4::splat(0);
    let mut high = u64x4::splat(0);
    let mut at = 0;
    while values.len() - at >= 4 {
        let (lower, upper) = halves(raise_four(values, at));
        low = add_four(low, lower);
        high = add_four(high, upper);
        at += 4;
    }
    let raised = sum_four(low) as i128 + sum_four(high) as i128 * 4_294_967_296;
    (at, raised - at as i128 * 9_223_372_036_854_775_808)
}

/// The sum of all values, of which there are fewer than 2^32.
pub fn sum_i64(values: &[i64]) -> i128
    requires { length values.now < 4294967296 }
    ensures { result ≡ total_of values.now }
{
    let (mut at, mut sum) = sum_fours(values);
    while at < values.len() {
        sum += values[at] as i128;
        at += 1;
    }
    sum
}
