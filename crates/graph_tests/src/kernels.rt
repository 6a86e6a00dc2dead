//! Each kernel at lengths 0 to 70 against its plain definition.

use crate::modest::all_modest;
use lane_kernels::{count_true, least_reduced, min_masked, sum_i64};
use std::alloc::{AllocError, Global};
use std::process::Abort;
use std::test::Fail;

// Which numbers: any, those of magnitude at most 2^60, or few, so that many are equal.
#[derive(Clone, Copy)]
enum Numbers {
    Any,
    Modest,
    Few,
}

// As many numbers in no order.
fn some_numbers(
    alloc: Global,
    count: usize,
    seed: u64,
    which: Numbers,
) -> Result<Vec<i64>, AllocError> {
    let mut values = Vec::new(alloc);
    let mut state = seed;
    for _ in 0..count {
        state = state
            .wrapping_mul(6_364_136_223_846_793_005)
            .wrapping_add(1_442_695_040_888_963_407);
        let any = (state ^ state.wrapping_shr(29)).cast_signed();
        let value = match which {
            Numbers::Any => any,
            Numbers::Modest => any / 8,
            Numbers::Few => any % 4,
        };
        values.push(value)?;
    }
    Ok(values)
}

// Whether each is odd.
fn odd(alloc: Global, values: &[i64]) -> Result<Vec<bool>, AllocError> {
    let mut flags = Vec::new(alloc);
    for value in values {
        flags.push(value % 2 != 0)?;
    }
    Ok(flags)
}

fn plain_sum(values: &[i64]) -> i128 {
    let mut sum: i128 = 0;
    for value in values {
        sum = sum.wrapping_add(*value as i128);
    }
    sum
}

fn plain_count(flags: &[bool]) -> usize {
    let mut count: usize = 0;
    for flag in flags {
        if *flag {
            count = count.wrapping_add(1);
        }
    }
    count
}

fn plain_least(values: &[i64], live: &[bool]) -> Option<(usize, i64)> {
    let mut best: Option<(usize, i64)> = None;
    for at in 0..values.len() {
        if live.get(at) != Some(&true) {
            continue;
        }
        let value = values[at];
        best = match best {
            Some((_, least)) if least <= value => best,
            _ => Some((at, value)),
        };
    }
    best
}

fn plain_reduced(costs: &[i64], from: &[i64], to: &[i64]) -> Option<(usize, i64)> {
    let mut best: Option<(usize, i64)> = None;
    for (at, ((cost, start), end)) in costs.iter().zip(from).zip(to).enumerate() {
        let reduced = cost.wrapping_add(*start).wrapping_sub(*end);
        best = match best {
            Some((_, least)) if least <= reduced => best,
            _ => Some((at, reduced)),
        };
    }
    best
}

#[test]
fn sums_and_counts(rt: HostRuntime) -> Result<(), Fail> {
    for count in 0..71u32 {
        let values = some_numbers(rt.alloc(), count as usize, 7, Numbers::Any)?;
        assert!(rt; values.len() < 4_294_967_296);
        assert_eq!(rt; sum_i64(&values), plain_sum(&values), "{count} values");
        let flags = odd(rt.alloc(), &values)?;
        assert_eq!(rt; count_true(&flags), plain_count(&flags), "{count} flags");
    }
    Ok(())
}

// The greatest and the least numbers alone, whose sums are far beyond the range of one number.
#[test]
fn sums_of_extremes(rt: HostRuntime) -> Result<(), Fail> {
    for value in [i64::MAX, i64::MIN] {
        let values = vec![in rt.alloc(); value; 70]?;
        assert!(rt; values.len() < 4_294_967_296);
        assert_eq!(rt; sum_i64(&values), value as i128 * 70);
    }
    Ok(())
}

#[test]
fn least_live_values(rt: HostRuntime) -> Result<(), Fail> {
    for count in 0..71u32 {
        for which in [Numbers::Any, Numbers::Few] {
            let values = some_numbers(rt.alloc(), count as usize, 11, which)?;
            let live = odd(
                rt.alloc(),
                &some_numbers(rt.alloc(), count as usize, 13, which)?,
            )?;
            assert!(rt; values.len() == live.len());
            assert_eq!(rt;
                min_masked(&values, &live),
                plain_least(&values, &live),
                "{count}"
            );
        }
    }
    Ok(())
}

#[test]
fn least_reduced_costs(rt: HostRuntime) -> Result<(), Fail> {
    for count in 0..71u32 {
        for which in [Numbers::Modest, Numbers::Few] {
            let costs = some_numbers(rt.alloc(), count as usize, 17, which)?;
            let from = some_numbers(rt.alloc(), count as usize, 19, which)?;
            let to = some_numbers(rt.alloc(), count as usize, 23, which)?;
            assert!(rt; from.len() == costs.len() && to.len() == costs.len());
            assert!(rt; all_modest(&costs) && all_modest(&from) && all_modest(&to));
            assert_eq!(rt;
                least_reduced(&costs, &from, &to),
                plain_reduced(&costs, &from, &to),
                "{count}"
            );
        }
    }
    Ok(())
}
