//! Cheapest flows of drawn tasks, where both ways find the same cost, or answers of the same kind.

use crate::tasks::digraph;
use crate::ways::{Way, found};
use static_digraph::CostAnswer;
use std::alloc::{AllocError, Global};
use std::process::Abort;
use std::test::Fail;

// The nodes of each task.
const NODES: [u32; 12] = [0, 1, 2, 3, 4, 5, 6, 7, 8, 9, 10, 11];

// Thirty arcs with capacities and costs that are drawn from a seed, and supplies that are drawn
// from the capacities.
#[derive(Drop)]
struct Task {
    arcs: Vec<(u32, u32)>,
    upper: Vec<i64>,
    cost: Vec<i64>,
    supply: Vec<i64>,
}

// The number that is drawn after another one.
fn next(state: u64) -> u64 {
    state.wrapping_mul(48271) % 2147483647
}

// So much more at one place.
fn add_at(values: &mut Vec<i64>, place: u64, more: i64) {
    if let Some(value) = values.get_mut(place as usize) {
        *value = value.wrapping_add(more);
    }
}

// The task of a seed. Each arc takes four draws: its source, its target, its capacity and its cost,
// of which so much is taken off. Half of each capacity is what its source supplies and its target
// takes, so that a flow is feasible; or twice as much as it.
fn drawn(alloc: Global, seed: u64, twice: bool, off: i64) -> Result<Task, AllocError> {
    let mut arcs = Vec::new(alloc);
    let mut upper = Vec::new(alloc);
    let mut costs = Vec::new(alloc);
    let mut supply = vec![in alloc; 0i64; 12]?;
    let mut state = seed;
    for _ in 0..30 {
        let from = next(state);
        let to = next(from);
        let cap = next(to);
        state = next(cap);
        let room = (cap % 1000) as i64;
        let sent = if twice { 2 * room } else { room / 2 };
        arcs.push(((from % 12) as u32, (to % 12) as u32))?;
        upper.push(room)?;
        costs.push(((state % 1000) as i64).wrapping_sub(off))?;
        add_at(&mut supply, from % 12, sent);
        add_at(&mut supply, to % 12, sent.wrapping_neg());
    }
    Ok(Task {
        arcs,
        upper,
        cost: costs,
        supply,
    })
}

// What an answer is, with its cost where it is a flow.
fn kind_of(alloc: Global, answer: &CostAnswer) -> Result<String, AllocError> {
    match answer {
        CostAnswer::Optimal {
            flow: _,
            pi: _,
            cost,
        } => format!(in alloc; "cost {cost}"),
        CostAnswer::Barrier(_) => format!(in alloc; "barrier"),
        CostAnswer::FreeCycle {
            flow: _,
            cycle: _,
            cost: _,
        } => format!(in alloc; "free cycle"),
    }
}

// What both ways find of a task, of which the upper bounds may be left out; None where it is no
// task.
fn kinds(alloc: Global, task: &Task, open: bool) -> Result<Option<(String, String)>, AllocError> {
    let Some(g) = digraph(alloc, &NODES, &task.arcs) else {
        return Ok(None);
    };
    let upper = if open {
        None
    } else {
        Some(task.upper.as_slice())
    };
    let supply = Some(task.supply.as_slice());
    let Some(one) = found(alloc, Way::Simplex, &g, None, upper, &task.cost, supply)? else {
        return Ok(None);
    };
    let Some(other) = found(alloc, Way::Cancelling, &g, None, upper, &task.cost, supply)? else {
        return Ok(None);
    };
    Ok(Some((kind_of(alloc, &one)?, kind_of(alloc, &other)?)))
}

// Both ways find the same of the task of a seed.
fn is_same(rt: &impl Abort, seed: u64, kinds: Option<(String, String)>) {
    let Some((one, other)) = kinds else {
        panic!(rt; "no task: seed {seed}");
    };
    assert_eq!(rt; one.as_str(), other.as_str());
}

#[test]
fn drawn_tasks_with_costs_from_0_up(rt: HostRuntime) -> Result<(), Fail> {
    for seed in 1..41u64 {
        let task = drawn(rt.alloc(), seed, false, 0)?;
        is_same(&rt, seed, kinds(rt.alloc(), &task, false)?);
        is_same(&rt, seed, kinds(rt.alloc(), &task, true)?);
    }
    Ok(())
}

#[test]
fn drawn_tasks_with_costs_below_0_too(rt: HostRuntime) -> Result<(), Fail> {
    for seed in 1..41u64 {
        let task = drawn(rt.alloc(), seed, false, 500)?;
        is_same(&rt, seed, kinds(rt.alloc(), &task, false)?);
        is_same(&rt, seed, kinds(rt.alloc(), &task, true)?);
    }
    Ok(())
}

#[test]
fn drawn_tasks_with_more_than_can_be_sent(rt: HostRuntime) -> Result<(), Fail> {
    for seed in 1..41u64 {
        let task = drawn(rt.alloc(), seed, true, 0)?;
        is_same(&rt, seed, kinds(rt.alloc(), &task, false)?);
        is_same(&rt, seed, kinds(rt.alloc(), &task, true)?);
    }
    Ok(())
}
