//! The two ways to a cheapest flow, over values that may be no task.

use crate::bounds::{are_given, are_ordered, are_values};
use flow_mincost::cheapest;
use net_simplex::simplex;
use static_digraph::{CostAnswer, Fixed};
use std::alloc::{AllocError, Global};

/// A way to a cheapest flow.
#[derive(Clone, Copy)]
pub enum Way {
    /// Pivots from one spanning tree to the next.
    Simplex,
    /// A feasible flow, of which cycles are cancelled.
    Cancelling,
}

/// What is found one way; None where the values are no task for the digraph.
pub fn found(
    alloc: Global,
    way: Way,
    g: &Fixed,
    lower: Option<&[i64]>,
    upper: Option<&[i64]>,
    cost: &[i64],
    supply: Option<&[i64]>,
) -> Result<Option<CostAnswer>, AllocError> {
    let nodes = g.node_count() as usize;
    let arcs = g.arc_count() as usize;
    if cost.len() != arcs || !are_values(cost) {
        return Ok(None);
    }
    if !are_given(lower, arcs) {
        return Ok(None);
    }
    if !are_given(upper, arcs) {
        return Ok(None);
    }
    if !are_given(supply, nodes) {
        return Ok(None);
    }
    if !are_ordered(lower, upper, arcs) {
        return Ok(None);
    }
    match way {
        Way::Simplex => Ok(Some(simplex(alloc, g, lower, upper, cost, supply)?)),
        Way::Cancelling => Ok(Some(cheapest(alloc, g, lower, upper, cost, supply)?)),
    }
}
