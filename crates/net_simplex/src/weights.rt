//! The costs of the arcs of the network.

ghost use Rattle.std.specs.Prelude.{◌≤◌, ◌^◌, IfOk, length, pos};
ghost use Rattle.plain_certificates.specs.Tables.{at};
ghost use Rattle.net_simplex.specs.Weights.{AreWeights};

use crate::start::RIM_COST;
use std::alloc::{AllocError, Global};

/// The costs of the arcs, and those of n added ones.
pub fn weights_of(alloc: Global, cost: &[i64], n: usize) -> Result<Vec<i64>, AllocError>
    requires few { (length cost.now ≤ 2 ^ 22) × (n ≤ 2 ^ 20) }
    ensures { IfOk result (λ weights. AreWeights (length cost.now) n (at (pos 0) cost.now)
        weights.items) }
{
    let mut weights = vec![in alloc; RIM_COST; cost.len() + n]?;
    for k in 0..cost.len() {
        weights[k] = cost[k];
    }
    Ok(weights)
}
