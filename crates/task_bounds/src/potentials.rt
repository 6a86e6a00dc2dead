//! Potentials of the nodes, as they are told.

ghost use Rattle.std.specs.Prelude.{◌≡◌, ℕ, ◌<◌, ◌≤◌, ◌^◌, ◌-ℤ◌, ◌≤ℤ◌, neg_ℤ, pos, length, IfOk};
ghost use Rattle.plain_certificates.specs.Tables.{at};
ghost use Rattle.task_bounds.specs.Potentials.{ArePotentials};

use std::alloc::{AllocError, Global};

/// How much higher a potential is than that of the first node.
fn above(price: i64, first: i64) -> i64
    requires price { (neg_ℤ (pos (2 ^ 58)) ≤ℤ price) × (price ≤ℤ pos (2 ^ 58)) }
    requires first { (neg_ℤ (pos (2 ^ 58)) ≤ℤ first) × (first ≤ℤ pos (2 ^ 58)) }
    ensures { result ≡ price -ℤ first }
{
    price - first
}

/// The potentials of so many nodes, of which the first has 0.
///
/// Those that are given are within 2^58 of 0; there may be more of them.
pub fn potentials_of(alloc: Global, price: &[i64], nodes: usize) -> Result<Vec<i64>, AllocError>
    requires sizes { nodes ≤ length price.now }
    requires small { (v : ℕ) → v < length price.now
        → (neg_ℤ (pos (2 ^ 58)) ≤ℤ at (pos 0) price.now v)
        × (at (pos 0) price.now v ≤ℤ pos (2 ^ 58)) }
    ensures { IfOk result (λ pi. ArePotentials nodes (at (pos 0) price.now) pi.items) }
{
    let mut pi = vec![in alloc; 0i64; nodes]?;
    for v in 0..nodes {
        pi[v] = above(price[v], price[0]);
    }
    Ok(pi)
}
