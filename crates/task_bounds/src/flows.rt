//! Flows that begin at their lower bounds.

ghost use Rattle.std.specs.Prelude.{◌≡◌, ℕ, ◌<◌, ◌≤◌, ◌^◌, ◌+ℤ◌, pos, length, IfOk};
ghost use Rattle.plain_certificates.specs.Tables.{at};
ghost use Rattle.task_bounds.specs.Given.{IsValue, AreFlows};

use std::alloc::{AllocError, Global};

/// The flow of an arc above its lower bound.
fn raised(lower: i64, sent: u64) -> i64
    requires lower { IsValue lower }
    requires sent { sent ≤ 2 ^ 62 }
    ensures { result ≡ lower +ℤ pos sent }
{
    lower + sent as i64
}

/// The flow of each arc.
pub fn flows_of(alloc: Global, lower: &[i64], sent: &[u64]) -> Result<Vec<i64>, AllocError>
    requires sizes { length lower.now ≤ length sent.now }
    requires lower { (k : ℕ) → k < length lower.now → IsValue (at (pos 0) lower.now k) }
    requires sent { (k : ℕ) → k < length lower.now → at 0 sent.now k ≤ 2 ^ 62 }
    ensures { IfOk result (λ flows. AreFlows (length lower.now) (at (pos 0) lower.now)
        (at 0 sent.now) flows.items) }
{
    let mut flows = vec![in alloc; 0i64; lower.len()]?;
    for k in 0..lower.len() {
        flows[k] = raised(lower[k], sent[k]);
    }
    Ok(flows)
}
