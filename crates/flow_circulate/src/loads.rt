//! The load with which the engine begins: what each node is to send, or to take.

ghost use Rattle.std.specs.Prelude.{◌≡◌, ◌<◌, ◌≤◌, ◌^◌, ℕ, cond, neg_ℤ, pos, ◌≤ℤ◌, length, IfOk};
ghost use Rattle.plain_certificates.specs.Tables.{at};
ghost use Rattle.flow_circulate.specs.Parts.{IsPart, AreParts, IsFirst};

use flow_loads::Load;
use std::alloc::{AllocError, Global};

/// What is above 0 of a value, or of its opposite where it is turned.
fn part(value: i64, turned: bool) -> u64
    requires { (neg_ℤ (pos (2 ^ 61)) ≤ℤ value) × (value ≤ℤ pos (2 ^ 61)) }
    ensures { IsPart (cond turned (neg_ℤ value) value) result }
{
    if turned {
        if value < 0 { -value as u64 } else { 0 }
    } else {
        if value > 0 { value as u64 } else { 0 }
    }
}

/// What is above 0 of each value, or of its opposite.
fn parts_of(alloc: Global, values: &[i64], turned: bool) -> Result<Vec<u64>, AllocError>
    requires { (v : ℕ) → v < length values.now
        → (neg_ℤ (pos (2 ^ 61)) ≤ℤ at (pos 0) values.now v)
        × (at (pos 0) values.now v ≤ℤ pos (2 ^ 61)) }
    ensures { IfOk result
        (λ parts. AreParts (length values.now) turned (at (pos 0) values.now) parts.items) }
{
    let mut parts = vec![in alloc; 0u64; values.len()]?;
    for v in 0..values.len() {
        parts[v] = part(values[v], turned);
    }
    Ok(parts)
}

/// No flow yet: what a node is to send is its excess, and what it is to take is its want.
pub fn load_of(alloc: Global, values: &[i64], arcs: usize) -> Result<Load, AllocError>
    requires { (v : ℕ) → v < length values.now
        → (neg_ℤ (pos (2 ^ 61)) ≤ℤ at (pos 0) values.now v)
        × (at (pos 0) values.now v ≤ℤ pos (2 ^ 61)) }
    ensures { IfOk result (IsFirst (length values.now) arcs (at (pos 0) values.now)) }
{
    let flow = vec![in alloc; 0u64; arcs]?;
    let excess = parts_of(alloc, values, false)?;
    let want = parts_of(alloc, values, true)?;
    let height = vec![in alloc; 0u32; values.len()]?;
    Ok(Load {
        flow,
        excess,
        want,
        height,
    })
}
