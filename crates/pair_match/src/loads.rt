//! The loads with which the engine begins: first each left node is to send one, and each other node
//! is to take one; then what is stuck goes back to left nodes.

ghost use Rattle.std.specs.Prelude.{◌≡◌, cond, false, length, map, IfOk};
ghost use Rattle.std.specs.List.{range_with_len};
ghost use Rattle.plain_certificates.specs.Tables.{at};
ghost use Rattle.pair_match.specs.Facing.{flags};
ghost use Rattle.pair_match.specs.Loads.{IsFirst, IsSecond};

use flow_loads::Load;
use std::alloc::{AllocError, Global};

/// One number where a node is left, and another where it isn't.
fn either(left: bool, on: u64, off: u64) -> u64
    ensures { result ≡ cond left on off }
{
    if left { on } else { off }
}

/// One number for each left node, and another for each other one.
fn by_side(alloc: Global, left: &[bool], on: u64, off: u64) -> Result<Vec<u64>, AllocError>
    ensures { IfOk result (λ list. list.items ≡ map (λ l. cond l on off) left.now) }
{
    let mut list = Vec::with_capacity(alloc, left.len())?;
    for l in left {
        list.push(either(*l, on, off))?;
    }
    Ok(list)
}

/// What is left over at nodes that aren't left, and nothing at left nodes.
fn kept_right(alloc: Global, left: &[bool], excess: &[u64]) -> Result<Vec<u64>, AllocError>
    requires { length excess.now ≡ length left.now }
    ensures { IfOk result (λ kept. kept.items
        ≡ map (λ v. cond (flags left.now v) 0 (at 0 excess.now v))
        (range_with_len 0 (length left.now))) }
{
    let mut kept = Vec::with_capacity(alloc, left.len())?;
    let mut v = 0;
    while v < left.len() {
        kept.push(either(left[v], 0, excess[v]))?;
        v += 1;
    }
    Ok(kept)
}

/// No flow yet, and one to send at each left node, and one to take at each other node.
pub fn first_load(alloc: Global, left: &[bool], arcs: usize) -> Result<Load, AllocError>
    ensures { IfOk result (IsFirst arcs left.now) }
{
    let flow = vec![in alloc; 0u64; arcs]?;
    let excess = by_side(alloc, left, 1, 0)?;
    let want = by_side(alloc, left, 0, 1)?;
    let height = vec![in alloc; 0u32; left.len()]?;
    Ok(Load {
        flow,
        excess,
        want,
        height,
    })
}

/// The flow that a load has, what is left over at nodes that aren't left, and one to take at each
/// left node.
pub fn second_load(alloc: Global, left: &[bool], load: Load) -> Result<Load, AllocError>
    requires { length load.excess.items ≡ length left.now }
    ensures { IfOk result (IsSecond left.now load) }
{
    let excess = kept_right(alloc, left, &load.excess)?;
    let want = by_side(alloc, left, 1, 0)?;
    let height = vec![in alloc; 0u32; left.len()]?;
    Ok(Load {
        flow: load.flow,
        excess,
        want,
        height,
    })
}
