//! Sides, made of what a run leaves.

ghost use Rattle.std.specs.Prelude.{◌≤◌, pos, length, IfOk};
ghost use Rattle.plain_certificates.specs.Tables.{at};
ghost use Rattle.net_simplex.specs.Told.{AreSides, IsSide};

use std::alloc::{AllocError, Global};

/// Whether a potential is on the side of a barrier of this kind.
pub fn is_side(price: i64, over: bool) -> bool
    ensures { IsSide over price result }
{
    if over { price < 0 } else { price > 0 }
}

/// The nodes on the side of a barrier of this kind.
pub fn sides_of(alloc: Global, price: &[i64], over: bool, n: usize) -> Result<Vec<bool>, AllocError>
    requires { n ≤ length price.now }
    ensures { IfOk result (λ set. AreSides n (at (pos 0) price.now) over set.items) }
{
    let mut set = vec![in alloc; false; n]?;
    for v in 0..n {
        set[v] = is_side(price[v], over);
    }
    Ok(set)
}
