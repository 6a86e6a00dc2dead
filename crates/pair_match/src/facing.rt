//! The arcs turned so that each leads from its left node to its other one.

ghost use Rattle.std.specs.Prelude.{◌≡◌, ℕ, ◌<◌, length, map, IfOk};
ghost use Rattle.plain_certificates.specs.Numbered.{Numbered};
ghost use Rattle.flow_rows.specs.Network.{IsNetwork};
ghost use Rattle.push_flow.specs.Slices.{ends_at};
ghost use Rattle.pair_match.specs.Facing.{facing, flags, turned_ends};

use flow_rows::Network;
use push_flow::Ends;
use std::alloc::{AllocError, Global};

/// The ends of an arc, its left one first.
fn left_first(ends: Ends, left: bool) -> Ends
    ensures { result ≡ turned_ends left ends }
{
    if left {
        ends
    } else {
        Ends {
            from: ends.to,
            to: ends.from,
        }
    }
}

/// The ends of each arc, its left one first.
fn turned(alloc: Global, ends: &[Ends], left: &[bool]) -> Result<Vec<Ends>, AllocError>
    requires { (k : ℕ) → k < length ends.now → (ends_at ends.now k).from < length left.now }
    ensures { IfOk result (λ new. new.items
        ≡ map (λ e. turned_ends (flags left.now e.from) e) ends.now) }
{
    let mut new = Vec::with_capacity(alloc, ends.len())?;
    for old in ends {
        new.push(left_first(*old, left[old.from as usize]))?;
    }
    Ok(new)
}

/// The same network with each arc from its left end to its other one.
pub fn left_to_right(alloc: Global, net: Network, left: &[bool]) -> Result<Network, AllocError>
    requires { (k : ℕ) → k < length net.ends.items
        → (ends_at net.ends.items k).from < length left.now }
    ensures { IfOk result (λ new. (g : Numbered)
        → IsNetwork g net.ends.items net.start.items net.row.items
        → IsNetwork (facing g (flags left.now)) new.ends.items new.start.items new.row.items) }
{
    let ends = turned(alloc, &net.ends, left)?;
    Ok(Network {
        ends,
        start: net.start,
        row: net.row,
    })
}
