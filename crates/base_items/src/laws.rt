//! The limits as numbers. A function here has no code: its contract is the law.

ghost use Rattle.std.specs.Prelude.{◌≡◌, ◌^◌};

use crate::limits::{MAX_ARCS, MAX_LAYERS, MAX_NODES, MAX_STAMP, VALUE_LIMIT};

/// A digraph has at most 1,048,576 nodes and 4,194,304 arcs, a view at most 8 layers; values go
/// up to 2^36 in magnitude, and there are 2^62 stamps.
pub fn limits_are()
    ensures nodes { MAX_NODES ≡ 1048576 }
    ensures arcs { MAX_ARCS ≡ 4194304 }
    ensures layers { MAX_LAYERS ≡ 8 }
    ensures values { VALUE_LIMIT ≡ 2 ^ 36 }
    ensures stamps { MAX_STAMP ≡ 2 ^ 62 }
{}
