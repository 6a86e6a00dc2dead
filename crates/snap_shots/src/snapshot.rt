//! The two halves of a snapshot, one for each sort.

ghost use Rattle.std.specs.Prelude.{◌≡◌};
ghost use Rattle.snap_shots.specs.HalfViews.{half_seen, fresh};

use crate::half::Half;
use std::alloc::Global;

/// The halves of a snapshot that aren't attached yet.
#[derive(Drop)]
pub struct Snapshot {
    pub nodes: Half,
    pub arcs: Half,
}

impl Snapshot {
    /// Two halves that were told of nothing. Nothing is copied.
    pub fn make(alloc: Global) -> Snapshot
        ensures nodes { half_seen result.nodes ≡ fresh }
        ensures arcs { half_seen result.arcs ≡ fresh }
    {
        Snapshot {
            nodes: Half::new(alloc),
            arcs: Half::new(alloc),
        }
    }
}
