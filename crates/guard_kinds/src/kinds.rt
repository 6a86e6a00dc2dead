//! Unarmed guards, by the names of their kinds.

ghost use Rattle.std.specs.Prelude.{◌≡◌};
ghost use Rattle.observe_core.specs.declared.kinds.Kind.TheVariants as kinds;
ghost use Rattle.guard_kinds.specs.GuardViews.{guard_seen, unarmed};

use crate::guard::Guard;
use observe_core::Kind;
use std::alloc::Global;

/// At most as many items as its parameter, which is at most `MAX_ARCS`.
pub struct Quota;

/// No arc from a node to itself.
pub struct Loopless;

/// No two arcs with the same source and the same target.
pub struct Simple;

/// At most as many arcs from each node as its parameter, which is at most `MAX_ARCS`.
pub struct OutCap;

/// Refuses nothing, and leaves when as many items were erased as its parameter, which is from 1 to
/// `MAX_ARCS`, or at a clear.
pub struct Fuse;

/// Refuses nothing, and counts additions, erasures and moves.
pub struct Tally;

impl Quota {
    /// A guard that tracks nothing, as after `arm` with the greatest parameter. It takes no memory.
    pub fn new(alloc: Global) -> Guard
        ensures { guard_seen result ≡ unarmed kinds.Quota }
    {
        Guard::new(Kind::Quota, alloc)
    }
}

impl Loopless {
    /// A guard that tracks nothing. It takes no memory.
    pub fn new(alloc: Global) -> Guard
        ensures { guard_seen result ≡ unarmed kinds.Loopless }
    {
        Guard::new(Kind::Loopless, alloc)
    }
}

impl Simple {
    /// A guard that tracks nothing. It takes no memory.
    pub fn new(alloc: Global) -> Guard
        ensures { guard_seen result ≡ unarmed kinds.Simple }
    {
        Guard::new(Kind::Simple, alloc)
    }
}

impl OutCap {
    /// A guard that tracks nothing, as after `arm` with the greatest parameter. It takes no memory.
    pub fn new(alloc: Global) -> Guard
        ensures { guard_seen result ≡ unarmed kinds.OutCap }
    {
        Guard::new(Kind::OutCap, alloc)
    }
}

impl Fuse {
    /// A guard that tracks nothing, as after `arm` with the greatest parameter. It takes no memory.
    pub fn new(alloc: Global) -> Guard
        ensures { guard_seen result ≡ unarmed kinds.Fuse }
    {
        Guard::new(Kind::Fuse, alloc)
    }
}

impl Tally {
    /// A guard that tracks nothing, and whose counts are 0. It takes no memory.
    pub fn new(alloc: Global) -> Guard
        ensures { guard_seen result ≡ unarmed kinds.Tally }
    {
        Guard::new(Kind::Tally, alloc)
    }
}
