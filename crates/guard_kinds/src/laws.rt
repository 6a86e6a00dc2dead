//! What differs from kind to kind.

ghost use Rattle.std.specs.Prelude.{◌≡◌, ◌≤◌, ℕ};
ghost use Rattle.observe_core.specs.Guards.{fuse_part as fuse_part_of, tally_part as tally_part_of};
ghost use Rattle.observe_core.specs.Guards.{greatest_k as greatest_k_of};
ghost use Rattle.guard_kinds.specs.Keys.{key_of, limit_of as limit_of_kind, room_of};

use base_items::{Fact, MAX_ARCS};
use observe_core::Kind;

/// The key by which a kind counts a fact, if it counts it.
pub(crate) fn key(kind: Kind, f: &Fact) -> Option<u64>
    ensures { result ≡ key_of kind f.now }
{
    match kind {
        Kind::Quota => Some(0),
        Kind::Loopless => { if f.from == f.to { Some(0) } else { None } }
        Kind::Simple => Some(f.from as u64 * 4294967296 + f.to as u64),
        Kind::OutCap => Some(f.from as u64),
        Kind::Map | Kind::Fuse | Kind::Tally => None,
    }
}

/// How many facts may have one key.
pub(crate) fn limit(kind: Kind, k: u32) -> u32
    ensures { result ≡ limit_of_kind kind k }
{
    match kind {
        Kind::Quota | Kind::OutCap => k,
        Kind::Simple => 1,
        Kind::Map | Kind::Loopless | Kind::Fuse | Kind::Tally => 0,
    }
}

/// How many keys may stand among so many facts: those that a quota counts have one key.
pub(crate) fn room_for(kind: Kind, facts: u32) -> u32
    ensures room { result ≡ room_of kind facts }
    ensures within { result ≤ facts }
{
    match kind {
        Kind::Simple | Kind::OutCap => facts,
        Kind::Quota => (facts > 0) as u32,
        Kind::Map | Kind::Loopless | Kind::Fuse | Kind::Tally => 0,
    }
}

/// The number for a fuse, 0 for every other kind.
pub(crate) fn fuse_part(kind: Kind, n: u32) -> u32
    ensures { result ≡ fuse_part_of kind n }
{
    match kind {
        Kind::Fuse => n,
        Kind::Map | Kind::Quota | Kind::Loopless | Kind::Simple | Kind::OutCap | Kind::Tally => 0,
    }
}

/// The number for a tally, 0 for every other kind.
pub(crate) fn tally_part(kind: Kind, n: u64) -> u64
    ensures { result ≡ tally_part_of kind n }
{
    match kind {
        Kind::Tally => n,
        Kind::Map | Kind::Quota | Kind::Loopless | Kind::Simple | Kind::OutCap | Kind::Fuse => 0,
    }
}

/// The greatest parameter of a kind.
pub(crate) fn greatest_k(kind: Kind) -> u32
    ensures { result ≡ greatest_k_of kind }
{
    match kind {
        Kind::Quota | Kind::OutCap | Kind::Fuse => MAX_ARCS,
        Kind::Map | Kind::Loopless | Kind::Simple | Kind::Tally => 0,
    }
}
