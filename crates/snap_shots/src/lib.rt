//! Snapshots: what was added since, and the facts that moved items had at the making.
//!
//! A snapshot is two observers, one for each sort. It copies nothing: a half keeps the ids added
//! since, and the facts of moved arcs as they were at the making. While it is valid, the items
//! without the added ones, and with these facts in place of the present ones, are those of the
//! making; that this is so after each notice is a law of `observe_core` (`added_saves` and those
//! beside it).
#![tactic(auto)]

mod facts;
mod half;
mod snapshot;

pub use half::Half;
pub use snapshot::Snapshot;
