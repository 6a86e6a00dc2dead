//! Cycles of negative length along and against the arcs of numbered digraphs.
#![tactic(auto)]

mod climbs;
mod engine;
mod lengths;
mod paces;
mod rounds;
mod search;
mod turns;

pub use engine::{FAR, settle};
pub use lengths::shifted_lengths;
pub use paces::{pace_at, pace_ends};
pub use search::{CycleSearch, NO_PACE, negative_cycle};
pub use turns::least_first;
