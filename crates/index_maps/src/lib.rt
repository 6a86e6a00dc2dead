//! Labels found either way, degrees, true items and ties, each an observer of the digraph.
#![tactic(auto)]

mod bits;
mod cross_ref;
mod degree;
mod ties;
mod trues;
mod words;

pub use cross_ref::CrossRef;
pub use degree::Degree;
pub use ties::Ties;
pub use trues::TrueItems;
