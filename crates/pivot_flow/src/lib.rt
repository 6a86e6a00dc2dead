//! Cheapest flows by the network simplex method: pivots from one spanning tree to the next.
//!
//! The nodes are 0 to n-1, of which the last is the root of each tree, and the arcs are told by
//! their ends, capacities and costs, all in slices. `solve` pivots from a first tree with its flow
//! and potentials until no arc may enter, or until it meets a cycle on which nothing blocks.
#![tactic(auto)]

mod entering;
mod hang;
mod look;
mod pivot;
mod pivots;
mod send;
mod spread;

pub use entering::Entering;
pub use look::{Ends, Found, Leaves};
pub use pivots::{Endless, solve};
