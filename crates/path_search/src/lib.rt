//! Shortest paths from one node, over numbered digraphs.
#![tactic(auto)]

mod lengths;
mod nearest;
mod paths;
mod queue;
mod signed;
mod signed_search;

pub use nearest::dijkstra;
pub use paths::Paths;
pub use signed_search::{Walks, bellman};
