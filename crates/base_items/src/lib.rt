//! What every layer names: the items of a digraph, what is told of them, the limits, and lists.
#![tactic(auto)]

mod items;
mod laws;
mod limits;
mod lists;

pub use items::{Arc, Fact, ItemSort, Node};
pub use laws::limits_are;
pub use limits::{Limit, MAX_ARCS, MAX_LAYERS, MAX_NODES, MAX_STAMP, VALUE_LIMIT};
pub use lists::List;
