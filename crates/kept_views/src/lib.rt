//! The nodes and the arcs of kept views: observers that hold each item with how it is shown.
#![tactic(auto)]

mod arcs;
mod items;
mod listing;
mod nodes;
mod order;
mod orders;
mod walks;

pub use arcs::KeptArcs;
pub use nodes::KeptNodes;
