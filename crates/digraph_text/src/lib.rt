//! A digraph as a text, for tests that compare all of its lists.
#![tactic(auto)]

mod listing;
mod live;

pub use listing::listed;
pub use live::is_live;
