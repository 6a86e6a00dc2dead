//! Feasible flows of a numbered digraph, or a set of nodes that shows that there is none.
#![tactic(auto)]

mod circulation;
mod loads;

pub use circulation::{Circulation, barrier_at, circulate, run};
