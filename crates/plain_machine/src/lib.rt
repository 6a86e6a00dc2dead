//! The plain machine: what the program owes, said apart from the code that does it.
//!
//! `specs/` has which commands are run, runs of a script with their saves, and the outcome. The
//! code here is the few types and limits that they name, and laws.
#![tactic(auto)]

mod drills;
mod laws;
mod limits;
mod statuses;

pub use drills::DrillWord;
pub use laws::{
    limits_are, nothing_is_picked, picked_outcomes_are_one, picked_runs_are_one,
    picked_stops_are_one, steps_are_one, sure_runs_are_one, sure_stops_are_one,
};
pub use limits::{GRAPH_LIMIT, MAX_DRILLED, MAX_MADE_ARCS, MAX_MADE_NODES, MAX_SEED, SCRIPT_LIMIT};
pub use statuses::Status;
