//! Bounds and supplies of flows, of which some may be absent, as lists; what each node has to send
//! once the lower bounds are sent; exact sums over arcs and nodes; flows, potentials and barriers
//! as lists, and what answers about cheapest flows show.
#![tactic(auto)]

mod barrier;
mod excess;
mod flows;
mod given;
mod plan;
mod positive;
mod potentials;
mod sums;

pub use barrier::barrier_of;
pub use flows::flows_of;
pub use given::OPEN;
pub use plan::{Plan, plan_of};
pub use positive::first_positive;
pub use potentials::potentials_of;
pub use sums::{cost_along, cost_of};
