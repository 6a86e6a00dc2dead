//! Cheapest flows over numbered digraphs, by cancelling cycles: a second way beside the network
//! simplex method.
#![tactic(auto)]

mod answer;
mod cancelling;
mod lengths;
mod lowering;
mod pushing;
mod rooms;

pub use answer::cheapest;
