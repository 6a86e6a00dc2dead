//! A numbered digraph, its bounds and its answers as the engine of flows has them: slices of
//! numbers without a sign.
#![tactic(auto)]

mod network;
mod values;

pub use network::{Network, network_of};
pub use values::{at_top, signed, unsigned};
