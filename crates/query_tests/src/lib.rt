//! Tests of the layers that number a digraph and answer queries, so that their own crates are
//! proved once.
#![tactic(auto)]

#[cfg(test)]
mod bounds;
#[cfg(test)]
mod builds;
#[cfg(test)]
mod circulations;
#[cfg(test)]
mod cuts;
#[cfg(test)]
mod drawn;
#[cfg(test)]
mod flows;
#[cfg(test)]
mod paces;
#[cfg(test)]
mod pairings;
#[cfg(test)]
mod paths;
mod tasks;
#[cfg(test)]
mod texts;
#[cfg(test)]
mod ways;

pub use tasks::{are_within, digraph};
