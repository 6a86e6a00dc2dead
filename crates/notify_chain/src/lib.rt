//! Chains of observers: a change is told to all of them or to none.
//!
//! The order of the notices, what a refusal and a departure do, and why an undo notice is no
//! erasure stand on the first page of `observe_core`. A chain keeps that order: it tells a change
//! that may be refused from the oldest seat to the newest, and where one refuses, undoes it at
//! those told, the last told first; it tells undo notices and losses from the newest to the oldest.
#![tactic(auto)]

mod announcing;
mod chain;
mod key;
mod laws;
mod losing;
mod telling;

pub use chain::Chain;
pub use key::SeatKey;
pub use laws::{accepted_may_be_undone, undone_is_as_before};
