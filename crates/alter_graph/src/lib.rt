//! A digraph whose observers are told of each change, and may refuse it.
//!
//! An alteration is a list of steps that observers may refuse, and then a list of sure ones. Each
//! step is taken by the digraph and told to the chain of its sort. Where an observer refuses, or
//! memory or a limit is wanting, all steps before are taken back in reverse order, each by its own
//! undo at the digraph and by undo notices: all is then as before the alteration, and no observer
//! has a trace of it. At the sure steps, which are erasures, observers may leave.
#![tactic(auto)]

mod chains;
mod contraction;
mod erasing;
mod faults;
mod gathering;
mod graph;
mod halves;
mod journal;
mod restoring;
mod seats;
mod singles;
mod snaps;
mod snapshots;
mod splits;
mod steps;

pub use faults::AlterFault;
pub use gathering::all_facts;
pub use graph::Alterable;
pub use snaps::SnapKeys;
pub use snapshots::HoldsHalf;
