//! Flows on their way in lists, and runs of the engine over them.
#![tactic(auto)]

mod loads;

pub use loads::{Load, settle};
