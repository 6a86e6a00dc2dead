//! The texts of replies and of refusals, byte by byte.
#![tactic(auto)]

mod faults;
mod guards;
mod lines;
mod paths;
mod refusals;
mod replies;
mod values;
mod words;
mod written;

pub use faults::{Fault, StepFault};
pub use refusals::fault_bytes;
pub use replies::{
    ArcLine, FlowLine, GuardLine, GuardNumbers, MeanLine, NodeLine, PairLine, PathLine,
    PotentialLine, Reply, SnapLine,
};
pub use written::reply_bytes;
