//! What every view shows, the base as such a view, and what layers ask: filters and rooms.
#![tactic(auto)]

mod filters;
mod plain;
mod shown;

pub use filters::{Filter, Rooms};
pub use plain::Plain;
pub use shown::Shown;
