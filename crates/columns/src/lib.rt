//! A value for each live id, as a column of values beside a column of flags.
#![tactic(auto)]

mod column;

pub use column::Column;
