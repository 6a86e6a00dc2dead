//! Guards: observers that refuse what breaks their law, or that count.
//!
//! A law of a guard is a limit on how many facts have one key: a quota counts all facts under one
//! key, `loopless` allows none that is a loop, `simple` allows one for each pair of ends, and
//! `outcap` counts by the source. So one type `Guard` serves all kinds, which differ in a key and a
//! limit; the counts are kept as the facts come and go, and no notice looks through the facts.
//! A fuse and a tally refuse nothing and count nothing by key: they keep facts alone.
#![tactic(auto)]

mod counts;
mod guard;
mod kinds;
mod laws;

pub use guard::Guard;
pub use kinds::{Fuse, Loopless, OutCap, Quota, Simple, Tally};
