//! Alterations of a digraph under observers as values that name items by their ids, for tests.
#![tactic(auto)]

mod changes;

pub use changes::{Change, alter};
