//! The names of snapshots.

use notify_chain::SeatKey;

/// The name of a snapshot: the seats of its two halves.
#[derive(Clone, Copy, Debug, PartialEq, Eq)]
pub struct SnapKeys {
    pub nodes: SeatKey,
    pub arcs: SeatKey,
}
