//! The seat as half of a snapshot.

use crate::seat::Seat;
use alter_graph::HoldsHalf;
use observe_core::Observer;
use snap_shots::Half;

impl<B: Observer> HoldsHalf for Seat<B> {
    fn from_half(half: Half) -> Self {
        Seat::Half(half)
    }

    fn half(&self) -> Option<&Half> {
        match self {
            Seat::Half(half) => Some(half),
            _ => None,
        }
    }
}
