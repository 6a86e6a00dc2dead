//! The names of seats.

/// The name of a seat of a chain. It is given at attaching, and again only after its observer has
/// left or was taken out.
#[derive(Clone, Copy, PartialEq, Eq, Debug)]
pub struct SeatKey(pub usize);
