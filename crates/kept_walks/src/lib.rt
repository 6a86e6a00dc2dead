//! Kept views: what the two observers of a view show, walked without the base.
#![tactic(auto)]

mod kept;
mod laws;
mod marked;
mod stored;

pub use kept::Kept;
pub use laws::{ends_are_held, kept_follows, marks_stay, placing_marks, stored_is_base};
pub use marked::{RoomMarks, ShownMarks};
pub use stored::Stored;
