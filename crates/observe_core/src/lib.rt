//! What watches a digraph: its notices, the plain record of what it stands for, and their laws.
//!
//! # The protocol
//!
//! An observer stands for the live items of one sort, by their facts. Observers sit in a chain, the
//! oldest first, and each change of the items is told to all of them or to none.
//!
//! | Notice | It says | Told first | May be refused | Taken back by |
//! |---|---|---|---|---|
//! | `add` | an item is to be added | the oldest | yes | `undo_add` |
//! | `shift` | an item gets another fact: an arc moves | the oldest | yes | `undo_shift` |
//! | `build` | these are all items, and none was tracked | the oldest | yes | `undo_build` |
//! | `erase` | an item goes | the newest | no | nothing |
//! | `clear` | all items go | the newest | no | nothing |
//!
//! **A refusal.** An observer answers `Refused` exactly where the facts after the notice would
//! break the law of its kind, and `Memory` where it lacks memory; it is then as before. The older
//! ones, which had been told, hear the undo notice, the last told first; the newer ones hear
//! nothing. So each is as before. Where a later step of a change is refused, its earlier steps are
//! undone in reverse order, each by undo notices to the whole chain from the newest to the oldest.
//!
//! **An undo notice is no erasure.** It says that the change never counted. What it gives is
//! computed from the present record (`untold`), and is the record from before, so it lowers the
//! counts that the notice raised and leaves no trace in a fuse, a tally, a tie or the validity of a
//! snapshot. An erasure is a change of its own: it counts as one, ends what hangs on the item, and
//! an observer may leave at it. No observer leaves at an undo notice, and none can fail at it: it
//! takes no memory, which is what the reach of an observer is for.
//!
//! **A departure.** An erasure and a clear are told as they happen, and each observer answers
//! whether it stays. One that leaves has heard the notice as the others have, and so have those
//! behind it; it is dropped with all that it owns, and its key waits in the chain until it is asked
//! for. Room for this is made when the observer is attached, so that erasures take no memory.
//!
//! # What contracts see
//!
//! `Seen` is the plain record of an observer. `Fits` says which facts it stands for, `told` and
//! `lost` what each notice makes of it, `CanTell`, `CanUntell` and `CanLose` when it may be told,
//! `Answers` what its answers say. Beside it stand its room, which no notice lowers, its reach, and
//! that it is sound, which is always so (`Watched`).
#![tactic(auto)]

mod changes;
mod kinds;
mod laws;
mod losses;
mod observer;

pub use changes::{Change, tell, untell};
pub use kinds::{After, KeptShape, Kind, Readout, Veto};
pub use laws::{
    added_fits, added_saves, back_again, built_fits, cleared_fits, cleared_saves, erased_fits,
    erased_saves, law_is_of_live, live_added, live_built, live_erased, live_shifted, map_is_sound,
    may_go_back, numbers_stay_own, shifted_fits, shifted_saves, stays_as_made,
};
pub use losses::{Loss, lose};
pub use observer::Observer;
