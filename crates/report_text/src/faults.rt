//! Why a line is refused.

ghost use Rattle.std.specs.Prelude.{◌≡◌};
ghost use Rattle.report_text.specs.declared.faults.StepFault.TheVariants.{Memory as NoMemory};

use base_items::ItemSort;
use std::alloc::{AllocError, AllocFailed};
use token_text::Text;

/// Why a line of a script is refused, with the names and numbers that its text shows.
#[derive(Drop)]
pub enum Fault {
    /// The line is no command, from this column on, counted in bytes from 1.
    BadLine(usize),
    /// Nothing has this name.
    Unknown(Text),
    /// This new name is there already.
    Taken(Text),
    /// A guard of this name allows no such change.
    Vetoed(Text),
    /// The snapshot of this name can't be restored any more.
    Stale(Text),
    /// At this item stands a token that isn't of the map's type.
    BadValue(Text, Text),
    /// The map or the view of this name is of another type than is needed.
    WrongType(Text),
    /// At this item stands a value whose magnitude is above
    /// [`VALUE_LIMIT`](base_items::VALUE_LIMIT).
    OutOfRange(Text, i128),
    /// Both nodes are this one.
    SameNode(Text),
    /// The length or the capacity of this arc is below 0.
    Negative(Text),
    /// The lower bound of this arc is above its upper one.
    Crossed(Text),
    /// Both ends of this arc are on one side.
    NotBipartite(Text),
    /// The items of the sort are at this limit, or a view shows more.
    Full(ItemSort, u32),
    /// A view would have more layers than this.
    TooDeep(u32),
    /// No guard of this kind is left.
    NoGuard(Text),
    /// The view or the index of this name reads it.
    InUse(Text),
    /// The base takes no erasure and no move: the first word of the command.
    NoErase(Text),
}

/// Why a command isn't done.
#[derive(Drop)]
pub enum StepFault {
    /// It is refused.
    Refused(Fault),
    /// Memory ran out.
    Memory,
}

impl From<AllocError> for StepFault {
    ghost from_gives = { λ _ fault. fault ≡ NoMemory };

    fn from(_: AllocError) -> StepFault {
        StepFault::Memory
    }
}

impl<T: Drop> From<AllocFailed<T>> for StepFault {
    ghost from_gives = { λ _ fault. fault ≡ NoMemory };

    fn from(_: AllocFailed<T>) -> StepFault {
        StepFault::Memory
    }
}
