//! Why a view is not numbered.

ghost use Rattle.std.specs.Prelude.{◌≡◌};

use base_items::Limit;
use std::alloc::{AllocError, AllocFailed};

/// The view shows more items of a sort than the limit allows. Or memory is wanting.
#[derive(Clone, Copy, PartialEq, Eq, Debug)]
pub enum NumberFault {
    Full(Limit),
    Memory,
}

impl From<AllocError> for NumberFault {
    ghost use Rattle.view_numbers.specs.declared.fault.NumberFault.TheVariants as faults;

    ghost from_gives = { λ _ fault. fault ≡ faults.Memory };

    fn from(_: AllocError) -> NumberFault {
        NumberFault::Memory
    }
}

impl<T: Drop> From<AllocFailed<T>> for NumberFault {
    ghost use Rattle.view_numbers.specs.declared.fault.NumberFault.TheVariants as faults;

    ghost from_gives = { λ _ fault. fault ≡ faults.Memory };

    fn from(_: AllocFailed<T>) -> NumberFault {
        NumberFault::Memory
    }
}
