//! Why the values that items pull are not taken.

ghost use Rattle.std.specs.Prelude.{◌≡◌};

use std::alloc::{AllocError, AllocFailed};

/// The item of this number pulls this value, whose magnitude is above `VALUE_LIMIT`. Or memory is
/// wanting.
#[derive(Clone, Copy, PartialEq, Eq, Debug)]
pub enum ValueFault {
    OutOfRange(u32, i128),
    Memory,
}

impl From<AllocError> for ValueFault {
    ghost use Rattle.tower_numbers.specs.declared.fault.ValueFault.TheVariants as faults;

    ghost from_gives = { λ _ fault. fault ≡ faults.Memory };

    fn from(_: AllocError) -> ValueFault {
        ValueFault::Memory
    }
}

impl<T: Drop> From<AllocFailed<T>> for ValueFault {
    ghost use Rattle.tower_numbers.specs.declared.fault.ValueFault.TheVariants as faults;

    ghost from_gives = { λ _ fault. fault ≡ faults.Memory };

    fn from(_: AllocFailed<T>) -> ValueFault {
        ValueFault::Memory
    }
}
