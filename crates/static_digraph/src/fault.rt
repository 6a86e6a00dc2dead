//! Why a numbered digraph is not made.

ghost use Rattle.std.specs.Prelude.{◌≡◌};

use base_items::ItemSort;
use notify_chain::SeatKey;
use std::alloc::AllocError;

/// An observer refuses the build: the chain of this sort has it in the seat of this key. Or memory
/// is wanting.
#[derive(Clone, Copy, PartialEq, Eq, Debug)]
pub enum FixFault {
    Vetoed(ItemSort, SeatKey),
    Memory,
}

impl From<AllocError> for FixFault {
    ghost use Rattle.static_digraph.specs.declared.fault.FixFault.TheVariants as faults;

    ghost from_gives = { λ _ fault. fault ≡ faults.Memory };

    fn from(_: AllocError) -> FixFault {
        FixFault::Memory
    }
}
