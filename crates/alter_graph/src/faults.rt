//! Why a digraph wasn't altered.

ghost use Rattle.std.specs.Prelude.{◌≡◌};
ghost use Rattle.alter_graph.specs.Faults.{fault_of, limit_of};

use base_items::{ItemSort, Limit};
use list_digraph::AddFault;
use notify_chain::SeatKey;
use observe_core::Veto;

/// Why a digraph wasn't altered. After each of them all is as before.
#[derive(Clone, Copy, Debug, PartialEq, Eq)]
pub enum AlterFault {
    /// A guard refuses: of the first step that one refuses, the oldest, by its chain and its key.
    Vetoed(ItemSort, SeatKey),
    /// A node was to go into itself.
    SameNode,
    /// A step would pass this limit; nodes come before arcs, and arcs before stamps.
    Full(Limit),
    /// The snapshot isn't valid any more.
    Stale,
    /// Out of memory.
    Memory,
}

/// What a chain's refusal comes to.
pub fn refusal(sort: ItemSort, key: SeatKey, veto: Veto) -> AlterFault
    ensures { result ≡ fault_of sort key veto }
{
    match veto {
        Veto::Refused => AlterFault::Vetoed(sort, key),
        Veto::Memory => AlterFault::Memory,
    }
}

/// What a refused addition comes to.
pub fn limit(fault: AddFault) -> AlterFault
    ensures { result ≡ limit_of fault }
{
    match fault {
        AddFault::Full(limit) => AlterFault::Full(limit),
        AddFault::Memory => AlterFault::Memory,
    }
}
