//! Faults with the names that they show.

ghost use Rattle.std.specs.Prelude.{Some};
ghost use Rattle.report_text.specs.declared.faults.Fault.TheVariants as faults;
ghost use Rattle.desk_world.specs.Faults.{Is};

use report_text::{Fault, StepFault};
use std::alloc::Global;
use token_text::{Text, copy_text};

/// Nothing has the name.
pub fn unknown(alloc: Global, name: &Text) -> StepFault
    ensures { Is (Some (faults.Unknown name.now)) result }
{
    match copy_text(alloc, name.as_bytes()) {
        Ok(name) => StepFault::Refused(Fault::Unknown(name)),
        Err(_) => StepFault::Memory,
    }
}

/// The new name is there already.
pub fn taken(alloc: Global, name: &Text) -> StepFault
    ensures { Is (Some (faults.Taken name.now)) result }
{
    match copy_text(alloc, name.as_bytes()) {
        Ok(name) => StepFault::Refused(Fault::Taken(name)),
        Err(_) => StepFault::Memory,
    }
}

/// The map or the view is of another type than is needed.
pub fn wrong_type(alloc: Global, name: &Text) -> StepFault
    ensures { Is (Some (faults.WrongType name.now)) result }
{
    match copy_text(alloc, name.as_bytes()) {
        Ok(name) => StepFault::Refused(Fault::WrongType(name)),
        Err(_) => StepFault::Memory,
    }
}

/// The map or the view is read by another.
pub fn in_use(alloc: Global, user: &Text) -> StepFault
    ensures { Is (Some (faults.InUse user.now)) result }
{
    match copy_text(alloc, user.as_bytes()) {
        Ok(user) => StepFault::Refused(Fault::InUse(user)),
        Err(_) => StepFault::Memory,
    }
}

/// The text at the item is no value of the map's type.
pub fn bad_value(alloc: Global, item: &Text, text: &Text) -> StepFault
    ensures { Is (Some (faults.BadValue item.now text.now)) result }
{
    match copy_text(alloc, item.as_bytes()) {
        Ok(item) => match copy_text(alloc, text.as_bytes()) {
            Ok(text) => StepFault::Refused(Fault::BadValue(item, text)),
            Err(_) => StepFault::Memory,
        },
        Err(_) => StepFault::Memory,
    }
}

/// The two names are of one node.
pub fn same_node(alloc: Global, name: &Text) -> StepFault
    ensures { Is (Some (faults.SameNode name.now)) result }
{
    match copy_text(alloc, name.as_bytes()) {
        Ok(name) => StepFault::Refused(Fault::SameNode(name)),
        Err(_) => StepFault::Memory,
    }
}

/// The snapshot isn't valid any more.
pub fn stale(alloc: Global, snapshot: &Text) -> StepFault
    ensures { Is (Some (faults.Stale snapshot.now)) result }
{
    match copy_text(alloc, snapshot.as_bytes()) {
        Ok(name) => StepFault::Refused(Fault::Stale(name)),
        Err(_) => StepFault::Memory,
    }
}

/// A guard vetoes.
pub fn vetoed(alloc: Global, guard: &Text) -> StepFault
    ensures { Is (Some (faults.Vetoed guard.now)) result }
{
    match copy_text(alloc, guard.as_bytes()) {
        Ok(name) => StepFault::Refused(Fault::Vetoed(name)),
        Err(_) => StepFault::Memory,
    }
}
