//! Why the digraph refuses some steps, with the name of the guard that vetoes them.

ghost use Rattle.std.specs.Prelude.{◌≡◌, List, find, option_map, Some, is_some, true};
ghost use Rattle.plain_digraph.specs.PlainSteps.{PlainStep};
ghost use Rattle.desk_world.specs.Faults.{Is};
ghost use Rattle.desk_world.specs.InStep.{AreInStep};
ghost use Rattle.desk_world.specs.Plain.{plain_of};
ghost use Rattle.desk_world.specs.Vetoes.{AreRefused, is_row_of, is_seat_of, veto_of_steps};

use crate::refusals::vetoed;
use crate::tables::GuardRow;
use crate::world::World;
use alter_graph::AlterFault;
use base_items::ItemSort;
use desk_seats::Seat;
use notify_chain::SeatKey;
use observe_core::Observer;
use report_text::StepFault;
use std::alloc::Global;
use token_text::Text;

// Whether the row is that of the guard in this seat.
fn is_seat_of(row: &GuardRow, sort: ItemSort, key: SeatKey) -> bool
    ensures { result ≡ is_seat_of sort key.0 row.now }
{
    row.sort == sort && row.key == key
}

impl<B: Observer> World<Seat<B>> {
    /// Why the digraph refused some steps for which there is room: the veto of the oldest guard
    /// that refuses the earliest step that one refuses, or want of memory.
    pub(crate) fn refusal(&self, alloc: Global, fault: AlterFault) -> StepFault
        requires in_step { AreInStep ⟦<Seat<B> as Observer>⟧.watch self.now }
        requires refused { (steps : List PlainStep)
            × AreRefused ⟦<Seat<B> as Observer>⟧.watch self.now fault steps }
        ensures { (steps : List PlainStep)
            → AreRefused ⟦<Seat<B> as Observer>⟧.watch self.now fault steps
            → Is (veto_of_steps (plain_of ⟦<Seat<B> as Observer>⟧.watch self.now) steps) result }
    {
        match fault {
            AlterFault::Vetoed(sort, key) => vetoed(alloc, self.guard_name(sort, key)),
            AlterFault::Memory => StepFault::Memory,
            _ => unreachable!(),
        }
    }

    // The name of the guard in a seat.
    fn guard_name(&self, sort: ItemSort, key: SeatKey) -> &Text
        requires { is_some (find (is_row_of sort key.0) self.now.guards.rows) ≡ true }
        ensures { option_map (λ e. e.name) (find (is_row_of sort key.0) self.now.guards.rows)
            ≡ Some result.now }
    {
        for place in 0..self.guards.len() {
            if is_seat_of(self.guards.value(place), sort, key) {
                return self.guards.name(place);
            }
        }
        unreachable!()
    }
}
