//! Guards that left at an alteration go out of the table.

ghost use Rattle.std.specs.Prelude.{◌≡◌, ◌≤◌, false, is_some, filter, []};
ghost use Rattle.base_items.specs.declared.items.ItemSort.{ItemSort};
ghost use Rattle.alter_graph.specs.Chains.{chains_seen, chain_in};
ghost use Rattle.alter_graph.specs.State.{state_of, IsInStep};
ghost use Rattle.desk_world.specs.Entries.{labels_at, room_for_labels};
ghost use Rattle.desk_world.specs.InStep.{AreInStep};
ghost use Rattle.desk_world.specs.Leaving.{AreAltered, with_none_left};
ghost use Rattle.desk_world.specs.Looks.{look_in};
ghost use Rattle.desk_world.specs.Plain.{plain_of};

use crate::tables::GuardRow;
use crate::world::World;
use alter_graph::Alterable;
use desk_names::Keeps;
use desk_seats::Seat;
use observe_core::Observer;

/// A digraph keeps the rows of the guards that have a seat.
impl<O: Observer> Keeps<GuardRow> for Alterable<O> {
    ghost kept = { λ a row. is_some (look_in (chains_seen O.watch a.chains) row.sort row.key.0) };

    fn keeps(&self, row: &GuardRow) -> bool {
        self.seat(row.sort, row.key).is_some()
    }
}

// Takes the keys of all that left by themselves. Whether there was one.
fn take_left<O: Observer>(graph: &mut Alterable<O>) -> bool
    ensures graph { graph.new.graph ≡ graph.old.graph }
    ensures taken { chains_seen O.watch graph.new.chains
        ≡ with_none_left (chains_seen O.watch graph.old.chains) }
    ensures none { result ≡ false → (sort : ItemSort)
        → (chain_in sort (chains_seen O.watch graph.old.chains)).left ≡ [] }
    ensures in_step { IsInStep (state_of O.watch graph.old)
        → IsInStep (state_of O.watch graph.new) }
{
    let mut some = false;
    while let Some(_left) = graph.pop_left() {
        some = true;
    }
    some
}

impl<B: Observer> World<Seat<B>> {
    /// Takes the guards that left at an alteration out of the table. Where none did it looks at no
    /// guard. It takes no memory.
    pub(crate) fn let_guards_go(&mut self)
        requires altered { AreAltered ⟦<Seat<B> as Observer>⟧.watch self.old }
        ensures same { plain_of ⟦<Seat<B> as Observer>⟧.watch self.new
            ≡ plain_of ⟦<Seat<B> as Observer>⟧.watch self.old }
        ensures in_step { AreInStep ⟦<Seat<B> as Observer>⟧.watch self.new }
        ensures labels { (sort : ItemSort) → labels_at ⟦<Seat<B> as Observer>⟧.watch self.new sort
            ≡ labels_at ⟦<Seat<B> as Observer>⟧.watch self.old sort }
        ensures room { (sort : ItemSort)
            → room_for_labels ⟦<Seat<B> as Observer>⟧.watch self.old sort
            ≤ room_for_labels ⟦<Seat<B> as Observer>⟧.watch self.new sort }
        ensures graph { self.new.graph.graph ≡ self.old.graph.graph }
        ensures pool { self.new.pool ≡ self.old.pool }
    {
        if take_left(&mut self.graph) {
            self.guards.retain(&self.graph);
        }
    }
}
