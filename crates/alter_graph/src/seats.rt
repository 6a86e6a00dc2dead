//! Observers come, go, and are looked at.

ghost use Rattle.std.specs.Prelude.{◌≡◌, OnErr, IfOk, IfErr, option_map};
ghost use Rattle.std.specs.Option.{option_copied};
ghost use Rattle.plain_digraph.specs.Items.{facts};
ghost use Rattle.observe_core.specs.Conditions.{CanBuild};
ghost use Rattle.observe_core.specs.Untold.{TracksNothing};
ghost use Rattle.notify_chain.specs.Seats.{HandsBack, find_seat, seat_seen};
ghost use Rattle.alter_graph.specs.Chains.{chains_seen, seats_in};
ghost use Rattle.alter_graph.specs.State.{state_of, IsSame, IsInStep, SnapsStay};
ghost use Rattle.alter_graph.specs.Attaching.{HasNoCounts, Attaches, detached};
ghost use Rattle.alter_graph.specs.Attaching.{first_left, popped};

use crate::gathering::all_facts;
use crate::graph::Alterable;
use base_items::ItemSort;
use notify_chain::SeatKey;
use observe_core::{Observer, Veto};
use std::alloc::Global;

impl<O: Observer> Alterable<O> {
    /// Tells an observer that tracks nothing and has counted nothing which items of a sort are
    /// live, by one build, and makes it the newest of their chain.
    ///
    /// `Refused` exactly where the law of its kind fails of these items, `Memory` where memory is
    /// wanting; the observer is then handed back as it was, and all is as before.
    pub fn attach(&mut self, sort: ItemSort, o: O, alloc: Global) -> Result<SeatKey, (O, Veto)>
        requires in_step { IsInStep (state_of O.watch self.old) }
        requires empty { TracksNothing (O.watch o).seen }
        requires counts { HasNoCounts (O.watch o).seen }
        ensures attaches { IfOk result (λ key. Attaches sort key.0 (O.watch o)
            (state_of O.watch self.old) (state_of O.watch self.new)) }
        ensures same { OnErr result
            (IsSame (state_of O.watch self.old) (state_of O.watch self.new)) }
        ensures refused { IfErr result
            (λ e. HandsBack O.watch o (facts self.old.graph.graph sort) e.0 e.1) }
        ensures in_step { IsInStep (state_of O.watch self.new) }
    {
        match all_facts(&self.graph, sort, alloc) {
            Ok(present) => self.chains.attach(sort, o, present.as_slice()),
            Err(_) => Err((o, Veto::Memory)),
        }
    }

    /// Takes an observer out, as it is. None exactly where the key has no seat. The other seats
    /// stay; a snapshot of which it was a half is gone, and the other snapshots stay as they are.
    pub fn detach(&mut self, sort: ItemSort, key: SeatKey) -> Option<O>
        ensures found { seat_seen O.watch key.0 result
            ≡ find_seat key.0 (seats_in sort (chains_seen O.watch self.old.chains)) }
        ensures graph { self.new.graph ≡ self.old.graph }
        ensures detached { chains_seen O.watch self.new.chains
            ≡ detached sort key.0 (chains_seen O.watch self.old.chains) }
        ensures in_step { IsInStep (state_of O.watch self.old)
            → IsInStep (state_of O.watch self.new) }
        ensures snaps { IsInStep (state_of O.watch self.old) → SnapsStay self.new.chains.snaps
            (state_of O.watch self.old) (state_of O.watch self.new) }
    {
        self.chains.detach(sort, key)
    }

    /// The observer of a seat. None exactly where the key has no seat.
    pub fn seat(&self, sort: ItemSort, key: SeatKey) -> Option<&O>
        ensures { seat_seen O.watch key.0 (option_copied result)
            ≡ find_seat key.0 (seats_in sort (chains_seen O.watch self.now.chains)) }
    {
        self.chains.seat(sort, key)
    }

    ghost use Rattle.std.specs.Borrow.{sem};
    ghost use Rattle.std.specs.Option.{option_copied_mut};
    ghost use Rattle.std.specs.Prelude.{IfSome};
    ghost use Rattle.alter_graph.specs.Lending.{graph_lends, MayWrite};

    /// Lends the observer of a seat. None exactly where the key has no seat. Once the loan ends the
    /// seat has the last observer written, and all else is as before. Where that one stands for the
    /// same items as the one from before, with its kind, its tracked facts and its counts, the
    /// observers are in step again; a half of a snapshot has to be as it was.
    pub fn seat_mut(&mut self, sort: ItemSort, key: SeatKey) -> Option<&mut O>
        ensures* writes_back { sem 𝓛 (graph_lends O.row self.entry sort key.0 result) }
        ensures value { seat_seen O.watch key.0 (option_copied_mut result)
            ≡ find_seat key.0 (seats_in sort (chains_seen O.watch self.old.chains)) }
        ensures writes { IfSome result (λ o. MayWrite O.watch sort key.0 self.old o.now) }
    {
        self.chains.seat_mut(sort, key)
    }

    /// Takes the first of the keys of those that left by themselves, those of the node chain
    /// before those of the arc chain. None exactly where there is none.
    pub fn pop_left(&mut self) -> Option<(ItemSort, SeatKey)>
        ensures first { let old = chains_seen O.watch self.old.chains in
            option_map (λ left. (left.0, left.1.0)) result
            ≡ first_left old.nodes.left old.arcs.left }
        ensures graph { self.new.graph ≡ self.old.graph }
        ensures popped { chains_seen O.watch self.new.chains
            ≡ popped (chains_seen O.watch self.old.chains) }
        ensures in_step { IsInStep (state_of O.watch self.old)
            → IsInStep (state_of O.watch self.new) }
    {
        self.chains.pop_left()
    }
}
