//! The two chains of observers with the snapshots that sit in both, and what they are told.

ghost use Rattle.std.specs.Prelude.{◌≡◌, OnOk, OnErr, IfOk, IfErr, filter, not, option_map};
ghost use Rattle.std.specs.Prelude.{IfSome, IfNone};
ghost use Rattle.std.specs.Option.{option_copied};
ghost use Rattle.observe_core.specs.Changes.{told, untold, CanTell, CanUntell};
ghost use Rattle.observe_core.specs.Losses.{CanLose};
ghost use Rattle.observe_core.specs.Conditions.{CanBuild};
ghost use Rattle.observe_core.specs.Told.{built};
ghost use Rattle.notify_chain.specs.Seats.{AllSeats, Refuses, Attached, HandsBack, find_seat};
ghost use Rattle.notify_chain.specs.Seats.{seat_seen};
ghost use Rattle.alter_graph.specs.Attaching.{with_seats, uses_key, detached};
ghost use Rattle.alter_graph.specs.Attaching.{first_left, popped};
ghost use Rattle.alter_graph.specs.Snapping.{Seated};
ghost use Rattle.alter_graph.specs.Chains.{chains_seen, no_chains, seats_in, in_chain};
ghost use Rattle.alter_graph.specs.Chains.{chain_heard, chain_lost, IsSameChains};
ghost use Rattle.alter_graph.specs.Steps.{done_sort, change_of};

use crate::snaps::SnapKeys;
use crate::steps::Done;
use base_items::{Fact, ItemSort};
use notify_chain::{Chain, SeatKey};
use observe_core::{Loss, Observer, Veto};
use std::alloc::Global;
use std::marker::Model;

/// The chains of both sorts, and the names of the snapshots, each of which has a half in either.
#[derive(Drop)]
pub struct Chains<O> {
    pub(crate) nodes: Chain<O>,
    pub(crate) arcs: Chain<O>,
    pub(crate) snaps: Vec<SnapKeys>,
}

impl<O> Model for Chains<O> {
    ghost use Rattle.alter_graph.specs.Chains.{ChainsOf};

    ghost Value = { ChainsOf O };

    ghost view = { λ c. record { nodes = c.nodes; arcs = c.arcs; snaps = c.snaps.items } };
}

impl<O: Observer> Chains<O> {
    /// No seats, and no snapshots.
    pub fn new(alloc: Global) -> Chains<O>
        ensures { chains_seen O.watch result ≡ no_chains }
    {
        Chains {
            nodes: Chain::new(alloc),
            arcs: Chain::new(alloc),
            snaps: Vec::new(alloc),
        }
    }

    /// Tells the chain of its sort of a step.
    pub fn tell(&mut self, done: &Done) -> Result<(), (SeatKey, Veto)>
        requires { let seats = seats_in (done_sort done.now) (chains_seen O.watch self.old) in
            AllSeats (λ s. CanTell (change_of done.now) s.seen) seats }
        ensures told { OnOk result (IsSameChains
            (in_chain (done_sort done.now) (chain_heard (told (change_of done.now)))
            (chains_seen O.watch self.old)) (chains_seen O.watch self.new)) }
        ensures same { OnErr result
            (IsSameChains (chains_seen O.watch self.old) (chains_seen O.watch self.new)) }
        ensures refuser { IfErr result (λ e. Refuses (told (change_of done.now))
            (seats_in (done_sort done.now) (chains_seen O.watch self.old)) e.0.0 e.1) }
    {
        match done.sort() {
            ItemSort::Node => self.nodes.announce(&done.change()),
            ItemSort::Arc => self.arcs.announce(&done.change()),
        }
    }

    /// Tells the chain of its sort that a step is taken back.
    pub fn untell(&mut self, done: &Done)
        requires { let seats = seats_in (done_sort done.now) (chains_seen O.watch self.old) in
            AllSeats (λ s. CanUntell (change_of done.now) s.seen s.reach) seats }
        ensures { IsSameChains (in_chain (done_sort done.now)
            (chain_heard (untold (change_of done.now))) (chains_seen O.watch self.old))
            (chains_seen O.watch self.new) }
    {
        match done.sort() {
            ItemSort::Node => self.nodes.undo(&done.change()),
            ItemSort::Arc => self.arcs.undo(&done.change()),
        }
    }

    /// Tells the chain of a sort of a loss. Those that leave are dropped.
    pub fn lose(&mut self, sort: ItemSort, loss: &Loss)
        requires { AllSeats (λ s. CanLose loss.now s.seen)
            (seats_in sort (chains_seen O.watch self.old)) }
        ensures { IsSameChains (in_chain sort (chain_lost loss.now) (chains_seen O.watch self.old))
            (chains_seen O.watch self.new) }
    {
        match sort {
            ItemSort::Node => self.nodes.lose(loss),
            ItemSort::Arc => self.arcs.lose(loss),
        }
    }

    /// Tells an observer of all items of a sort, and seats it in their chain.
    pub fn attach(&mut self, sort: ItemSort, o: O, present: &[Fact]) -> Result<SeatKey, (O, Veto)>
        requires { CanBuild present.now (O.watch o).seen }
        ensures seat { IfOk result (λ key. Attached
            (seats_in sort (chains_seen O.watch self.old))
            (seats_in sort (chains_seen O.watch self.new)) key.0 (O.watch o)
            (built present.now (O.watch o).seen)) }
        ensures rest { chains_seen O.watch self.new
            ≡ in_chain sort (with_seats (seats_in sort (chains_seen O.watch self.new)))
            (chains_seen O.watch self.old) }
        ensures same { OnErr result (chains_seen O.watch self.new ≡ chains_seen O.watch self.old) }
        ensures refused { IfErr result (λ e. HandsBack O.watch o present.now e.0 e.1) }
    {
        match sort {
            ItemSort::Node => self.nodes.attach(o, present),
            ItemSort::Arc => self.arcs.attach(o, present),
        }
    }

    /// Takes an observer out, and the snapshot of which it is a half off the list.
    pub fn detach(&mut self, sort: ItemSort, key: SeatKey) -> Option<O>
        ensures found { seat_seen O.watch key.0 result
            ≡ find_seat key.0 (seats_in sort (chains_seen O.watch self.old)) }
        ensures detached { chains_seen O.watch self.new
            ≡ detached sort key.0 (chains_seen O.watch self.old) }
    {
        take_off(&mut self.snaps, sort, key);
        match sort {
            ItemSort::Node => self.nodes.detach(key),
            ItemSort::Arc => self.arcs.detach(key),
        }
    }

    /// Seats an observer of either sort, told of all items, and puts the name of both last. None
    /// for want of memory or where one refuses.
    pub fn snapshot(&mut self, node: O, arc: O, nodes: &[Fact], arcs: &[Fact]) -> Option<SnapKeys>
        requires nodes { CanBuild nodes.now (O.watch node).seen }
        requires arcs { CanBuild arcs.now (O.watch arc).seen }
        ensures seated { IfSome result (λ name. Seated name (O.watch node) (O.watch arc)
            nodes.now arcs.now (chains_seen O.watch self.old) (chains_seen O.watch self.new)) }
        ensures same { IfNone result (chains_seen O.watch self.new ≡ chains_seen O.watch self.old) }
    {
        if self.snaps.reserve(1).is_err() {
            return None;
        }
        let node_key = match self.nodes.attach(node, nodes) {
            Ok(key) => key,
            Err(_) => return None,
        };
        let arc_key = match self.arcs.attach(arc, arcs) {
            Ok(key) => key,
            Err(_) => {
                self.nodes.detach(node_key);
                return None;
            }
        };
        let name = SnapKeys {
            nodes: node_key,
            arcs: arc_key,
        };
        match self.snaps.push(name) {
            Ok(()) => Some(name),
            Err(_) => unreachable!(),
        }
    }

    /// The observer of a seat.
    pub fn seat(&self, sort: ItemSort, key: SeatKey) -> Option<&O>
        ensures { seat_seen O.watch key.0 (option_copied result)
            ≡ find_seat key.0 (seats_in sort (chains_seen O.watch self.now)) }
    {
        match sort {
            ItemSort::Node => self.nodes.get(key),
            ItemSort::Arc => self.arcs.get(key),
        }
    }

    ghost use Rattle.std.specs.Borrow.{sem};
    ghost use Rattle.std.specs.Option.{option_copied_mut};
    ghost use Rattle.alter_graph.specs.Lending.{chains_lend, AnyReseats};

    /// Lends the observer of a seat.
    pub fn seat_mut(&mut self, sort: ItemSort, key: SeatKey) -> Option<&mut O>
        ensures* writes_back { sem 𝓛 (chains_lend O.row self.entry sort key.0 result) }
        ensures value { seat_seen O.watch key.0 (option_copied_mut result)
            ≡ find_seat key.0 (seats_in sort (chains_seen O.watch self.old)) }
        ensures seats { IfSome result (λ _. AnyReseats O.watch sort key.0 self.old) }
    {
        match sort {
            ItemSort::Node => self.nodes.get_mut(key),
            ItemSort::Arc => self.arcs.get_mut(key),
        }
    }

    /// Takes the first of the keys that left, those of the node chain first.
    pub fn pop_left(&mut self) -> Option<(ItemSort, SeatKey)>
        ensures first { let old = chains_seen O.watch self.old in
            option_map (λ left. (left.0, left.1.0)) result
            ≡ first_left old.nodes.left old.arcs.left }
        ensures popped { chains_seen O.watch self.new ≡ popped (chains_seen O.watch self.old) }
    {
        if let Some(key) = self.nodes.pop_left() {
            return Some((ItemSort::Node, key));
        }
        match self.arcs.pop_left() {
            Some(key) => Some((ItemSort::Arc, key)),
            None => None,
        }
    }
}

// Takes the names that use a key off the list.
fn take_off(names: &mut Vec<SnapKeys>, sort: ItemSort, key: SeatKey)
    ensures { names.new.items ≡ filter (λ k. not (uses_key sort key.0 k)) names.old.items }
{
    let mut i = 0;
    'names: while i < names.len() {
        if uses(&names[i], sort, key) {
            names.remove(i);
        } else {
            i += 1;
        }
    }
}

// Whether a snapshot's half of the sort has the key.
fn uses(name: &SnapKeys, sort: ItemSort, key: SeatKey) -> bool
    ensures { result ≡ uses_key sort key.0 name.now }
{
    match sort {
        ItemSort::Node => name.nodes.0 == key.0,
        ItemSort::Arc => name.arcs.0 == key.0,
    }
}
