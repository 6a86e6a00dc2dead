//! A chain of observers: its seats, who comes and who goes.

ghost use Rattle.std.specs.Prelude.{◌≡◌};

use crate::key::SeatKey;
use crate::losing::{lose_all, place_of};
use crate::telling::{take_back, tell_all};
use base_items::Fact;
use observe_core::{Change, Loss, Observer, Veto};
use slab::Slab;
use std::alloc::Global;
use std::marker::Model;

/// Observers in seats, the oldest first. Contracts see each seat with its key, the record of its
/// observer, its room and its reach (`seats`), and the keys of those that left by themselves and
/// weren't asked for, the oldest departure first (`left`).
///
/// No call lowers the room or the reach of a seat that stays, but what is done through `get_mut`.
#[derive(Drop)]
pub struct Chain<O> {
    slab: Slab<O>,
    // the keys of the seats, oldest first
    order: Vec<usize>,
    // it has room for the keys of all seats beside those that wait
    left: Vec<usize>,
}

impl<O> Model for Chain<O> {
    ghost use Rattle.std.specs.Prelude.{◌+◌, ◌≤◌, vec_len, vec_capacity};
    ghost use Rattle.notify_chain.specs.Seats.{ChainOf, IsKept};

    ghost Value = { ChainOf O };

    ghost view = { λ c. record { slots = c.slab; order = c.order.items; left = c.left.items } };

    ghost invariant = { λ c. IsKept c.slab c.order.items × (vec_len c.left + vec_len c.order ≤ vec_capacity c.left) };
}

impl<O: Observer> Chain<O> {
    ghost use Rattle.std.specs.Prelude.{[], ◌∷◌, ◌++◌, OnOk, OnErr, IfErr, IfOk, MatchOption};
    ghost use Rattle.std.specs.Option.{option_copied_mut, option_copied};
    ghost use Rattle.observe_core.specs.Conditions.{CanBuild};
    ghost use Rattle.observe_core.specs.Changes.{told, untold, CanTell, CanUntell};
    ghost use Rattle.observe_core.specs.Losses.{CanLose};
    ghost use Rattle.notify_chain.specs.Seats.{seats, AllSeats};
    ghost use Rattle.notify_chain.specs.Seats.{AllBecame, AreAsBefore, NamesRefuser};
    ghost use Rattle.notify_chain.specs.Seats.{Seats, HandsBack, FindsSeat, seats_but};
    ghost use Rattle.notify_chain.specs.Leaving.{OthersStay, leavers};

    /// A chain without seats.
    pub fn new(alloc: Global) -> Chain<O>
        ensures seats { seats O.watch result ≡ [] }
        ensures left { result.left ≡ [] }
    {
        Chain {
            slab: Slab::new(alloc),
            order: Vec::new(alloc),
            left: Vec::new(alloc),
        }
    }

    /// Tells an observer that tracks nothing which items there are, by one build, and makes it the
    /// newest. The ids of the items differ. Room for the day on which it leaves is made here.
    ///
    /// `Refused` exactly where the law of its kind fails of these items, `Memory` where memory is
    /// wanting; the observer is then handed back as it was, and the seats are as before.
    pub fn attach(&mut self, o: O, present: &[Fact]) -> Result<SeatKey, (O, Veto)>
        requires { CanBuild present.now (O.watch o).seen }
        ensures ok { IfOk result (λ key. Seats O.watch o present.now self.old self.new key.0) }
        ensures err { OnErr result (seats O.watch self.new ≡ seats O.watch self.old) }
        ensures refused { IfErr result (λ e. HandsBack O.watch o present.now e.0 e.1) }
        ensures left { self.new.left ≡ self.old.left }
    {
        let mut o = o;
        let count = self.order.len();
        if self.order.reserve(1).is_err()
            || self.left.reserve(count + 1).is_err()
            || self.slab.reserve(1).is_err()
        {
            return Err((o, Veto::Memory));
        }
        if let Err(veto) = o.build(present) {
            return Err((o, veto));
        }
        let key = self.slab.insert_reserved(o);
        match self.order.push(key) {
            Ok(()) => Ok(SeatKey(key)),
            Err(_) => unreachable!(),
        }
    }

    /// Takes an observer out, as it is. None exactly where the key has no seat; the seats are then
    /// as before. The other seats stay.
    pub fn detach(&mut self, key: SeatKey) -> Option<O>
        ensures found { FindsSeat O.watch self.old key.0 result }
        ensures others { seats O.watch self.new ≡ seats_but O.watch key.0 self.old }
        ensures left { self.new.left ≡ self.old.left }
    {
        match place_of(&self.order, key.0) {
            Some(place) => {
                self.order.remove(place);
                self.slab.try_remove(key.0)
            }
            None => None,
        }
    }

    /// The observer of a seat. None exactly where the key has no seat.
    pub fn get(&self, key: SeatKey) -> Option<&O>
        ensures { FindsSeat O.watch self.now key.0 (option_copied result) }
    {
        self.slab.get(key.0)
    }

    ghost use Rattle.std.specs.Borrow.{sem};
    ghost use Rattle.std.specs.Prelude.{IfSome};
    ghost use Rattle.notify_chain.specs.Lending.{lends_seat, PutsAny};

    /// Lends the observer of a seat. None exactly where the key has no seat. Once the loan ends the
    /// seat has the last observer written, and all else is as before.
    pub fn get_mut(&mut self, key: SeatKey) -> Option<&mut O>
        ensures* writes_back { sem 𝓛 (lends_seat O.row self.entry key.0 result) }
        ensures value { FindsSeat O.watch self.old key.0 (option_copied_mut result) }
        ensures puts { IfSome result (λ _. PutsAny key.0 O.watch self.old) }
    {
        if !self.slab.contains(key.0) {
            return None;
        }
        self.slab.get_mut(key.0)
    }

    /// Takes the first of the keys of those that left by themselves. None exactly where there is
    /// none.
    pub fn pop_left(&mut self) -> Option<SeatKey>
        ensures left { MatchOption result ((self.old.left ≡ []) × (self.new.left ≡ []))
            (λ key. self.old.left ≡ key.0 ∷ self.new.left) }
        ensures seats { seats O.watch self.new ≡ seats O.watch self.old }
    {
        if self.left.is_empty() {
            return None;
        }
        Some(SeatKey(self.left.remove(0)))
    }

    /// Tells each seat of a change that may be refused, the oldest first.
    ///
    /// An error names the oldest seat that refuses, with its reason; all seats are then as before.
    pub fn announce(&mut self, change: &Change<'_>) -> Result<(), (SeatKey, Veto)>
        requires { AllSeats (λ s. CanTell change.now s.seen) (seats O.watch self.old) }
        ensures ok { OnOk result (AllBecame O.watch (told change.now) self.old self.new) }
        ensures err { OnErr result (AreAsBefore O.watch self.old self.new) }
        ensures refuser { IfErr result (λ e. NamesRefuser O.watch (told change.now) self.old e.0.0 e.1) }
        ensures left { self.new.left ≡ self.old.left }
    {
        tell_all(&mut self.slab, &self.order, change)
    }

    /// Tells each seat that a change never counted, the newest first. All seats had accepted it.
    pub fn undo(&mut self, change: &Change<'_>)
        requires { AllSeats (λ s. CanUntell change.now s.seen s.reach) (seats O.watch self.old) }
        ensures untold { AllBecame O.watch (untold change.now) self.old self.new }
        ensures left { self.new.left ≡ self.old.left }
    {
        let below = self.order.len();
        take_back(&mut self.slab, &self.order, below, change);
    }

    /// Tells each seat of a loss, the newest first. Those that leave are dropped, and their keys
    /// join those that left, the newest seat's first.
    pub fn lose(&mut self, loss: &Loss)
        requires { AllSeats (λ s. CanLose loss.now s.seen) (seats O.watch self.old) }
        ensures stay { OthersStay O.watch loss.now self.old self.new }
        ensures left { self.new.left ≡ self.old.left ++ leavers O.watch loss.now self.old }
    {
        lose_all(&mut self.slab, &mut self.order, &mut self.left, loss);
    }
}
