//! The boxes of guards that are not attached, and the seats of those that are.

ghost use Rattle.std.specs.Prelude.{◌≡◌, ◌<◌, ◌≤◌, ◌∷◌, ◌++◌, [], IfOk, IfErr, vec_len};
ghost use Rattle.std.specs.Prelude.{vec_capacity};
ghost use Rattle.std.specs.List.{insert};
ghost use Rattle.observe_core.specs.Conditions.{IsArmable};
ghost use Rattle.alter_graph.specs.State.{state_of, IsInStep};
ghost use Rattle.plain_world.specs.Demands as demands;
ghost use Rattle.plain_world.specs.Refusals.{kind_word};
ghost use Rattle.desk_world.specs.Boxes.{HasBoxAt, IsFirstOf, WasSeated, WentBack, CameBack};
ghost use Rattle.desk_world.specs.Plain as plain;
ghost use Rattle.desk_world.specs.Plain.{plain_of, look_of, kinds_of};
ghost use Rattle.desk_world.specs.Claims.{Sits, Guard};
ghost use Rattle.desk_world.specs.InStep.{AreInStep};
ghost use Rattle.desk_world.specs.Faults.{Meets};

use crate::world::World;
use base_items::ItemSort;
use desk_seats::Seat;
use notify_chain::SeatKey;
use observe_core::{Kind, Observer, Veto};
use report_text::{Fault, StepFault};
use script_words::GuardWord;
use std::alloc::Global;
use token_text::copy_text;

/// The word of a kind of guards, as a line says it.
fn kind_name(kind: GuardWord) -> &'static [u8]
    ensures { result.now ≡ kind_word kind }
{
    match kind {
        GuardWord::Quota => b"quota",
        GuardWord::Loopless => b"loopless",
        GuardWord::Simple => b"simple",
        GuardWord::OutCap => b"outcap",
        GuardWord::Fuse => b"fuse",
        GuardWord::Tally => b"tally",
    }
}

/// The word of the kind of an observer. No box is a map.
fn word_of(kind: Kind) -> GuardWord
    ensures { result ≡ plain.word_of kind }
{
    match kind {
        Kind::Map => GuardWord::Tally,
        Kind::Quota => GuardWord::Quota,
        Kind::Loopless => GuardWord::Loopless,
        Kind::Simple => GuardWord::Simple,
        Kind::OutCap => GuardWord::OutCap,
        Kind::Fuse => GuardWord::Fuse,
        Kind::Tally => GuardWord::Tally,
    }
}

// Puts a value back to its place, where there is room for it.
fn put_at<T: Drop>(values: &mut Vec<T>, place: usize, value: T)
    requires within { place ≤ vec_len values.old }
    requires room { vec_len values.old < vec_capacity values.old }
    ensures { values.new.items ≡ insert values.old.items place value }
{
    match values.insert(place, value) {
        Ok(()) => {}
        Err(_) => unreachable!(),
    }
}

// Puts a value last, where there is room for it.
fn put_last<T: Drop>(values: &mut Vec<T>, value: T)
    requires { vec_len values.old < vec_capacity values.old }
    ensures { values.new.items ≡ values.old.items ++ value ∷ [] }
{
    match values.push(value) {
        Ok(()) => {}
        Err(_) => unreachable!(),
    }
}

impl<B: Observer> World<Seat<B>> {
    /// The place of the first box of the kind in the pool. `NoGuard` where there is none.
    pub(crate) fn find_box(&self, alloc: Global, kind: GuardWord) -> Result<usize, StepFault>
        ensures meets { let world = plain_of ⟦<Seat<B> as Observer>⟧.watch self.now in
            Meets world (demands.HasBox kind) result }
        ensures first { IfOk result (λ place. IsFirstOf kind place
            (kinds_of ⟦<Seat<B> as Observer>⟧.watch self.now.pool.items)) }
    {
        let mut place = 0;
        while place < self.pool.len() {
            if kind_name(kind) == kind_name(word_of(self.pool[place].kind())) {
                return Ok(place);
            }
            place += 1;
        }
        match copy_text(alloc, kind_name(kind)) {
            Ok(name) => Err(StepFault::Refused(Fault::NoGuard(name))),
            Err(_) => Err(StepFault::Memory),
        }
    }

    /// Arms a box of the pool with its number, or with 0, and seats it last in the chain of the
    /// sort. Where its law is broken, or memory is wanting, it goes back to its own place.
    pub(crate) fn seat_box(
        &mut self,
        alloc: Global,
        place: usize,
        sort: ItemSort,
        limit: u32,
    ) -> Result<SeatKey, Veto>
        requires in_step { AreInStep ⟦<Seat<B> as Observer>⟧.watch self.old }
        requires there { place < vec_len self.old.pool }
        requires armable { HasBoxAt place (λ o. IsArmable limit
            (⟦<Seat<B> as Observer>⟧.watch o).seen) self.old.pool.items }
        ensures seated { IfOk result (λ key. WasSeated ⟦<Seat<B> as Observer>⟧.watch place sort
            limit key.0 self.old self.new) }
        ensures refused { IfErr result (λ veto. WentBack ⟦<Seat<B> as Observer>⟧.watch place sort
            limit veto self.old self.new) }
    {
        let mut seat = self.pool.remove(place);
        seat.arm(limit);
        match self.graph.attach(sort, seat, alloc) {
            Ok(key) => Ok(key),
            Err((seat, veto)) => {
                put_at(&mut self.pool, place, seat);
                Err(veto)
            }
        }
    }

    /// Takes a guard out of its chain, tells it that all items go, and puts it behind the boxes of
    /// the pool, where there is room for it.
    pub(crate) fn unseat_box(&mut self, sort: ItemSort, key: SeatKey)
        requires in_step { IsInStep (state_of ⟦<Seat<B> as Observer>⟧.watch self.old.graph) }
        requires there { Sits Guard
            (look_of ⟦<Seat<B> as Observer>⟧.watch self.old sort key.0) }
        requires room { vec_len self.old.pool < vec_capacity self.old.pool }
        ensures back { CameBack ⟦<Seat<B> as Observer>⟧.watch sort key.0 self.old self.new }
    {
        match self.graph.detach(sort, key) {
            None => unreachable!(),
            Some(seat) => {
                let mut seat = seat;
                let _ = seat.clear();
                put_last(&mut self.pool, seat);
            }
        }
    }
}
