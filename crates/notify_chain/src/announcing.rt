//! The announcements of each kind of change, and their undo.

ghost use Rattle.std.specs.Prelude.{◌≡◌, ◌++◌, OnOk, IfErr, OnErr};

use crate::chain::Chain;
use crate::key::SeatKey;
use base_items::Fact;
use observe_core::{Change, Loss, Observer, Veto};

impl<O: Observer> Chain<O> {
    ghost use Rattle.observe_core.specs.Told.{added, shifted, built};
    ghost use Rattle.observe_core.specs.Untold.{unadded, unshifted, unbuilt};
    ghost use Rattle.observe_core.specs.Conditions.{CanAdd, CanShift, CanBuild, CanErase};
    ghost use Rattle.observe_core.specs.Conditions.{CanUndoAdd, CanUndoShift, CanUndoBuild};
    ghost use Rattle.observe_core.specs.Conditions.{HasSmallCounts};
    ghost use Rattle.observe_core.specs.declared.losses.Loss.TheVariants.{Erase, Clear};
    ghost use Rattle.notify_chain.specs.Seats.{seats, AllSeats};
    ghost use Rattle.notify_chain.specs.Seats.{AllBecame, AreAsBefore, NamesRefuser};
    ghost use Rattle.notify_chain.specs.Leaving.{OthersStay, leavers};

    /// Tells each seat that an item is to be added, the oldest first.
    ///
    /// An error names the oldest seat that refuses, with its reason; all seats are then as before.
    pub fn announce_add(&mut self, f: Fact) -> Result<(), (SeatKey, Veto)>
        requires { AllSeats (λ s. CanAdd f s.seen) (seats O.watch self.old) }
        ensures ok { OnOk result (AllBecame O.watch (added f) self.old self.new) }
        ensures err { OnErr result (AreAsBefore O.watch self.old self.new) }
        ensures refuser { IfErr result (λ e. NamesRefuser O.watch (added f) self.old e.0.0 e.1) }
        ensures left { self.new.left ≡ self.old.left }
    {
        self.announce(&Change::Add(f))
    }

    /// Tells each seat that the addition never counted, the newest first.
    pub fn undo_add(&mut self, f: Fact)
        requires { AllSeats (λ s. CanUndoAdd f s.seen s.reach) (seats O.watch self.old) }
        ensures untold { AllBecame O.watch (unadded f) self.old self.new }
        ensures left { self.new.left ≡ self.old.left }
    {
        self.undo(&Change::Add(f));
    }

    /// Tells each seat that an item is to have another fact, the oldest first.
    ///
    /// An error names the oldest seat that refuses, with its reason; all seats are then as before.
    pub fn announce_shift(&mut self, old: Fact, new: Fact) -> Result<(), (SeatKey, Veto)>
        requires { AllSeats (λ s. CanShift old new s.seen) (seats O.watch self.old) }
        ensures ok { OnOk result (AllBecame O.watch (shifted old new) self.old self.new) }
        ensures err { OnErr result (AreAsBefore O.watch self.old self.new) }
        ensures refuser { IfErr result (λ e. NamesRefuser O.watch (shifted old new) self.old e.0.0 e.1) }
        ensures left { self.new.left ≡ self.old.left }
    {
        self.announce(&Change::Shift(old, new))
    }

    /// Tells each seat that the move never counted, the newest first.
    pub fn undo_shift(&mut self, old: Fact, new: Fact)
        requires { AllSeats (λ s. CanUndoShift old new s.seen s.reach) (seats O.watch self.old) }
        ensures untold { AllBecame O.watch (unshifted old new) self.old self.new }
        ensures left { self.new.left ≡ self.old.left }
    {
        self.undo(&Change::Shift(old, new));
    }

    /// Tells each seat, of which none tracks anything, which items there are, the oldest first.
    ///
    /// An error names the oldest seat that refuses, with its reason; all seats are then as before.
    pub fn announce_build(&mut self, all: &[Fact]) -> Result<(), (SeatKey, Veto)>
        requires { AllSeats (λ s. CanBuild all.now s.seen) (seats O.watch self.old) }
        ensures ok { OnOk result (AllBecame O.watch (built all.now) self.old self.new) }
        ensures err { OnErr result (AreAsBefore O.watch self.old self.new) }
        ensures refuser { IfErr result (λ e. NamesRefuser O.watch (built all.now) self.old e.0.0 e.1) }
        ensures left { self.new.left ≡ self.old.left }
    {
        self.announce(&Change::Build(all))
    }

    /// Tells each seat that the build never counted, the newest first.
    pub fn undo_build(&mut self)
        requires { AllSeats (λ s. CanUndoBuild s.seen s.reach) (seats O.watch self.old) }
        ensures untold { AllBecame O.watch unbuilt self.old self.new }
        ensures left { self.new.left ≡ self.old.left }
    {
        self.undo(&Change::Build(&[]));
    }

    /// Tells each seat that an item goes, the newest first. Observers that answer `Detach` are
    /// dropped, and their keys join those that left; the other seats stay.
    pub fn announce_erase(&mut self, f: Fact)
        requires { AllSeats (λ s. CanErase f s.seen) (seats O.watch self.old) }
        ensures stay { OthersStay O.watch (Erase f) self.old self.new }
        ensures left { self.new.left ≡ self.old.left ++ leavers O.watch (Erase f) self.old }
    {
        self.lose(&Loss::Erase(f));
    }

    /// Tells each seat that all items go, the newest first. Observers that answer `Detach` are
    /// dropped, and their keys join those that left; the other seats stay.
    pub fn announce_clear(&mut self)
        requires { AllSeats (λ s. HasSmallCounts s.seen) (seats O.watch self.old) }
        ensures stay { OthersStay O.watch Clear self.old self.new }
        ensures left { self.new.left ≡ self.old.left ++ leavers O.watch Clear self.old }
    {
        self.lose(&Loss::Clear);
    }
}
