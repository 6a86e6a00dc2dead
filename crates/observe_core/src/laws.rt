//! The laws of notices. Each is a function that does nothing, and its contract is the law.

ghost use Rattle.observe_core.specs.Laws.{BackAgain, MayGoBack, StaysAsMade, LawIsOfLive};
ghost use Rattle.observe_core.specs.Laws.{MapIsSound, NumbersStayOwn};
ghost use Rattle.observe_core.specs.Laws.{AddedFits, ShiftedFits, BuiltFits, ErasedFits};
ghost use Rattle.observe_core.specs.Laws.{ClearedFits, LiveAdded, LiveShifted, LiveErased};
ghost use Rattle.observe_core.specs.Laws.{LiveBuilt};
ghost use Rattle.observe_core.specs.Saved.{AddedSaves, ShiftedSaves, ErasedSaves, ClearedSaves};

/// What is computed from the record that an accepted change gave is the record from before.
pub fn back_again()
    ensures { BackAgain }
{}

/// An accepted change may be taken back.
pub fn may_go_back()
    ensures { MayGoBack }
{}

/// No notice changes an observer's kind, its parameter, its form and the arguments that it was made
/// with.
pub fn stays_as_made()
    ensures { StaysAsMade }
{}

/// A map is sound where what it holds is.
pub fn map_is_sound()
    ensures { MapIsSound }
{}

/// No accepted notice gives an observer a number that its kind doesn't have.
pub fn numbers_stay_own()
    ensures { NumbersStayOwn }
{}

/// An observer's law holds of what it tracks exactly where it holds of the facts that it stands
/// for.
pub fn law_is_of_live()
    ensures { LawIsOfLive }
{}

/// An addition takes what an observer stands for to that with the new fact.
pub fn added_fits()
    ensures { AddedFits }
{}

/// A move takes it to that with the new fact in place of the old.
pub fn shifted_fits()
    ensures { ShiftedFits }
{}

/// A build takes nothing to all the facts told.
pub fn built_fits()
    ensures { BuiltFits }
{}

/// An erasure takes it to that without the fact.
pub fn erased_fits()
    ensures { ErasedFits }
{}

/// A clear takes it to nothing.
pub fn cleared_fits()
    ensures { ClearedFits }
{}

/// An addition doesn't change what a half saves.
pub fn added_saves()
    ensures { AddedSaves }
{}

/// A move doesn't change it.
pub fn shifted_saves()
    ensures { ShiftedSaves }
{}

/// An erasure doesn't change it where the half is valid afterwards.
pub fn erased_saves()
    ensures { ErasedSaves }
{}

/// A clear doesn't change it where the half is valid afterwards.
pub fn cleared_saves()
    ensures { ClearedSaves }
{}

/// A list of live facts stays one after an addition.
pub fn live_added()
    ensures { LiveAdded }
{}

/// It stays one after a move.
pub fn live_shifted()
    ensures { LiveShifted }
{}

/// It stays one after an erasure.
pub fn live_erased()
    ensures { LiveErased }
{}

/// All facts of a build are one, by rising id.
pub fn live_built()
    ensures { LiveBuilt }
{}
