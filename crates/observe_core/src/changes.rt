//! The changes that an observer may refuse, as one type, so that what chains do exists once.

ghost use Rattle.std.specs.Prelude.{◌≡◌, ℕ, ◌≤◌};
ghost use Rattle.observe_core.specs.Changes.{told, untold, CanTell, CanUntell};
ghost use Rattle.observe_core.specs.Conditions.{Answers};

use crate::kinds::Veto;
use crate::observer::Observer;
use base_items::Fact;

/// A change that an observer may refuse.
#[derive(Drop)]
pub enum Change<'a> {
    /// An item is added.
    Add(Fact),
    /// An item has another fact, the second, in place of the first.
    Shift(Fact, Fact),
    /// All items are told to one that tracks none.
    Build(&'a [Fact]),
}

/// Tells an observer of a change. `Refused` exactly where the law of its kind fails of the facts
/// after it, `Memory` where memory is wanting; at both the observer is as before.
pub fn tell<O: Observer>(o: &mut O, change: &Change<'_>) -> Result<(), Veto>
    requires { CanTell change.now (O.watch o.old).seen }
    ensures told { let old = (O.watch o.old).seen in
        Answers result old (O.watch o.new).seen (told change.now old) }
    ensures room { (O.watch o.old).room ≤ (O.watch o.new).room }
    ensures reach { (O.watch o.old).reach ≤ (O.watch o.new).reach }
{
    match change {
        Change::Add(f) => o.add(*f),
        Change::Shift(old, new) => o.shift(*old, *new),
        Change::Build(all) => o.build(all),
    }
}

/// Tells an observer that a change, which it accepted and after which nothing else came, never
/// counted. Its record is then that from before, and this takes no memory.
pub fn untell<O: Observer>(o: &mut O, change: &Change<'_>)
    requires { CanUntell change.now (O.watch o.old).seen (O.watch o.old).reach }
    ensures untold { (O.watch o.new).seen ≡ untold change.now (O.watch o.old).seen }
    ensures room { (O.watch o.old).room ≤ (O.watch o.new).room }
    ensures reach { (O.watch o.old).reach ≤ (O.watch o.new).reach }
{
    match change {
        Change::Add(f) => o.undo_add(*f),
        Change::Shift(old, new) => o.undo_shift(*old, *new),
        Change::Build(_) => o.undo_build(),
    }
}
