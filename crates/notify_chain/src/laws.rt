//! What a chain relies on when a change is taken back. Each function's contract is a law.

ghost use Rattle.notify_chain.specs.Laws.{AcceptedMayBeUndone, UndoneIsAsBefore};

/// What all seats accepted, each may be told to undo, without memory.
pub fn accepted_may_be_undone()
    ensures { AcceptedMayBeUndone }
{}

/// Where it is undone at each seat, each is as before.
pub fn undone_is_as_before()
    ensures { UndoneIsAsBefore }
{}
