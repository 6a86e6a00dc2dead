//! The laws of kept views. A function here has no code: its contract is the law.

ghost use Rattle.kept_walks.specs.Laws as laws;

/// Observers that hold the facts of a valid digraph show it as it stands, with its orders.
pub fn stored_is_base()
    ensures { laws.StoredIsBase }
{}

/// Where two observers hold the facts of a valid digraph, both ends of each arc are held.
pub fn ends_are_held()
    ensures { laws.EndsAreHeld }
{}

/// Where they hold the facts of a valid digraph, each item placed by its present values, a kept
/// view shows what its layers show of the digraph as it stands.
pub fn kept_follows()
    ensures { laws.KeptFollows }
{}

/// At each notice the items of a kept view stay placed, a new one where a new item's marks are
/// those of its values.
pub fn marks_stay()
    ensures { laws.MarksStay }
{}

/// Once an item is placed by its new value, all are marked by their present values, if the others'
/// values stayed. The facts are the same.
pub fn placing_marks()
    ensures { laws.PlacingMarks }
{}
