//! What the base shows: its words as a shown digraph are those of the digraph.

ghost use Rattle.plain_views.specs.BaseLaws as laws;

/// The base shows a digraph that is valid.
pub fn base_is_shown()
    ensures { laws.BaseIsShown }
{}

/// Each id of the base is below the limit of arcs.
pub fn base_is_below()
    ensures { laws.BaseIsBelow }
{}

/// At each node the base shows the arcs that are listed there, in their order.
pub fn base_lists_arcs()
    ensures { laws.BaseListsArcs }
{}

/// The base shows exactly the live arcs, with their ends.
pub fn base_shows_arcs()
    ensures { laws.BaseShowsArcs }
{}
