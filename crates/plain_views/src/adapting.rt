//! Each adaptor shows a valid digraph where it is given one, and what bounds its ids.

ghost use Rattle.plain_views.specs.AdaptorLaws as laws;

/// Reverse shows a valid digraph, with ids below the same bound.
pub fn reversed_is_shown()
    ensures { laws.ReversedIsShown }
{}

/// Sub shows a valid digraph, with ids below the same bound, whatever its filters are.
pub fn sub_is_shown()
    ensures { laws.SubIsShown }
{}

/// Undirect shows a valid digraph, with ids below twice the bound.
pub fn undirected_is_shown()
    ensures { laws.UndirectedIsShown }
{}

/// Residual shows a valid digraph, with ids below twice the bound, whatever capacity and flow are.
pub fn residual_is_shown()
    ensures { laws.ResidualIsShown }
{}

/// Split shows a valid digraph, with ids below twice the bound.
pub fn split_is_shown()
    ensures { laws.SplitIsShown }
{}
