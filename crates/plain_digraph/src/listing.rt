//! The arcs that are listed at a node after a plain step.

ghost use Rattle.plain_digraph.specs.OrderLaws as laws;

/// All arcs that are listed at a node are live and its own.
pub fn all_listed_are_own()
    ensures { laws.AllListedAreOwn }
{}

/// An added arc has its ends, and all others keep theirs.
pub fn added_arc_ends()
    ensures { laws.AddedArcEnds }
{}

/// A move of a source changes this source alone.
pub fn moved_source_ends()
    ensures { laws.MovedSourceEnds }
{}

/// A move of a target changes this target alone.
pub fn moved_target_ends()
    ensures { laws.MovedTargetEnds }
{}

/// An arc whose source moves is in front there, and the arcs to each node stay.
pub fn moved_source_lists()
    ensures { laws.MovedSourceLists }
{}

/// An arc whose target moves is in front there, and the arcs from each node stay.
pub fn moved_target_lists()
    ensures { laws.MovedTargetLists }
{}

/// An arc that is turned is in front at both of its ends.
pub fn turned_lists()
    ensures { laws.TurnedLists }
{}

/// An erased arc leaves both lists, and all others stay.
pub fn erased_arc_lists()
    ensures { laws.ErasedArcLists }
{}

/// Where the first arc at a node is erased, the rest is left.
pub fn erased_from_front()
    ensures { laws.ErasedFromFront }
{}

/// Where no arc is listed, none is after an erasure.
pub fn empty_stays()
    ensures { laws.EmptyStays }
{}

/// An erased node changes no list of arcs.
pub fn erased_node_lists()
    ensures { laws.ErasedNodeLists }
{}

/// While the sources of a contraction move, the arcs to each node stay, and so does
/// which of them will move.
pub fn contracted_sources()
    ensures { laws.ContractedSources }
{}

/// All refusable steps of a contraction are known before the first.
pub fn contraction_is_known()
    ensures { laws.ContractionIsKnown }
{}

/// So are those of a contraction that keeps loops.
pub fn loop_contraction_is_known()
    ensures { laws.LoopContractionIsKnown }
{}
