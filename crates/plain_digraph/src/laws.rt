//! The laws of a digraph and of its additions.
//!
//! A function here has no code: its contract is the law.

ghost use Rattle.plain_digraph.specs.Laws as laws;

/// In a valid digraph no id stands twice in the list of nodes, nor in either list of arcs.
pub fn live_ids_differ()
    ensures { laws.LiveIdsDiffer }
{}

/// In a valid digraph each live id is below the number of ids used.
pub fn live_ids_are_used()
    ensures { laws.LiveIdsAreUsed }
{}

/// Something is told of exactly the live items.
pub fn live_items_are_told()
    ensures { laws.LiveItemsAreTold }
{}

/// The list of all facts has what is told of each live item, and nothing else.
pub fn facts_are_whole()
    ensures { laws.FactsAreWhole }
{}

/// The facts stand by rising id.
pub fn facts_rise()
    ensures { laws.FactsRise }
{}

/// There are as many facts as live items.
pub fn facts_are_counted()
    ensures { laws.FactsAreCounted }
{}

/// The id of an added node wasn't live, and what is told of it has the stamp that was next.
pub fn added_node_fact()
    ensures { laws.AddedNodeFact }
{}

/// The id of an added arc wasn't live, and what is told of it has its ends and the stamp that
/// was next.
pub fn added_arc_fact()
    ensures { laws.AddedArcFact }
{}

/// An added arc stands in front of the others from its source, and of the others to its target.
pub fn added_arc_is_first()
    ensures { laws.AddedArcIsFirst }
{}

/// An added node leaves all other items as they were.
pub fn added_node_keeps()
    ensures { laws.AddedNodeKeeps }
{}

/// An added arc leaves all other items as they were.
pub fn added_arc_keeps()
    ensures { laws.AddedArcKeeps }
{}

/// The arcs from each node in turn are all arcs, each once.
pub fn all_arcs_are_whole()
    ensures { laws.AllArcsAreWhole }
{}

/// The arcs that are listed at a node are live, and it is their source, or their target.
pub fn listed_arcs_are_own()
    ensures { laws.ListedArcsAreOwn }
{}

/// No arc stands twice among those from a node, nor among those to it.
pub fn listed_arcs_differ()
    ensures { laws.ListedArcsDiffer }
{}
