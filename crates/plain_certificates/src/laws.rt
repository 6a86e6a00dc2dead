//! What the certificates show. A function here has no code: its contract is the law.

ghost use Rattle.plain_certificates.specs.Laws as laws;

/// Each distance is the least length of a walk from the start, and to a node without a distance
/// leads no walk.
pub fn paths_are_least()
    ensures distances { laws.DistancesAreLeast }
    ensures others { laws.OthersAreUnreached }
{}

/// The first node of a negative cycle that a walk leads to has no least length.
pub fn negative_cycle_leaves_no_least()
    ensures { laws.NegativeCyclesLeaveNoLeast }
{}

/// No flow has a larger value than one with a cut.
pub fn cut_is_largest()
    ensures { laws.CutsAreLargest }
{}

/// Where there is a barrier, of either kind, no flow is feasible.
pub fn barrier_leaves_no_flow()
    ensures { laws.BarriersLeaveNoFlow }
{}

/// No feasible flow costs less than an optimal one.
pub fn optimal_is_cheapest()
    ensures { laws.OptimalIsCheapest }
{}

/// Where there is a free cycle, there is for each number a feasible flow that costs less.
pub fn free_cycle_has_no_end()
    ensures { laws.FreeCyclesHaveNoEnd }
{}

/// No arcs that share no node are more than those of a pairing with its set of left nodes.
pub fn pairing_is_largest()
    ensures { laws.PairingsAreLargest }
{}

/// No pairing weighs more than a heaviest one.
pub fn heaviest_is_largest()
    ensures { laws.HeaviestIsLargest }
{}

/// No pairing that covers the left nodes costs less than an assigned one.
pub fn assigned_is_cheapest()
    ensures { laws.AssignedIsCheapest }
{}

/// Where left nodes are short of neighbours, no pairing covers the left nodes.
pub fn short_leaves_no_cover()
    ensures { laws.ShortLeavesNoCover }
{}

/// No arcs that lead round have a smaller ratio of length to time than a cycle of the least one.
pub fn mean_is_least()
    ensures { laws.MeansAreLeast }
{}

/// Where each arc goes on in an order of the nodes, no arcs lead round.
pub fn order_leaves_no_cycle()
    ensures { laws.OrdersLeaveNoCycle }
{}

/// No task has two of its answers: paths and a negative cycle; two of an optimal flow, a barrier
/// and a free cycle; an assigned pairing and a set short of neighbours; a cycle of the least ratio
/// and an order without cycles.
pub fn answers_exclude_each_other()
    ensures paths_or_cycle { laws.PathsOrCycle }
    ensures optimal_or_barrier { laws.OptimalOrBarrier }
    ensures free_cycle_or_barrier { laws.FreeCycleOrBarrier }
    ensures optimal_or_free_cycle { laws.OptimalOrFreeCycle }
    ensures assigned_or_short { laws.AssignedOrShort }
    ensures mean_or_acyclic { laws.MeanOrAcyclic }
{}
