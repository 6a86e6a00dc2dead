//! Answers that several algorithms share.

use base_items::List;

/// A set of nodes that shows that no flow is feasible. With `over`, its supply is above `limit`,
/// the upper bounds of the arcs out of it minus the lower bounds of those into it. Without, its
/// supply is below `limit`, the lower bounds of the arcs out of it minus the upper bounds of those
/// into it.
#[derive(Drop)]
pub struct Barrier {
    pub over: bool,
    pub nodes: List<bool>,
    pub supply: i128,
    pub limit: i128,
}

/// A cheapest flow with its potentials and its cost; or a barrier; or a feasible flow with a cycle
/// of unbounded arcs whose cost, which is given, is negative.
#[derive(Drop)]
pub enum CostAnswer {
    Optimal {
        flow: List<i64>,
        pi: List<i64>,
        cost: i128,
    },
    Barrier(Barrier),
    FreeCycle {
        flow: List<i64>,
        cycle: List<u32>,
        cost: i128,
    },
}
