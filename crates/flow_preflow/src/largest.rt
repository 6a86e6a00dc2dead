//! The public call.

ghost use Rattle.std.specs.Prelude.{◌≡◌, ◌≢◌, ◌<◌, ◌^◌, All, IfOk, length, pos, ◌≤ℤ◌};
ghost use Rattle.static_digraph.specs.Fixed.{graph_of};
ghost use Rattle.flow_preflow.specs.Answers.{IsAnswer};

use crate::found::find;
use crate::sent::sent_by;
use base_items::List;
use flow_rows::{at_top, network_of, signed, unsigned};
use static_digraph::Fixed;
use std::alloc::{AllocError, Global};

/// The flow of each arc, what the source sends out of it in all, and of each node whether it is on
/// the source's side of a least cut: the arcs that leave the side have the capacity `value`.
#[derive(Drop)]
pub struct Cut {
    pub value: i64,
    pub flow: List<i64>,
    pub side: List<bool>,
}

/// A largest flow from s to t, which are different nodes, and a least cut between them.
///
/// `cap` has the capacity of each arc, from 0 to 2^36. The flow of an arc is from 0 to its
/// capacity, and each node but s and t sends out what it takes in. The side has s and not t, so no
/// flow has a larger value, and no cut a smaller capacity. The only error is want of memory.
pub fn max_flow(alloc: Global, g: &Fixed, cap: &[i64], s: u32, t: u32) -> Result<Cut, AllocError>
    requires caps { length cap.now ≡ (graph_of g.now).arcs }
    requires low { All (λ c. pos 0 ≤ℤ c) cap.now }
    requires high { All (λ c. c ≤ℤ pos (2 ^ 36)) cap.now }
    requires nodes { (s < (graph_of g.now).nodes) × (t < (graph_of g.now).nodes) × (s ≢ t) }
    ensures { IfOk result
        (λ cut. IsAnswer (graph_of g.now) cap.now s t cut.value cut.flow cut.side) }
{
    let nodes = g.node_count();
    let _ = g.arc_count();
    let caps = unsigned(alloc, cap)?;
    let net = network_of(alloc, g)?;
    let found = find(alloc, g, &net, &caps, s, t)?;
    let value = sent_by(&net.ends, &found.flow, s);
    let flow = signed(alloc, &found.flow)?;
    let side = at_top(alloc, &found.side, nodes)?;
    Ok(Cut { value, flow, side })
}
