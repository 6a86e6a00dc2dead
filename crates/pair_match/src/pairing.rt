//! The public call.

ghost use Rattle.std.specs.Prelude.{◌≡◌, length, IfOk};
ghost use Rattle.plain_certificates.specs.Pairings.{IsBipartite};
ghost use Rattle.static_digraph.specs.Fixed.{graph_of};
ghost use Rattle.pair_match.specs.Answers.{IsAnswer};
ghost use Rattle.pair_match.specs.Facing.{flags};

use crate::facing::left_to_right;
use crate::loads::{first_load, second_load};
use crate::read::{arcs_in_use, stuck_left};
use base_items::List;
use flow_loads::settle;
use flow_rows::network_of;
use static_digraph::Fixed;
use std::alloc::{AllocError, Global};

/// The arcs of a pairing, by rising number, and of each node whether it is in a set of left nodes:
/// there are as many arcs as there are left nodes outside the set and neighbours of it.
#[derive(Drop)]
pub struct Pairing {
    pub arcs: List<u32>,
    pub hall: List<bool>,
}

/// A largest set of arcs that share no node.
///
/// `left` says of each node whether it is left, and each arc joins a left node and one that isn't.
/// No set of arcs that share no node is larger, since each has at most one arc for each left node
/// outside the set `hall` and for each neighbour of it. The only error is want of memory.
pub fn largest(alloc: Global, g: &Fixed, left: &[bool]) -> Result<Pairing, AllocError>
    requires sizes { length left.now ≡ (graph_of g.now).nodes }
    requires sides { IsBipartite (graph_of g.now) (flags left.now) }
    ensures { IfOk result (λ pairing. IsAnswer (graph_of g.now) (flags left.now) pairing.arcs
        pairing.hall) }
{
    let arcs = g.arc_count() as usize;
    let _ = g.node_count();
    let laid = network_of(alloc, g)?;
    let net = left_to_right(alloc, laid, left)?;
    let caps = vec![in alloc; 2u64; arcs]?;
    let begun = first_load(alloc, left, arcs)?;
    let sent = settle(alloc, &net, &caps, begun)?;
    let hall = stuck_left(alloc, left, &sent.height)?;
    let again = second_load(alloc, left, sent)?;
    let ended = settle(alloc, &net, &caps, again)?;
    let pairs = arcs_in_use(alloc, &ended.flow)?;
    Ok(Pairing { arcs: pairs, hall })
}
