//! Rounds over all paces until nothing changes, with a look at the last paces after each, whether
//! they close up.

ghost use Rattle.std.specs.Prelude.{◌≤◌, ◌^◌, All, length, IfOk};
ghost use Rattle.std.specs.Option.{option_map};
ghost use Rattle.plain_certificates.specs.Tables.{at};
ghost use Rattle.static_digraph.specs.Fixed.{graph_of};
ghost use Rattle.pace_search.specs.Paces.{pace_graph};
ghost use Rattle.pace_search.specs.Rounds.{AreSized};
ghost use Rattle.pace_search.specs.Runs.{Ends, IsFresh, IsLeft, IsPaced};

use crate::climbs::find_round;
use crate::rounds::relax_all;
use static_digraph::Fixed;
use std::alloc::{AllocError, Global};

/// No distance is as high.
pub const FAR: u64 = 4611686018427387904;

/// Relaxes the paces that have a length until none leads nearer; or until last paces lead round,
/// which are told from the least one on.
///
/// `dist` has the distance with which each node begins, `FAR` for none, and comes to have what no
/// pace brings down; `via` comes to have the last pace to each node that has another one then. 2^60
/// stands for a distance of 0, and 2^36 is added to each length.
pub fn settle(
    alloc: Global,
    g: &Fixed,
    len: &[u64],
    dist: &mut [u64],
    via: &mut [u32],
) -> Result<Option<Vec<u32>>, AllocError>
    requires paced { IsPaced (graph_of g.now) (length len.now) }
    requires sizes { AreSized (pace_graph (graph_of g.now) (length len.now)) len.now
        dist.old via.old }
    requires short { All (λ l. l ≤ 2 ^ 63) len.now }
    requires fresh { IsFresh (length len.now) dist.old via.old }
    ensures left { IfOk result (λ _. IsLeft (pace_graph (graph_of g.now) (length len.now))
        (at 0 len.now) (at 0 dist.old) dist.new via.new) }
    ensures ends { IfOk result (λ found. Ends (pace_graph (graph_of g.now) (length len.now))
        (at 0 len.now) dist.new via.new (option_map (λ round. round.items) found)) }
{
    let count = len.len() as u32;
    'rounds: loop {
        if !relax_all(g, len, dist, via) {
            return Ok(None);
        }
        match find_round(alloc, g, count, dist, via)? {
            Some(round) => return Ok(Some(round)),
            None => {}
        }
    }
}
