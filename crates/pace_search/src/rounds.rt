//! Rounds in which every pace is relaxed once.
//!
//! Distances are kept without a sign: 2^60 stands for 0, and 2^36 is added to each length.

ghost use Rattle.std.specs.Prelude.{◌+◌, ◌≤◌, ◌^◌, All, length};
ghost use Rattle.plain_certificates.specs.Tables.{at};
ghost use Rattle.static_digraph.specs.Fixed.{graph_of};
ghost use Rattle.pace_search.specs.Paces.{pace_graph};
ghost use Rattle.pace_search.specs.Rounds.{AreSized, AreWithin, IsRound, Keeps};
ghost use Rattle.pace_search.specs.Runs.{IsPaced};

use crate::engine::FAR;
use crate::paces::pace_ends;
use static_digraph::Fixed;

/// Relaxes every pace that has a length once, and tells whether a distance became less.
pub fn relax_all(g: &Fixed, len: &[u64], dist: &mut [u64], via: &mut [u32]) -> bool
    requires paced { IsPaced (graph_of g.now) (length len.now) }
    requires sizes { AreSized (pace_graph (graph_of g.now) (length len.now)) len.now
        dist.old via.old }
    requires short { All (λ l. l ≤ 2 ^ 63) len.now }
    requires within { AreWithin (graph_of g.now).nodes dist.old }
    ensures within { AreWithin ((graph_of g.now).nodes + length len.now) dist.new }
    ensures tree { Keeps (pace_graph (graph_of g.now) (length len.now)) (at 0 len.now)
        dist.old via.old dist.new via.new }
    ensures round { IsRound (pace_graph (graph_of g.now) (length len.now)) (at 0 len.now)
        (length len.now) dist.old via.old dist.new via.new result }
{
    let count = len.len() as u32;
    let mut changed = false;
    let mut pace: u32 = 0;
    while pace < count {
        let (u, v) = pace_ends(g, pace);
        let near = dist[u as usize];
        if near < FAR {
            let next = near + len[pace as usize] - 68719476736;
            if next < dist[v as usize] {
                dist[v as usize] = next;
                via[v as usize] = pace;
                changed = true;
            }
        }
        pace += 1;
    }
    changed
}
