//! What is sent along rounds of paces.

ghost use Rattle.std.specs.Prelude.{◌≡◌, ◌+◌, ◌*◌, ◌-◌, ◌<◌, ◌≤◌, ◌^◌, ℕ, All, cond, true, length};
ghost use Rattle.plain_certificates.specs.Tables.{at};
ghost use Rattle.pace_search.specs.Paces.{pace_at as pace_of};
ghost use Rattle.static_digraph.specs.Fixed.{graph_of};
ghost use Rattle.flow_mincost.specs.Pushing.{IsLeastRoom, IsPushed, IsRoomy, room_at};
ghost use Rattle.flow_mincost.specs.Rooms.{IsWithin};

use crate::rooms::{raises, room_of};
use pace_search::pace_at;
use static_digraph::Fixed;

/// The least room along paces.
fn least_room(g: &Fixed, cap: &[u64], sent: &[u64], round: &[u32], ahead: bool) -> u64
    requires within { IsWithin (graph_of g.now) cap.now sent.now }
    requires some { 0 < length round.now }
    requires known { All (λ k. k < 2 * (graph_of g.now).arcs) round.now }
    ensures { IsLeastRoom
        (room_at (graph_of g.now) (at 0 cap.now) (at 0 sent.now) ahead round.now)
        (length round.now) (length round.now) result }
{
    let mut least = room_of(g, cap, sent, round[0], ahead);
    for i in 1..round.len() {
        let room = room_of(g, cap, sent, round[i], ahead);
        if room < least {
            least = room;
        }
    }
    least
}

/// A flow with so much more, or less.
fn moved(flow: u64, step: u64, more: bool) -> u64
    requires room { cond more (flow + step ≤ 2 ^ 62) (step ≤ flow) }
    ensures { result ≡ cond more (flow + step) (flow - step) }
{
    if more { flow + step } else { flow - step }
}

/// Sends as much along the paces as all of them have room for, or takes it back, where it isn't
/// `ahead`.
pub fn push_round(g: &Fixed, cap: &[u64], sent: &mut [u64], round: &[u32], ahead: bool)
    requires within { IsWithin (graph_of g.now) cap.now sent.old }
    requires roomy { IsRoomy (graph_of g.now) (at 0 cap.now) (at 0 sent.old) ahead round.now }
    ensures { IsPushed (graph_of g.now) cap.now ahead round.now sent.old sent.new }
{
    let step = least_room(g, cap, sent, round, ahead);
    for i in 0..round.len() {
        let (arc, onward) = pace_at(g, round[i]);
        sent[arc as usize] = moved(sent[arc as usize], step, raises(onward, ahead));
    }
}
