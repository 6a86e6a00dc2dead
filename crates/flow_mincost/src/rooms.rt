//! How much can be sent along a pace.

ghost use Rattle.std.specs.Prelude.{◌≡◌, ◌*◌, ◌<◌, length};
ghost use Rattle.plain_certificates.specs.Tables.{at};
ghost use Rattle.plain_certificates.specs.Walks.{Pace};
ghost use Rattle.pace_search.specs.Paces.{pace_at as pace_of};
ghost use Rattle.static_digraph.specs.Fixed.{graph_of};
ghost use Rattle.flow_mincost.specs.Rooms.{IsWithin, is_open as opens, open_load as load};
ghost use Rattle.flow_mincost.specs.Rooms.{raises as is_raise, room};

use pace_search::pace_at;
use static_digraph::Fixed;
use task_bounds::OPEN;

/// Whether what is sent along a pace raises the flow of its arc, or what is taken back along it
/// does, where it isn't `ahead`.
pub fn raises(onward: bool, ahead: bool) -> bool
    ensures { (pace : Pace) → pace.onward ≡ onward → result ≡ is_raise ahead pace }
{
    if ahead { onward } else { !onward }
}

/// How much can be sent along a pace, or taken back along it, where it isn't `ahead`.
pub fn room_of(g: &Fixed, cap: &[u64], sent: &[u64], pace: u32, ahead: bool) -> u64
    requires within { IsWithin (graph_of g.now) cap.now sent.now }
    requires pace { pace < 2 * (graph_of g.now).arcs }
    ensures { result ≡ room (at 0 cap.now) (at 0 sent.now) ahead (pace_of (graph_of g.now) pace) }
{
    let (arc, onward) = pace_at(g, pace);
    if raises(onward, ahead) {
        cap[arc as usize] - sent[arc as usize]
    } else {
        sent[arc as usize]
    }
}

/// Whether a pace leads along an arc without an upper bound.
pub fn is_open(g: &Fixed, cap: &[u64], pace: u32) -> bool
    requires caps { length cap.now ≡ (graph_of g.now).arcs }
    requires pace { pace < 2 * (graph_of g.now).arcs }
    ensures { result ≡ opens (at 0 cap.now) (pace_of (graph_of g.now) pace) }
{
    let (arc, onward) = pace_at(g, pace);
    onward && cap[arc as usize] == OPEN
}

/// What an arc without an upper bound carries, for the pace along it; 0 for any other pace.
pub fn open_load(g: &Fixed, cap: &[u64], sent: &[u64], pace: u32) -> u64
    requires within { IsWithin (graph_of g.now) cap.now sent.now }
    requires pace { pace < 2 * (graph_of g.now).arcs }
    ensures { result ≡ load (at 0 cap.now) (at 0 sent.now) (pace_of (graph_of g.now) pace) }
{
    let (arc, _) = pace_at(g, pace);
    if is_open(g, cap, pace) {
        sent[arc as usize]
    } else {
        0
    }
}
