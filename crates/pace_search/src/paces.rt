//! Paces by number: first each arc as it goes, then each arc the other way.

ghost use Rattle.std.specs.Prelude.{◌≡◌, ◌*◌, ◌<◌};
ghost use Rattle.plain_certificates.specs.Walks.{pace_from, pace_to};
ghost use Rattle.static_digraph.specs.Fixed.{graph_of};
ghost use Rattle.pace_search.specs.Paces.{pace_at as pace_of};

use static_digraph::Fixed;

/// The arc of a pace, and whether it is walked as it goes.
pub fn pace_at(g: &Fixed, pace: u32) -> (u32, bool)
    requires { pace < 2 * (graph_of g.now).arcs }
    ensures arc { result.0 ≡ (pace_of (graph_of g.now) pace).arc }
    ensures onward { result.1 ≡ (pace_of (graph_of g.now) pace).onward }
{
    let arcs = g.arc_count();
    if pace < arcs {
        (pace, true)
    } else {
        (pace - arcs, false)
    }
}

/// The nodes from which a pace leads and to which it does.
pub fn pace_ends(g: &Fixed, pace: u32) -> (u32, u32)
    requires { pace < 2 * (graph_of g.now).arcs }
    ensures from { result.0 ≡ pace_from (graph_of g.now) (pace_of (graph_of g.now) pace) }
    ensures to { result.1 ≡ pace_to (graph_of g.now) (pace_of (graph_of g.now) pace) }
{
    let arcs = g.arc_count();
    if pace < arcs {
        g.ends(pace)
    } else {
        let (from, to) = g.ends(pace - arcs);
        (to, from)
    }
}
