//! The ends of pairs.

ghost use Rattle.std.specs.Prelude.{◌≡◌, ◌<◌, cond, false, length};
ghost use Rattle.plain_certificates.specs.Tables.{at};
ghost use Rattle.static_digraph.specs.Fixed.{graph_of};

use static_digraph::Fixed;

/// The ends of an arc, its left one first: its source where that is left, or else its target.
pub fn left_first(g: &Fixed, left: &[bool], arc: u32) -> (u32, u32)
    requires nodes { length left.now ≡ (graph_of g.now).nodes }
    requires arc { arc < (graph_of g.now).arcs }
    ensures left { result.0 ≡ cond (at false left.now ((graph_of g.now).from arc))
        ((graph_of g.now).from arc) ((graph_of g.now).to arc) }
    ensures right { result.1 ≡ cond (at false left.now ((graph_of g.now).from arc))
        ((graph_of g.now).to arc) ((graph_of g.now).from arc) }
    ensures nodes { (result.0 < (graph_of g.now).nodes) × (result.1 < (graph_of g.now).nodes) }
{
    let _ends_are_nodes = g.arc_count();
    let (from, to) = g.ends(arc);
    if left[from as usize] {
        (from, to)
    } else {
        (to, from)
    }
}
