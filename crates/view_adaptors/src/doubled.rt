//! Ids that are doubled: even ones for one list, odd ones for another.

ghost use Rattle.std.specs.Prelude.{◌≡◌, ◌<◌, ◌^◌, None, option_map, IfSome};
ghost use Rattle.plain_views.specs.Adaptors as adaptors;

use base_items::Arc;

// The even id of the arc.
pub fn forth(arc: Arc) -> Arc
    requires { arc.0 < 2 ^ 30 }
    ensures { result.0 ≡ adaptors.twice arc.0 }
{
    Arc(arc.0 * 2)
}

// The even id of the next arc, if there is one.
pub fn even(arc: Option<Arc>) -> Option<Arc>
    requires { IfSome arc (λ a. a.0 < 2 ^ 30) }
    ensures { option_map (λ a. a.0) result ≡ adaptors.first_both (option_map (λ a. a.0) arc) None }
{
    match arc {
        Some(arc) => Some(Arc(arc.0 * 2)),
        None => None,
    }
}

// The odd id of the next arc, if there is one.
pub fn back(arc: Option<Arc>) -> Option<Arc>
    requires { IfSome arc (λ a. a.0 < 2 ^ 30) }
    ensures { option_map (λ a. a.0) result ≡ adaptors.first_both None (option_map (λ a. a.0) arc) }
{
    match arc {
        Some(arc) => Some(Arc(arc.0 * 2 + 1)),
        None => None,
    }
}
