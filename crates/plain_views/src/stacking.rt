//! What towers show over a valid digraph.

ghost use Rattle.std.specs.Prelude.{ℕ, List};
ghost use Rattle.plain_views.specs.TowerLaws as laws;

/// A tower over a valid digraph shows a valid digraph, whose ids are below its bound, whether its
/// maps go by names or by numbers.
pub fn tower_is_shown()
    ensures named { laws.TowerIsShown (List ℕ) }
    ensures numbered { laws.TowerIsShown ℕ }
{}

/// Each node and each arc that a tower shows over a valid digraph comes from a live item.
pub fn tower_shows_live_items()
    ensures named { laws.TowerShowsLiveItems (List ℕ) }
    ensures numbered { laws.TowerShowsLiveItems ℕ }
{}
