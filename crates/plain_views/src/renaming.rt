//! Towers whose maps go by numbers show and pull what they do by the names of the maps.

ghost use Rattle.plain_views.specs.Renaming as laws;

/// A tower whose maps go by numbers shows what it shows by their names.
pub fn numbered_towers_show_alike()
    ensures { laws.NumberedTowersShowAlike }
{}

/// By its number a map has the same pulled ints as by its name.
pub fn numbered_maps_pull_alike()
    ensures { laws.NumberedMapsPullAlike }
{}

/// By its number a filter lets the same arcs pass as by its name.
pub fn numbered_filters_pass_alike()
    ensures { laws.NumberedFiltersPassAlike }
{}

/// By its number a map of the nodes has the same pulled values as by its name.
pub fn numbered_maps_pull_alike_at_nodes()
    ensures { laws.NumberedMapsPullAlikeAtNodes }
{}
