//! Which lists items stand in, and how they fall.

ghost use Rattle.std.specs.Prelude.{◌≡◌, ◌≤◌};
ghost use Rattle.kept_views.specs.Order as order;

use base_items::Fact;

/// The lists: one with all items, or one for each source, or for each target.
#[derive(Clone, Copy)]
pub(crate) enum Listing {
    Whole,
    BySource,
    ByTarget,
}

impl Listing {
    /// The number of the list that an item stands in.
    pub(crate) fn owner(self, f: &Fact) -> u32
        ensures { result ≡ order.owner_of self f.now }
    {
        match self {
            Listing::Whole => 0,
            Listing::BySource => f.from,
            Listing::ByTarget => f.to,
        }
    }

    /// The greatest number of a list that it stands in, or stands in once it is turned.
    pub(crate) fn top(self, f: &Fact) -> u32
        ensures top { result ≡ order.top_of self f.now }
        ensures owner { order.owner_of self f.now ≤ result }
    {
        match self {
            Listing::Whole => 0,
            _ => { if f.from < f.to { f.to } else { f.from } }
        }
    }

    /// The stamp by which an item falls.
    fn stamp(self, f: &Fact) -> u64
        ensures { result ≡ order.stamp_of self f.now }
    {
        match self {
            Listing::ByTarget => f.to_at,
            _ => f.from_at,
        }
    }

    /// What falls in a list: the stamp, and the id of items with one stamp.
    pub(crate) fn rank(self, f: &Fact) -> u128
        ensures { result ≡ order.rank self f.now }
    {
        self.stamp(f) as u128 * 4194304 + f.id as u128
    }
}
