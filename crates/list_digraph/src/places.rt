//! The place of a stamp in a list of arcs.

ghost use Rattle.std.specs.Prelude.{◌≡◌, None, length};
ghost use Rattle.linked_lists.specs.Links as links;
ghost use Rattle.list_digraph.specs.Tables.{chain};
ghost use Rattle.list_digraph.specs.Places as spec;

use crate::rows::{ArcRow, Side};
use linked_lists::Link;

/// The last of the first arcs in the list with this head whose stamps aren't below this one.
pub fn last_newer(
    head: Option<u32>,
    table: &Vec<Link>,
    arcs: &Vec<ArcRow>,
    side: Side,
    at: u64,
) -> Option<u32>
    requires within { links.AreWithin (length table.now.items)
        (chain table.now.items (length table.now.items) head) }
    requires rows { length arcs.now.items ≡ length table.now.items }
    ensures { result ≡ spec.last_newer (spec.stamp_in side arcs.now.items) at None
        (chain table.now.items (length table.now.items) head) }
{
    let mut behind = None;
    let mut next = head;
    let mut left = table.len();
    'walk: while left > 0 {
        let Some(arc) = next else {
            return behind;
        };
        if stamp(arcs[arc as usize], side) < at {
            return behind;
        }
        behind = next;
        next = table[arc as usize].next.id();
        left -= 1;
    }
    behind
}

fn stamp(row: ArcRow, side: Side) -> u64
    ensures { result ≡ spec.stamp_on side row }
{
    match side {
        Side::Source => row.from_at,
        Side::Target => row.to_at,
    }
}
