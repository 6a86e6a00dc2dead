//! The links of a table of ids, through which several lists run.

ghost use Rattle.std.specs.Prelude.{◌≡◌, ◌<◌, ◌≤◌, length, vec_capacity};
ghost use Rattle.linked_lists.specs.Links as spec;

use crate::spots::Spot;

/// The neighbours of an id in its list, in eight bytes; none in front of the first, none behind the
/// last.
#[derive(Clone, Copy)]
pub struct Link {
    pub prev: Spot,
    pub next: Spot,
}

/// The link of an id that stands in no list.
pub fn loose() -> Link
    ensures { result ≡ spec.loose }
{
    Link {
        prev: Spot::of(None),
        next: Spot::of(None),
    }
}

/// Takes the id out of the list with this head, whose other ids keep their order. Its own link is
/// left as it was.
pub fn remove(head: &mut Option<u32>, links: &mut Vec<Link>, id: u32)
    requires id { id < length links.old.items }
    requires neighbours { spec.HasPlaces (length links.old.items)
        (spec.link_at links.old.items id) }
    ensures head { head.new ≡ spec.head_removed head.old links.old.items id }
    ensures links { links.new.items ≡ spec.removed links.old.items id }
    ensures room { vec_capacity links.new ≡ vec_capacity links.old }
{
    let link = links[id as usize];
    join(head, links, link.prev, link.next);
}

/// Puts the id into the list with this head, behind another id of it, or in front where there is
/// none. The table has at most 2^32 - 1 links, so that each id has a [`Spot`].
pub fn insert(head: &mut Option<u32>, links: &mut Vec<Link>, behind: Option<u32>, id: u32)
    requires few { length links.old.items ≤ 4294967295 }
    requires id { id < length links.old.items }
    requires behind { spec.IsPlace (length links.old.items) behind }
    requires next { spec.IsPlace (length links.old.items)
        (spec.next_from head.old links.old.items behind) }
    ensures head { head.new ≡ spec.head_inserted head.old behind id }
    ensures links { links.new.items ≡ spec.inserted head.old links.old.items behind id }
    ensures room { vec_capacity links.new ≡ vec_capacity links.old }
{
    let next = match behind {
        None => Spot::of(*head),
        Some(prev) => links[prev as usize].next,
    };
    let here = Spot::of(Some(id));
    join(head, links, Spot::of(behind), here);
    join(head, links, here, next);
}

// Makes the two neighbours: nothing in front of an id makes it the head.
fn join(head: &mut Option<u32>, links: &mut Vec<Link>, prev: Spot, next: Spot)
    requires prev { spec.IsPlace (length links.old.items) prev }
    requires next { spec.IsPlace (length links.old.items) next }
    ensures head { head.new ≡ spec.head_joined head.old prev next }
    ensures links { links.new.items ≡ spec.joined links.old.items prev next }
    ensures room { vec_capacity links.new ≡ vec_capacity links.old }
{
    set_next(head, links, prev, next);
    set_prev(links, next, prev);
}

fn set_next(head: &mut Option<u32>, links: &mut Vec<Link>, at: Spot, next: Spot)
    requires { spec.IsPlace (length links.old.items) at }
    ensures head { head.new ≡ spec.head_joined head.old at next }
    ensures links { links.new.items ≡ spec.with_next links.old.items at next }
    ensures room { vec_capacity links.new ≡ vec_capacity links.old }
{
    match at.id() {
        None => *head = next.id(),
        Some(id) => links[id as usize].next = next,
    }
}

fn set_prev(links: &mut Vec<Link>, at: Spot, prev: Spot)
    requires { spec.IsPlace (length links.old.items) at }
    ensures links { links.new.items ≡ spec.with_prev links.old.items at prev }
    ensures room { vec_capacity links.new ≡ vec_capacity links.old }
{
    if let Some(id) = at.id() {
        links[id as usize].prev = prev;
    }
}
