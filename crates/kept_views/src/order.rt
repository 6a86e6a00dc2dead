//! Items in lists by falling stamp, linked by id.

ghost use Rattle.std.specs.Prelude.{◌≡◌, ℕ, ◌<◌, ◌≤◌, true, List, [], length, vec_capacity, OnOk};
ghost use Rattle.std.specs.Prelude.{IsOk};
ghost use Rattle.base_items.specs.declared.items.Fact.{Fact as Item};
ghost use Rattle.plain_digraph.specs.Facts.{fact_id};
ghost use Rattle.plain_digraph.specs.Lists.{first, has, after};
ghost use Rattle.plain_digraph.specs.Rising.{without_item};
ghost use Rattle.observe_core.specs.Facts.{IsInBounds};
ghost use Rattle.fact_table.specs.Table.{facts_of};
ghost use Rattle.kept_views.specs.Order.{items_at, ids_at, owner_of};
ghost use Rattle.kept_views.specs.Listed.{IsListed, HasRows, HasRoom, HasReach, Stands};

use crate::listing::Listing;
use base_items::Fact;
use fact_table::FactTable;
use linked_lists::{Link, insert, loose, remove};
use std::alloc::{AllocError, Global};

/// Lists of items, the newest in front. The items themselves are in a table beside it.
#[derive(Drop)]
pub(crate) struct Order {
    pub(crate) listing: Listing,
    pub(crate) heads: Vec<Option<u32>>,
    pub(crate) links: Vec<Link>,
}

impl Order {
    /// Lists without items.
    pub(crate) fn new(listing: Listing, alloc: Global) -> Order
        ensures listing { result.listing ≡ listing }
        ensures listed { IsListed result [] }
    {
        Order {
            listing,
            heads: Vec::new(alloc),
            links: Vec::new(alloc),
        }
    }

    /// Makes room for the lists up to a number. The error is want of memory, which doesn't come
    /// where the number is within reach.
    fn reach_list(&mut self, owner: u32) -> Result<(), AllocError>
        requires { owner < 4194304 }
        ensures listing { self.new.listing ≡ self.old.listing }
        ensures keeps { (fs : List Item) → IsListed self.old fs → IsListed self.new fs }
        ensures links { self.new.links ≡ self.old.links }
        ensures lists { length self.old.heads.items ≤ length self.new.heads.items }
        ensures room { OnOk result (owner < length self.new.heads.items) }
        ensures succeeds { owner < vec_capacity self.old.heads → IsOk result }
        ensures reach { vec_capacity self.old.heads ≤ vec_capacity self.new.heads }
    {
        let at = owner as usize;
        if self.heads.len() <= at {
            self.heads.resize(at + 1, None)?;
        }
        Ok(())
    }

    /// Makes room for an id. The error is want of memory, which doesn't come where it has room.
    fn reach_row(&mut self, id: u32) -> Result<(), AllocError>
        requires { id < 4194304 }
        ensures listing { self.new.listing ≡ self.old.listing }
        ensures keeps { (fs : List Item) → IsListed self.old fs → IsListed self.new fs }
        ensures heads { self.new.heads ≡ self.old.heads }
        ensures room { OnOk result (id < length self.new.links.items) }
        ensures succeeds { id < length self.old.links.items → IsOk result }
    {
        let at = id as usize;
        if self.links.len() <= at {
            self.links.resize(at + 1, loose())?;
        }
        Ok(())
    }

    /// Makes room for an item, also for when it is turned. The error is want of memory, which
    /// doesn't come where there is room for the id and the lists are within reach.
    pub(crate) fn make_room(&mut self, f: &Fact) -> Result<(), AllocError>
        requires { IsInBounds f.now }
        ensures listing { self.new.listing ≡ self.old.listing }
        ensures keeps { (fs : List Item) → IsListed self.old fs → IsListed self.new fs }
        ensures room { OnOk result (HasRoom self.new f.now) }
        ensures succeeds { HasReach self.old f.now → f.now.id < length self.old.links.items
            → IsOk result }
        ensures reach { vec_capacity self.old.heads ≤ vec_capacity self.new.heads }
    {
        self.reach_list(self.listing.top(f))?;
        self.reach_row(f.id)
    }

    /// The first item of a list; None exactly where it has none.
    pub(crate) fn first(&self, owner: u32) -> Option<u32>
        ensures { (fs : List Item) → IsListed self.now fs
            → result ≡ first (ids_at self.now.listing fs owner) }
    {
        let at = owner as usize;
        if at < self.heads.len() {
            return self.heads[at];
        }
        None
    }

    /// The item after this one in its list; None exactly after the last.
    pub(crate) fn next(&self, id: u32) -> Option<u32>
        requires { id < length self.now.links.items }
        ensures { (fs : List Item) (v : ℕ) → IsListed self.now fs
            → has (ids_at self.now.listing fs v) id ≡ true
            → result ≡ after (ids_at self.now.listing fs v) id }
    {
        self.links[id as usize].next.id()
    }

    /// The last item that stands in front of the place of this one.
    fn behind(&self, table: &FactTable, f: &Fact) -> Option<u32>
        requires listed { IsListed self.now (without_item fact_id f.now.id (facts_of table.now)) }
        requires room { owner_of self.now.listing f.now < length self.now.heads.items }
        ensures { Stands self.now.listing f.now
            (items_at self.now.listing (owner_of self.now.listing f.now)
            (without_item fact_id f.now.id (facts_of table.now))) result }
    {
        let owner = self.listing.owner(f);
        let rank = self.listing.rank(f);
        let mut behind = None;
        let mut next = self.heads[owner as usize];
        let mut left = self.links.len();
        'walk: while left > 0 {
            let id = match next {
                Some(id) => id,
                None => return behind,
            };
            let item = match table.get(id) {
                Some(item) => item,
                None => return behind,
            };
            if self.listing.rank(&item) <= rank {
                return behind;
            }
            behind = next;
            next = self.links[id as usize].next.id();
            left -= 1;
        }
        behind
    }

    /// Puts an item of the table at its place. The lists had all other items.
    pub(crate) fn enter(&mut self, table: &FactTable, id: u32)
        requires listed { IsListed self.old (without_item fact_id id (facts_of table.now)) }
        requires rows { HasRows self.old (facts_of table.now) }
        ensures listing { self.new.listing ≡ self.old.listing }
        ensures listed { IsListed self.new (facts_of table.now) }
        ensures lists { length self.new.heads.items ≡ length self.old.heads.items }
        ensures rows { length self.new.links.items ≡ length self.old.links.items }
        ensures reach { vec_capacity self.new.heads ≡ vec_capacity self.old.heads }
    {
        let f = match table.get(id) {
            Some(f) => f,
            None => return,
        };
        let behind = self.behind(table, &f);
        let owner = self.listing.owner(&f) as usize;
        let mut head = self.heads[owner];
        insert(&mut head, &mut self.links, behind, id);
        self.heads[owner] = head;
    }

    /// Takes an item out that is still in the table.
    pub(crate) fn leave(&mut self, table: &FactTable, id: u32)
        requires { IsListed self.old (facts_of table.now) }
        ensures listing { self.new.listing ≡ self.old.listing }
        ensures listed { IsListed self.new (without_item fact_id id (facts_of table.now)) }
        ensures lists { length self.new.heads.items ≡ length self.old.heads.items }
        ensures rows { length self.new.links.items ≡ length self.old.links.items }
        ensures reach { vec_capacity self.new.heads ≡ vec_capacity self.old.heads }
    {
        let f = match table.get(id) {
            Some(f) => f,
            None => return,
        };
        let owner = self.listing.owner(&f) as usize;
        let mut head = self.heads[owner];
        remove(&mut head, &mut self.links, id);
        self.heads[owner] = head;
    }

    /// No item stands in a list any more.
    pub(crate) fn clear(&mut self)
        ensures listing { self.new.listing ≡ self.old.listing }
        ensures listed { IsListed self.new [] }
        ensures reach { vec_capacity self.old.heads ≤ vec_capacity self.new.heads }
    {
        self.heads.clear();
        self.links.clear();
    }
}
