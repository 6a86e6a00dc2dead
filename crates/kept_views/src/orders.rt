//! The orders in which a walk meets the items of a kept view.

ghost use Rattle.std.specs.Prelude.{◌≡◌, ◌≤◌, ◌<◌, List, [], None, Some, OnOk, IsOk};
ghost use Rattle.base_items.specs.declared.items.Fact.{Fact as Item};
ghost use Rattle.plain_digraph.specs.Facts.{fact_id};
ghost use Rattle.plain_digraph.specs.Rising.{without_item};
ghost use Rattle.observe_core.specs.Facts.{IsInBounds};
ghost use Rattle.fact_table.specs.Table.{facts_of};
ghost use Rattle.kept_views.specs.declared.listing.Listing.TheVariants.{Whole, BySource, ByTarget};
ghost use Rattle.kept_views.specs.Ordered.{IsOrdered, HaveRows, HaveRoom, HaveId, HaveReach};
ghost use Rattle.kept_views.specs.Ordered.{listings, reach_of};

use crate::listing::Listing;
use crate::order::Order;
use base_items::Fact;
use fact_table::FactTable;
use std::alloc::{AllocError, Global};

/// One order, or two.
#[derive(Drop)]
pub(crate) struct Orders {
    pub(crate) first: Order,
    pub(crate) second: Option<Order>,
}

impl Orders {
    /// All items in one list.
    pub(crate) fn whole(alloc: Global) -> Orders
        ensures ordered { IsOrdered result [] }
        ensures listings { listings result ≡ record { first = Whole; second = None } }
    {
        Orders {
            first: Order::new(Listing::Whole, alloc),
            second: None,
        }
    }

    /// A list for each source, and one for each target.
    pub(crate) fn by_ends(alloc: Global) -> Orders
        ensures ordered { IsOrdered result [] }
        ensures listings { listings result ≡ record { first = BySource; second = Some ByTarget } }
    {
        Orders {
            first: Order::new(Listing::BySource, alloc),
            second: Some(Order::new(Listing::ByTarget, alloc)),
        }
    }

    /// Makes room for an item, also for when it is turned. The error is want of memory.
    pub(crate) fn make_room(&mut self, f: &Fact) -> Result<(), AllocError>
        requires { IsInBounds f.now }
        ensures listings { listings self.new ≡ listings self.old }
        ensures keeps { (fs : List Item) → IsOrdered self.old fs → IsOrdered self.new fs }
        ensures room { OnOk result (HaveRoom self.new f.now) }
        ensures succeeds { HaveReach self.old f.now → HaveId self.old f.now.id → IsOk result }
        ensures reach { reach_of self.old ≤ reach_of self.new }
    {
        self.first.make_room(f)?;
        match &mut self.second {
            Some(order) => order.make_room(f),
            None => Ok(()),
        }
    }

    /// Puts an item of the table at its places. The lists had all other items.
    pub(crate) fn enter(&mut self, table: &FactTable, id: u32)
        requires ordered { IsOrdered self.old (without_item fact_id id (facts_of table.now)) }
        requires rows { HaveRows self.old (facts_of table.now) }
        ensures listings { listings self.new ≡ listings self.old }
        ensures ordered { IsOrdered self.new (facts_of table.now) }
        ensures reach { reach_of self.old ≤ reach_of self.new }
    {
        self.first.enter(table, id);
        match &mut self.second {
            Some(order) => order.enter(table, id),
            None => {}
        }
    }

    /// Takes an item out that is still in the table.
    pub(crate) fn leave(&mut self, table: &FactTable, id: u32)
        requires { IsOrdered self.old (facts_of table.now) }
        ensures listings { listings self.new ≡ listings self.old }
        ensures ordered { IsOrdered self.new (without_item fact_id id (facts_of table.now)) }
        ensures rows { (fs : List Item) → HaveRows self.old fs → HaveRows self.new fs }
        ensures reach { reach_of self.old ≤ reach_of self.new }
    {
        self.first.leave(table, id);
        match &mut self.second {
            Some(order) => order.leave(table, id),
            None => {}
        }
    }

    /// No item stands in a list any more.
    pub(crate) fn clear(&mut self)
        ensures listings { listings self.new ≡ listings self.old }
        ensures ordered { IsOrdered self.new [] }
        ensures reach { reach_of self.old ≤ reach_of self.new }
    {
        self.first.clear();
        match &mut self.second {
            Some(order) => order.clear(),
            None => {}
        }
    }
}
