//! The facts of items, each with its marks.

ghost use Rattle.std.specs.Prelude.{◌≤◌, map, vec_len};
ghost use Rattle.plain_digraph.specs.Facts.{fact_id};
ghost use Rattle.observe_core.specs.Items.{above_all};
ghost use Rattle.fact_table.specs.Table.{facts_of};
ghost use Rattle.kept_views.specs.Ordered.{IsOrdered};
ghost use Rattle.kept_views.specs.OrderedProp.{order-prop};

use crate::orders::Orders;
use base_items::Fact;
use fact_table::FactTable;
use std::alloc::{AllocError, Global};

/// How an item is shown.
#[derive(Clone, Copy)]
pub(crate) struct Marks {
    pub(crate) shown: bool,
    pub(crate) forward: bool,
    pub(crate) backward: bool,
}

/// The marks of no item.
const NO_MARKS: Marks = Marks {
    shown: false,
    forward: false,
    backward: false,
};

/// The items of a kept view, with the orders in which walks meet them. A new one is shown exactly
/// where there is no filter (`all`).
#[derive(Drop)]
pub(crate) struct KeptItems {
    pub(crate) all: bool,
    table: FactTable,
    marks: Vec<Marks>,
    pub(crate) orders: Orders,
    ghost covered: { above_all (map fact_id (facts_of table)) ≤ vec_len marks },
    ghost ordered: { IsOrdered orders (facts_of table) } by { order-prop orders (facts_of table) },
}

impl KeptItems {
    ghost use Rattle.std.specs.Prelude.{◌≡◌, ◌<◌, IsTrue, [], OnOk, OnErr, IsOk};
    ghost use Rattle.std.specs.Prelude.{Contains, IfSome, IfNone};
    ghost use Rattle.plain_digraph.specs.Rising.{with_item, without_item};
    ghost use Rattle.observe_core.specs.Facts.{IsInBounds, HasDistinctIds, AllInBounds};
    ghost use Rattle.observe_core.specs.Held.{marked_id};
    ghost use Rattle.observe_core.specs.Items.{Lacks, place_all, has_id};
    ghost use Rattle.observe_core.specs.Told.{new_marked, marked_moved};
    ghost use Rattle.kept_views.specs.ItemViews.{items_of, marked_set, marks_in};
    ghost use Rattle.kept_views.specs.Ordered.{listings, HaveRoom, HaveReach, reach_of};

    /// No items.
    pub(crate) fn new(all: bool, orders: Orders, alloc: Global) -> KeptItems
        requires { IsOrdered orders [] }
        ensures items { items_of result ≡ [] }
        ensures all { result.all ≡ all }
        ensures listings { listings result.orders ≡ listings orders }
    {
        KeptItems {
            all,
            table: FactTable::new(alloc),
            marks: Vec::new(alloc),
            orders,
        }
    }

    /// Marks an item anew.
    pub(crate) fn set(&mut self, id: u32, marks: Marks)
        requires { IsTrue (has_id marked_id id (items_of self.old)) }
        ensures items { items_of self.new ≡ marked_set id marks (items_of self.old) }
        ensures all { self.new.all ≡ self.old.all }
        ensures orders { self.new.orders ≡ self.old.orders }
    {
        self.marks[id as usize] = marks;
    }

    /// The fact of an item. None exactly where it isn't held.
    pub(crate) fn fact(&self, id: u32) -> Option<Fact>
        ensures there { IfSome result (λ f. Contains (facts_of self.now.table) f × (f.id ≡ id)) }
        ensures absent { IfNone result (Lacks fact_id id (facts_of self.now.table)) }
    {
        self.table.get(id)
    }

    /// The marks of an item.
    pub(crate) fn marks_of(&self, id: u32) -> Marks
        requires { IsTrue (has_id marked_id id (items_of self.now)) }
        ensures { result ≡ marks_in id (items_of self.now) }
    {
        self.marks[id as usize]
    }

    /// Makes room for the marks of an id.
    fn make_room(&mut self, id: u32) -> Result<(), AllocError>
        requires { id < 4194304 }
        ensures same { items_of self.new ≡ items_of self.old }
        ensures table { self.new.table ≡ self.old.table }
        ensures orders { self.new.orders ≡ self.old.orders }
        ensures all { self.new.all ≡ self.old.all }
        ensures room { OnOk result (id < vec_len self.new.marks) }
    {
        let at = id as usize;
        if self.marks.len() <= at {
            self.marks.resize(at + 1, NO_MARKS)?;
        }
        Ok(())
    }

    /// Holds an item more, with the marks of a new one. The error is want of memory; the items are
    /// then as before.
    pub(crate) fn put(&mut self, f: Fact) -> Result<(), AllocError>
        requires free { Lacks fact_id f.id (facts_of self.old.table) }
        requires bounded { IsInBounds f }
        ensures ok { OnOk result (items_of self.new
            ≡ with_item marked_id (new_marked self.old.all f) (items_of self.old)) }
        ensures facts { OnOk result
            (facts_of self.new.table ≡ with_item fact_id f (facts_of self.old.table)) }
        ensures err { OnErr result (items_of self.new ≡ items_of self.old) }
        ensures all { self.new.all ≡ self.old.all }
        ensures listings { listings self.new.orders ≡ listings self.old.orders }
        ensures reach { reach_of self.old.orders ≤ reach_of self.new.orders }
    {
        self.make_room(f.id)?;
        self.orders.make_room(&f)?;
        match self.table.insert(f) {
            Ok(()) => {
                self.marks[f.id as usize] = Marks {
                    shown: self.all,
                    forward: false,
                    backward: false,
                };
                self.orders.enter(&self.table, f.id);
                Ok(())
            }
            Err(fault) => Err(fault),
        }
    }

    /// Holds an item no more.
    pub(crate) fn take(&mut self, id: u32)
        ensures items { items_of self.new ≡ without_item marked_id id (items_of self.old) }
        ensures all { self.new.all ≡ self.old.all }
        ensures listings { listings self.new.orders ≡ listings self.old.orders }
        ensures reach { reach_of self.old.orders ≤ reach_of self.new.orders }
    {
        self.orders.leave(&self.table, id);
        self.table.remove(id);
    }

    /// Holds a moved item by its new fact, with its marks. The error is want of memory, which
    /// doesn't come where the item is there and its lists are within reach; the items are then as
    /// before.
    pub(crate) fn exchange(&mut self, new: Fact) -> Result<(), AllocError>
        requires { IsInBounds new }
        ensures ok { OnOk result (items_of self.new ≡ marked_moved new (items_of self.old)) }
        ensures err { OnErr result (items_of self.new ≡ items_of self.old) }
        ensures all { self.new.all ≡ self.old.all }
        ensures listings { listings self.new.orders ≡ listings self.old.orders }
        ensures succeeds { IsTrue (has_id marked_id new.id (items_of self.old))
            → HaveReach self.old.orders new → IsOk result }
        ensures reach { reach_of self.old.orders ≤ reach_of self.new.orders }
    {
        self.orders.make_room(&new)?;
        self.swap(new);
        Ok(())
    }

    /// Holds a moved item by its new fact, for which there is room.
    fn swap(&mut self, new: Fact)
        requires bounded { IsInBounds new }
        requires room { HaveRoom self.old.orders new }
        ensures items { items_of self.new ≡ marked_moved new (items_of self.old) }
        ensures all { self.new.all ≡ self.old.all }
        ensures listings { listings self.new.orders ≡ listings self.old.orders }
        ensures reach { reach_of self.old.orders ≤ reach_of self.new.orders }
    {
        self.orders.leave(&self.table, new.id);
        self.table.replace(new);
        self.orders.enter(&self.table, new.id);
    }

    /// Holds all items of a build. The error is want of memory; there is then no item.
    pub(crate) fn fill(&mut self, all: &[Fact]) -> Result<(), AllocError>
        requires empty { items_of self.old ≡ [] }
        requires distinct { HasDistinctIds all.now }
        requires bounded { AllInBounds all.now }
        ensures ok { OnOk result (items_of self.new
            ≡ place_all marked_id (map (new_marked self.old.all) all.now) []) }
        ensures err { OnErr result (items_of self.new ≡ []) }
        ensures all { self.new.all ≡ self.old.all }
        ensures listings { listings self.new.orders ≡ listings self.old.orders }
        ensures reach { reach_of self.old.orders ≤ reach_of self.new.orders }
    {
        for f in all {
            match self.put(*f) {
                Ok(()) => {}
                Err(fault) => {
                    self.clear();
                    return Err(fault);
                }
            }
        }
        Ok(())
    }

    /// Holds no item any more.
    pub(crate) fn clear(&mut self)
        ensures items { items_of self.new ≡ [] }
        ensures all { self.new.all ≡ self.old.all }
        ensures listings { listings self.new.orders ≡ listings self.old.orders }
        ensures reach { reach_of self.old.orders ≤ reach_of self.new.orders }
    {
        self.table.clear();
        self.orders.clear();
    }
}
