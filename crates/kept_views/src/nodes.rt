//! The nodes of a kept view.

ghost use Rattle.std.specs.Prelude.{IsTrue};
ghost use Rattle.kept_views.specs.Ordered.{listings, is_whole};

use crate::items::{KeptItems, Marks};
use crate::orders::Orders;
use base_items::Fact;
use observe_core::{After, Kind, Observer, Readout, Veto};
use std::alloc::Global;

/// The nodes of a kept view, each with whether it is shown: an observer of the node chain. They
/// stand in one list.
#[derive(Drop)]
pub struct KeptNodes {
    pub(crate) items: KeptItems,
    ghost whole: { IsTrue (is_whole (listings items.orders)) },
}

impl KeptNodes {
    ghost use Rattle.std.specs.Prelude.{◌≡◌, IsTrue, [], false};
    ghost use Rattle.observe_core.specs.Held.{marked_id};
    ghost use Rattle.observe_core.specs.Items.{has_id};
    ghost use Rattle.kept_views.specs.ItemViews.{marked_set, marks};
    ghost use Rattle.kept_views.specs.Views.{nodes_of, nodes_seen, holding_nodes};

    /// No nodes; `all` says that there is no filter, so that a new node is shown.
    pub fn new(all: bool, alloc: Global) -> KeptNodes
        ensures { nodes_seen result ≡ holding_nodes all [] }
    {
        KeptNodes {
            items: KeptItems::new(all, Orders::whole(alloc), alloc),
        }
    }

    /// Places a live node by its present value. Where there is no filter it is shown.
    pub fn set(&mut self, id: u32, shown: bool)
        requires live { IsTrue (has_id marked_id id (nodes_of self.old)) }
        requires all { IsTrue self.old.items.all → IsTrue shown }
        ensures { nodes_seen self.new ≡ holding_nodes self.old.items.all
            (marked_set id (marks shown false false) (nodes_of self.old)) }
    {
        self.items.set(
            id,
            Marks {
                shown,
                forward: false,
                backward: false,
            },
        );
    }
}

impl Observer for KeptNodes {
    ghost use Rattle.kept_views.specs.Views.{nodes_seen};
    ghost use Rattle.kept_views.specs.Sound.{nodes-sound, nodes-reach};

    ghost watch = { λ k. record {
      seen = nodes_seen k;
      room = 0;
      reach = 0;
      sound = nodes-sound k;
      reaches = nodes-reach k;
    } };

    fn kind(&self) -> Kind {
        Kind::Map
    }

    fn readout(&self) -> Readout {
        Readout {
            items: 0,
            k: 0,
            left: 0,
            added: 0,
            erased: 0,
            moved: 0,
        }
    }

    fn arm(&mut self, k: u32) {
        let _ = k;
    }

    fn add(&mut self, f: Fact) -> Result<(), Veto> {
        match self.items.put(f) {
            Ok(()) => Ok(()),
            Err(_) => Err(Veto::Memory),
        }
    }

    fn undo_add(&mut self, f: Fact) {
        self.items.take(f.id);
    }

    fn shift(&mut self, old: Fact, new: Fact) -> Result<(), Veto> {
        let _ = old;
        match self.items.exchange(new) {
            Ok(()) => Ok(()),
            Err(_) => Err(Veto::Memory),
        }
    }

    fn undo_shift(&mut self, old: Fact, new: Fact) {
        let _ = new;
        if self.items.exchange(old).is_err() {
            unreachable!();
        }
    }

    fn build(&mut self, all: &[Fact]) -> Result<(), Veto> {
        match self.items.fill(all) {
            Ok(()) => Ok(()),
            Err(_) => Err(Veto::Memory),
        }
    }

    fn undo_build(&mut self) {
        self.items.clear();
    }

    fn erase(&mut self, f: Fact) -> After {
        self.items.take(f.id);
        After::Keep
    }

    fn clear(&mut self) -> After {
        self.items.clear();
        After::Keep
    }
}
