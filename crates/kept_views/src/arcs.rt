//! The arcs of a kept view.

ghost use Rattle.std.specs.Prelude.{IsTrue};
ghost use Rattle.kept_views.specs.Ordered.{listings, are_by_ends};

use crate::items::{KeptItems, Marks};
use crate::orders::Orders;
use base_items::Fact;
use observe_core::{After, KeptShape, Kind, Observer, Readout, Veto};
use std::alloc::Global;

/// The arcs of a kept view, each with how it is shown: an observer of the arc chain. They stand in
/// lists by source and by target, so that no walk looks at other nodes' arcs.
#[derive(Drop)]
pub struct KeptArcs {
    shape: KeptShape,
    pub(crate) items: KeptItems,
    ghost by_ends: { IsTrue (are_by_ends (listings items.orders)) },
}

impl KeptArcs {
    ghost use Rattle.std.specs.Prelude.{◌≡◌, IsTrue, []};
    ghost use Rattle.observe_core.specs.Held.{marked_id};
    ghost use Rattle.observe_core.specs.Items.{has_id};
    ghost use Rattle.kept_views.specs.ItemViews.{marked_set, marks};
    ghost use Rattle.kept_views.specs.Views.{arcs_of, arcs_seen, holding_arcs};

    /// No arcs, for a view of the shape; `all` says that there is no filter, so that a new arc is
    /// shown, neither forward nor backward.
    pub fn new(shape: KeptShape, all: bool, alloc: Global) -> KeptArcs
        ensures { arcs_seen result ≡ holding_arcs shape all [] }
    {
        KeptArcs {
            shape,
            items: KeptItems::new(all, Orders::by_ends(alloc), alloc),
        }
    }

    /// The shape of the view.
    pub fn shape(&self) -> KeptShape
        ensures { result ≡ self.now.shape }
    {
        self.shape
    }

    /// Places a live arc by its present values: forward where its capacity is above its flow,
    /// backward where its flow is above 0. Where there is no filter it is shown.
    pub fn set(&mut self, id: u32, shown: bool, forward: bool, backward: bool)
        requires live { IsTrue (has_id marked_id id (arcs_of self.old)) }
        requires all { IsTrue self.old.items.all → IsTrue shown }
        ensures { arcs_seen self.new ≡ holding_arcs self.old.shape self.old.items.all
            (marked_set id (marks shown forward backward) (arcs_of self.old)) }
    {
        self.items.set(
            id,
            Marks {
                shown,
                forward,
                backward,
            },
        );
    }
}

impl Observer for KeptArcs {
    ghost use Rattle.kept_views.specs.Views.{arcs_seen};
    ghost use Rattle.kept_views.specs.Ordered.{reach_of};
    ghost use Rattle.kept_views.specs.Sound.{arcs-sound, arcs-reach};

    ghost watch = { λ k. record {
      seen = arcs_seen k;
      room = 0;
      reach = reach_of k.items.orders;
      sound = arcs-sound k;
      reaches = arcs-reach k;
    } };

    fn kind(&self) -> Kind {
        Kind::Map
    }

    fn readout(&self) -> Readout {
        Readout {
            items: 0,
            k: 0,
            left: 0,
            added: 0,
            erased: 0,
            moved: 0,
        }
    }

    fn arm(&mut self, k: u32) {
        let _ = k;
    }

    fn add(&mut self, f: Fact) -> Result<(), Veto> {
        match self.items.put(f) {
            Ok(()) => Ok(()),
            Err(_) => Err(Veto::Memory),
        }
    }

    fn undo_add(&mut self, f: Fact) {
        self.items.take(f.id);
    }

    fn shift(&mut self, old: Fact, new: Fact) -> Result<(), Veto> {
        let _ = old;
        match self.items.exchange(new) {
            Ok(()) => Ok(()),
            Err(_) => Err(Veto::Memory),
        }
    }

    fn undo_shift(&mut self, old: Fact, new: Fact) {
        let _ = new;
        if self.items.exchange(old).is_err() {
            unreachable!();
        }
    }

    fn build(&mut self, all: &[Fact]) -> Result<(), Veto> {
        match self.items.fill(all) {
            Ok(()) => Ok(()),
            Err(_) => Err(Veto::Memory),
        }
    }

    fn undo_build(&mut self) {
        self.items.clear();
    }

    fn erase(&mut self, f: Fact) -> After {
        self.items.take(f.id);
        After::Keep
    }

    fn clear(&mut self) -> After {
        self.items.clear();
        After::Keep
    }
}
