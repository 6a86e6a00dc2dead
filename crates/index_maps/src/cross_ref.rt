//! Labels of live items, found either way.

ghost use Rattle.std.proofs.Props.{props};
ghost use Rattle.std.specs.Str.{bytes_eq};
ghost use Rattle.indexmap.specs.IndexMap.{IsUnique};
ghost use Rattle.columns.specs.Views.{entries_of};
ghost use Rattle.index_maps.specs.Labels.{IsTied, place_of};

use base_items::Fact;
use columns::Column;
use indexmap::IndexMap;
use observe_core::{After, Kind, Observer, Readout, Veto};
use std::alloc::{AllocError, Global};
use token_text::Text;

/// A label for some live items, no label twice.
///
/// A label stands once, in the table, beside its item. The place of an item is 0 where it has no
/// label, and else one above the index of its label.
#[derive(Drop)]
pub struct CrossRef {
    places: Column<usize>,
    labels: IndexMap<Text, u32>,
    ghost tied: { IsTied labels.entries (place_of (entries_of places)) },
    ghost unique: { IsUnique bytes_eq labels } by { Prim.hlevel props },
}

impl CrossRef {
    ghost use Rattle.std.specs.Prelude.{◌≡◌, ◌+◌, ◌<◌, ◌≤◌, [], map, Some, None, OnOk, OnErr};
    ghost use Rattle.std.specs.Prelude.{MatchOption};
    ghost use Rattle.observe_core.specs.Facts.{HasDistinctIds, AllInBounds};
    ghost use Rattle.observe_core.specs.Held.{entry_id, Labels};
    ghost use Rattle.plain_digraph.specs.Rising.{with_item, without_item, swapped};
    ghost use Rattle.observe_core.specs.Items.{Lacks, place_all};
    ghost use Rattle.observe_core.specs.Told.{new_entry};
    ghost use Rattle.index_maps.specs.RefViews.{labels_of, refs_seen, holding_labels, room_of};
    ghost use Rattle.index_maps.specs.RefViews.{with_label, HasLabel, HasSomeLabel, HasNoLabel};
    ghost use Rattle.index_maps.specs.RefViews.{IsFreeLabel};

    /// No items.
    pub fn new(alloc: Global) -> CrossRef
        ensures { refs_seen result ≡ holding_labels [] }
    {
        CrossRef {
            places: Column::new(alloc),
            labels: IndexMap::new(alloc),
        }
    }

    /// Makes room for a label that isn't there. The error is want of memory; all is then as before.
    pub fn reserve(&mut self, label: &Text) -> Result<(), AllocError>
        requires { IsFreeLabel label.now (labels_of self.old) }
        ensures same { refs_seen self.new ≡ refs_seen self.old }
        ensures ok { OnOk result (1 ≤ room_of self.new) }
        ensures room { room_of self.old ≤ room_of self.new }
    {
        let _ = label;
        self.labels.reserve(1)
    }

    /// Gives a label that isn't there to a live item without one. It takes the room of one label.
    pub fn put(&mut self, id: u32, label: Text)
        requires live { HasLabel id None (labels_of self.old) }
        requires free { IsFreeLabel label (labels_of self.old) }
        requires room { 1 ≤ room_of self.old }
        ensures seen { refs_seen self.new ≡ holding_labels
            (swapped entry_id (with_label id (Some label)) (labels_of self.old)) }
        ensures room { room_of self.old ≤ room_of self.new + 1 }
    {
        let place = self.labels.len() + 1;
        match self.labels.insert(label, id) {
            Ok(_) => {}
            Err(_) => unreachable!(),
        }
        self.places.set(id, place);
    }

    /// Gives another label, which isn't there, to an item with one. The old label. It takes the
    /// room of one label.
    pub fn replace(&mut self, id: u32, label: Text) -> Text
        requires labelled { HasSomeLabel id (labels_of self.old) }
        requires free { IsFreeLabel label (labels_of self.old) }
        requires room { 1 ≤ room_of self.old }
        ensures seen { refs_seen self.new ≡ holding_labels
            (swapped entry_id (with_label id (Some label)) (labels_of self.old)) }
        ensures old { HasLabel id (Some result) (labels_of self.old) }
        ensures room { room_of self.old ≤ room_of self.new + 1 }
    {
        let place = self.places.get(id);
        match self.labels.insert(label, id) {
            Ok(_) => {}
            Err(_) => unreachable!(),
        }
        match self.labels.swap_remove_index(place - 1) {
            Some((old, _)) => old,
            None => unreachable!(),
        }
    }

    /// The label of an item. None exactly where it has none.
    pub fn label(&self, id: u32) -> Option<&Text>
        ensures { MatchOption result (HasNoLabel id (labels_of self.now)) (λ label.
            HasLabel id (Some label.now) (labels_of self.now)) }
    {
        let place = match self.places.find(id) {
            None => return None,
            Some(place) => place,
        };
        if place == 0 {
            return None;
        }
        match self.labels.get_index(place - 1) {
            Some((label, _)) => Some(label),
            None => unreachable!(),
        }
    }

    /// The item that has a label. None exactly where there is none.
    pub fn find(&self, label: &Text) -> Option<u32>
        ensures { MatchOption result (IsFreeLabel label.now (labels_of self.now)) (λ id.
            HasLabel id (Some label.now) (labels_of self.now)) }
    {
        match self.labels.get(label) {
            Some(id) => Some(*id),
            None => None,
        }
    }

    /// An item more, without label.
    fn add_item(&mut self, id: u32) -> Result<(), AllocError>
        requires bounded { id < 4194304 }
        requires free { Lacks entry_id id (labels_of self.old) }
        ensures ok { OnOk result (refs_seen self.new
            ≡ holding_labels (with_item entry_id (new_entry Labels id) (labels_of self.old))) }
        ensures err { OnErr result (refs_seen self.new ≡ refs_seen self.old) }
        ensures room { room_of self.old ≤ room_of self.new }
    {
        self.places.put(id, 0)
    }

    /// An item less, and its label. The last label takes the place of its own.
    fn take(&mut self, id: u32)
        ensures seen { refs_seen self.new
            ≡ holding_labels (without_item entry_id id (labels_of self.old)) }
        ensures room { room_of self.old ≤ room_of self.new }
    {
        let place = match self.places.find(id) {
            None => return,
            Some(place) => place,
        };
        if place == 0 {
            self.places.take(id, 0);
            return;
        }
        let _ = self.labels.swap_remove_index(place - 1);
        match self.labels.get_index(place - 1) {
            None => {
                self.places.take(id, 0);
            }
            Some((_, moved)) => {
                let moved = *moved;
                self.places.set(moved, place);
                self.places.take(id, 0);
            }
        }
    }

    /// All items of a build, without labels.
    fn fill(&mut self, all: &[Fact]) -> Result<(), AllocError>
        requires empty { labels_of self.old ≡ [] }
        requires distinct { HasDistinctIds all.now }
        requires bounded { AllInBounds all.now }
        ensures ok { OnOk result (refs_seen self.new
            ≡ holding_labels (place_all entry_id (map (λ f. new_entry Labels f.id) all.now) [])) }
        ensures err { OnErr result (refs_seen self.new ≡ holding_labels []) }
        ensures room { room_of self.old ≤ room_of self.new }
    {
        self.places.fill(all, 0)
    }

    /// No items any more.
    fn reset(&mut self)
        ensures seen { refs_seen self.new ≡ holding_labels [] }
        ensures room { room_of self.old ≤ room_of self.new }
    {
        self.places.clear();
        self.labels.clear();
    }
}

impl Observer for CrossRef {
    ghost use Rattle.index_maps.specs.RefViews.{refs_seen, room_of};
    ghost use Rattle.index_maps.specs.RefSound.{refs-sound, refs-reach};

    ghost watch = { λ r. record {
      seen = refs_seen r;
      room = room_of r;
      reach = 0;
      sound = refs-sound r;
      reaches = refs-reach r;
    } };

    fn kind(&self) -> Kind {
        Kind::Map
    }

    fn readout(&self) -> Readout {
        Readout {
            items: 0,
            k: 0,
            left: 0,
            added: 0,
            erased: 0,
            moved: 0,
        }
    }

    fn arm(&mut self, k: u32) {
        let _ = k;
    }

    fn add(&mut self, f: Fact) -> Result<(), Veto> {
        match self.add_item(f.id) {
            Ok(()) => Ok(()),
            Err(_) => Err(Veto::Memory),
        }
    }

    fn undo_add(&mut self, f: Fact) {
        self.take(f.id);
    }

    fn shift(&mut self, old: Fact, new: Fact) -> Result<(), Veto> {
        let _ = (old, new);
        Ok(())
    }

    fn undo_shift(&mut self, old: Fact, new: Fact) {
        let _ = (old, new);
    }

    fn build(&mut self, all: &[Fact]) -> Result<(), Veto> {
        match self.fill(all) {
            Ok(()) => Ok(()),
            Err(_) => Err(Veto::Memory),
        }
    }

    fn undo_build(&mut self) {
        self.reset();
    }

    fn erase(&mut self, f: Fact) -> After {
        self.take(f.id);
        After::Keep
    }

    fn clear(&mut self) -> After {
        self.reset();
        After::Keep
    }
}
