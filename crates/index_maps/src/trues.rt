//! Which live items are true.

ghost use Rattle.std.specs.Prelude.{◌≡◌, ℕ, ◌*◌, ◌≤◌, false};
ghost use Rattle.columns.specs.Views.{entries_of, extent_of};
ghost use Rattle.index_maps.specs.Lookup.{value_of};
ghost use Rattle.index_maps.specs.BitViews.{is_marked, words_of};
ghost use Rattle.index_maps.specs.Trues.{low_after};

use crate::bits::Bits;
use base_items::Fact;
use columns::Column;
use observe_core::{After, Kind, Observer, Readout, Veto};
use std::alloc::{AllocError, Global};

/// Whether each live item is true, false for a new one. The true ones are also kept as a set of
/// bits, by which the next one is found in a few steps.
#[derive(Drop)]
pub struct TrueItems {
    column: Column<bool>,
    bits: Bits,
    ghost marked: { (k : ℕ) → is_marked bits k ≡ value_of false (entries_of column) k },
    ghost covered: { extent_of column ≤ 64 * words_of bits },
}

// The least place that may come next.
fn place_after(after: Option<u32>) -> usize
    ensures place { result ≡ low_after after }
    ensures small { result ≤ 4294967296 }
{
    match after {
        None => 0,
        Some(id) => id as usize + 1,
    }
}

impl TrueItems {
    ghost use Rattle.std.specs.Prelude.{◌<◌, IsTrue, [], map, OnOk, OnErr};
    ghost use Rattle.plain_digraph.specs.Rising.{with_item, without_item, swapped};
    ghost use Rattle.observe_core.specs.Facts.{HasDistinctIds};
    ghost use Rattle.observe_core.specs.Held.{entry_id, Trues};
    ghost use Rattle.observe_core.specs.Items.{Lacks, place_all, has_id};
    ghost use Rattle.observe_core.specs.Told.{new_entry};
    ghost use Rattle.columns.specs.Views.{entry};
    ghost use Rattle.index_maps.specs.Trues.{first_true};
    ghost use Rattle.index_maps.specs.TrueViews.{trues_of, trues_seen, holding_trues};

    /// No items.
    pub fn new(alloc: Global) -> TrueItems
        ensures { trues_seen result ≡ holding_trues [] }
    {
        TrueItems {
            column: Column::new(alloc),
            bits: Bits::new(alloc),
        }
    }

    /// The least true item above one, or the least. None exactly where there is none.
    pub fn next(&self, after: Option<u32>) -> Option<u32>
        ensures { result ≡ first_true (low_after after) (trues_of self.now) }
    {
        match self.bits.first(place_after(after)) {
            None => None,
            Some(at) => Some(at as u32),
        }
    }

    /// Writes whether a live item is true.
    pub fn write(&mut self, id: u32, value: bool)
        requires { IsTrue (has_id entry_id id (trues_of self.old)) }
        ensures { trues_seen self.new
            ≡ holding_trues (swapped entry_id (entry id value) (trues_of self.old)) }
    {
        self.column.set(id, value);
        self.bits.mark(id, value);
    }

    /// An item more, which isn't true.
    fn put(&mut self, id: u32) -> Result<(), AllocError>
        requires { Lacks entry_id id (trues_of self.old) }
        ensures ok { OnOk result
            (trues_of self.new ≡ with_item entry_id (new_entry Trues id) (trues_of self.old)) }
        ensures err { OnErr result (trues_of self.new ≡ trues_of self.old) }
    {
        self.bits.reach(id)?;
        self.column.put(id, false)?;
        Ok(())
    }

    /// An item less.
    fn take(&mut self, id: u32)
        ensures { trues_of self.new ≡ without_item entry_id id (trues_of self.old) }
    {
        match self.column.find(id) {
            None => {}
            Some(_) => {
                self.column.take(id, false);
                self.bits.mark(id, false);
            }
        }
    }

    /// All items of a build, none of them true.
    fn fill(&mut self, all: &[Fact]) -> Result<(), AllocError>
        requires empty { trues_of self.old ≡ [] }
        requires distinct { HasDistinctIds all.now }
        ensures ok { OnOk result (trues_of self.new
            ≡ place_all entry_id (map (λ f. new_entry Trues f.id) all.now) []) }
        ensures err { OnErr result (trues_of self.new ≡ []) }
    {
        for f in all {
            match self.put(f.id) {
                Ok(()) => {}
                Err(_) => {
                    self.reset();
                    return Err(AllocError);
                }
            }
        }
        Ok(())
    }

    /// No items any more.
    fn reset(&mut self)
        ensures { trues_of self.new ≡ [] }
    {
        self.column.clear();
        self.bits.clear();
    }
}

impl Observer for TrueItems {
    ghost use Rattle.index_maps.specs.TrueViews.{trues_seen};
    ghost use Rattle.index_maps.specs.TrueSound.{trues-sound, trues-reach};

    ghost watch = { λ m. record {
      seen = trues_seen m;
      room = 0;
      reach = 0;
      sound = trues-sound m;
      reaches = trues-reach m;
    } };

    fn kind(&self) -> Kind {
        Kind::Map
    }

    fn readout(&self) -> Readout {
        Readout {
            items: 0,
            k: 0,
            left: 0,
            added: 0,
            erased: 0,
            moved: 0,
        }
    }

    fn arm(&mut self, k: u32) {
        let _ = k;
    }

    fn add(&mut self, f: Fact) -> Result<(), Veto> {
        match self.put(f.id) {
            Ok(()) => Ok(()),
            Err(_) => Err(Veto::Memory),
        }
    }

    fn undo_add(&mut self, f: Fact) {
        self.take(f.id);
    }

    fn shift(&mut self, old: Fact, new: Fact) -> Result<(), Veto> {
        let _ = (old, new);
        Ok(())
    }

    fn undo_shift(&mut self, old: Fact, new: Fact) {
        let _ = (old, new);
    }

    fn build(&mut self, all: &[Fact]) -> Result<(), Veto> {
        match self.fill(all) {
            Ok(()) => Ok(()),
            Err(_) => Err(Veto::Memory),
        }
    }

    fn undo_build(&mut self) {
        self.reset();
    }

    fn erase(&mut self, f: Fact) -> After {
        self.take(f.id);
        After::Keep
    }

    fn clear(&mut self) -> After {
        self.reset();
        After::Keep
    }
}
