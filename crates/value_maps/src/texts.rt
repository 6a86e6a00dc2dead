//! Texts of live items.

ghost use Rattle.std.specs.Prelude.{◌≤◌, []};
ghost use Rattle.columns.specs.Views.{IsBlank, extent_of};

use base_items::Fact;
use columns::Column;
use observe_core::{After, Kind, Observer, Readout, Veto};
use std::alloc::{AllocError, Global};
use token_text::Text;

/// A text for each live item, the empty one for a new item. The slot of a dead id holds it too.
#[derive(Drop)]
pub struct TextMap {
    column: Column<Text>,
    alloc: Global,
    ghost blank: { IsBlank [] column },
    ghost small: { extent_of column ≤ 4194304 },
}

impl TextMap {
    ghost use Rattle.std.specs.Prelude.{◌≡◌, ◌<◌, IsTrue, map, OnOk, OnErr};
    ghost use Rattle.plain_digraph.specs.Rising.{with_item, without_item, swapped};
    ghost use Rattle.observe_core.specs.Facts.{HasDistinctIds, AllInBounds};
    ghost use Rattle.observe_core.specs.Held.{entry_id, Texts};
    ghost use Rattle.observe_core.specs.Items.{Lacks, place_all, has_id};
    ghost use Rattle.observe_core.specs.Told.{new_entry};
    ghost use Rattle.columns.specs.Views.{entry};
    ghost use Rattle.value_maps.specs.Entries.{HasValue};
    ghost use Rattle.value_maps.specs.Views.{texts_of, texts_seen, holding_texts};

    /// A map without items.
    pub fn new(alloc: Global) -> TextMap
        ensures { texts_seen result ≡ holding_texts [] }
    {
        TextMap {
            column: Column::new(alloc),
            alloc,
        }
    }

    /// The value of a live item.
    pub fn get(&self, id: u32) -> &Text
        requires { IsTrue (has_id entry_id id (texts_of self.now)) }
        ensures { HasValue id result.now (texts_of self.now) }
    {
        self.column.at(id)
    }

    /// Writes the value of a live item. The value from before.
    pub fn set(&mut self, id: u32, value: Text) -> Text
        requires { IsTrue (has_id entry_id id (texts_of self.old)) }
        ensures seen { texts_seen self.new
            ≡ holding_texts (swapped entry_id (entry id value) (texts_of self.old)) }
        ensures old { HasValue id result (texts_of self.old) }
    {
        self.column.replace(id, value)
    }

    /// Makes the slots reach an id, with empty texts.
    fn reach(&mut self, id: u32) -> Result<(), AllocError>
        requires { id < 4194304 }
        ensures same { texts_of self.new ≡ texts_of self.old }
        ensures room { OnOk result (id < extent_of self.new.column) }
    {
        while self.column.extent() <= id as usize {
            self.column.grow(Text::new(self.alloc))?;
        }
        Ok(())
    }

    /// An item more, with the empty text.
    fn put(&mut self, id: u32) -> Result<(), AllocError>
        requires bounded { id < 4194304 }
        requires free { Lacks entry_id id (texts_of self.old) }
        ensures ok { OnOk result
            (texts_of self.new ≡ with_item entry_id (new_entry Texts id) (texts_of self.old)) }
        ensures err { OnErr result (texts_of self.new ≡ texts_of self.old) }
    {
        self.reach(id)?;
        self.column.put_in(id, Text::new(self.alloc))
    }

    /// An item less.
    fn take(&mut self, id: u32)
        ensures { texts_seen self.new ≡ holding_texts (without_item entry_id id (texts_of self.old)) }
    {
        self.column.take(id, Text::new(self.alloc));
    }

    /// All items of a build, with empty texts.
    fn fill(&mut self, all: &[Fact]) -> Result<(), AllocError>
        requires empty { texts_of self.old ≡ [] }
        requires distinct { HasDistinctIds all.now }
        requires bounded { AllInBounds all.now }
        ensures ok { OnOk result (texts_seen self.new
            ≡ holding_texts (place_all entry_id (map (λ f. new_entry Texts f.id) all.now) [])) }
        ensures err { OnErr result (texts_seen self.new ≡ holding_texts []) }
    {
        for f in all {
            match self.put(f.id) {
                Ok(()) => {}
                Err(_) => {
                    self.column.clear();
                    return Err(AllocError);
                }
            }
        }
        Ok(())
    }
}

impl Observer for TextMap {
    ghost use Rattle.value_maps.specs.Views.{texts_seen};
    ghost use Rattle.value_maps.specs.Sound.{texts-sound, texts-reach};

    ghost watch = { λ m. record {
      seen = texts_seen m;
      room = 0;
      reach = 0;
      sound = texts-sound m;
      reaches = texts-reach m;
    } };

    fn kind(&self) -> Kind {
        Kind::Map
    }

    fn readout(&self) -> Readout {
        Readout {
            items: 0,
            k: 0,
            left: 0,
            added: 0,
            erased: 0,
            moved: 0,
        }
    }

    fn arm(&mut self, k: u32) {
        let _ = k;
    }

    fn add(&mut self, f: Fact) -> Result<(), Veto> {
        match self.put(f.id) {
            Ok(()) => Ok(()),
            Err(_) => Err(Veto::Memory),
        }
    }

    fn undo_add(&mut self, f: Fact) {
        self.take(f.id);
    }

    fn shift(&mut self, old: Fact, new: Fact) -> Result<(), Veto> {
        let _ = (old, new);
        Ok(())
    }

    fn undo_shift(&mut self, old: Fact, new: Fact) {
        let _ = (old, new);
    }

    fn build(&mut self, all: &[Fact]) -> Result<(), Veto> {
        match self.fill(all) {
            Ok(()) => Ok(()),
            Err(_) => Err(Veto::Memory),
        }
    }

    fn undo_build(&mut self) {
        self.column.clear();
    }

    fn erase(&mut self, f: Fact) -> After {
        self.take(f.id);
        After::Keep
    }

    fn clear(&mut self) -> After {
        self.column.clear();
        After::Keep
    }
}
