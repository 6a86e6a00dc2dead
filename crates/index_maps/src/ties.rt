//! Attributes that are tied to items.

use base_items::Fact;
use columns::Column;
use observe_core::{After, Kind, Observer, Readout, Veto};
use std::alloc::{AllocError, Global};

/// The item of each tie, by the tie's number. A tie ends when it is dropped, and with its item.
#[derive(Drop)]
pub struct Ties {
    column: Column<u32>,
}

impl Ties {
    ghost use Rattle.std.specs.Prelude.{◌≡◌, ◌+◌, [], OnOk, OnErr, MatchOption, Contains};
    ghost use Rattle.plain_digraph.specs.Rising.{with_item, without_item};
    ghost use Rattle.observe_core.specs.Held.{Ties as TiesHeld, tie_id, tied_id};
    ghost use Rattle.observe_core.specs.Items.{Lacks};
    ghost use Rattle.observe_core.specs.Seen.{map_seen};
    ghost use Rattle.columns.specs.Views.{extent_of};
    ghost use Rattle.index_maps.specs.TieEntries.{tie_to, HasNoneBelow};
    ghost use Rattle.index_maps.specs.TieViews.{ties_of, ties_seen};

    /// No ties.
    pub fn new(alloc: Global) -> Ties
        ensures { ties_seen result ≡ map_seen (TiesHeld []) }
    {
        Ties {
            column: Column::new(alloc),
        }
    }

    /// Ties a number that isn't tied to an item. The error is want of memory; the ties are then as
    /// before.
    pub fn put(&mut self, tie: u32, id: u32) -> Result<(), AllocError>
        requires { Lacks tie_id tie (ties_of self.old) }
        ensures ok { OnOk result (ties_seen self.new
            ≡ map_seen (TiesHeld (with_item tie_id (tie_to tie id) (ties_of self.old)))) }
        ensures err { OnErr result (ties_seen self.new ≡ ties_seen self.old) }
    {
        self.column.put(tie, id)?;
        Ok(())
    }

    /// The item of a tie. None exactly where there is no such tie.
    pub fn item(&self, tie: u32) -> Option<u32>
        ensures { MatchOption result (Lacks tie_id tie (ties_of self.now))
            (λ id. Contains (ties_of self.now) (tie_to tie id)) }
    {
        self.column.find(tie)
    }

    /// Ends a tie, if there is one of the number.
    pub fn drop_tie(&mut self, tie: u32)
        ensures { ties_seen self.new
            ≡ map_seen (TiesHeld (without_item tie_id tie (ties_of self.old))) }
    {
        self.column.take(tie, 0);
    }

    /// Ends the tie of a number if it is to the item.
    fn end_at(&mut self, tie: u32, id: u32)
        ensures rest { without_item tied_id id (ties_of self.new)
            ≡ without_item tied_id id (ties_of self.old) }
        ensures ended { HasNoneBelow tie id (ties_of self.old)
            → HasNoneBelow (tie + 1) id (ties_of self.new) }
        ensures extent { extent_of self.new.column ≡ extent_of self.old.column }
    {
        match self.column.find(tie) {
            None => {}
            Some(item) => {
                if item == id {
                    self.column.take(tie, 0);
                }
            }
        }
    }

    /// Ends the ties to an item.
    fn end_all(&mut self, id: u32)
        ensures { ties_seen self.new
            ≡ map_seen (TiesHeld (without_item tied_id id (ties_of self.old))) }
    {
        for tie in 0..self.column.extent() {
            self.end_at(tie as u32, id);
        }
    }
}

impl Observer for Ties {
    ghost use Rattle.index_maps.specs.TieViews.{ties_seen};
    ghost use Rattle.index_maps.specs.TieSound.{ties-sound, ties-reach};

    ghost watch = { λ t. record {
      seen = ties_seen t;
      room = 0;
      reach = 0;
      sound = ties-sound t;
      reaches = ties-reach t;
    } };

    fn kind(&self) -> Kind {
        Kind::Map
    }

    fn readout(&self) -> Readout {
        Readout {
            items: 0,
            k: 0,
            left: 0,
            added: 0,
            erased: 0,
            moved: 0,
        }
    }

    fn arm(&mut self, k: u32) {
        let _ = k;
    }

    fn add(&mut self, f: Fact) -> Result<(), Veto> {
        let _ = f;
        Ok(())
    }

    fn undo_add(&mut self, f: Fact) {
        let _ = f;
    }

    fn shift(&mut self, old: Fact, new: Fact) -> Result<(), Veto> {
        let _ = (old, new);
        Ok(())
    }

    fn undo_shift(&mut self, old: Fact, new: Fact) {
        let _ = (old, new);
    }

    fn build(&mut self, all: &[Fact]) -> Result<(), Veto> {
        let _ = all;
        Ok(())
    }

    fn undo_build(&mut self) {}

    fn erase(&mut self, f: Fact) -> After {
        self.end_all(f.id);
        After::Keep
    }

    fn clear(&mut self) -> After {
        self.column.clear();
        After::Keep
    }
}
