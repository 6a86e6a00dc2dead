//! A table of names.

ghost use Rattle.std.specs.Prelude.{◌≡◌, ◌+◌, ◌<◌, ◌≤◌, ◌==◌, [], length, map, false, slice_get};
ghost use Rattle.std.specs.Prelude.{OnOk, OnErr, Some, is_some, position};
ghost use Rattle.std.specs.Option.{option_copied};
ghost use Rattle.plain_world.specs.Tables.{entry, has_entry, is_named, under, with_entry};
ghost use Rattle.plain_world.specs.Tables.{with_change, without_entry};
ghost use Rattle.plain_world.specs.Valid.{NamesDiffer};

use indexmap::IndexMap;
use std::alloc::{AllocError, Global};
use std::marker::Model;
use std::mem;
use token_text::Text;

/// What stands under each of some names, in the order of making. No name stands twice. A look-up
/// takes one step, not one a name. Contracts see the rows, and how many names more there is room
/// for.
#[derive(Drop)]
pub struct NameTable<V> {
    entries: IndexMap<Text, V>,
}

/// A test of values: which of them a table keeps.
pub trait Keeps<V> {
    ghost use Rattle.std.specs.Prelude.{Bool};

    /// Whether the value passes.
    ghost kept: { Self → V → Bool };

    /// Whether a table keeps the value.
    fn keeps(&self, value: &V) -> bool
        ensures { result ≡ kept self.now value.now };
}

impl<V> Model for NameTable<V> {
    ghost use Rattle.std.specs.Str.{bytes_eq};
    ghost use Rattle.indexmap.specs.IndexMap.{IsUnique, spare};
    ghost use Rattle.desk_names.specs.Rows.{Rows, rows_code, rows_of};

    ghost Value = { Rows V };

    ghost coded = { rows_code V.code };

    ghost view = { λ t. record { rows = rows_of t.entries.entries; room = spare t.entries } };

    ghost invariant = { λ t. IsUnique bytes_eq t.entries };
}

impl<V: Drop> NameTable<V> {
    /// No names.
    pub fn new(alloc: Global) -> NameTable<V>
        ensures { result.rows ≡ [] }
    {
        NameTable {
            entries: IndexMap::new(alloc),
        }
    }

    /// How many names there are.
    pub fn len(&self) -> usize
        ensures { result ≡ length self.now.rows }
    {
        self.entries.len()
    }

    /// Whether there are none.
    pub fn is_empty(&self) -> bool
        ensures { result ≡ (length self.now.rows == 0) }
    {
        self.entries.is_empty()
    }

    /// Whether the name is there.
    pub fn has(&self, name: &Text) -> bool
        ensures { result ≡ has_entry self.now.rows name.now }
    {
        self.entries.contains_key(name)
    }

    /// What stands under the name. None exactly where the name isn't there.
    pub fn get(&self, name: &Text) -> Option<&V>
        ensures found { option_copied result ≡ entry self.now.rows name.now }
        ensures differ { NamesDiffer self.now.rows }
    {
        self.entries.get(name)
    }

    /// At which place the name stands, from the oldest on. None exactly where it isn't there.
    pub fn place(&self, name: &Text) -> Option<usize>
        ensures place { result ≡ position (is_named name.now) self.now.rows }
        ensures differ { NamesDiffer self.now.rows }
    {
        self.entries.get_index_of(name)
    }

    /// The name at a place, from the oldest on.
    pub fn name(&self, place: usize) -> &Text
        requires { place < length self.now.rows }
        ensures { slice_get (map (λ e. e.name) self.now.rows) place ≡ Some result.now }
    {
        match self.entries.get_index(place) {
            Some((name, _)) => name,
            None => unreachable!(),
        }
    }

    /// What stands under the name at a place.
    pub fn value(&self, place: usize) -> &V
        requires { place < length self.now.rows }
        ensures { slice_get (map (λ e. e.value) self.now.rows) place ≡ Some result.now }
    {
        match self.entries.get_index(place) {
            Some((_, value)) => value,
            None => unreachable!(),
        }
    }

    /// Makes room for one name more. The error is want of memory. The rows are as before.
    pub fn reserve(&mut self) -> Result<(), AllocError>
        ensures rows { self.new.rows ≡ self.old.rows }
        ensures ok { OnOk result (1 ≤ self.new.room) }
        ensures room { self.old.room ≤ self.new.room }
    {
        self.entries.reserve(1)
    }

    /// Puts a new name last. It takes the room of one.
    pub fn put(&mut self, name: Text, value: V)
        requires new { has_entry self.old.rows name ≡ false }
        requires room { 1 ≤ self.old.room }
        ensures rows { self.new.rows ≡ with_entry self.old.rows name value }
        ensures room { self.old.room ≤ self.new.room + 1 }
    {
        match self.entries.insert(name, value) {
            Ok(_) => {}
            Err(_) => unreachable!(),
        }
    }

    /// Puts another value under a name. What stood there; None exactly where the name isn't there.
    /// The names and their order are as before.
    pub fn replace(&mut self, name: &Text, value: V) -> Option<V>
        ensures value { result ≡ entry self.old.rows name.now }
        ensures differ { NamesDiffer self.old.rows }
        ensures rows { self.new.rows ≡ with_change self.old.rows name.now (λ _. value) }
        ensures room { self.old.room ≤ self.new.room }
    {
        match self.entries.get_mut(name) {
            Some(place) => Some(mem::replace(place, value)),
            None => None,
        }
    }

    /// Takes a name out. What stood under it; None exactly where the name isn't there. The others
    /// keep their order.
    pub fn remove(&mut self, name: &Text) -> Option<V>
        ensures value { result ≡ entry self.old.rows name.now }
        ensures differ { NamesDiffer self.old.rows }
        ensures rows { self.new.rows ≡ without_entry self.old.rows name.now }
        ensures room { self.old.room ≤ self.new.room }
    {
        self.entries.shift_remove(name)
    }

    ghost use Rattle.std.specs.Prelude.{filter};

    /// Keeps the names whose values pass the test, in their order. It takes no memory.
    pub fn retain<T: Keeps<V>>(&mut self, test: &T)
        ensures rows { self.new.rows ≡ filter (λ e. T.kept test.now e.value) self.old.rows }
        ensures room { self.old.room ≤ self.new.room }
    {
        self.entries.retain(
            |_name: &Text, value: &mut V| -> bool
                ensures { (result ≡ T.kept test.entry.now value.old) × (value.new ≡ value.old) }
            { test.keeps(&*value) },
        );
    }
}
