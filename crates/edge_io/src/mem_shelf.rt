//! A shelf in memory, which tells its files and fails where it is told to.

ghost use Rattle.std.specs.Prelude.{◌≡◌, ℕ, List, ◌^◌, ◌<◌, ◌≤◌, ◌-◌, ◌||◌, ◌&&◌, not, [], length, min, drop, Some, IfOk, OnOk, OnErr, IsErr, IsTrue, is_err, is_none};
ghost use Rattle.std.specs.Option.{option_copied};
ghost use Rattle.std.specs.FinMap as map;
ghost use Rattle.edge_io.specs.Causes.{Rose, NeverFall, StayedSame, one_more, counted};
ghost use Rattle.edge_io.specs.Files.{Files, Holds, ReadsFile, KeepsPart};
ghost use Rattle.edge_io.specs.Memory.{is_listed};

use crate::faults::Failed;
use crate::shelves::Shelf;
use std::alloc::{AllocError, Global};
use std::collections::VecDeque;
use std::marker::Model;

/// A shelf in memory. It fails a read exactly where the call is listed or the file is missing, and a
/// store exactly where the call is listed or memory runs out, which is counted.
#[derive(Drop)]
pub struct MemShelf {
    // the newest first, which hides an older file of its name
    files: VecDeque<(Vec<u8>, Vec<u8>)>,
    bad_reads: Vec<u64>,
    bad_stores: Vec<u64>,
    reads: u64,
    stores: u64,
    read_faults: u64,
    store_faults: u64,
    memory_faults: u64,
}

impl Model for MemShelf {
    ghost use Rattle.std.specs.Prelude.{map as each};
    ghost use Rattle.std.specs.FinMap as map;
    ghost use Rattle.edge_io.specs.Memory.{ShelfInMemory, shelf_code, entry_of};

    ghost Value = { ShelfInMemory };

    ghost coded = { shelf_code };

    ghost view = { λ a. record {
      files = map.from_entries (each (entry_of (λ v. v.items)) a.files.items);
      bad_reads = a.bad_reads.items;
      bad_stores = a.bad_stores.items;
      reads = a.reads;
      stores = a.stores;
      read_faults = a.read_faults;
      store_faults = a.store_faults;
      memory_faults = a.memory_faults;
    } };
}

impl MemShelf {
    /// A shelf that has no file and lists no call.
    pub fn new(alloc: Global) -> MemShelf
        ensures { result ≡ record {
          files = map.empty;
          bad_reads = [];
          bad_stores = [];
          reads = 0;
          stores = 0;
          read_faults = 0;
          store_faults = 0;
          memory_faults = 0;
        } }
    {
        MemShelf {
            files: VecDeque::new(alloc),
            bad_reads: Vec::new(alloc),
            bad_stores: Vec::new(alloc),
            reads: 0,
            stores: 0,
            read_faults: 0,
            store_faults: 0,
            memory_faults: 0,
        }
    }

    /// Gives the file just these bytes. This is no store, and isn't counted.
    pub fn add_file(&mut self, name: Vec<u8>, bytes: Vec<u8>) -> Result<(), AllocError>
        ensures ok { OnOk result (self.new
            ≡ record self.old { files = map.insert self.old.files name.items bytes.items }) }
        ensures err { OnErr result (self.new ≡ self.old) }
    {
        self.files.push_front((name, bytes))?;
        Ok(())
    }

    /// The bytes of the file. None exactly where the shelf has no such name.
    pub fn file(&self, name: &[u8]) -> Option<&[u8]>
        ensures { option_copied result ≡ map.get self.now.files name.now }
    {
        for (key, bytes) in &self.files {
            if name == key.as_slice() {
                return Some(bytes.as_slice());
            }
        }
        None
    }

    /// Lists the numbers of the reads and of the stores that fail, each counted from 1 since the
    /// shelf was made.
    pub fn fail_at(&mut self, reads: Vec<u64>, stores: Vec<u64>)
        ensures { self.new
            ≡ record self.old { bad_reads = reads.items; bad_stores = stores.items } }
    {
        self.bad_reads = reads;
        self.bad_stores = stores;
    }

    /// How many stores failed since memory ran out.
    pub fn memory_faults(&self) -> u64
        ensures { result ≡ self.now.memory_faults }
    {
        self.memory_faults
    }

    fn keep(&mut self, name: &[u8], bytes: &[u8]) -> Result<(), AllocError>
        ensures ok { OnOk result (self.new
            ≡ record self.old { files = map.insert self.old.files name.now bytes.now }) }
        ensures err { OnErr result (self.new ≡ self.old) }
    {
        let alloc = *self.bad_stores.allocator();
        let name = Vec::from_slice(alloc, name)?;
        let bytes = Vec::from_slice(alloc, bytes)?;
        self.add_file(name, bytes)
    }
}

impl Shelf for MemShelf {
    ghost files = { λ s. Some s.files };

    ghost read_faults = { λ s _. s.read_faults };

    ghost store_faults = { λ s _. s.store_faults };

    fn read_at(&mut self, name: &[u8], at: u64, into: &mut [u8]) -> Result<usize, Failed>
        requires room { 0 < length into.old }
        requires place { at < 2 ^ 62 }
        ensures bound { IfOk result (λ count. count ≤ length into.old) }
        ensures bytes { IfOk result (λ count. (all : Files) → Some self.old.files ≡ Some all
            → ReadsFile all name.now at count into.new) }
        ensures same { Some self.new.files ≡ Some self.old.files }
        ensures reads { NeverFall (λ _. self.old.read_faults) (λ _. self.new.read_faults) }
        ensures stores { NeverFall (λ _. self.old.store_faults) (λ _. self.new.store_faults) }
        ensures quiet { IfOk result (λ _.
            StayedSame (λ _. self.old.read_faults) (λ _. self.new.read_faults)
            × StayedSame (λ _. self.old.store_faults) (λ _. self.new.store_faults)) }
        ensures cause { OnErr result (Rose self.old.read_faults self.new.read_faults) }

        ensures fails { is_err result ≡ (is_listed self.old.bad_reads (one_more self.old.reads)
            || is_none (map.get self.old.files name.now)) }
        ensures fills { IfOk result (λ count. (bytes : List ℕ) → Holds self.old.files name.now bytes
            → count ≡ min (length into.old) (length bytes - at)) }
        ensures beyond { IfOk result (λ count. drop count into.new ≡ drop count into.old) }
        ensures counted { (self.new.reads ≡ one_more self.old.reads)
            × (self.new.read_faults ≡ counted (is_err result) self.old.read_faults) }
        ensures kept { self.new
            ≡ record self.old { reads = self.new.reads; read_faults = self.new.read_faults } }
    {
        self.reads = self.reads.saturating_add(1);
        let found = if self.bad_reads.as_slice().contains(&self.reads) {
            None
        } else {
            self.file(name)
        };
        let Some(bytes) = found else {
            self.read_faults = self.read_faults.saturating_add(1);
            return Err(Failed);
        };
        let start = (at as usize).min(bytes.len());
        let count = (bytes.len() - start).min(into.len());
        into[..count].copy_from_slice(&bytes[start..start + count]);
        Ok(count)
    }

    fn store(&mut self, name: &[u8], bytes: &[u8]) -> Result<(), Failed>
        ensures stored { OnOk result ((all : Files) → Some self.old.files ≡ Some all
            → Some self.new.files ≡ Some (map.insert all name.now bytes.now)) }
        ensures part { OnErr result ((all : Files) → Some self.old.files ≡ Some all
            → (now : Files) × (Some self.new.files ≡ Some now) × KeepsPart all name.now bytes.now now) }
        ensures reads { NeverFall (λ _. self.old.read_faults) (λ _. self.new.read_faults) }
        ensures stores { NeverFall (λ _. self.old.store_faults) (λ _. self.new.store_faults) }
        ensures quiet { OnOk result (
            StayedSame (λ _. self.old.read_faults) (λ _. self.new.read_faults)
            × StayedSame (λ _. self.old.store_faults) (λ _. self.new.store_faults)) }
        ensures cause { OnErr result (Rose self.old.store_faults self.new.store_faults) }

        ensures unchanged { OnErr result (self.new.files ≡ self.old.files) }
        // It fails where it is listed, and else only where memory ran out.
        ensures listed { IsTrue (is_listed self.old.bad_stores (one_more self.old.stores))
            → IsErr result }
        ensures memory { self.new.memory_faults
            ≡ counted (is_err result && not (is_listed self.old.bad_stores (one_more self.old.stores)))
            self.old.memory_faults }
        ensures counted { (self.new.stores ≡ one_more self.old.stores)
            × (self.new.store_faults ≡ counted (is_err result) self.old.store_faults) }
        ensures kept { self.new ≡ record self.old {
          files = self.new.files;
          stores = self.new.stores;
          store_faults = self.new.store_faults;
          memory_faults = self.new.memory_faults;
        } }
    {
        self.stores = self.stores.saturating_add(1);
        if self.bad_stores.as_slice().contains(&self.stores) {
            self.store_faults = self.store_faults.saturating_add(1);
            return Err(Failed);
        }
        if self.keep(name, bytes).is_err() {
            self.store_faults = self.store_faults.saturating_add(1);
            self.memory_faults = self.memory_faults.saturating_add(1);
            return Err(Failed);
        }
        Ok(())
    }
}
