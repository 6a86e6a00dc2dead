//! The real files. They tell no content.

ghost use Rattle.std.specs.Prelude.{◌≡◌, ℕ, None, ◌^◌, ◌<◌, ◌≤◌, length, Option, Some, IfOk, OnOk};
ghost use Rattle.std.specs.Prelude.{OnErr, is_err};
ghost use Rattle.std.specs.FinMap as map;
ghost use Rattle.edge_io.specs.Causes.{Rose, NeverFall, StayedSame, counted};
ghost use Rattle.edge_io.specs.Files.{Files, ReadsFile, KeepsPart};

use crate::call_faults::noted;
use edge_io::{Failed, Shelf};
use std::fs::File;
use std::os::unix::fs::FileExt;
use std::{fs, io};

// The file whose bytes were read last.
#[derive(Drop)]
struct Opened {
    name: Vec<u8>,
    file: File,
}

/// Files by their paths, from the folder on that the program runs in. A name that isn't UTF-8 is a
/// fault. A file stays open from its first byte to its end, so that one read has the bytes of one
/// file, also where another takes its name meanwhile.
#[derive(Drop)]
pub struct FileShelf<'a> {
    rt: &'a HostRuntime,
    opened: Option<Opened>,
    read_faults: u64,
    store_faults: u64,
}

impl<'a> FileShelf<'a> {
    pub fn new(rt: &'a HostRuntime) -> FileShelf<'a>
        ensures { (result.read_faults ≡ 0) × (result.store_faults ≡ 0) }
    {
        FileShelf {
            rt,
            opened: None,
            read_faults: 0,
            store_faults: 0,
        }
    }

    /// How many reads failed.
    pub fn read_faults(&self) -> u64
        ensures { result ≡ self.now.read_faults }
    {
        self.read_faults
    }

    /// How many stores failed.
    pub fn store_faults(&self) -> u64
        ensures { result ≡ self.now.store_faults }
    {
        self.store_faults
    }
}

fn path_of(name: &[u8]) -> io::Result<&str> {
    match str::from_utf8(name) {
        Ok(path) => Ok(path),
        Err(_) => Err(io::Error::from(io::ErrorKind::InvalidInput)),
    }
}

fn open(rt: &HostRuntime, name: &[u8]) -> io::Result<Opened> {
    let file = fs::open(rt, path_of(name)?)?;
    let name = Vec::from_slice(rt.alloc(), name)?;
    Ok(Opened { name, file })
}

// The file, which is opened anew for its first byte.
fn opened_at(rt: &HostRuntime, last: Option<Opened>, name: &[u8], at: u64) -> io::Result<Opened> {
    match last {
        Some(opened) if at > 0 && opened.name.as_slice() == name => Ok(opened),
        _ => open(rt, name),
    }
}

fn store_all(rt: &HostRuntime, name: &[u8], bytes: &[u8]) -> io::Result<()> {
    fs::write(rt, path_of(name)?, bytes)
}

impl<'a> FileShelf<'a> {
    // Reads a part of the file, which stays open unless this is its end.
    fn read_part(&mut self, name: &[u8], at: u64, into: &mut [u8]) -> io::Result<usize>
        ensures bound { IfOk result (λ count. count ≤ length into.old) }
        ensures counts { (self.new.read_faults ≡ self.old.read_faults)
            × (self.new.store_faults ≡ self.old.store_faults) }
    {
        let opened = opened_at(self.rt, self.opened.take(), name, at)?;
        let count = opened.file.read_at(into, at)?;
        if count > 0 {
            self.opened = Some(opened);
        }
        Ok(count)
    }
}

impl<'a> Shelf for FileShelf<'a> {
    ghost files = { λ _. None };

    ghost read_faults = { λ s _. s.read_faults };

    ghost store_faults = { λ s _. s.store_faults };

    fn read_at(&mut self, name: &[u8], at: u64, into: &mut [u8]) -> Result<usize, Failed>
        requires room { 0 < length into.old }
        requires place { at < 2 ^ 62 }
        ensures bound { IfOk result (λ count. count ≤ length into.old) }
        ensures bytes { IfOk result (λ count. (all : Files) → None ≡ Some all
            → ReadsFile all name.now at count into.new) }
        ensures same { ◌≡◌ {A = Option Files} None None }
        ensures reads { NeverFall (λ _. self.old.read_faults) (λ _. self.new.read_faults) }
        ensures stores { NeverFall (λ _. self.old.store_faults) (λ _. self.new.store_faults) }
        ensures quiet { IfOk result (λ _.
            StayedSame (λ _. self.old.read_faults) (λ _. self.new.read_faults)
            × StayedSame (λ _. self.old.store_faults) (λ _. self.new.store_faults)) }
        ensures cause { OnErr result (Rose self.old.read_faults self.new.read_faults) }

        ensures counted { (self.new.read_faults ≡ counted (is_err result) self.old.read_faults)
            × (self.new.store_faults ≡ self.old.store_faults) }
    {
        let read = self.read_part(name, at, into);
        noted(read, &mut self.read_faults)
    }

    fn store(&mut self, name: &[u8], bytes: &[u8]) -> Result<(), Failed>
        ensures stored { OnOk result ((all : Files) → None ≡ Some all
            → None ≡ Some (map.insert all name.now bytes.now)) }
        ensures part { OnErr result ((all : Files) → None ≡ Some all
            → (now : Files) × (None ≡ Some now) × KeepsPart all name.now bytes.now now) }
        ensures reads { NeverFall (λ _. self.old.read_faults) (λ _. self.new.read_faults) }
        ensures stores { NeverFall (λ _. self.old.store_faults) (λ _. self.new.store_faults) }
        ensures quiet { OnOk result (
            StayedSame (λ _. self.old.read_faults) (λ _. self.new.read_faults)
            × StayedSame (λ _. self.old.store_faults) (λ _. self.new.store_faults)) }
        ensures cause { OnErr result (Rose self.old.store_faults self.new.store_faults) }

        ensures counted { (self.new.store_faults ≡ counted (is_err result) self.old.store_faults)
            × (self.new.read_faults ≡ self.old.read_faults) }
    {
        let stored = store_all(self.rt, name, bytes);
        noted(stored, &mut self.store_faults)
    }
}
