//! Files by name.

ghost use Rattle.std.specs.Prelude.{◌≡◌, ℕ, ◌^◌, ◌<◌, ◌≤◌, List, length, Some, Option, IfOk, OnOk, OnErr};
ghost use Rattle.std.specs.FinMap as map;
ghost use Rattle.edge_io.specs.Causes.{Rose, NeverFall, StayedSame};
ghost use Rattle.edge_io.specs.Files.{Files, ReadsFile, KeepsPart};

use crate::faults::Failed;

/// Files by name. Where an implementation tells its files, these calls alone change them.
pub trait Shelf {
    /// The files, where they are told.
    ghost files: { Self → Option Files };

    /// How often a read of each name has failed. One number may stand for all names.
    ghost read_faults: { Self → List ℕ → ℕ };

    /// How often a store to each name has failed. One number may stand for all names.
    ghost store_faults: { Self → List ℕ → ℕ };

    /// Reads bytes of the file, from place `at` on, to the front of `into`, and answers how many: 0
    /// exactly at or past the end. It fails where the files are told and lack the name, and counts
    /// nothing where it doesn't fail.
    fn read_at(&mut self, name: &[u8], at: u64, into: &mut [u8]) -> Result<usize, Failed>
        requires room { 0 < length into.old }
        requires place { at < 2 ^ 62 }
        ensures bound { IfOk result (λ count. count ≤ length into.old) }
        ensures bytes { IfOk result (λ count. (all : Files) → files self.old ≡ Some all
            → ReadsFile all name.now at count into.new) }
        ensures same { files self.new ≡ files self.old }
        ensures reads { NeverFall (read_faults self.old) (read_faults self.new) }
        ensures stores { NeverFall (store_faults self.old) (store_faults self.new) }
        ensures quiet { IfOk result (λ _. StayedSame (read_faults self.old) (read_faults self.new)
            × StayedSame (store_faults self.old) (store_faults self.new)) }
        ensures cause { OnErr result
            (Rose (read_faults self.old name.now) (read_faults self.new name.now)) };

    /// Gives the file just these bytes. A failed call leaves it as it was or with a prefix of them.
    /// Other files stay as they were. It counts nothing where it doesn't fail.
    fn store(&mut self, name: &[u8], bytes: &[u8]) -> Result<(), Failed>
        ensures stored { OnOk result ((all : Files) → files self.old ≡ Some all
            → files self.new ≡ Some (map.insert all name.now bytes.now)) }
        ensures part { OnErr result ((all : Files) → files self.old ≡ Some all
            → (now : Files) × (files self.new ≡ Some now) × KeepsPart all name.now bytes.now now) }
        ensures reads { NeverFall (read_faults self.old) (read_faults self.new) }
        ensures stores { NeverFall (store_faults self.old) (store_faults self.new) }
        ensures quiet { OnOk result (StayedSame (read_faults self.old) (read_faults self.new)
            × StayedSame (store_faults self.old) (store_faults self.new)) }
        ensures cause { OnErr result
            (Rose (store_faults self.old name.now) (store_faults self.new name.now)) };
}
