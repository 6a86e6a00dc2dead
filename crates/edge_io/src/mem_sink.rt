//! A sink in memory, which tells its bytes and fails where it is told to.

ghost use Rattle.std.specs.Prelude.{◌≡◌, ◌<◌, ◌≤◌, [], length, take, Some, IfOk, OnErr, IsTrue, IsErr, is_err, not, ◌&&◌};
ghost use Rattle.edge_io.specs.Causes.{Rose, one_more, counted};
ghost use Rattle.edge_io.specs.Files.{Took};
ghost use Rattle.edge_io.specs.Memory.{is_listed};

use crate::faults::Failed;
use crate::sinks::Sink;
use std::alloc::Global;
use std::marker::Model;

/// A sink in memory. It takes each piece whole, and fails exactly where the call is listed or memory
/// runs out, which is counted.
#[derive(Drop)]
pub struct MemSink {
    taken: Vec<u8>,
    bad_puts: Vec<u64>,
    puts: u64,
    faults: u64,
    memory_faults: u64,
}

impl Model for MemSink {
    ghost use Rattle.edge_io.specs.Memory.{SinkInMemory};

    ghost Value = { SinkInMemory };

    ghost view = { λ a. record {
      taken = a.taken.items;
      bad_puts = a.bad_puts.items;
      puts = a.puts;
      faults = a.faults;
      memory_faults = a.memory_faults;
    } };
}

impl MemSink {
    /// A sink that has taken nothing and lists no call.
    pub fn new(alloc: Global) -> MemSink
        ensures { result
            ≡ record { taken = []; bad_puts = []; puts = 0; faults = 0; memory_faults = 0 } }
    {
        MemSink {
            taken: Vec::new(alloc),
            bad_puts: Vec::new(alloc),
            puts: 0,
            faults: 0,
            memory_faults: 0,
        }
    }

    /// The bytes taken.
    pub fn taken(&self) -> &[u8]
        ensures { result.now ≡ self.now.taken }
    {
        self.taken.as_slice()
    }

    /// Lists the numbers of the calls that fail, counted from 1 since the sink was made.
    pub fn fail_at(&mut self, puts: Vec<u64>)
        ensures { self.new ≡ record self.old { bad_puts = puts.items } }
    {
        self.bad_puts = puts;
    }

    /// How many calls failed since memory ran out.
    pub fn memory_faults(&self) -> u64
        ensures { result ≡ self.now.memory_faults }
    {
        self.memory_faults
    }
}

impl Sink for MemSink {
    ghost taken = { λ s. Some s.taken };

    ghost faults = { λ s. s.faults };

    fn put(&mut self, bytes: &[u8]) -> Result<usize, Failed>
        ensures bound { IfOk result (λ count. count ≤ length bytes.now) }
        ensures some { IfOk result (λ count. 0 < length bytes.now → 0 < count) }
        ensures took { IfOk result (λ count.
            Took (Some self.old.taken) (Some self.new.taken) (take count bytes.now)) }
        ensures unchanged { OnErr result (Some self.new.taken ≡ Some self.old.taken) }
        ensures later { self.old.faults ≤ self.new.faults }
        ensures quiet { IfOk result (λ _. self.new.faults ≡ self.old.faults) }
        ensures cause { OnErr result (Rose self.old.faults self.new.faults) }

        ensures whole { IfOk result (λ count. count ≡ length bytes.now) }
        // It fails where it is listed, and else only where memory ran out.
        ensures listed { IsTrue (is_listed self.old.bad_puts (one_more self.old.puts)) → IsErr result }
        ensures memory { self.new.memory_faults
            ≡ counted (is_err result && not (is_listed self.old.bad_puts (one_more self.old.puts)))
            self.old.memory_faults }
        ensures counted { (self.new.puts ≡ one_more self.old.puts)
            × (self.new.faults ≡ counted (is_err result) self.old.faults) }
        ensures kept { self.new.bad_puts ≡ self.old.bad_puts }
    {
        self.puts = self.puts.saturating_add(1);
        if self.bad_puts.as_slice().contains(&self.puts) {
            self.faults = self.faults.saturating_add(1);
            return Err(Failed);
        }
        if self.taken.extend_from_slice(bytes).is_err() {
            self.faults = self.faults.saturating_add(1);
            self.memory_faults = self.memory_faults.saturating_add(1);
            return Err(Failed);
        }
        Ok(bytes.len())
    }
}
