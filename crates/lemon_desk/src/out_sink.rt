//! The real report. It tells no content.

ghost use Rattle.std.specs.Prelude.{◌≡◌, ℕ, List, None, ◌≤◌, ◌<◌, length, take, Option, IfOk};
ghost use Rattle.std.specs.Prelude.{OnErr, is_err};
ghost use Rattle.edge_io.specs.Causes.{Rose, counted};
ghost use Rattle.edge_io.specs.Files.{Took};

use crate::call_faults::noted;
use edge_io::{Failed, Sink};
use std::io;
use std::io::Write;

/// A writer as standard output is one, flushed at each piece.
#[derive(Drop)]
pub struct OutSink<W> {
    out: W,
    faults: u64,
}

impl<W: Write> OutSink<W> {
    pub fn new(out: W) -> OutSink<W>
        ensures { result.faults ≡ 0 }
    {
        OutSink { out, faults: 0 }
    }

    /// How many calls failed.
    pub fn faults(&self) -> u64
        ensures { result ≡ self.now.faults }
    {
        self.faults
    }
}

// To take nothing of a piece is a fault.
fn write_part<W: Write>(out: &mut W, bytes: &[u8]) -> io::Result<usize>
    ensures bound { IfOk result (λ count. count ≤ length bytes.now) }
    ensures some { IfOk result (λ count. 0 < length bytes.now → 0 < count) }
{
    let count = out.write(bytes)?;
    out.flush()?;
    if count == 0 && !bytes.is_empty() {
        return Err(io::Error::from(io::ErrorKind::WriteZero));
    }
    Ok(count)
}

impl<W: Write> Sink for OutSink<W> {
    ghost taken = { λ _. None };

    ghost faults = { λ s. s.faults };

    fn put(&mut self, bytes: &[u8]) -> Result<usize, Failed>
        ensures bound { IfOk result (λ count. count ≤ length bytes.now) }
        ensures some { IfOk result (λ count. 0 < length bytes.now → 0 < count) }
        ensures took { IfOk result (λ count. Took None None (take count bytes.now)) }
        ensures unchanged { OnErr result (◌≡◌ {A = Option (List ℕ)} None None) }
        ensures later { self.old.faults ≤ self.new.faults }
        ensures quiet { IfOk result (λ _. self.new.faults ≡ self.old.faults) }
        ensures cause { OnErr result (Rose self.old.faults self.new.faults) }

        ensures counted { self.new.faults ≡ counted (is_err result) self.old.faults }
    {
        let put = write_part(&mut self.out, bytes);
        noted(put, &mut self.faults)
    }
}
