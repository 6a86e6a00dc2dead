//! Whole files and whole pieces, by repeated calls.

ghost use Rattle.std.specs.Prelude.{◌≡◌, ℕ, ◌^◌, ◌<◌, ◌≤◌, List, length, take, Some, IfOk, OnOk, OnErr, IsErrOf};
ghost use Rattle.edge_io.specs.Causes.{Rose, NeverFall, StayedSame};
ghost use Rattle.edge_io.specs.Files.{Files, Holds, IsTooLong, Took};

use crate::faults::{Failed, InFault};
use crate::shelves::Shelf;
use crate::sinks::Sink;
use std::alloc::Global;

// How many bytes one read asks for at most.
const CHUNK: usize = 65_536;

/// The bytes of the file, at most `limit` of them.
///
/// `Failed` only where a read of the name failed. `TooLong` exactly where `limit + 1` bytes were read.
pub fn read_whole<S: Shelf>(
    alloc: Global,
    shelf: &mut S,
    name: &[u8],
    limit: usize,
) -> Result<Vec<u8>, InFault>
    requires { limit < 2 ^ 62 }
    ensures within { IfOk result (λ bytes. length bytes.items ≤ limit) }
    ensures bytes { IfOk result (λ bytes. (all : Files) → S.files shelf.old ≡ Some all
        → Holds all name.now bytes.items) }
    ensures long { IsErrOf result InFault.TooLong → (all : Files) → S.files shelf.old ≡ Some all
        → IsTooLong all name.now limit }
    ensures cause { IsErrOf result InFault.Failed
        → Rose (S.read_faults shelf.old name.now) (S.read_faults shelf.new name.now) }
    ensures same { S.files shelf.new ≡ S.files shelf.old }
    ensures reads { NeverFall (S.read_faults shelf.old) (S.read_faults shelf.new) }
    ensures stores { NeverFall (S.store_faults shelf.old) (S.store_faults shelf.new) }
    // Unless a call failed, no count has changed.
    ensures quiet { (IsErrOf result InFault.Failed → ⊥)
        → StayedSame (S.read_faults shelf.old) (S.read_faults shelf.new)
        × StayedSame (S.store_faults shelf.old) (S.store_faults shelf.new) }
{
    let mut bytes = Vec::new(alloc);
    let mut chunk = [0; CHUNK];
    while bytes.len() <= limit {
        let room = (limit + 1 - bytes.len()).min(CHUNK);
        let Ok(count) = shelf.read_at(name, bytes.len() as u64, &mut chunk[..room]) else {
            return Err(InFault::Failed);
        };
        if count == 0 {
            return Ok(bytes);
        }
        if bytes.extend_from_slice(&chunk[..count]).is_err() {
            return Err(InFault::Memory);
        }
    }
    Err(InFault::TooLong)
}

/// Hands over all the bytes. Where it fails the sink holds a prefix of them, not all.
pub fn write_piece<K: Sink>(sink: &mut K, bytes: &[u8]) -> Result<(), Failed>
    ensures all { OnOk result (Took (K.taken sink.old) (K.taken sink.new) bytes.now) }
    ensures part { OnErr result ((count : ℕ) × (count < length bytes.now)
        × Took (K.taken sink.old) (K.taken sink.new) (take count bytes.now)) }
    ensures later { K.faults sink.old ≤ K.faults sink.new }
    ensures quiet { OnOk result (K.faults sink.new ≡ K.faults sink.old) }
    ensures cause { OnErr result (Rose (K.faults sink.old) (K.faults sink.new)) }
{
    let mut done = 0;
    while done < bytes.len() {
        done += sink.put(&bytes[done..])?;
    }
    Ok(())
}
