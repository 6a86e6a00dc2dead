//! Text that goes out in pieces.

ghost use Rattle.std.specs.Prelude.{◌≡◌, ◌++◌, [], IfErr, OnOk};
ghost use Rattle.graph_maker.specs.Sending.{Sends, Stops};

use edge_io::{Sink, write_piece};
use plain_machine::Status;

/// From how many bytes on a piece of text goes out.
const PIECE: usize = 8192;

/// Hands on what is held.
pub fn send<K: Sink>(report: &mut K, held: &mut Vec<u8>) -> Result<(), Status>
    ensures sent { OnOk result (Sends (K.taken report.old) (K.taken report.new)
        held.old.items held.new.items []) }
    ensures all { OnOk result (held.new.items ≡ []) }
    ensures stopped { IfErr result (Stops (K.taken report.old) (K.taken report.new)
        held.old.items (K.faults report.old) (K.faults report.new)) }
    ensures quiet { OnOk result (K.faults report.new ≡ K.faults report.old) }
{
    match write_piece(report, held.as_slice()) {
        Err(_) => Err(Status::WriteFault),
        Ok(()) => {
            held.clear();
            Ok(())
        }
    }
}

/// Hands on what is held, once it is a piece.
pub fn send_piece<K: Sink>(report: &mut K, held: &mut Vec<u8>) -> Result<(), Status>
    ensures sent { OnOk result (Sends (K.taken report.old) (K.taken report.new)
        held.old.items held.new.items []) }
    ensures stopped { IfErr result (Stops (K.taken report.old) (K.taken report.new)
        held.old.items (K.faults report.old) (K.faults report.new)) }
    ensures quiet { OnOk result (K.faults report.new ≡ K.faults report.old) }
{
    if held.len() < PIECE {
        return Ok(());
    }
    send(report, held)
}

/// Sends a text.
pub fn send_text<K: Sink>(report: &mut K, held: &mut Vec<u8>, text: &[u8]) -> Result<(), Status>
    ensures sent { OnOk result (Sends (K.taken report.old) (K.taken report.new)
        held.old.items held.new.items text.now) }
    ensures stopped { IfErr result (Stops (K.taken report.old) (K.taken report.new)
        (held.old.items ++ text.now) (K.faults report.old) (K.faults report.new)) }
    ensures quiet { OnOk result (K.faults report.new ≡ K.faults report.old) }
{
    match held.extend_from_slice(text) {
        Err(_) => Err(Status::Memory),
        Ok(()) => send_piece(report, held),
    }
}
