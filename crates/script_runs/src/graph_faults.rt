//! The text that refuses a graph file.

ghost use Rattle.std.specs.Prelude.{◌≡◌, IfOk};
ghost use Rattle.plain_machine.specs.Texts as texts;

use itoa::Buffer;
use lgf_file::LgfFault;
use std::alloc::{AllocError, Global};

/// The text `! graph LINE KIND` of the first fault of a graph file.
pub fn graph_fault_bytes(alloc: Global, fault: &LgfFault) -> Result<Vec<u8>, AllocError>
    ensures { IfOk result (λ text. text.items ≡ texts.graph_fault_text fault.now) }
{
    let mut text = Vec::new(alloc);
    let mut buffer = Buffer::new();
    text.extend_from_slice(b"! graph ")?;
    text.extend_from_slice(buffer.format(fault.line).as_bytes())?;
    text.push(b' ')?;
    text.extend_from_slice(fault.kind.name())?;
    text.push(b'\n')?;
    Ok(text)
}
