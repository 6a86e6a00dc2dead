//! What a drill writes.

ghost use Rattle.std.specs.Prelude.{◌≡◌, ◌++◌, IfOk, OnOk, decimal};
ghost use Rattle.plain_machine.specs.Drill as spec;

use itoa::Buffer;
use std::alloc::{AllocError, Global};

/// Appends a number.
pub fn push_number(out: &mut Vec<u8>, number: u64) -> Result<(), AllocError>
    ensures { OnOk result (out.new.items ≡ out.old.items ++ decimal number) }
{
    let mut buffer = Buffer::new();
    out.extend_from_slice(buffer.format(number).as_bytes())
}

// Appends a title and a number.
fn push_count(out: &mut Vec<u8>, title: &[u8], number: u64) -> Result<(), AllocError>
    ensures { OnOk result (out.new.items ≡ out.old.items ++ spec.counted title.now number) }
{
    out.extend_from_slice(title)?;
    push_number(out, number)
}

/// The line that a drill writes.
pub fn drill_bytes(
    alloc: Global,
    accepted: u64,
    refused: u64,
    nodes: u32,
    arcs: u32,
) -> Result<Vec<u8>, AllocError>
    ensures { IfOk result (λ text. text.items ≡ spec.drill_text accepted refused nodes arcs) }
{
    let mut text = Vec::new(alloc);
    push_count(&mut text, b"drill accepted ", accepted)?;
    push_count(&mut text, b" refused ", refused)?;
    push_count(&mut text, b" nodes ", nodes as u64)?;
    push_count(&mut text, b" arcs ", arcs as u64)?;
    text.push(b'\n')?;
    Ok(text)
}
