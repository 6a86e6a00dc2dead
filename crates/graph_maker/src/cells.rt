//! The lines of a generated graph as text.

ghost use Rattle.std.specs.Prelude.{◌≡◌, ◌++◌, ◌<◌, OnOk, decimal};
ghost use Rattle.lgf_file.specs.Plain.{cell_text};
ghost use Rattle.token_text.specs.Lines.{ended};
ghost use Rattle.lgf_file.specs.Plain.{row_text};
ghost use Rattle.plain_machine.specs.Generator.{next};
ghost use Rattle.graph_maker.specs.Cells as cells;

use crate::draws::Draws;
use itoa::Buffer;
use lgf_file::push_cell;
use std::alloc::AllocError;

/// Appends a number and a tab.
fn push_number(out: &mut Vec<u8>, number: u64) -> Result<(), AllocError>
    ensures { OnOk result (out.new.items ≡ out.old.items ++ cell_text (decimal number)) }
{
    let mut buffer = Buffer::new();
    push_cell(out, buffer.format(number).as_bytes())
}

/// Appends the line of a node.
pub fn push_node(out: &mut Vec<u8>, node: u32) -> Result<(), AllocError>
    ensures { OnOk result (out.new.items ≡ out.old.items ++ cells.node_line node) }
{
    push_number(out, node as u64)?;
    out.push(b'\n')?;
    Ok(())
}

/// Draws the ends of an arc, and appends them.
fn push_ends(out: &mut Vec<u8>, draws: &mut Draws, nodes: u32) -> Result<(), AllocError>
    requires state { draws.old.state < 2147483647 }
    requires nodes { 0 < nodes }
    ensures text { OnOk result (out.new.items
        ≡ out.old.items ++ cells.ends_text nodes draws.old.state) }
    ensures drawn { OnOk result (draws.new.state ≡ next (next draws.old.state)) }
    ensures below { OnOk result (draws.new.state < 2147483647) }
{
    push_number(out, draws.draw(nodes as u64))?;
    push_number(out, draws.draw(nodes as u64))
}

/// Draws the values of an arc, and appends them and the end of the line.
fn push_values(out: &mut Vec<u8>, draws: &mut Draws, arc: u32) -> Result<(), AllocError>
    requires state { draws.old.state < 2147483647 }
    ensures text { OnOk result (out.new.items
        ≡ out.old.items ++ ended (row_text (cells.values arc draws.old.state))) }
    ensures drawn { OnOk result (draws.new.state ≡ next (next draws.old.state)) }
    ensures below { OnOk result (draws.new.state < 2147483647) }
{
    push_number(out, arc as u64)?;
    push_number(out, draws.draw(1000))?;
    push_number(out, draws.draw(1000))?;
    out.push(b'\n')?;
    Ok(())
}

/// Draws an arc, and appends its line.
pub fn push_arc(
    out: &mut Vec<u8>,
    draws: &mut Draws,
    arc: u32,
    nodes: u32,
) -> Result<(), AllocError>
    requires state { draws.old.state < 2147483647 }
    requires nodes { 0 < nodes }
    ensures text { OnOk result (out.new.items
        ≡ out.old.items ++ cells.arc_line nodes arc draws.old.state) }
    ensures drawn { OnOk result (draws.new.state ≡ cells.after_four draws.old.state) }
    ensures below { OnOk result (draws.new.state < 2147483647) }
{
    push_ends(out, draws, nodes)?;
    push_values(out, draws, arc)
}
