//! Documents as bytes.

ghost use Rattle.std.specs.Prelude.{◌≡◌, ◌++◌, map, length, ◌<◌, OnOk, IfOk};
ghost use Rattle.std.specs.List.{flat_map};
ghost use Rattle.token_text.specs.Lines.{ended};
ghost use Rattle.lgf_file.specs.Documents as documents;
ghost use Rattle.lgf_file.specs.Plain as plain;

use crate::documents::{Doc, Link, Table};
use crate::heads::find_label;
use base_items::List;
use std::alloc::{AllocError, Global};
use token_text::{Text, push_token};

/// Appends a token and a tab.
pub fn push_cell(out: &mut Vec<u8>, cell: &[u8]) -> Result<(), AllocError>
    ensures { OnOk result (out.new.items ≡ out.old.items ++ plain.cell_text cell.now) }
{
    push_token(out, cell)?;
    out.push(b'\t')?;
    Ok(())
}

// Appends the text of a row.
fn push_cells(out: &mut Vec<u8>, cells: &[Text]) -> Result<(), AllocError>
    ensures { OnOk result (out.new.items ≡ out.old.items ++ plain.row_text cells.now) }
{
    for cell in cells {
        push_cell(out, cell.as_bytes())?;
    }
    Ok(())
}

/// Appends the line of a row: its tokens, each followed by a tab, and the line end.
pub fn push_row(out: &mut Vec<u8>, cells: &[Text]) -> Result<(), AllocError>
    ensures { OnOk result (out.new.items ≡ out.old.items ++ ended (plain.row_text cells.now)) }
{
    push_cells(out, cells)?;
    out.push(b'\n')?;
    Ok(())
}

// Appends the lines of rows.
fn push_rows(out: &mut Vec<u8>, rows: &[List<Text>]) -> Result<(), AllocError>
    ensures { let lines = map plain.row_text rows.now in
        OnOk result (out.new.items ≡ out.old.items ++ flat_map ended lines) }
{
    for row in rows {
        push_row(out, row.as_slice())?;
    }
    Ok(())
}

// Appends the lines of the nodes.
fn push_nodes(out: &mut Vec<u8>, nodes: &Table) -> Result<(), AllocError>
    ensures { let lines = plain.node_lines nodes.now in
        OnOk result (out.new.items ≡ out.old.items ++ flat_map ended lines) }
{
    out.extend_from_slice(b"@nodes\n")?;
    push_row(out, nodes.columns.as_slice())?;
    push_rows(out, nodes.rows.as_slice())
}

/// Appends the first line of the arcs: two tabs and the names of the columns as a row, or `-` where
/// there are none.
pub fn push_head(out: &mut Vec<u8>, columns: &[Text]) -> Result<(), AllocError>
    ensures { OnOk result (out.new.items ≡ out.old.items ++ ended (plain.head_text columns.now)) }
{
    if columns.is_empty() {
        return out.extend_from_slice(b"-\n");
    }
    out.extend_from_slice(b"\t\t")?;
    push_row(out, columns)
}

// The label of a node, by its row.
#[tactic(auto, using(crate::proofs::NodeLabels::no_label_of_row))]
fn label_at(nodes: &Table, place: Option<usize>, row: u32) -> &[u8]
    requires valid { documents.IsTable nodes.now }
    requires at_labels { place ≡ documents.label_place nodes.now.columns }
    requires within { row < length nodes.now.rows }
    ensures { result.now ≡ documents.label_at (documents.node_labels nodes.now) row }
{
    match place {
        Some(place) => nodes.rows.as_slice()[row as usize].as_slice()[place].as_bytes(),
        None => &[],
    }
}

// Appends the line of an arc.
fn push_arc(
    out: &mut Vec<u8>,
    nodes: &Table,
    place: Option<usize>,
    arc: &Link,
) -> Result<(), AllocError>
    requires valid { documents.IsTable nodes.now }
    requires at_labels { place ≡ documents.label_place nodes.now.columns }
    requires from_within { arc.now.from < length nodes.now.rows }
    requires to_within { arc.now.to < length nodes.now.rows }
    ensures { let cells = documents.link_cells (documents.node_labels nodes.now) arc.now in
        OnOk result (out.new.items ≡ out.old.items ++ ended (plain.row_text cells)) }
{
    push_cell(out, label_at(nodes, place, arc.from))?;
    push_cell(out, label_at(nodes, place, arc.to))?;
    push_row(out, arc.values.as_slice())
}

// Appends the lines of the arcs.
fn push_arcs(out: &mut Vec<u8>, doc: &Doc) -> Result<(), AllocError>
    requires { documents.IsDoc doc.now }
    ensures { let labels = documents.node_labels doc.now.nodes in
        let lines = plain.arc_lines labels doc.now.arc_columns doc.now.arcs in
        OnOk result (out.new.items ≡ out.old.items ++ flat_map ended lines) }
{
    out.extend_from_slice(b"@arcs\n")?;
    push_head(out, doc.arc_columns.as_slice())?;
    let place = find_label(doc.nodes.columns.as_slice());
    for arc in doc.arcs.as_slice() {
        push_arc(out, &doc.nodes, place, arc)?;
    }
    Ok(())
}

/// Appends the line of an attribute: its name, a blank and its value.
pub fn push_attribute(out: &mut Vec<u8>, attribute: &(Text, Text)) -> Result<(), AllocError>
    ensures { OnOk result (out.new.items ≡ out.old.items ++ ended
        (plain.attribute_text attribute.now)) }
{
    push_token(out, attribute.0.as_bytes())?;
    out.push(b' ')?;
    push_token(out, attribute.1.as_bytes())?;
    out.push(b'\n')?;
    Ok(())
}

// Appends the lines of the attributes, if there are any.
fn push_attributes(out: &mut Vec<u8>, attributes: &[(Text, Text)]) -> Result<(), AllocError>
    ensures { let lines = plain.attribute_lines attributes.now in
        OnOk result (out.new.items ≡ out.old.items ++ flat_map ended lines) }
{
    if attributes.is_empty() {
        return Ok(());
    }
    out.extend_from_slice(b"@attributes\n")?;
    for attribute in attributes {
        push_attribute(out, attribute)?;
    }
    Ok(())
}

/// The written document. The document has to be valid.
pub fn doc_bytes(alloc: Global, doc: &Doc) -> Result<Vec<u8>, AllocError>
    requires { documents.IsDoc doc.now }
    ensures { IfOk result (λ bytes. bytes.items ≡ plain.plain doc.now) }
{
    let mut out = Vec::new(alloc);
    push_nodes(&mut out, &doc.nodes)?;
    push_arcs(&mut out, doc)?;
    push_attributes(&mut out, doc.attributes.as_slice())?;
    Ok(out)
}
