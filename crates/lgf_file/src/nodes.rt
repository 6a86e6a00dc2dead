//! The nodes of a graph file.

ghost use Rattle.std.specs.Prelude.{◌≡◌, ◌∷◌, ◌++◌, [], IfOk, IfNone, None, List as Items};
ghost use Rattle.lgf_file.specs.Sections.{Line};
ghost use Rattle.lgf_file.specs.Rows.{Rows};
ghost use Rattle.lgf_file.specs.Documents.{IsTable, node_labels, NodesSpell};
ghost use Rattle.lgf_file.specs.Faults.{node_fault, node_head_fault, node_row_fault};
ghost use Rattle.lgf_file.specs.Reading.{InOrder};
ghost use Rattle.lgf_file.specs.Readers.{AreNodes, NodesSound, columns_or_label, nodes_read};

use crate::documents::Table;
use crate::faults::LgfKind;
use crate::heads::{Head, columns_fault, has_label, width_fault};
use crate::rows::RowReader;
use base_items::{List, MAX_NODES};
use std::alloc::{AllocError, Global};
use token_text::{LabelTable, Text, copy_text};

/// The head of the nodes, once it was read, their rows, and the labels of these.
#[derive(Drop)]
pub struct NodeReader {
    head: Option<Head>,
    rows: Vec<List<Text>>,
    labels: LabelTable,
}

impl NodeReader {
    /// The reader that has read nothing.
    pub fn new(alloc: Global) -> NodeReader
        ensures read { nodes_read result.head result.rows.items ≡ [] }
        ensures sound { NodesSound result.head result.rows.items result.labels }
    {
        NodeReader {
            head: None,
            rows: Vec::new(alloc),
            labels: LabelTable::new(alloc),
        }
    }

    // Takes in the names of the columns.
    fn take_head(
        &mut self,
        alloc: Global,
        columns: Vec<Text>,
    ) -> Result<Option<LgfKind>, AllocError>
        requires sound { NodesSound self.old.head self.old.rows.items self.old.labels }
        requires first { self.old.head ≡ None }
        ensures fault { IfOk result (λ found. found ≡ node_head_fault columns.items) }
        ensures taken { IfOk result (λ found.
            IfNone found (nodes_read self.new.head self.new.rows.items ≡ columns.items ∷ [])) }
        ensures sound { IfOk result (λ found.
            IfNone found (NodesSound self.new.head self.new.rows.items self.new.labels)) }
    {
        if let Some(kind) = columns_fault(alloc, columns.as_slice())? {
            return Ok(Some(kind));
        }
        if !has_label(columns.as_slice()) {
            return Ok(Some(LgfKind::NoLabel));
        }
        self.head = Some(Head::new(columns));
        Ok(None)
    }

    /// The table of the rows that were read, and the labels of its nodes.
    #[tactic(auto, using(crate::proofs::NodeTables::table_read))]
    pub fn finish(self, alloc: Global) -> Result<(Table, LabelTable), AllocError>
        requires { NodesSound self.head self.rows.items self.labels }
        ensures spelled { IfOk result (λ made. (lines : Items Line)
            → Rows lines (nodes_read self.head self.rows.items) → NodesSpell lines made.0) }
        ensures table { IfOk result (λ made.
            InOrder node_fault [] (nodes_read self.head self.rows.items) → IsTable made.0) }
        ensures labels { IfOk result (λ made. made.1 ≡ node_labels made.0) }
    {
        let NodeReader { head, rows, labels } = self;
        let columns = columns_of(alloc, head)?;
        let rows = List::from_vec(rows);
        Ok((Table { columns, rows }, labels))
    }
}

// The columns that the head names, or the sole column of labels.
fn columns_of(alloc: Global, head: Option<Head>) -> Result<List<Text>, AllocError>
    ensures { IfOk result (λ columns. columns ≡ columns_or_label head) }
{
    match head {
        Some(head) => Ok(head.columns),
        None => {
            let mut columns = Vec::new(alloc);
            columns.push(copy_text(alloc, b"label")?)?;
            Ok(List::from_vec(columns))
        }
    }
}

// Takes in a node behind the head, or tells what is at fault with its row.
fn take_node(
    alloc: Global,
    head: &Head,
    rows: &mut Vec<List<Text>>,
    labels: &mut LabelTable,
    cells: Vec<Text>,
) -> Result<Option<LgfKind>, AllocError>
    requires { AreNodes head.now rows.old.items labels.old }
    ensures fault { IfOk result (λ found.
        found ≡ node_row_fault head.now.columns rows.old.items cells.items) }
    ensures taken { IfOk result (λ found.
        IfNone found (rows.new.items ≡ rows.old.items ++ cells.items ∷ [])) }
    ensures sound { IfOk result (λ found.
        IfNone found (AreNodes head.now rows.new.items labels.new)) }
{
    if rows.len() == MAX_NODES as usize {
        return Ok(Some(LgfKind::TooMany));
    }
    let row = cells.as_slice();
    if let Some(kind) = width_fault(head.columns.len(), row) {
        return Ok(Some(kind));
    }
    let label = head.copy_label(alloc, row)?;
    let fresh = labels.insert(label)?;
    if !fresh {
        return Ok(Some(LgfKind::TwiceLabel));
    }
    rows.push(List::from_vec(cells))?;
    Ok(None)
}

impl RowReader for NodeReader {
    ghost labels = { λ _. [] };

    ghost fault = { λ _. node_fault };

    ghost read = { λ r. nodes_read r.head r.rows.items };

    ghost IsSound = { λ r. NodesSound r.head r.rows.items r.labels };

    fn take(&mut self, alloc: Global, cells: Vec<Text>) -> Result<Option<LgfKind>, AllocError> {
        let Some(head) = &self.head else {
            return self.take_head(alloc, cells);
        };
        take_node(alloc, head, &mut self.rows, &mut self.labels, cells)
    }
}
