//! The arcs of a graph file.

ghost use Rattle.std.specs.Prelude.{◌≡◌, ◌<◌, ◌≤◌, ◌+◌, ◌∷◌, ◌++◌, [], length, map, IfOk, IfNone};
ghost use Rattle.std.specs.Prelude.{IfSome, Some, None, true, List as Items};
ghost use Rattle.std.specs.Bool.{OnFalse};
ghost use Rattle.base_items.specs.declared.limits.TheConstants.{MAX_NODES as NODE_LIMIT};
ghost use Rattle.token_text.specs.Names.{is_among};
ghost use Rattle.lgf_file.specs.Sections.{Line};
ghost use Rattle.lgf_file.specs.Rows.{Rows};
ghost use Rattle.lgf_file.specs.Documents.{AreArcs, ArcsSpell, label, label_in, link_cells};
ghost use Rattle.lgf_file.specs.Faults as faults;
ghost use Rattle.lgf_file.specs.Reading.{InOrder};
ghost use Rattle.lgf_file.specs.Readers.{HoldsArcs, ArcsSound, IsEnds, IsHead, arcs_read};
ghost use Rattle.lgf_file.specs.Readers.{columns_or_none, is_label_among};

use crate::documents::Link;
use crate::faults::LgfKind;
use crate::heads::{Head, columns_fault, has_dash, width_fault};
use crate::rows::RowReader;
use base_items::{List, MAX_ARCS};
use std::alloc::{AllocError, Global};
use token_text::{LabelTable, Text};

/// The labels of the nodes, the head of the arcs, once it was read, the arcs, and their labels.
#[derive(Drop)]
pub struct ArcReader<'a> {
    nodes: &'a LabelTable,
    head: Option<Head>,
    arcs: Vec<Link>,
    labels: LabelTable,
}

impl<'a> ArcReader<'a> {
    /// The reader that has read nothing.
    pub fn new(alloc: Global, nodes: &'a LabelTable) -> ArcReader<'a>
        requires { length nodes.now ≤ NODE_LIMIT }
        ensures nodes { result.nodes.now ≡ nodes.now }
        ensures read { arcs_read nodes.now result.head result.arcs.items ≡ [] }
        ensures sound { ArcsSound nodes.now result.head result.arcs.items result.labels }
    {
        ArcReader {
            nodes,
            head: None,
            arcs: Vec::new(alloc),
            labels: LabelTable::new(alloc),
        }
    }

    // Takes in the names of the columns.
    fn take_head(&mut self, alloc: Global, cells: Vec<Text>) -> Result<Option<LgfKind>, AllocError>
        requires sound { ArcsSound self.old.nodes.now self.old.head self.old.arcs.items
            self.old.labels }
        requires first { self.old.head ≡ None }
        requires some { 0 < length cells.items }
        ensures nodes { IfOk result (λ found. IfNone found
            (self.new.nodes.now ≡ self.old.nodes.now)) }
        ensures fault { IfOk result (λ found. found ≡ faults.arc_head_fault cells.items) }
        ensures taken { IfOk result (λ found.
            IfNone found (arcs_read self.new.nodes.now self.new.head
            self.new.arcs.items ≡ cells.items ∷ [])) }
        ensures sound { IfOk result (λ found.
            IfNone found (ArcsSound self.new.nodes.now self.new.head self.new.arcs.items
            self.new.labels)) }
    {
        if cells.len() == 1 && has_dash(cells.as_slice()) {
            self.head = Some(Head::new(Vec::new(alloc)));
            return Ok(None);
        }
        if let Some(kind) = columns_fault(alloc, cells.as_slice())? {
            return Ok(Some(kind));
        }
        self.head = Some(Head::new(cells));
        Ok(None)
    }

    /// The columns and the arcs that were read.
    #[tactic(auto, using(crate::proofs::LinkLists::arcs_read_right))]
    pub fn finish(self, alloc: Global) -> (List<Text>, List<Link>)
        requires { ArcsSound self.nodes.now self.head self.arcs.items self.labels }
        ensures spelled { (lines : Items Line)
            → Rows lines (arcs_read self.entry.nodes.now self.entry.head self.entry.arcs.items)
            → ArcsSpell lines self.entry.nodes.now result.0 result.1 }
        ensures arcs { InOrder (faults.arc_fault self.entry.nodes.now) []
            (arcs_read self.entry.nodes.now self.entry.head self.entry.arcs.items)
            → AreArcs self.entry.nodes.now result.0 result.1 }
    {
        let ArcReader {
            nodes: _,
            head,
            arcs,
            labels: _,
        } = self;
        (columns_of(alloc, head), List::from_vec(arcs))
    }
}

// The columns that the head names, or none.
fn columns_of(alloc: Global, head: Option<Head>) -> List<Text>
    ensures { result ≡ columns_or_none head }
{
    match head {
        Some(head) => head.columns,
        None => List::from_vec(Vec::new(alloc)),
    }
}

// The rows of the source and of the target of an arc. None where one of them is no node.
#[tactic(auto, using(std::proofs::lemmas::Option::slice_get_within))]
fn ends_of(nodes: &LabelTable, cells: &[Text]) -> Option<(u32, u32)>
    requires wide { 2 ≤ length cells.now }
    requires few { length nodes.now ≤ NODE_LIMIT }
    ensures found { IfSome result (λ ends. IsEnds nodes.now cells.now ends.0 ends.1) }
    ensures none { IfNone result
        (faults.ends_fault nodes.now cells.now ≡ Some LgfKind.UnknownLabel) }
{
    let from = nodes.find(&cells[0])?;
    let to = nodes.find(&cells[1])?;
    Some((from as u32, to as u32))
}

// Puts the label of an arc last among the labels, if arcs have labels: whether it stood there
// already.
fn insert_label(
    alloc: Global,
    head: &Head,
    labels: &mut LabelTable,
    values: &[Text],
) -> Result<bool, AllocError>
    requires head { IsHead head.now }
    requires wide { length values.now ≡ length head.now.columns }
    ensures twice { IfOk result (λ twice. twice ≡ is_label_among head.now.columns labels.old
        values.now) }
    ensures labels { IfOk result (λ twice.
        OnFalse twice (is_among label head.now.columns ≡ true
        → labels.new ≡ labels.old ++ label_in head.now.columns values.now ∷ [])) }
{
    let Some(_) = head.label_place else {
        return Ok(false);
    };
    let label = head.copy_label(alloc, values)?;
    let fresh = labels.insert(label)?;
    Ok(!fresh)
}

// Takes in an arc behind the head, or tells what is at fault with its row.
fn take_arc(
    alloc: Global,
    nodes: &LabelTable,
    head: &Head,
    arcs: &mut Vec<Link>,
    labels: &mut LabelTable,
    cells: Vec<Text>,
) -> Result<Option<LgfKind>, AllocError>
    requires { HoldsArcs nodes.now head.now arcs.old.items labels.old }
    ensures fault { IfOk result (λ found. found ≡ faults.arc_row_fault nodes.now head.now.columns
        (map (link_cells nodes.now) arcs.old.items) cells.items) }
    ensures taken { IfOk result (λ found. IfNone found
        (arcs_read nodes.now (Some head.now) arcs.new.items
        ≡ arcs_read nodes.now (Some head.now) arcs.old.items ++ cells.items ∷ [])) }
    ensures sound { IfOk result (λ found. IfNone found
        (HoldsArcs nodes.now head.now arcs.new.items labels.new)) }
{
    if arcs.len() == MAX_ARCS as usize {
        return Ok(Some(LgfKind::TooMany));
    }
    let columns = head.columns.as_slice();
    let row = cells.as_slice();
    if let Some(kind) = width_fault(2 + columns.len(), row) {
        return Ok(Some(kind));
    }
    let Some((from, to)) = ends_of(nodes, row) else {
        return Ok(Some(LgfKind::UnknownLabel));
    };
    let values = values_of(cells)?;
    if insert_label(alloc, head, labels, values.as_slice())? {
        return Ok(Some(LgfKind::TwiceLabel));
    }
    let values = List::from_vec(values);
    arcs.push(Link { from, to, values })?;
    Ok(None)
}

// The tokens of an arc behind its source and its target, in a vector without more room.
fn values_of(cells: Vec<Text>) -> Result<Vec<Text>, AllocError>
    requires { 2 ≤ length cells.items }
    ensures { IfOk result (λ values. values.items ≡ faults.values_of cells.items) }
{
    let mut cells = cells;
    cells.split_off(2)
}

impl<'a> RowReader for ArcReader<'a> {
    ghost labels = { λ r. r.nodes.now };

    ghost fault = { faults.arc_fault };

    ghost read = { λ r. arcs_read r.nodes.now r.head r.arcs.items };

    ghost IsSound = { λ r. ArcsSound r.nodes.now r.head r.arcs.items r.labels };

    fn take(&mut self, alloc: Global, cells: Vec<Text>) -> Result<Option<LgfKind>, AllocError> {
        let Some(head) = &self.head else {
            return self.take_head(alloc, cells);
        };
        take_arc(
            alloc,
            self.nodes,
            head,
            &mut self.arcs,
            &mut self.labels,
            cells,
        )
    }
}
