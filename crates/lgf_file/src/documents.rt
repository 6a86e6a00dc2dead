//! Documents: what a graph file says.

use base_items::List;
use token_text::Text;

/// The nodes: the names of their columns, and a row for each node, with one text a column.
///
/// In a valid document the names differ, none is `-`, and one is `label`; the labels differ too,
/// and there are at most [`MAX_NODES`](base_items::MAX_NODES) rows.
#[derive(Drop)]
pub struct Table {
    pub columns: List<Text>,
    pub rows: List<List<Text>>,
}

/// An arc: its source and its target by their rows among the nodes, from 0, and one text a column.
#[derive(Drop)]
pub struct Link {
    pub from: u32,
    pub to: u32,
    pub values: List<Text>,
}

/// What a graph file says: nodes, arcs and attributes, each in the order of the file.
///
/// In a valid document the names of the arcs' columns differ and none is `-`; if one is `label`,
/// the labels of the arcs differ; there are at most [`MAX_ARCS`](base_items::MAX_ARCS) arcs, and
/// the names of the attributes differ.
#[derive(Drop)]
pub struct Doc {
    pub nodes: Table,
    pub arc_columns: List<Text>,
    pub arcs: List<Link>,
    /// Names and values.
    pub attributes: List<(Text, Text)>,
}
