//! The first lines of nodes and of arcs, which name their columns, and the number of tokens of a
//! row.

ghost use Rattle.std.specs.Prelude.{◌≡◌, ◌<◌, length, IfOk, IfSome};
ghost use Rattle.token_text.specs.Names as names;
ghost use Rattle.lgf_file.specs.Documents as documents;
ghost use Rattle.lgf_file.specs.Faults as faults;
ghost use Rattle.lgf_file.specs.Readers.{IsHead};

use crate::faults::LgfKind;
use base_items::List;
use std::alloc::{AllocError, Global};
use token_text::{LabelTable, Text, copy_text};

/// The names of columns, and the place of that of the labels, if there is one.
#[derive(Drop)]
pub struct Head {
    pub columns: List<Text>,
    pub label_place: Option<usize>,
}

impl Head {
    /// The head with these columns.
    pub fn new(columns: Vec<Text>) -> Head
        ensures columns { result.columns ≡ columns.items }
        ensures place { IsHead result }
    {
        let label_place = find_label(columns.as_slice());
        Head {
            columns: List::from_vec(columns),
            label_place,
        }
    }

    /// The label of a row with these tokens. It is empty where no column has the labels.
    pub fn copy_label(&self, alloc: Global, cells: &[Text]) -> Result<Text, AllocError>
        requires head { IsHead self.now }
        requires within { IfSome self.now.label_place (λ place. place < length cells.now) }
        ensures { IfOk result (λ label. label ≡ documents.label_in self.now.columns cells.now) }
    {
        match self.label_place {
            Some(place) => copy_text(alloc, cells[place].as_bytes()),
            None => Ok(Text::new(alloc)),
        }
    }
}

/// The place of the column `label`. None where there is none.
pub fn find_label(columns: &[Text]) -> Option<usize>
    ensures { result ≡ documents.label_place columns.now }
{
    columns
        .iter()
        .position(|column| b"label".as_slice() == column.as_bytes())
}

/// Whether one of the columns has the labels.
pub fn has_label(columns: &[Text]) -> bool
    ensures { result ≡ names.is_among documents.label columns.now }
{
    columns
        .iter()
        .any(|column| b"label".as_slice() == column.as_bytes())
}

/// Whether one of the columns is named `-`.
pub fn has_dash(columns: &[Text]) -> bool
    ensures { result ≡ names.is_among documents.dash columns.now }
{
    columns
        .iter()
        .any(|column| b"-".as_slice() == column.as_bytes())
}

// Whether a name stands twice.
fn has_twice(alloc: Global, columns: &[Text]) -> Result<bool, AllocError>
    ensures { IfOk result (λ twice. twice ≡ names.has_twice columns.now) }
{
    let mut seen = LabelTable::new(alloc);
    for column in columns {
        let name = copy_text(alloc, column.as_bytes())?;
        let fresh = seen.insert(name)?;
        if !fresh {
            return Ok(true);
        }
    }
    Ok(false)
}

/// What is at fault with names of columns.
pub fn columns_fault(alloc: Global, columns: &[Text]) -> Result<Option<LgfKind>, AllocError>
    ensures { IfOk result (λ found. found ≡ faults.columns_fault columns.now) }
{
    if has_dash(columns) {
        return Ok(Some(LgfKind::DashColumn));
    }
    if has_twice(alloc, columns)? {
        return Ok(Some(LgfKind::TwiceColumn));
    }
    Ok(None)
}

/// What is at fault with the number of tokens of a row.
pub fn width_fault(wanted: usize, cells: &[Text]) -> Option<LgfKind>
    ensures { result ≡ faults.width_fault wanted cells.now }
{
    if cells.len() < wanted {
        Some(LgfKind::ShortRow)
    } else if wanted < cells.len() {
        Some(LgfKind::LongRow)
    } else {
        None
    }
}
