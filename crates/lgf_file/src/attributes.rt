//! The attributes of a graph file.

ghost use Rattle.std.specs.Prelude.{◌≡◌, [], length, map};
ghost use Rattle.lgf_file.specs.Documents.{attribute_cells};
ghost use Rattle.lgf_file.specs.Faults.{attribute_fault};
ghost use Rattle.lgf_file.specs.Readers.{AttributesSound};

use crate::faults::LgfKind;
use crate::heads::width_fault;
use crate::rows::RowReader;
use base_items::List;
use std::alloc::{AllocError, Global};
use token_text::{LabelTable, Text, copy_text};

/// The attributes that were read, and their names.
#[derive(Drop)]
pub struct AttributeReader {
    attributes: Vec<(Text, Text)>,
    names: LabelTable,
}

impl AttributeReader {
    /// The reader that has read nothing.
    pub fn new(alloc: Global) -> AttributeReader
        ensures read { map attribute_cells result.attributes.items ≡ [] }
        ensures sound { AttributesSound result.attributes.items result.names }
    {
        AttributeReader {
            attributes: Vec::new(alloc),
            names: LabelTable::new(alloc),
        }
    }

    /// The attributes that were read.
    pub fn finish(self) -> List<(Text, Text)>
        ensures { result ≡ self.attributes.items }
    {
        List::from_vec(self.attributes)
    }
}

// The two tokens of a row.
fn pair_of(cells: Vec<Text>) -> (Text, Text)
    requires { length cells.items ≡ 2 }
    ensures { cells.items ≡ attribute_cells result }
{
    let mut cells = cells;
    let value = cells.remove(1);
    let name = cells.remove(0);
    (name, value)
}

impl RowReader for AttributeReader {
    ghost labels = { λ _. [] };

    ghost fault = { λ _. attribute_fault };

    ghost read = { λ r. map attribute_cells r.attributes.items };

    ghost IsSound = { λ r. AttributesSound r.attributes.items r.names };

    fn take(&mut self, alloc: Global, cells: Vec<Text>) -> Result<Option<LgfKind>, AllocError> {
        if let Some(kind) = width_fault(2, cells.as_slice()) {
            return Ok(Some(kind));
        }
        let name = copy_text(alloc, cells[0].as_bytes())?;
        let fresh = self.names.insert(name)?;
        if !fresh {
            return Ok(Some(LgfKind::TwiceAttribute));
        }
        self.attributes.push(pair_of(cells))?;
        Ok(None)
    }
}
