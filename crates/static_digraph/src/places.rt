//! The numbers of nodes by their ids: a table with a slot for each id up to the greatest.

ghost use Rattle.std.specs.Prelude.{◌≡◌, ◌≤◌, IfOk, length};
ghost use Rattle.static_digraph.specs.Places.{IsWide, IsTable};

use std::alloc::{AllocError, Global};

/// How many slots there are: one more than the greatest id.
fn table_size(ids: &[u32]) -> usize
    ensures { IsWide ids.now result }
{
    let mut size = 0;
    for id in ids {
        size = size.max(*id as usize + 1);
    }
    size
}

/// The place of each id in the list.
pub fn place_table(alloc: Global, ids: &[u32]) -> Result<Vec<u32>, AllocError>
    requires { length ids.now ≤ 4194304 }
    ensures { IfOk result (λ table. IsTable ids.now table.items) }
{
    let size = table_size(ids);
    let mut table = vec![in alloc; 0u32; size]?;
    let mut i = ids.len();
    while i > 0 {
        i -= 1;
        table[ids[i] as usize] = i as u32;
    }
    Ok(table)
}
