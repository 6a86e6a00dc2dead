//! Where a text keeps its bytes.

ghost use Rattle.std.specs.Prelude.{◌≡◌, ◌≤◌, length, IsOk, IfOk};
ghost use Rattle.token_text.specs.Kept.{kept_bytes, IsKept};

use std::alloc::{AllocError, Global};

/// The most bytes that a text keeps in place.
const ROOM: usize = 22;

/// A text's bytes: in place where they fit, and else in an allocation of their own.
#[derive(Debug, Drop)]
pub(crate) enum Kept {
    Short { count: u8, bytes: [u8; 22] },
    Long(Box<Vec<u8>>),
}

// The bytes that are kept.
pub(crate) fn kept_slice(kept: &Kept) -> &[u8]
    requires { IsKept kept.now }
    ensures { result.now ≡ kept_bytes kept.now }
{
    match kept {
        Kept::Short { count, bytes } => &bytes[..*count as usize],
        Kept::Long(bytes) => bytes.as_slice(),
    }
}

pub(crate) fn kept_len(kept: &Kept) -> usize
    requires { IsKept kept.now }
    ensures { result ≡ length (kept_bytes kept.now) }
{
    match kept {
        Kept::Short { count, .. } => *count as usize,
        Kept::Long(bytes) => bytes.len(),
    }
}

// The bytes, kept. No memory is asked for where they fit in place.
pub(crate) fn keep(alloc: Global, bytes: &[u8]) -> Result<Kept, AllocError>
    ensures bytes { IfOk result (λ kept. kept_bytes kept ≡ bytes.now) }
    ensures sound { IfOk result IsKept }
    ensures succeeds { length bytes.now ≤ 22 → IsOk result }
{
    let count = bytes.len();
    if count > ROOM {
        let long = Vec::from_slice(alloc, bytes)?;
        return Ok(Kept::Long(Box::new(alloc, long)?));
    }
    let mut room = [0; 22];
    room[..count].copy_from_slice(bytes);
    Ok(Kept::Short {
        count: count as u8,
        bytes: room,
    })
}

// The same bytes, kept once more.
pub(crate) fn keep_again(kept: &Kept) -> Result<Kept, AllocError>
    requires { IsKept kept.now }
    ensures bytes { IfOk result (λ again. kept_bytes again ≡ kept_bytes kept.now) }
    ensures sound { IfOk result IsKept }
    ensures succeeds { length (kept_bytes kept.now) ≤ 22 → IsOk result }
{
    match kept {
        Kept::Short { count, bytes } => Ok(Kept::Short {
            count: *count,
            bytes: *bytes,
        }),
        Kept::Long(bytes) => keep(*bytes.allocator(), bytes.as_slice()),
    }
}
