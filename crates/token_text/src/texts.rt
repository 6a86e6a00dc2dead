//! A text: bytes, of which nothing is asked.

ghost use Rattle.std.specs.Prelude.{◌≡◌, ◌==◌, ◌≤◌, [], length, IfOk};

use crate::kept::{Kept, keep, keep_again, kept_len, kept_slice};
use std::alloc::{AllocError, Global};
use std::marker::Model;

/// A text. It is compared, ordered and hashed by its bytes. Up to 22 bytes stand in the value
/// itself, and more in an allocation.
#[derive(Debug)]
pub struct Text {
    kept: Kept,
}

const _: () = prove!(size_of::<Text>() == 24);

impl Model for Text {
    ghost use Rattle.std.specs.Prelude.{List, ℕ};
    ghost use Rattle.token_text.specs.Kept.{kept_bytes, IsKept};

    ghost Value = { List ℕ };

    ghost view = { λ t. kept_bytes t.kept };

    ghost invariant = { λ t. IsKept t.kept };
}

impl Text {
    /// The empty text.
    pub fn new(_alloc: Global) -> Text
        ensures { result ≡ [] }
    {
        Text {
            kept: Kept::Short {
                count: 0,
                bytes: [0; 22],
            },
        }
    }

    /// The bytes of the text.
    pub fn as_bytes(&self) -> &[u8]
        ensures { result.now ≡ self.now }
    {
        kept_slice(&self.kept)
    }

    /// The number of its bytes.
    pub fn len(&self) -> usize
        ensures { result ≡ length self.now }
    {
        kept_len(&self.kept)
    }

    /// Whether it is the empty text.
    pub fn is_empty(&self) -> bool
        ensures { result ≡ (length self.now == 0) }
    {
        self.len() == 0
    }
}

// One step wherever a text goes out of scope, and not one for each way to keep it.
impl Drop for Text {
    fn drop(self) {
        let Text { kept } = self;
        drop(kept);
    }
}

/// The same text once more. It can't fail where there are at most 22 bytes.
impl Clone for Text {
    ghost is_clone = { λ text copy. copy ≡ text };

    ghost is_infallible = { λ text. length text ≤ 22 };

    fn clone(&self) -> Result<Text, AllocError> {
        Ok(Text {
            kept: keep_again(&self.kept)?,
        })
    }
}

/// The text with these bytes. It asks for no memory where there are at most 22.
pub fn copy_text(alloc: Global, bytes: &[u8]) -> Result<Text, AllocError>
    ensures { IfOk result (λ text. text ≡ bytes.now) }
{
    Ok(Text {
        kept: keep(alloc, bytes)?,
    })
}
