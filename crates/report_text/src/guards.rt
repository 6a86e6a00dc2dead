//! The numbers of a guard.

ghost use Rattle.std.specs.Prelude.{◌≡◌, ◌++◌, [], ◌∷◌, decimal, OnOk};
ghost use Rattle.std.specs.List.{flat_map};
ghost use Rattle.report_text.specs.Lines as lines;

use crate::replies::GuardNumbers;
use crate::words::{push_number, push_word};
use std::alloc::AllocError;

/// Puts the kind of a guard and its numbers to the text.
pub fn push_numbers(out: &mut Vec<u8>, numbers: &GuardNumbers) -> Result<(), AllocError>
    ensures { OnOk result (out.new.items
        ≡ out.old.items ++ flat_map lines.word (lines.numbers_words numbers.now)) }
{
    match numbers {
        GuardNumbers::Quota { k, items } => push_two(out, b"quota", *k, *items),
        GuardNumbers::Loopless { items } => push_one(out, b"loopless", *items),
        GuardNumbers::Simple { items } => push_one(out, b"simple", *items),
        GuardNumbers::OutCap { k, items } => push_two(out, b"outcap", *k, *items),
        GuardNumbers::Fuse { left } => push_one(out, b"fuse", *left),
        GuardNumbers::Tally {
            added,
            erased,
            moved,
        } => {
            push_word(out, b"tally")?;
            push_number(out, *added)?;
            push_number(out, *erased)?;
            push_number(out, *moved)
        }
    }
}

// Puts a kind and one number.
fn push_one(out: &mut Vec<u8>, kind: &[u8], number: u32) -> Result<(), AllocError>
    ensures { OnOk result (out.new.items
        ≡ out.old.items ++ flat_map lines.word (kind.now ∷ decimal number ∷ [])) }
{
    push_word(out, kind)?;
    push_number(out, u64::from(number))
}

// Puts a kind and two numbers.
fn push_two(out: &mut Vec<u8>, kind: &[u8], first: u32, second: u32) -> Result<(), AllocError>
    ensures { OnOk result (out.new.items
        ≡ out.old.items ++ flat_map lines.word (kind.now ∷ decimal first ∷ decimal second ∷ [])) }
{
    push_one(out, kind, first)?;
    push_number(out, u64::from(second))
}
