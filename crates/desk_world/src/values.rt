//! Values of maps, and their texts.

ghost use Rattle.std.specs.Prelude.{◌≡◌, true, IfOk, IfErr, OnOk};
ghost use Rattle.std.specs.Fmt.{decimal, signed_decimal};
ghost use Rattle.report_text.specs.declared.faults.Fault.TheVariants as faults;
ghost use Rattle.plain_world.specs.Refusals.{unless};
ghost use Rattle.plain_world.specs.Values.{spells, bool_text};
ghost use Rattle.desk_world.specs.Faults.{Is};
ghost use Rattle.desk_world.specs.Values.{Spells, type_for};

use crate::refusals::bad_value;
use itoa::Buffer;
use report_text::StepFault;
use script_words::MapType;
use std::alloc::{AllocError, Global};
use token_text::{Text, copy_text, read_bool, read_int};

/// A value of a map.
#[derive(Drop)]
pub enum Value {
    Int(i64),
    Bool(bool),
    Text(Text),
}

/// The value of the type that the text spells. `BadValue`, with the item's name, where it spells
/// none.
pub fn read_value(
    alloc: Global,
    kind: MapType,
    item: &Text,
    text: &Text,
) -> Result<Value, StepFault>
    ensures spells { OnOk result (spells kind text.now ≡ true) }
    ensures value { IfOk result (λ value. Spells text.now value) }
    ensures of_type { IfOk result (λ value. type_for value ≡ kind) }
    ensures refused { IfErr result
        (Is (unless (spells kind text.now) (faults.BadValue item.now text.now))) }
{
    match kind {
        MapType::Ints => match read_int(text.as_bytes()) {
            Some(value) => Ok(Value::Int(value)),
            None => Err(bad_value(alloc, item, text)),
        },
        MapType::Bools => match read_bool(text.as_bytes()) {
            Some(value) => Ok(Value::Bool(value)),
            None => Err(bad_value(alloc, item, text)),
        },
        MapType::Texts => Ok(Value::Text(copy_text(alloc, text.as_bytes())?)),
    }
}

/// The int in decimal, with a sign where it is below 0.
pub fn int_text(alloc: Global, value: i64) -> Result<Text, AllocError>
    ensures { IfOk result (λ text. text ≡ signed_decimal value) }
{
    let mut buffer = Buffer::new();
    copy_text(alloc, buffer.format(value).as_bytes())
}

/// The number in decimal.
pub fn count_text(alloc: Global, value: u32) -> Result<Text, AllocError>
    ensures { IfOk result (λ text. text ≡ decimal value) }
{
    let mut buffer = Buffer::new();
    copy_text(alloc, buffer.format(value).as_bytes())
}

/// `1` or `0`.
pub fn told_bool(alloc: Global, value: bool) -> Result<Text, AllocError>
    ensures { IfOk result (λ text. text ≡ bool_text value) }
{
    let digit = if value { b"1" } else { b"0" };
    copy_text(alloc, digit.as_slice())
}
