//! Ints and bools.

ghost use Rattle.std.specs.Prelude.{◌≡◌, ℤ, Bool, IfSome, IfNone};
ghost use Rattle.token_text.specs.Numbers.{IsInt, IsBool};

/// The int that the bytes spell: `+`, `-` or no sign, and one or more decimal digits.
///
/// None where they spell no int, or one that no `i64` holds.
pub fn read_int(bytes: &[u8]) -> Option<i64>
    ensures some { IfSome result (IsInt bytes.now) }
    ensures none { IfNone result ((value : ℤ) → IsInt bytes.now value → ⊥) }
{
    match str::from_utf8(bytes) {
        Ok(text) => text.parse::<i64>().ok(),
        Err(_) => None,
    }
}

/// The bool that the bytes spell: `0` and `false` are false, `1` and `true` are true.
///
/// None at any other bytes.
pub fn read_bool(bytes: &[u8]) -> Option<bool>
    ensures some { IfSome result (IsBool bytes.now) }
    ensures none { IfNone result ((value : Bool) → IsBool bytes.now value → ⊥) }
{
    match bytes {
        b"0" | b"false" => Some(false),
        b"1" | b"true" => Some(true),
        _ => None,
    }
}
