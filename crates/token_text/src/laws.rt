//! Laws of tokens, of their written spelling and of ints. Each is a function that does nothing.

ghost use Rattle.token_text.specs.Laws.{OneReading, SomeReading, SomeTokens, WrittenReads};
ghost use Rattle.token_text.specs.Laws.{WrittenStands, WrittenInside, DecimalReads};

/// From a place of a line on stands one thing alone: a token, nothing, a bad backslash or an open
/// quote.
pub fn one_reading()
    ensures { OneReading }
{}

/// From each place of a line on something stands: a token, nothing, a bad backslash or an open
/// quote.
pub fn some_reading()
    ensures { SomeReading }
{}

/// Each line has tokens, one behind the other, up to its end or to one that can't be read.
pub fn some_tokens()
    ensures { SomeTokens }
{}

/// What is written for bytes reads as just these bytes, whatever blank or end follows.
pub fn written_reads()
    ensures { WrittenReads }
{}

/// What is written for bytes stands there as their token, from its first byte to its last, whatever
/// stands before it and whatever blank or end follows.
pub fn written_stands()
    ensures { WrittenStands }
{}

/// What is written for bytes has no line end.
pub fn written_inside()
    ensures { WrittenInside }
{}

/// The decimal text of an `i64` is read as this value.
pub fn decimal_reads()
    ensures { DecimalReads }
{}
