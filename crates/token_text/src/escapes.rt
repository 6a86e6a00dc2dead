//! Bytes in quotes, and the escapes among them.

ghost use Rattle.std.specs.Prelude.{◌≡◌, option_map};
ghost use Rattle.token_text.specs.Bytes as bytes;
ghost use Rattle.token_text.specs.Grammar as grammar;
ghost use Rattle.token_text.specs.Scan as scan;

// The byte that a letter stands for behind a backslash.
fn letter_byte(byte: u8) -> Option<u8>
    ensures { result ≡ bytes.letter_byte byte }
{
    match byte {
        b'a' => Some(7),
        b'b' => Some(8),
        b't' => Some(9),
        b'n' => Some(10),
        b'v' => Some(11),
        b'f' => Some(12),
        b'r' => Some(13),
        _ => None,
    }
}

// Whether the byte stands for itself behind a backslash.
fn is_itself(byte: u8) -> bool
    ensures { result ≡ bytes.is_itself byte }
{
    byte == b'\\' || byte == b'"' || byte == b'\'' || byte == b'?'
}

fn hex_value(byte: u8) -> Option<u8>
    ensures { result ≡ bytes.hex_value byte }
{
    if b'0' <= byte && byte <= b'9' {
        Some(byte - b'0')
    } else if b'a' <= byte && byte <= b'f' {
        Some(byte - b'a' + 10)
    } else if b'A' <= byte && byte <= b'F' {
        Some(byte - b'A' + 10)
    } else {
        None
    }
}

fn octal_value(byte: u8) -> Option<u8>
    ensures { result ≡ bytes.octal_value byte }
{
    if b'0' <= byte && byte <= b'7' {
        Some(byte - b'0')
    } else {
        None
    }
}

fn hex_digit(text: &[u8]) -> Option<(u8, &[u8])>
    ensures { option_map (λ read. (read.0, read.1.now)) result
        ≡ grammar.digit_at bytes.hex_value text.now }
{
    let (byte, rest) = text.split_first()?;
    Some((hex_value(*byte)?, rest))
}

fn octal_digit(text: &[u8]) -> Option<(u8, &[u8])>
    ensures { option_map (λ read. (read.0, read.1.now)) result
        ≡ grammar.digit_at bytes.octal_value text.now }
{
    let (byte, rest) = text.split_first()?;
    Some((octal_value(*byte)?, rest))
}

// One or two hexadecimal digits: their value, and what follows them.
fn hex(text: &[u8]) -> Option<(u8, &[u8])>
    ensures { option_map (λ read. (read.0, read.1.now)) result ≡ scan.hex text.now }
{
    let (high, rest) = hex_digit(text)?;
    match hex_digit(rest) {
        Some((low, after)) => Some((16 * high + low, after)),
        None => Some((high, rest)),
    }
}

// One to three octal digits: their value, if a byte can hold it, and what follows them.
fn octal(text: &[u8]) -> Option<(u8, &[u8])>
    ensures { option_map (λ read. (read.0, read.1.now)) result ≡ scan.octal text.now }
{
    let (first, rest) = octal_digit(text)?;
    let Some((second, after)) = octal_digit(rest) else {
        return Some((first, rest));
    };
    let Some((third, last)) = octal_digit(after) else {
        return Some((8 * first + second, after));
    };
    let value = 64 * first as u16 + 8 * second as u16 + third as u16;
    let byte = u8::try_from(value).ok()?;
    Some((byte, last))
}

// What stands behind a backslash: the byte that it stands for, and what follows it.
fn escape(text: &[u8]) -> Option<(u8, &[u8])>
    ensures { option_map (λ read. (read.0, read.1.now)) result ≡ scan.escape text.now }
{
    let (byte, rest) = text.split_first()?;
    if is_itself(*byte) {
        return Some((*byte, rest));
    }
    if *byte == b'x' {
        return hex(rest);
    }
    match letter_byte(*byte) {
        Some(value) => Some((value, rest)),
        None => octal(text),
    }
}

// The first byte of a text in quotes, and what follows it. None at a quote, at a bad backslash and
// at the end.
pub fn quoted_byte(text: &[u8]) -> Option<(u8, &[u8])>
    ensures { option_map (λ read. (read.0, read.1.now)) result ≡ scan.quoted_byte text.now }
{
    let (byte, rest) = text.split_first()?;
    match *byte {
        b'"' => None,
        b'\\' => escape(rest),
        _ => Some((*byte, rest)),
    }
}
