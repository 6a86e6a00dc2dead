//! The one written spelling of bytes as a token.

ghost use Rattle.std.specs.Prelude.{◌≡◌, ◌++◌, length, take, IfOk, OnOk, OnErr};
ghost use Rattle.std.specs.List.{list_all};
ghost use Rattle.token_text.specs.Written as written;

use crate::texts::{Text, copy_text};
use std::alloc::{AllocError, Global};

fn is_bare_byte(byte: u8) -> bool
    ensures { result ≡ written.is_bare_byte byte }
{
    byte > b' ' && byte != 127 && byte != b'"' && byte != b'\\'
}

fn starts_bare(bytes: &[u8]) -> bool
    ensures { result ≡ written.starts_bare bytes.now }
{
    match bytes.first() {
        Some(first) => *first != b'#' && *first != b'@',
        None => false,
    }
}

fn has_bare_bytes(bytes: &[u8]) -> bool
    ensures { result ≡ list_all written.is_bare_byte bytes.now }
{
    bytes.iter().all(|byte| is_bare_byte(*byte))
}

// Whether the bytes need no quotes.
fn is_bare(bytes: &[u8]) -> bool
    ensures { result ≡ written.is_bare bytes.now }
{
    starts_bare(bytes) && has_bare_bytes(bytes)
}

// Appends a byte as it is written in quotes.
fn push_spelled(out: &mut Vec<u8>, byte: u8) -> Result<(), AllocError>
    ensures ok { OnOk result (out.new.items ≡ out.old.items ++ written.spelled byte) }
    ensures err { OnErr result (out.new.items ≡ out.old.items) }
{
    match byte {
        b'"' | b'\\' => out.extend_from_slice(&[b'\\', byte]),
        7 => out.extend_from_slice(b"\\a"),
        8 => out.extend_from_slice(b"\\b"),
        9 => out.extend_from_slice(b"\\t"),
        10 => out.extend_from_slice(b"\\n"),
        11 => out.extend_from_slice(b"\\v"),
        12 => out.extend_from_slice(b"\\f"),
        13 => out.extend_from_slice(b"\\r"),
        0..=31 | 127 => out.extend_from_slice(&[
            b'\\',
            b'0' + byte / 64,
            b'0' + byte / 8 % 8,
            b'0' + byte % 8,
        ]),
        _ => out.extend_from_slice(&[byte]),
    }
}

// Appends the bytes in quotes. Where memory runs out, a part may have been appended.
fn push_quoted(out: &mut Vec<u8>, bytes: &[u8]) -> Result<(), AllocError>
    ensures ok { OnOk result (out.new.items ≡ out.old.items ++ written.quoted bytes.now) }
    ensures err { OnErr result (take (length out.old.items) out.new.items ≡ out.old.items) }
{
    out.extend_from_slice(b"\"")?;
    for byte in bytes {
        push_spelled(out, *byte)?;
    }
    out.extend_from_slice(b"\"")
}

/// Appends the written spelling of the bytes. Where memory runs out, nothing is appended.
pub fn push_token(out: &mut Vec<u8>, bytes: &[u8]) -> Result<(), AllocError>
    ensures ok { OnOk result (out.new.items ≡ out.old.items ++ written.written bytes.now) }
    ensures err { OnErr result (out.new.items ≡ out.old.items) }
{
    if is_bare(bytes) {
        return out.extend_from_slice(bytes);
    }
    let start = out.len();
    let pushed = push_quoted(out, bytes);
    if pushed.is_err() {
        out.truncate(start);
    }
    pushed
}

/// The written spelling of the bytes: plain where they need no quotes, and else in quotes.
pub fn token_bytes(alloc: Global, bytes: &[u8]) -> Result<Text, AllocError>
    ensures { IfOk result (λ text. text ≡ written.written bytes.now) }
{
    let mut out = Vec::new(alloc);
    push_token(&mut out, bytes)?;
    copy_text(alloc, out.as_slice())
}
