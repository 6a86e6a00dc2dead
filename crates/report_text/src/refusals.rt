//! The text that refuses a line.

ghost use Rattle.std.specs.Prelude.{◌≡◌, ◌++◌, IfOk, OnOk};
ghost use Rattle.std.specs.List.{flat_map};
ghost use Rattle.report_text.specs.Lines as lines;
ghost use Rattle.report_text.specs.Texts as texts;

use crate::faults::Fault;
use crate::words::{push_name, push_number, push_signed, push_word, sort_name};
use std::alloc::{AllocError, Global};

/// The text that refuses the line with this number, counted from 1: `! LINE NUMBER NAME`, and what
/// the fault keeps, names and tokens as they are written.
pub fn fault_bytes(alloc: Global, line: u64, fault: &Fault) -> Result<Vec<u8>, AllocError>
    ensures { IfOk result (λ text. text.items ≡ texts.fault_text line fault.now) }
{
    let mut out = Vec::new(alloc);
    out.push(b'!')?;
    push_number(&mut out, line)?;
    push_word(&mut out, title(fault))?;
    push_kept(&mut out, fault)?;
    out.push(b'\n')?;
    Ok(out)
}

// The number and the name of the fault.
fn title(fault: &Fault) -> &'static [u8]
    ensures { result.now ≡ texts.title fault.now }
{
    match fault {
        Fault::BadLine(_) => b"1 BadLine",
        Fault::Unknown(_) => b"2 Unknown",
        Fault::Taken(_) => b"3 Taken",
        Fault::Vetoed(_) => b"4 Vetoed",
        Fault::Stale(_) => b"5 Stale",
        Fault::BadValue(_, _) => b"6 BadValue",
        Fault::WrongType(_) => b"7 WrongType",
        Fault::OutOfRange(_, _) => b"8 OutOfRange",
        Fault::SameNode(_) => b"9 SameNode",
        Fault::Negative(_) => b"10 Negative",
        Fault::Crossed(_) => b"11 Crossed",
        Fault::NotBipartite(_) => b"12 NotBipartite",
        Fault::Full(_, _) => b"13 Full",
        Fault::TooDeep(_) => b"14 TooDeep",
        Fault::NoGuard(_) => b"15 NoGuard",
        Fault::InUse(_) => b"16 InUse",
        Fault::NoErase(_) => b"17 NoErase",
    }
}

// Puts what the fault keeps to the text.
fn push_kept(out: &mut Vec<u8>, fault: &Fault) -> Result<(), AllocError>
    ensures { OnOk result (out.new.items
        ≡ out.old.items ++ flat_map lines.word (texts.kept fault.now)) }
{
    match fault {
        Fault::BadLine(column) => push_number(out, *column as u64),
        Fault::BadValue(item, token) => {
            push_name(out, item)?;
            push_name(out, token)
        }
        Fault::OutOfRange(item, value) => {
            push_name(out, item)?;
            push_signed(out, *value)
        }
        Fault::Full(sort, limit) => {
            push_word(out, sort_name(*sort))?;
            push_number(out, u64::from(*limit))
        }
        Fault::TooDeep(limit) => push_number(out, u64::from(*limit)),
        Fault::Unknown(name)
        | Fault::Taken(name)
        | Fault::Vetoed(name)
        | Fault::Stale(name)
        | Fault::WrongType(name)
        | Fault::SameNode(name)
        | Fault::Negative(name)
        | Fault::Crossed(name)
        | Fault::NotBipartite(name)
        | Fault::NoGuard(name)
        | Fault::InUse(name)
        | Fault::NoErase(name) => push_name(out, name),
    }
}
