//! The text of shortest paths.

ghost use Rattle.std.specs.Prelude.{◌≡◌, ◌++◌, codes, count_by, OnOk};
ghost use Rattle.std.specs.Option.{option_map_or};
ghost use Rattle.token_text.specs.Written.{written};
ghost use Rattle.report_text.specs.Lines as lines;
ghost use Rattle.report_text.specs.Texts as texts;

use crate::lines::push_line;
use crate::replies::{PathLine, Reply};
use crate::words::{push_name, push_signed, push_word};
use std::alloc::AllocError;
use token_text::Text;

/// Puts the line of each node, and the number of those to which there is a path.
pub fn push_paths(out: &mut Vec<u8>, paths: &[PathLine]) -> Result<(), AllocError>
    ensures { OnOk result (out.new.items
        ≡ out.old.items ++ texts.reply_text (Reply.Paths paths.now)) }
{
    for path in paths {
        push_path(out, path)?;
    }
    push_line(out, b"paths", &count_reached(paths))
}

// To how many nodes there is a path.
fn count_reached(paths: &[PathLine]) -> usize
    ensures { result ≡ count_by lines.is_reached paths.now }
{
    paths.iter().filter(|path| is_reached(path)).count()
}

// Puts the line of a node.
fn push_path(out: &mut Vec<u8>, path: &PathLine) -> Result<(), AllocError>
    ensures { OnOk result (out.new.items ≡ out.old.items ++ lines.path_text path.now) }
{
    match path {
        PathLine::Reached { node, dist, arc } => {
            out.push(b'd')?;
            push_name(out, node)?;
            push_signed(out, i128::from(*dist))?;
            push_arc(out, arc)?;
            out.push(b'\n')?;
            Ok(())
        }
        PathLine::Unreached { node } => push_line(out, b"u", node),
    }
}

// Puts the name of the last arc of a path, or `-` for the start's.
fn push_arc(out: &mut Vec<u8>, arc: &Option<Text>) -> Result<(), AllocError>
    ensures { OnOk result (out.new.items
        ≡ out.old.items ++ lines.word (option_map_or written arc.now (codes "-"))) }
{
    match arc {
        None => push_word(out, b"-"),
        Some(name) => push_name(out, name),
    }
}

// Whether there is a path to the node.
fn is_reached(path: &PathLine) -> bool
    ensures { result ≡ lines.is_reached path.now }
{
    match path {
        PathLine::Reached { .. } => true,
        PathLine::Unreached { .. } => false,
    }
}
