//! The text of a reply.

ghost use Rattle.std.specs.Prelude.{◌≡◌, ◌++◌, codes, IfOk, OnOk};
ghost use Rattle.report_text.specs.Lines as lines;
ghost use Rattle.report_text.specs.Texts as texts;

use crate::lines::{push_block, push_line, push_lines, push_listing};
use crate::paths::push_paths;
use crate::replies::{MeanLine, Reply};
use crate::words::{push_name, push_signed, push_word, side_word};
use std::alloc::{AllocError, Global};
use token_text::Text;

/// The text of the reply: a line for each item listed, and one that ends them, with their number or
/// with what was found. The text of Quiet is empty.
pub fn reply_bytes(alloc: Global, reply: &Reply) -> Result<Vec<u8>, AllocError>
    ensures { IfOk result (λ text. text.items ≡ texts.reply_text reply.now) }
{
    let mut out = Vec::new(alloc);
    push_reply(&mut out, reply)?;
    Ok(out)
}

// Puts the text of the reply.
fn push_reply(out: &mut Vec<u8>, reply: &Reply) -> Result<(), AllocError>
    ensures { OnOk result (out.new.items ≡ out.old.items ++ texts.reply_text reply.now) }
{
    match reply {
        Reply::Quiet => Ok(()),
        Reply::Nodes(nodes) => push_listing(out, b"n", nodes.as_slice(), b"nodes"),
        Reply::Arcs(arcs) => push_listing(out, b"a", arcs.as_slice(), b"arcs"),
        Reply::Out(arcs) => push_listing(out, b"a", arcs.as_slice(), b"out"),
        Reply::In(arcs) => push_listing(out, b"a", arcs.as_slice(), b"in"),
        Reply::Value(value) => push_line(out, b"value", value),
        Reply::Total(sum) => push_line(out, b"total", sum),
        Reply::Count(number) => push_line(out, b"count", number),
        Reply::Least(least) => push_least(out, least),
        Reply::Items(items) => push_listing(out, b"i", items.as_slice(), b"items"),
        Reply::Guards(guards) => push_listing(out, b"g", guards.as_slice(), b"guards"),
        Reply::Snaps(snaps) => push_listing(out, b"k", snaps.as_slice(), b"snaps"),
        Reply::Paths(paths) => push_paths(out, paths.as_slice()),
        Reply::Cycle(arcs, length) => push_block(out, b"a", arcs.as_slice(), b"cycle", length),
        Reply::MaxFlow(flows, side, value) => {
            push_lines(out, b"f", flows.as_slice())?;
            push_block(out, b"s", side.as_slice(), b"maxflow", value)
        }
        Reply::Circulation(flows) => {
            push_lines(out, b"f", flows.as_slice())?;
            out.extend_from_slice(b"circulation\n")
        }
        Reply::Barrier(set, over, supply, limit) => {
            push_lines(out, b"b", set.as_slice())?;
            push_barrier(out, *over, *supply, *limit)
        }
        Reply::Cheapest(flows, potentials, cost) => {
            push_lines(out, b"f", flows.as_slice())?;
            push_block(out, b"p", potentials.as_slice(), b"cost", cost)
        }
        Reply::FreeCycle(flows, arcs, cost) => {
            push_lines(out, b"f", flows.as_slice())?;
            push_block(out, b"a", arcs.as_slice(), b"unbounded", cost)
        }
        Reply::Match(pairs, set) => {
            push_lines(out, b"m", pairs.as_slice())?;
            push_block(out, b"h", set.as_slice(), b"match", &pairs.len())
        }
        Reply::Heavy(pairs, duals, weight) => {
            push_lines(out, b"m", pairs.as_slice())?;
            push_block(out, b"y", duals.as_slice(), b"heaviest", weight)
        }
        Reply::Assigned(pairs, duals, cost) => {
            push_lines(out, b"m", pairs.as_slice())?;
            push_block(out, b"y", duals.as_slice(), b"assign", cost)
        }
        Reply::Short(set) => push_listing(out, b"h", set.as_slice(), b"unassigned"),
        Reply::Mean(arcs, potentials, total, time) => {
            push_lines(out, b"a", arcs.as_slice())?;
            push_mean(out, potentials.as_slice(), *total, *time)
        }
        Reply::Acyclic(nodes) => {
            push_lines(out, b"t", nodes.as_slice())?;
            out.extend_from_slice(b"acyclic\n")
        }
        Reply::Save(_, bytes) => push_line(out, b"saved", &bytes.len()),
    }
}

// Puts the line of the least value of a map.
fn push_least(out: &mut Vec<u8>, least: &Option<(i64, Text)>) -> Result<(), AllocError>
    ensures { OnOk result (out.new.items
        ≡ out.old.items ++ texts.reply_text (Reply.Least least.now)) }
{
    match least {
        None => out.extend_from_slice(b"least -\n"),
        Some((value, name)) => {
            out.extend_from_slice(b"least")?;
            push_signed(out, i128::from(*value))?;
            push_name(out, name)?;
            out.push(b'\n')?;
            Ok(())
        }
    }
}

// Puts the line that ends a barrier.
fn push_barrier(out: &mut Vec<u8>, over: bool, supply: i128, limit: i128) -> Result<(), AllocError>
    ensures { OnOk result (out.new.items ≡ out.old.items ++ texts.barrier_text over supply limit) }
{
    out.extend_from_slice(b"barrier")?;
    push_word(out, side_word(over))?;
    push_signed(out, supply)?;
    push_signed(out, limit)?;
    out.push(b'\n')?;
    Ok(())
}

// Puts the potentials that go with a cycle of least mean, and its total and time.
fn push_mean(
    out: &mut Vec<u8>,
    potentials: &[MeanLine],
    total: i64,
    time: i64,
) -> Result<(), AllocError>
    ensures { OnOk result (out.new.items ≡ out.old.items
        ++ lines.lines_text (codes "p") lines.mean_words potentials.now
        ++ texts.mean_text total time) }
{
    push_lines(out, b"p", potentials)?;
    push_ratio(out, total, time)
}

// Puts the line that ends a cycle of least mean.
fn push_ratio(out: &mut Vec<u8>, total: i64, time: i64) -> Result<(), AllocError>
    ensures { OnOk result (out.new.items ≡ out.old.items ++ texts.mean_text total time) }
{
    out.extend_from_slice(b"mean")?;
    push_signed(out, i128::from(total))?;
    push_signed(out, i128::from(time))?;
    out.push(b'\n')?;
    Ok(())
}
