//! What commands say, as words that a table can have.

use base_items::ItemSort;
use script_words::{Command, Direction, GuardWord, LayerWord, MapType};
use token_text::Text;

/// What a command says: its variant, its words, and the number of a guard and one more, or whether
/// there is a last option.
#[derive(Clone, Copy)]
pub struct Parts<'a> {
    pub variant: &'static [u8],
    pub words: [&'a [u8]; 6],
    pub number: u32,
}

fn parts_of<'a>(variant: &'static [u8], words: [&'a [u8]; 6], number: u32) -> Parts<'a> {
    Parts {
        variant,
        words,
        number,
    }
}

fn none() -> [&'static [u8]; 6] {
    [b"", b"", b"", b"", b"", b""]
}

fn one<'a>(first: &'a Text) -> [&'a [u8]; 6] {
    [first.as_bytes(), b"", b"", b"", b"", b""]
}

fn two<'a>(first: &'a Text, second: &'a Text) -> [&'a [u8]; 6] {
    [first.as_bytes(), second.as_bytes(), b"", b"", b"", b""]
}

fn three<'a>(first: &'a Text, second: &'a Text, third: &'a Text) -> [&'a [u8]; 6] {
    [
        first.as_bytes(),
        second.as_bytes(),
        third.as_bytes(),
        b"",
        b"",
        b"",
    ]
}

fn option<'a>(text: &'a Option<Text>, absent: &'a [u8]) -> &'a [u8] {
    match text {
        Some(text) => text.as_bytes(),
        None => absent,
    }
}

fn sort_word<'a>(sort: ItemSort) -> &'a [u8] {
    match sort {
        ItemSort::Node => b"node",
        ItemSort::Arc => b"arc",
    }
}

fn type_word<'a>(map_type: MapType) -> &'a [u8] {
    match map_type {
        MapType::Ints => b"int",
        MapType::Bools => b"bool",
        MapType::Texts => b"text",
    }
}

fn guard_word<'a>(kind: GuardWord) -> &'a [u8] {
    match kind {
        GuardWord::Quota => b"quota",
        GuardWord::Loopless => b"loopless",
        GuardWord::Simple => b"simple",
        GuardWord::OutCap => b"outcap",
        GuardWord::Fuse => b"fuse",
        GuardWord::Tally => b"tally",
    }
}

fn direction_word<'a>(direction: Direction) -> &'a [u8] {
    match direction {
        Direction::In => b"in",
        Direction::Out => b"out",
    }
}

fn change(command: &Command) -> Option<Parts<'_>> {
    match command {
        Command::AddNode(label) => Some(parts_of(b"AddNode", one(label), 0)),
        Command::AddArc(label, from, to) => Some(parts_of(b"AddArc", three(label, from, to), 0)),
        Command::DelNode(node) => Some(parts_of(b"DelNode", one(node), 0)),
        Command::DelArc(arc) => Some(parts_of(b"DelArc", one(arc), 0)),
        Command::Source(arc, node) => Some(parts_of(b"Source", two(arc, node), 0)),
        Command::Target(arc, node) => Some(parts_of(b"Target", two(arc, node), 0)),
        Command::Turn(arc) => Some(parts_of(b"Turn", one(arc), 0)),
        Command::Contract(node, other, loops) => {
            Some(parts_of(b"Contract", two(node, other), u32::from(*loops)))
        }
        Command::SplitNode(node, label, None) => Some(parts_of(b"SplitNode", two(node, label), 0)),
        Command::SplitNode(node, label, Some(arc)) => {
            Some(parts_of(b"SplitNode", three(node, label, arc), 1))
        }
        Command::SplitArc(arc, label, new) => Some(parts_of(
            b"SplitArc",
            three(arc, label, new),
            0,
        )),
        Command::Clear => Some(parts_of(b"Clear", none(), 0)),
        _ => None,
    }
}

// A sort, and what stands behind it.
fn sorted<'a>(sort: ItemSort, name: &'a Text, third: &'a [u8], fourth: &'a [u8]) -> [&'a [u8]; 6] {
    [sort_word(sort), name.as_bytes(), third, fourth, b"", b""]
}

fn map(command: &Command) -> Option<Parts<'_>> {
    match command {
        Command::NodeMap(name, map_type) => {
            Some(parts_of(
                b"NodeMap",
                [name.as_bytes(), type_word(*map_type), b"", b"", b"", b""],
                0,
            ))
        }
        Command::ArcMap(name, map_type) => {
            Some(parts_of(
                b"ArcMap",
                [name.as_bytes(), type_word(*map_type), b"", b"", b"", b""],
                0,
            ))
        }
        Command::Retype(sort, name, map_type) => {
            Some(parts_of(b"Retype", sorted(*sort, name, type_word(*map_type), b""), 0))
        }
        Command::Set(sort, name, item, value) => {
            Some(parts_of(
                b"Set",
                sorted(*sort, name, item.as_bytes(), value.as_bytes()),
                0,
            ))
        }
        Command::Get(sort, name, item) => {
            Some(parts_of(b"Get", sorted(*sort, name, item.as_bytes(), b""), 0))
        }
        Command::Degree(name, direction) => {
            Some(parts_of(
                b"Degree",
                [
                    name.as_bytes(),
                    direction_word(*direction),
                    b"",
                    b"",
                    b"",
                    b"",
                ],
                0,
            ))
        }
        Command::Trues(sort, index, name) => {
            Some(parts_of(b"Trues", sorted(*sort, index, name.as_bytes(), b""), 0))
        }
        Command::Items(sort, index) => Some(parts_of(b"Items", sorted(*sort, index, b"", b""), 0)),
        Command::DropMap(sort, name) => Some(parts_of(
            b"DropMap",
            sorted(*sort, name, b"", b""),
            0,
        )),
        Command::Total(sort, name) => Some(parts_of(b"Total", sorted(*sort, name, b"", b""), 0)),
        Command::Least(sort, name) => Some(parts_of(b"Least", sorted(*sort, name, b"", b""), 0)),
        Command::Count(sort, name) => Some(parts_of(b"Count", sorted(*sort, name, b"", b""), 0)),
        _ => None,
    }
}

fn attribute(command: &Command) -> Option<Parts<'_>> {
    match command {
        Command::Tie(name, sort) => {
            Some(parts_of(
                b"Tie",
                [name.as_bytes(), sort_word(*sort), b"", b"", b"", b""],
                0,
            ))
        }
        Command::Untie(name) => Some(parts_of(b"Untie", one(name), 0)),
        Command::Attr(name) => Some(parts_of(b"Attr", one(name), 0)),
        Command::Relabel(sort, old, new) => {
            Some(parts_of(b"Relabel", sorted(*sort, old, new.as_bytes(), b""), 0))
        }
        _ => None,
    }
}

fn attached(command: &Command) -> Option<Parts<'_>> {
    match command {
        Command::Guard(name, sort, kind, number) => {
            let words = [
                name.as_bytes(),
                sort_word(*sort),
                guard_word(*kind),
                b"",
                b"",
                b"",
            ];
            match number {
                Some(most) => Some(parts_of(b"Guard", words, most.saturating_add(1))),
                None => Some(parts_of(b"Guard", words, 0)),
            }
        }
        Command::Unguard(name) => Some(parts_of(b"Unguard", one(name), 0)),
        Command::Guards => Some(parts_of(b"Guards", none(), 0)),
        Command::Snap(name) => Some(parts_of(b"Snap", one(name), 0)),
        Command::Restore(name) => Some(parts_of(b"Restore", one(name), 0)),
        Command::Forget(name) => Some(parts_of(b"Forget", one(name), 0)),
        Command::Snaps => Some(parts_of(b"Snaps", none(), 0)),
        Command::Keep(view) => Some(parts_of(b"Keep", one(view), 0)),
        Command::Unview(view) => Some(parts_of(b"Unview", one(view), 0)),
        Command::Nodes(view) => Some(parts_of(b"Nodes", one(view), 0)),
        Command::Arcs(view) => Some(parts_of(b"Arcs", one(view), 0)),
        Command::Out(view, node) => Some(parts_of(b"Out", two(view, node), 0)),
        Command::In(view, node) => Some(parts_of(b"In", two(view, node), 0)),
        _ => None,
    }
}

// The word of a layer and its maps.
fn layer_words(layer: &LayerWord) -> [&[u8]; 3] {
    match layer {
        LayerWord::Reverse => [b"reverse", b"", b""],
        LayerWord::Undirect => [b"undirect", b"", b""],
        LayerWord::Split => [b"split", b"", b""],
        LayerWord::Sub(nodes, arcs) => [b"sub", option(nodes, b"-"), option(arcs, b"-")],
        LayerWord::Residual(capacity, flow) => {
            [b"residual", capacity.as_bytes(), flow.as_bytes()]
        }
    }
}

fn query(command: &Command) -> Option<Parts<'_>> {
    match command {
        Command::View(view, layer, below) => {
            let words = layer_words(layer);
            let all = [
                view.as_bytes(),
                below.as_bytes(),
                words[0],
                words[1],
                words[2],
                b"",
            ];
            Some(parts_of(b"View", all, 0))
        }
        Command::Dijkstra(view, length, node) => {
            Some(parts_of(b"Dijkstra", three(view, length, node), 0))
        }
        Command::Bellman(view, length, node) => {
            Some(parts_of(b"Bellman", three(view, length, node), 0))
        }
        Command::MaxFlow(view, capacity, from, to, into) => {
            let words = [
                view.as_bytes(),
                capacity.as_bytes(),
                from.as_bytes(),
                to.as_bytes(),
                option(into, b""),
                b"",
            ];
            Some(parts_of(b"MaxFlow", words, u32::from(into.is_some())))
        }
        Command::Circulate(view, low, up, supply, into) => {
            let words = [
                view.as_bytes(),
                option(low, b"-"),
                option(up, b"-"),
                option(supply, b"-"),
                option(into, b""),
                b"",
            ];
            Some(parts_of(b"Circulate", words, u32::from(into.is_some())))
        }
        Command::MinCost(view, low, up, cost, supply, into) => {
            let words = [
                view.as_bytes(),
                option(low, b"-"),
                option(up, b"-"),
                cost.as_bytes(),
                option(supply, b"-"),
                option(into, b""),
            ];
            Some(parts_of(b"MinCost", words, u32::from(into.is_some())))
        }
        Command::Simplex(view, low, up, cost, supply, into) => {
            let words = [
                view.as_bytes(),
                option(low, b"-"),
                option(up, b"-"),
                cost.as_bytes(),
                option(supply, b"-"),
                option(into, b""),
            ];
            Some(parts_of(b"Simplex", words, u32::from(into.is_some())))
        }
        Command::Heaviest(view, left, weight) => {
            Some(parts_of(b"Heaviest", three(view, left, weight), 0))
        }
        Command::Assign(view, left, cost) => {
            Some(parts_of(b"Assign", three(view, left, cost), 0))
        }
        Command::MeanCycle(view, length, None) => {
            Some(parts_of(b"MeanCycle", two(view, length), 0))
        }
        Command::MeanCycle(view, length, Some(time)) => {
            Some(parts_of(b"MeanCycle", three(view, length, time), 1))
        }
        Command::Match(view, left) => Some(parts_of(b"Match", two(view, left), 0)),
        Command::Save(file) => Some(parts_of(b"Save", one(file), 0)),
        _ => None,
    }
}

/// What the command says.
pub fn says(command: &Command) -> Option<Parts<'_>> {
    if let Some(parts) = change(command) {
        return Some(parts);
    }
    if let Some(parts) = map(command) {
        return Some(parts);
    }
    if let Some(parts) = attached(command) {
        return Some(parts);
    }
    if let Some(parts) = attribute(command) {
        return Some(parts);
    }
    query(command)
}
