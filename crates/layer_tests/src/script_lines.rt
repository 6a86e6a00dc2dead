//! Script lines that say a command.

use crate::command_parts::says;
use script_words::{Command, read_line};
use std::alloc::Global;
use token_text::split_once;

// A line, what its command says, and a number. It says the variant and its words, parted by `|`,
// with `-` for an absent map. The number is that of a guard and one more, or tells whether there is
// a last option.
type Row = (&'static [u8], &'static [u8], u32);

const CHANGES: [Row; 14] = [
    (b"addnode n", b"AddNode|n", 0),
    (b" addarc\ta \"u v\" \"\"", b"AddArc|a|u v|", 0),
    (b"delnode u", b"DelNode|u", 0),
    (b"\"delarc\" a", b"DelArc|a", 0),
    (b"source a u", b"Source|a|u", 0),
    (b"target a v", b"Target|a|v", 0),
    (b"turn a\r", b"Turn|a", 0),
    (b"contract u v", b"Contract|u|v", 0),
    (b"contract u v \"loops\"", b"Contract|u|v", 1),
    (b"splitnode u n", b"SplitNode|u|n", 0),
    (b"splitnode u n -", b"SplitNode|u|n|-", 1),
    (b"splitarc a n b", b"SplitArc|a|n|b", 0),
    (b"clear", b"Clear", 0),
    (b"save out.lgf", b"Save|out.lgf", 0),
];

const MAPS: [Row; 13] = [
    (b"nodemap m int", b"NodeMap|m|int", 0),
    (b"arcmap \"m n\" bool", b"ArcMap|m n|bool", 0),
    (b"type arc cap \"text\"", b"Retype|arc|cap|text", 0),
    (b"set node m u \"\\x41\"", b"Set|node|m|u|A", 0),
    (b"get arc m a", b"Get|arc|m|a", 0),
    (b"degree d in", b"Degree|d|in", 0),
    (b"degree d out", b"Degree|d|out", 0),
    (b"trues node i m", b"Trues|node|i|m", 0),
    (b"items node i", b"Items|node|i", 0),
    (b"dropmap arc m", b"DropMap|arc|m", 0),
    (b"total arc m", b"Total|arc|m", 0),
    (b"least node m", b"Least|node|m", 0),
    (b"count \"arc\" m", b"Count|arc|m", 0),
];

const GUARDS_AND_SNAPSHOTS: [Row; 15] = [
    (b"guard g node quota 0", b"Guard|g|node|quota", 1),
    (b"guard g node fuse 0000001", b"Guard|g|node|fuse", 2),
    (b"guard g node tally", b"Guard|g|node|tally", 0),
    (
        b"guard g arc quota 4194304",
        b"Guard|g|arc|quota",
        4_194_305,
    ),
    (b"guard g arc loopless", b"Guard|g|arc|loopless", 0),
    (b"guard g arc simple", b"Guard|g|arc|simple", 0),
    (b"guard g arc outcap 12", b"Guard|g|arc|outcap", 13),
    (b"guard g arc fuse 4194304", b"Guard|g|arc|fuse", 4_194_305),
    (b"guard g arc tally", b"Guard|g|arc|tally", 0),
    (b"unguard g", b"Unguard|g", 0),
    (b"guards", b"Guards", 0),
    (b"snap s", b"Snap|s", 0),
    (b"restore s", b"Restore|s", 0),
    (b"forget s", b"Forget|s", 0),
    (b"snaps", b"Snaps", 0),
];

const VIEWS_AND_QUERIES: [Row; 21] = [
    (b"view v reverse w", b"View|v|w|reverse", 0),
    (b"view v undirect w", b"View|v|w|undirect", 0),
    (b"view v split w", b"View|v|w|split", 0),
    (b"view v sub w - m", b"View|v|w|sub|-|m", 0),
    (b"view v sub w n \"-\"", b"View|v|w|sub|n|-", 0),
    (b"view v residual w c f", b"View|v|w|residual|c|f", 0),
    (b"keep v", b"Keep|v", 0),
    (b"unview v", b"Unview|v", 0),
    (b"nodes base", b"Nodes|base", 0),
    (b"arcs v", b"Arcs|v", 0),
    (b"out v n", b"Out|v|n", 0),
    (b"in v n", b"In|v|n", 0),
    (b"dijkstra v l n", b"Dijkstra|v|l|n", 0),
    (b"bellman v l n", b"Bellman|v|l|n", 0),
    (b"maxflow v c s t", b"MaxFlow|v|c|s|t", 0),
    (b"maxflow v c s t \"into\" m", b"MaxFlow|v|c|s|t|m", 1),
    (b"circulate v - u -", b"Circulate|v|-|u|-", 0),
    (b"circulate v l - s into m", b"Circulate|v|l|-|s|m", 1),
    (b"mincost v - u c s", b"MinCost|v|-|u|c|s", 0),
    (b"mincost v l - c - into m", b"MinCost|v|l|-|c|-|m", 1),
    (b"match v l", b"Match|v|l", 0),
];

const YOUNG: [Row; 14] = [
    (b"simplex v - u c s", b"Simplex|v|-|u|c|s", 0),
    (b"simplex v l - c - into m", b"Simplex|v|l|-|c|-|m", 1),
    (
        b"\"simplex\" v l u c s \"into\" -",
        b"Simplex|v|l|u|c|s|-",
        1,
    ),
    (b"heaviest v l w", b"Heaviest|v|l|w", 0),
    (b"assign v l w", b"Assign|v|l|w", 0),
    (b"meancycle v l", b"MeanCycle|v|l", 0),
    (b"meancycle v l t", b"MeanCycle|v|l|t", 1),
    (b"meancycle v l -", b"MeanCycle|v|l|-", 1),
    (b"tie a node", b"Tie|a|node", 0),
    (b"tie \"a b\" \"a\\x72c\"", b"Tie|a b|arc", 0),
    (b"untie a", b"Untie|a", 0),
    (b"attr \"\"", b"Attr|", 0),
    (b"relabel node a b", b"Relabel|node|a|b", 0),
    (b"relabel arc a -\r", b"Relabel|arc|a|-", 0),
];

// Whether these are the words, which are parted by `|`.
fn are_words(told: &[&[u8]; 6], wanted: &[u8]) -> bool {
    let mut rest = wanted;
    for i in 0..6 {
        let (word, after) = match split_once(rest, b'|') {
            Some((word, after)) => (word, after),
            None => (rest, b"".as_slice()),
        };
        if told[i] != word {
            return false;
        }
        rest = after;
    }
    true
}

// Whether the command says this.
fn is_told(command: &Command, said: &[u8], number: u32) -> bool {
    let Some(told) = says(command) else {
        return false;
    };
    let (variant, words) = match split_once(said, b'|') {
        Some((variant, words)) => (variant, words),
        None => (said, b"".as_slice()),
    };
    told.variant == variant && told.number == number && are_words(&told.words, words)
}

// Whether the line says this.
fn line_says(alloc: Global, line: &[u8], said: &[u8], number: u32) -> bool {
    match read_line(alloc, line) {
        Ok(Some(command)) => is_told(&command, said, number),
        _ => false,
    }
}

#[test]
fn reads_changes(rt: HostRuntime) {
    for (line, said, number) in CHANGES {
        assert!(rt; line_says(rt.alloc(), line, said, number), "at {line:?}");
    }
}

#[test]
fn reads_maps(rt: HostRuntime) {
    for (line, said, number) in MAPS {
        assert!(rt; line_says(rt.alloc(), line, said, number), "at {line:?}");
    }
}

#[test]
fn reads_guards_and_snapshots(rt: HostRuntime) {
    for (line, said, number) in GUARDS_AND_SNAPSHOTS {
        assert!(rt; line_says(rt.alloc(), line, said, number), "at {line:?}");
    }
}

#[test]
fn reads_views_and_queries(rt: HostRuntime) {
    for (line, said, number) in VIEWS_AND_QUERIES {
        assert!(rt; line_says(rt.alloc(), line, said, number), "at {line:?}");
    }
}

#[test]
fn reads_young_forms(rt: HostRuntime) {
    for (line, said, number) in YOUNG {
        assert!(rt; line_says(rt.alloc(), line, said, number), "at {line:?}");
    }
}
