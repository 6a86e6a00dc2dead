//! Lines of replies for the tables: the first few of each kind, as lists.

use base_items::{ItemSort, List};
use report_text::{
    ArcLine, FlowLine, GuardLine, GuardNumbers, MeanLine, NodeLine, PairLine, PathLine,
    PotentialLine, Reply, SnapLine, reply_bytes,
};
use std::alloc::{AllocError, Global};
use token_text::{Text, copy_text};

/// Whether this is the text of the reply, which is dropped here, once for all tests: a reply has many variants.
pub fn is_text(alloc: Global, reply: Reply, wanted: &[u8]) -> bool {
    let text = reply_bytes(alloc, &reply);
    drop(reply);
    match text {
        Ok(bytes) => bytes.as_slice() == wanted,
        Err(_) => false,
    }
}

/// A word.
pub fn word(alloc: Global, bytes: &[u8]) -> Result<Text, AllocError> {
    copy_text(alloc, bytes)
}

const NAMES: [&[u8]; 3] = [b"", b"x/i", b"a b"];

/// The first so many names.
pub fn names(alloc: Global, count: usize) -> Result<List<Text>, AllocError> {
    let mut lines = Vec::new(alloc);
    for name in NAMES.iter().take(count) {
        lines.push(word(alloc, name)?)?;
    }
    Ok(List::from_vec(lines))
}

const NODES: [(u32, &[u8]); 2] = [(u32::MAX, b""), (0, b"#x")];

/// The first so many nodes.
pub fn nodes(alloc: Global, count: usize) -> Result<List<NodeLine>, AllocError> {
    let mut lines = Vec::new(alloc);
    for row in NODES.iter().take(count) {
        let name = word(alloc, row.1)?;
        lines.push(NodeLine { id: row.0, name })?;
    }
    Ok(List::from_vec(lines))
}

const ARCS: [(u32, &[u8], &[u8], &[u8]); 2] = [
    (u32::MAX, b"x y", b"a", b""),
    (0, b"k/+", b"b", b"a/o"),
];

/// The first so many arcs.
pub fn arcs(alloc: Global, count: usize) -> Result<List<ArcLine>, AllocError> {
    let mut lines = Vec::new(alloc);
    for row in ARCS.iter().take(count) {
        let name = word(alloc, row.1)?;
        let from = word(alloc, row.2)?;
        let to = word(alloc, row.3)?;
        lines.push(ArcLine {
            id: row.0,
            name,
            from,
            to,
        })?;
    }
    Ok(List::from_vec(lines))
}

const FLOWS: [(&[u8], i64); 3] = [(b"p q", i64::MAX), (b"r", -1), (b"s", i64::MIN)];

/// The first so many flows.
pub fn flows(alloc: Global, count: usize) -> Result<List<FlowLine>, AllocError> {
    let mut lines = Vec::new(alloc);
    for row in FLOWS.iter().take(count) {
        let arc = word(alloc, row.0)?;
        lines.push(FlowLine { arc, flow: row.1 })?;
    }
    Ok(List::from_vec(lines))
}

const POTENTIALS: [(&[u8], i64); 3] = [(b"u", 0), (b"v w", i64::MIN), (b"-", i64::MAX)];

/// The first so many potentials.
pub fn potentials(alloc: Global, count: usize) -> Result<List<PotentialLine>, AllocError> {
    let mut lines = Vec::new(alloc);
    for row in POTENTIALS.iter().take(count) {
        let node = word(alloc, row.0)?;
        lines.push(PotentialLine { node, pi: row.1 })?;
    }
    Ok(List::from_vec(lines))
}

const MEANS: [(&[u8], i128); 3] = [(b"u", i128::MIN), (b"v", 0), (b"w", i128::MAX)];

/// The first so many potentials beside a cycle of least mean.
pub fn means(alloc: Global, count: usize) -> Result<List<MeanLine>, AllocError> {
    let mut lines = Vec::new(alloc);
    for row in MEANS.iter().take(count) {
        let node = word(alloc, row.0)?;
        lines.push(MeanLine { node, pi: row.1 })?;
    }
    Ok(List::from_vec(lines))
}

const PAIRS: [(&[u8], &[u8], &[u8]); 2] = [(b"a", b"l 1", b"r"), (b"b", b"l", b"r2")];

/// The first so many pairs.
pub fn pairs(alloc: Global, count: usize) -> Result<List<PairLine>, AllocError> {
    let mut lines = Vec::new(alloc);
    for row in PAIRS.iter().take(count) {
        let arc = word(alloc, row.0)?;
        let left = word(alloc, row.1)?;
        let right = word(alloc, row.2)?;
        lines.push(PairLine { arc, left, right })?;
    }
    Ok(List::from_vec(lines))
}

// A node, its distance where there is a path, and the last arc of that, which the start lacks.
const PATHS: [(&[u8], Option<i64>, Option<&[u8]>); 5] = [
    (b"s", Some(0), None),
    (b"c d", None, None),
    (b"b", Some(i64::MIN), Some(b"f")),
    (b"", Some(i64::MAX), Some(b"")),
    (b"e", None, None),
];

// The name, where there is one.
fn option(alloc: Global, name: Option<&[u8]>) -> Result<Option<Text>, AllocError> {
    match name {
        None => Ok(None),
        Some(bytes) => Ok(Some(word(alloc, bytes)?)),
    }
}

/// The first so many nodes, as paths reach them.
pub fn paths(alloc: Global, count: usize) -> Result<List<PathLine>, AllocError> {
    let mut lines = Vec::new(alloc);
    for row in PATHS.iter().take(count) {
        let node = word(alloc, row.0)?;
        match row.1 {
            None => lines.push(PathLine::Unreached { node })?,
            Some(dist) => {
                let arc = option(alloc, row.2)?;
                lines.push(PathLine::Reached { node, dist, arc })?;
            }
        }
    }
    Ok(List::from_vec(lines))
}

// A guard of each kind: its name, its sort and its numbers.
const GUARDS: [(&[u8], ItemSort); 6] = [
    (b"q", ItemSort::Node),
    (b"l 1", ItemSort::Arc),
    (b"s", ItemSort::Arc),
    (b"o", ItemSort::Arc),
    (b"f", ItemSort::Node),
    (b"t", ItemSort::Arc),
];

// The numbers of the guard at this place.
fn numbers(place: usize) -> GuardNumbers {
    match place {
        0 => GuardNumbers::Quota {
            k: 4_194_304,
            items: 0,
        },
        1 => GuardNumbers::Loopless { items: u32::MAX },
        2 => GuardNumbers::Simple { items: 0 },
        3 => GuardNumbers::OutCap {
            k: 0,
            items: u32::MAX,
        },
        4 => GuardNumbers::Fuse { left: 1 },
        _ => GuardNumbers::Tally {
            added: u64::MAX,
            erased: 0,
            moved: 1,
        },
    }
}

/// The first so many guards.
pub fn guards(alloc: Global, count: usize) -> Result<List<GuardLine>, AllocError> {
    let mut lines = Vec::new(alloc);
    for (place, row) in GUARDS.iter().take(count).enumerate() {
        let name = word(alloc, row.0)?;
        lines.push(GuardLine {
            name,
            sort: row.1,
            numbers: numbers(place),
        })?;
    }
    Ok(List::from_vec(lines))
}

// A snapshot, and what was added where it is valid.
const SNAPS: [(&[u8], Option<(u32, u32)>); 2] = [(b"s", Some((0, u32::MAX))), (b"", None)];

/// The first so many snapshots.
pub fn snaps(alloc: Global, count: usize) -> Result<List<SnapLine>, AllocError> {
    let mut lines = Vec::new(alloc);
    for row in SNAPS.iter().take(count) {
        let name = word(alloc, row.0)?;
        match row.1 {
            Some((nodes, arcs)) => lines.push(SnapLine::Valid { name, nodes, arcs })?,
            None => lines.push(SnapLine::Stale { name })?,
        }
    }
    Ok(List::from_vec(lines))
}
