//! A large graph is made, changed, listed ten times and saved.

use super::{RUN, words_of};
use crate::pool::serve_with_boxes;
use edge_io::{MemShelf, MemSink};
use plain_machine::Status;
use std::alloc::{AllocError, Global};
use std::test::Fail;

const SCRIPT: &[u8] = b"delnode 5\ncontract 6 7\narcs base\narcs base\narcs base\narcs base\n\
    arcs base\narcs base\narcs base\narcs base\narcs base\narcs base\nsave o\n";

// The text of a graph of 100,000 nodes and 400,000 arcs.
fn large_graph(alloc: Global) -> Result<(Status, Vec<u8>), AllocError> {
    let mut shelf = MemShelf::new(alloc);
    let mut report = MemSink::new(alloc);
    let words = words_of(alloc, &[b"make", b"7", b"100000", b"400000"])?;
    let (status, _) = serve_with_boxes(alloc, words.as_slice(), &mut shelf, &mut report)?;
    Ok((status, Vec::from_slice(alloc, report.taken())?))
}

// The status of the run, the length of the report and its last bytes, and the length of the file
// that was saved.
fn run_large(
    alloc: Global,
    graph: Vec<u8>,
) -> Result<(Status, usize, Vec<u8>, Option<usize>), AllocError> {
    let mut shelf = MemShelf::new(alloc);
    shelf.add_file(Vec::from_slice(alloc, b"g")?, graph)?;
    shelf.add_file(
        Vec::from_slice(alloc, b"s")?,
        Vec::from_slice(alloc, SCRIPT)?,
    )?;
    let mut report = MemSink::new(alloc);
    let words = words_of(alloc, RUN)?;
    let (status, _) = serve_with_boxes(alloc, words.as_slice(), &mut shelf, &mut report)?;
    let taken = report.taken();
    let end = Vec::from_slice(alloc, &taken[taken.len().saturating_sub(27)..])?;
    let saved = match shelf.file(b"o") {
        Some(bytes) => Some(bytes.len()),
        None => None,
    };
    Ok((status, taken.len(), end, saved))
}

#[test]
fn a_large_graph_is_listed_ten_times(rt: HostRuntime) -> Result<(), Fail> {
    let alloc = rt.alloc();
    let (made, graph) = large_graph(alloc)?;
    assert_eq!(&rt; made, Status::Done);
    assert_eq!(&rt; graph.len(), 11_600_770);
    let (status, length, end, saved) = run_large(alloc, graph)?;
    assert_eq!(&rt; status, Status::Done);
    assert_eq!(&rt; length, 108_887_995);
    assert_eq!(&rt; end.as_slice(), b"arcs 399989\nsaved 11600508\n".as_slice());
    assert_eq!(&rt; saved, Some(11_600_508));
    Ok(())
}
