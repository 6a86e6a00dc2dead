//! Files above their limits, and a graph that is full.

use super::{EMPTY, RUN, words_of};
use crate::pool::serve_with_boxes;
use edge_io::{MemShelf, MemSink};
use itoa::Buffer;
use plain_machine::Status;
use std::alloc::{AllocError, Global};
use std::process::Abort;
use std::test::Fail;

// Runs the script on the graph. The status, whether a world is handed back, and the report.
fn run_texts(
    alloc: Global,
    graph: Vec<u8>,
    script: Vec<u8>,
) -> Result<(Status, bool, Vec<u8>), AllocError> {
    let mut shelf = MemShelf::new(alloc);
    shelf.add_file(Vec::from_slice(alloc, b"g")?, graph)?;
    shelf.add_file(Vec::from_slice(alloc, b"s")?, script)?;
    let mut report = MemSink::new(alloc);
    let words = words_of(alloc, RUN)?;
    let (status, has_world) = serve_with_boxes(alloc, words.as_slice(), &mut shelf, &mut report)?;
    Ok((status, has_world, Vec::from_slice(alloc, report.taken())?))
}

fn check_too_long<R: Abort>(
    rt: &R,
    alloc: Global,
    graph: Vec<u8>,
    script: Vec<u8>,
) -> Result<(), AllocError> {
    let (status, has_world, report) = run_texts(alloc, graph, script)?;
    assert_eq!(rt; status, Status::TooLong);
    assert!(rt; !has_world);
    assert_eq!(rt; report.len(), 0);
    Ok(())
}

#[test]
fn a_script_above_its_limit(rt: HostRuntime) -> Result<(), Fail> {
    let alloc = rt.alloc();
    let graph = Vec::from_slice(alloc, EMPTY)?;
    let script = vec![in alloc; b'#'; 16_777_217]?;
    Ok(check_too_long(&rt, alloc, graph, script)?)
}

#[test]
fn a_graph_above_its_limit(rt: HostRuntime) -> Result<(), Fail> {
    let alloc = rt.alloc();
    let graph = vec![in alloc; b'#'; 67_108_865]?;
    let script = Vec::from_slice(alloc, b"#")?;
    Ok(check_too_long(&rt, alloc, graph, script)?)
}

// A graph file with this many nodes and no arcs, whose labels are their ids.
fn many_nodes(alloc: Global, count: u32) -> Result<Vec<u8>, AllocError> {
    let mut text = Vec::from_slice(alloc, b"@nodes\nlabel\n")?;
    for id in 0..count {
        let mut buffer = Buffer::new();
        text.extend_from_slice(buffer.format(id).as_bytes())?;
        text.push(b'\n')?;
    }
    text.extend_from_slice(b"@arcs\n-\n")?;
    Ok(text)
}

#[test]
fn a_graph_that_is_full(rt: HostRuntime) -> Result<(), Fail> {
    let alloc = rt.alloc();
    let graph = many_nodes(alloc, 1_048_576)?;
    let script = Vec::from_slice(alloc, b"addnode x\n")?;
    let (status, has_world, report) = run_texts(alloc, graph, script)?;
    assert_eq!(rt; status, Status::SomeRefused);
    assert!(rt; has_world);
    assert_eq!(rt;
        report.as_slice(),
        b"! 1 13 Full nodes 1048576\n".as_slice()
    );
    Ok(())
}
