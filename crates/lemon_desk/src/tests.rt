//! Rows of the program over memory, a file for each subject.

mod alterations;
mod circulations;
mod costs;
mod derived;
mod drilling;
mod faults;
mod flows;
mod graphs;
mod guards;
mod kept;
mod large_run;
mod limits;
mod making;
mod maps;
mod no_graphs;
mod own_box;
mod pairings;
mod paths;
mod saves;
mod scripts;
mod snapshots;
mod views;

use crate::pool::serve_with_boxes;
use edge_io::{MemShelf, MemSink};
use plain_machine::Status;
use std::alloc::{AllocError, Global};
use std::process::Abort;

// Words, files by name, and the call of the sink, of the stores and of the reads that fails (0 for
// none). Then what is wanted: the report, files by name, and the status.
#[derive(Clone, Copy)]
struct Row<'a> {
    name: &'a str,
    words: &'a [&'a [u8]],
    files: &'a [(&'a [u8], &'a [u8])],
    bad_put: u64,
    bad_store: u64,
    bad_read: u64,
    report: &'a [u8],
    saved: &'a [(&'a [u8], &'a [u8])],
    status: Status,
}

const RUN: &[&[u8]] = &[b"run", b"g", b"s"];

// A run in which nothing fails. The rows are this one but for what they name.
const PLAIN: Row<'static> = Row {
    name: "",
    words: RUN,
    files: &[],
    bad_put: 0,
    bad_store: 0,
    bad_read: 0,
    report: b"",
    saved: &[],
    status: Status::Done,
};

const EMPTY: &[u8] = b"@nodes\nlabel\n@arcs\n-\n";

const TWO: &[u8] = b"@nodes\nlabel\na\nb\n@arcs\n-\n";

const TWO_LISTED: &[u8] = b"n 1 b\nn 0 a\nnodes 2\n";

const JOINED: &[u8] = b"@nodes\nlabel\na\nb\n@arcs\n-\na b\n";

const JOINED_SAVED: &[u8] = b"@nodes\nlabel\t\na\t\nb\t\n@arcs\n\t\tlabel\t\na\tb\t0\t\n";

const CHAIN: &[u8] = b"@nodes\nlabel\nu\nv\nw\n@arcs\nlabel cap\nu v a 5\nv w b 3\n";

const LOOPS: &[u8] =
    b"@nodes\nlabel\nu\nv\nw\n@arcs\nlabel\nu v p\nv u q\nu u r\nv v s\nv w t\nw v x\n";

// A file as it is written.
const STATIONS: &[u8] = b"@nodes\nlabel\ttitle\t\n0\t\"North gate\"\t\n1\tDepot\t\n\
    2\t\"Say \\\"hi\\\"\"\t\n@arcs\n\t\tlabel\tcapacity\tcost\t\n0\t1\t0\t16\t4\t\n\
    0\t2\t1\t12\t-2\t\n1\t2\t2\t20\t0\t\n@attributes\nsource 0\ntarget 2\n";

fn words_of(alloc: Global, texts: &[&[u8]]) -> Result<Vec<Vec<u8>>, AllocError> {
    let mut words = Vec::new(alloc);
    for text in texts {
        words.push(Vec::from_slice(alloc, text)?)?;
    }
    Ok(words)
}

fn shelf_of(alloc: Global, row: &Row<'_>) -> Result<MemShelf, AllocError> {
    let mut shelf = MemShelf::new(alloc);
    for (name, text) in row.files {
        shelf.add_file(Vec::from_slice(alloc, name)?, Vec::from_slice(alloc, text)?)?;
    }
    shelf.fail_at(
        Vec::from_slice(alloc, &[row.bad_read])?,
        Vec::from_slice(alloc, &[row.bad_store])?,
    );
    Ok(shelf)
}

// Whether all lines were answered.
fn is_whole(status: Status) -> bool {
    match status {
        Status::Done => true,
        Status::SomeRefused => true,
        _ => false,
    }
}

// A row of which other reports are right too.
#[derive(Clone, Copy)]
struct Choice<'a> {
    row: Row<'a>,
    others: &'a [&'a [u8]],
}

fn check_row<R: Abort>(rt: &R, alloc: Global, row: &Row<'_>) -> Result<(), AllocError> {
    check_either(rt, alloc, row, &[])
}

fn is_one_of(report: &[u8], others: &[&[u8]]) -> bool {
    for other in others {
        if report == *other {
            return true;
        }
    }
    false
}

// The report has to be the row's or one of the others.
fn check_either<R: Abort>(
    rt: &R,
    alloc: Global,
    row: &Row<'_>,
    others: &[&[u8]],
) -> Result<(), AllocError> {
    let mut shelf = shelf_of(alloc, row)?;
    let words = words_of(alloc, row.words)?;
    let mut report = MemSink::new(alloc);
    report.fail_at(Vec::from_slice(alloc, &[row.bad_put])?);
    let name = row.name;
    let (status, has_world) = serve_with_boxes(alloc, words.as_slice(), &mut shelf, &mut report)?;
    assert_eq!(rt; status, row.status, "{name}");
    // Words that ask for a run or for a drill are three.
    let has_lines = row.words.len() == RUN.len();
    assert_eq!(rt; has_world, has_lines && is_whole(row.status), "{name}");
    if !is_one_of(report.taken(), others) {
        assert_eq!(rt; report.taken(), row.report, "{name}");
    }
    assert_eq!(rt;
        (shelf.memory_faults(), report.memory_faults()),
        (0, 0),
        "{name}"
    );
    for (file, bytes) in row.saved {
        assert_eq!(rt; shelf.file(file), Some(*bytes), "{name}");
    }
    Ok(())
}

fn check_rows<R: Abort>(rt: &R, alloc: Global, rows: &[Row<'_>]) -> Result<(), AllocError> {
    for row in rows {
        check_row(rt, alloc, row)?;
    }
    Ok(())
}

fn check_choices<R: Abort>(
    rt: &R,
    alloc: Global,
    choices: &[Choice<'_>],
) -> Result<(), AllocError> {
    for choice in choices {
        check_either(rt, alloc, &choice.row, choice.others)?;
    }
    Ok(())
}

// Words of no shape.
fn check_shapeless<R: Abort>(
    rt: &R,
    alloc: Global,
    shapeless: &[&[&[u8]]],
) -> Result<(), AllocError> {
    for words in shapeless {
        let row = Row {
            name: "words of no shape",
            words: *words,
            report: b"usage: lgdesk run GRAPH SCRIPT | make SEED N M | drill SEED K\n",
            status: Status::Usage,
            ..PLAIN
        };
        check_row(rt, alloc, &row)?;
    }
    Ok(())
}
