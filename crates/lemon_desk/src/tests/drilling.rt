//! Drills.

use super::{PLAIN, Row, check_rows, check_shapeless, words_of};
use crate::desk::Final;
use crate::serve::serve;
use edge_io::{MemShelf, MemSink};
use plain_machine::Status;
use std::test::Fail;

const DRILLS: [Row<'static>; 6] = [
    Row {
        name: "a drill without lines",
        words: &[b"drill", b"1", b"0"],
        report: b"drill accepted 0 refused 0 nodes 100 arcs 400\n",
        ..PLAIN
    },
    Row {
        name: "leading zeros",
        words: &[b"drill", b"0007", b"0020"],
        report: b"drill accepted 19 refused 1 nodes 107 arcs 409\n",
        ..PLAIN
    },
    Row {
        name: "the largest seed",
        words: &[b"drill", b"2147483646", b"100"],
        report: b"drill accepted 80 refused 20 nodes 118 arcs 418\n",
        ..PLAIN
    },
    Row {
        name: "a write fails",
        words: &[b"drill", b"1", b"0"],
        bad_put: 1,
        status: Status::WriteFault,
        ..PLAIN
    },
    TWENTY_THOUSAND,
    TWENTY_THOUSAND,
];

const TWENTY_THOUSAND: Row<'static> = Row {
    name: "twenty thousand lines, the same in two runs",
    words: &[b"drill", b"7", b"20000"],
    report: b"drill accepted 5654 refused 14346 nodes 1895 arcs 600\n",
    ..PLAIN
};

const SHAPELESS: [&[&[u8]]; 9] = [
    &[b"drill", b"0", b"1"],
    &[b"drill", b"2147483647", b"1"],
    &[b"drill", b"1", b"100001"],
    &[b"drill", b"1"],
    &[b"drill", b"1", b"1", b"1"],
    &[b"drill", b"+1", b"1"],
    &[b"drill", b"1", b"-1"],
    &[b"drill", b"", b"1"],
    &[b"drill", b"1", b""],
];

#[test]
fn runs_drills(rt: HostRuntime) -> Result<(), Fail> {
    check_rows(&rt, rt.alloc(), &DRILLS)?;
    check_shapeless(&rt, rt.alloc(), &SHAPELESS)?;
    Ok(())
}

#[test]
fn a_drill_without_boxes_goes_on(rt: HostRuntime) -> Result<(), Fail> {
    let alloc = rt.alloc();
    let mut shelf = MemShelf::new(alloc);
    let mut report = MemSink::new(alloc);
    let words = words_of(alloc, &[b"drill", b"7", b"300"])?;
    let (status, last) = serve(
        alloc,
        words.as_slice(),
        &mut shelf,
        &mut report,
        Vec::new(alloc),
    );
    let has_world = match last {
        Final::Nothing => false,
        Final::Desk(_) => true,
    };
    assert_eq!(&rt; status, Status::Done);
    assert_eq!(&rt; has_world, true);
    assert_eq!(&rt;
        report.taken(),
        b"drill accepted 243 refused 57 nodes 161 arcs 457\n".as_slice()
    );
    Ok(())
}
