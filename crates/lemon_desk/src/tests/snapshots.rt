//! Snapshots.

use super::{CHAIN, PLAIN, Row, check_rows};
use plain_machine::Status;
use std::test::Fail;

const FAN: &[u8] = b"@nodes\nlabel\nu\nv\nw\n@arcs\nlabel cap\nu v a 5\nv w b 3\nu w c 1\n";

const WORKED: [Row<'static>; 8] = [
    Row {
        name: "an arc that was turned comes back",
        files: &[
            (b"g", CHAIN),
            (b"s", b"snap s\nturn a\nrestore s\narcs base\n"),
        ],
        report: b"a 1 b v w\na 0 a u v\narcs 2\n",
        ..PLAIN
    },
    Row {
        name: "snapshots beside one another, of which the newer one becomes stale",
        files: &[
            (b"g", CHAIN),
            (
                b"s",
                b"snap s\naddnode x\nsnap t\naddnode y\nrestore s\nrestore t\nsnaps\naddnode z\n\
                nodes base\n",
            ),
        ],
        report: b"! 6 5 Stale t\nk t stale\nsnaps 1\nn 4 z\nn 2 w\nn 1 v\nn 0 u\nnodes 4\n",
        status: Status::SomeRefused,
        ..PLAIN
    },
    Row {
        name: "an item that came and went leaves a snapshot as it was",
        files: &[
            (b"g", CHAIN),
            (
                b"s",
                b"snap s\naddnode x\ndelnode x\nsnaps\nrestore s\nsnaps\nnodes base\n",
            ),
        ],
        report: b"k s valid 0 0\nsnaps 1\nsnaps 0\nn 2 w\nn 1 v\nn 0 u\nnodes 3\n",
        ..PLAIN
    },
    Row {
        name: "a snapshot of an erased arc is stale",
        files: &[
            (b"g", CHAIN),
            (b"s", b"snap s\ndelarc a\nrestore s\nforget s\nrestore s\n"),
        ],
        report: b"! 3 5 Stale s\n! 5 2 Unknown s\n",
        status: Status::SomeRefused,
        ..PLAIN
    },
    Row {
        name: "a fuse leaves in a restore",
        files: &[
            (b"g", CHAIN),
            (
                b"s",
                b"guard f arc fuse 1\nsnap s\naddarc c u w\nguard t arc tally\nrestore s\n\
                guards\n",
            ),
        ],
        report: b"g t arc tally 0 1 0\nguards 1\n",
        ..PLAIN
    },
    Row {
        name: "a restore is refused, and the snapshot stays",
        files: &[
            (b"g", CHAIN),
            (
                b"s",
                b"snap s\nturn a\naddarc c u v\nguard m arc simple\nrestore s\nsnaps\ndelarc c\n\
                restore s\narcs base\n",
            ),
        ],
        report: b"! 5 4 Vetoed m\nk s valid 0 1\nsnaps 1\na 1 b v w\na 0 a u v\narcs 2\n",
        status: Status::SomeRefused,
        ..PLAIN
    },
    Row {
        name: "a moved arc gets its old place in both lists",
        files: &[
            (b"g", FAN),
            (
                b"s",
                b"snap s\nsource a u\narcs base\nrestore s\narcs base\n",
            ),
        ],
        report: b"a 1 b v w\na 0 a u v\na 2 c u w\narcs 3\na 1 b v w\na 2 c u w\n\
            a 0 a u v\narcs 3\n",
        ..PLAIN
    },
    Row {
        name: "snapshots of an arc before and after it moved",
        files: &[
            (b"g", CHAIN),
            (
                b"s",
                b"snap s\nsource b u\nsnap t\nrestore s\nrestore t\narcs base\n",
            ),
        ],
        report: b"a 1 b u w\na 0 a u v\narcs 2\n",
        ..PLAIN
    },
];

const REMEMBERED: [Row<'static>; 2] = [
    Row {
        name: "names of snapshots, and what a restore doesn't take back",
        files: &[
            (b"g", CHAIN),
            (
                b"s",
                b"nodemap h int\nset node h u 7\nsnap s\nsnap s\naddnode x\nsplitarc a y k\n\
                set node h u 9\nrelabel node w z\nsnap t\naddnode x2\nsnaps\nrestore s\n\
                get node h u\nnodes base\narcs base\nsnaps\nrestore q\nforget q\nforget t\n\
                snaps\n",
            ),
        ],
        report: b"! 4 3 Taken s\nk s valid 3 1\nk t valid 1 0\nsnaps 2\nvalue 9\nn 2 z\nn 1 v\n\
            n 0 u\nnodes 3\na 1 b v z\na 0 a u v\narcs 2\nk t stale\nsnaps 1\n! 17 2 Unknown q\n\
            ! 18 2 Unknown q\nsnaps 0\n",
        status: Status::SomeRefused,
        ..PLAIN
    },
    Row {
        name: "what a clear leaves of snapshots",
        files: &[
            (b"g", CHAIN),
            (
                b"s",
                b"snap s\nclear\nsnap t\naddnode a\nsnaps\nrestore s\nrestore t\nnodes base\n\
                snaps\nforget s\nsnaps\n",
            ),
        ],
        report: b"k s stale\nk t valid 1 0\nsnaps 2\n! 6 5 Stale s\nnodes 0\nk s stale\nsnaps 1\n\
            snaps 0\n",
        status: Status::SomeRefused,
        ..PLAIN
    },
];

#[test]
fn remembers(rt: HostRuntime) -> Result<(), Fail> {
    check_rows(&rt, rt.alloc(), &WORKED)?;
    Ok(check_rows(&rt, rt.alloc(), &REMEMBERED)?)
}
