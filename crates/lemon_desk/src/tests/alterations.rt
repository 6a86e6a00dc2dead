//! Alterations.

use super::{CHAIN, LOOPS, PLAIN, Row, check_rows};
use plain_machine::Status;
use std::test::Fail;

const ALTERATIONS: [Row<'static>; 8] = [
    Row {
        name: "a move is refused by the cap of the new source",
        files: &[
            (b"g", CHAIN),
            (
                b"s",
                b"guard c arc outcap 1\nsource b u\ntarget a w\nsplitnode u x\narcs base\n",
            ),
        ],
        report: b"! 2 4 Vetoed c\na 0 a x w\na 1 b v w\narcs 2\n",
        status: Status::SomeRefused,
        ..PLAIN
    },
    Row {
        name: "a node goes into another without the arcs between them",
        files: &[(b"g", LOOPS), (b"s", b"contract u v\narcs base\n")],
        report: b"a 5 x w u\na 4 t u w\na 2 r u u\narcs 3\n",
        ..PLAIN
    },
    Row {
        name: "a node goes into another with the arcs between them",
        files: &[(b"g", LOOPS), (b"s", b"contract u v loops\narcs base\n")],
        report: b"a 5 x w u\na 1 q u u\na 3 s u u\na 4 t u w\na 2 r u u\na 0 p u u\narcs 6\n",
        ..PLAIN
    },
    Row {
        name: "fuses leave at the erasure of an arc and at a clear",
        files: &[
            (b"g", CHAIN),
            (
                b"s",
                b"contract u u\nguard f arc fuse 1\ndelarc a\nguards\nguard g node fuse 9\nclear\n\
                guards\naddnode k\nnodes base\n",
            ),
        ],
        report: b"! 1 9 SameNode u\nguards 0\nguards 0\nn 0 k\nnodes 1\n",
        status: Status::SomeRefused,
        ..PLAIN
    },
    Row {
        name: "names of nodes that are unknown or taken",
        files: &[(b"g", CHAIN), (b"s", b"delnode z\naddnode u\n")],
        report: b"! 1 2 Unknown z\n! 2 3 Taken u\n",
        status: Status::SomeRefused,
        ..PLAIN
    },
    Row {
        name: "a node and an arc are split, and an arc is turned",
        files: &[
            (b"g", CHAIN),
            (
                b"s",
                b"splitnode v x k\nsplitarc a y m\nturn b\nsource k y\ntarget k y\nnodes base\n\
                arcs base\n",
            ),
        ],
        report: b"n 4 y\nn 3 x\nn 2 w\nn 1 v\nn 0 u\nnodes 5\na 2 k y y\na 3 m y v\na 1 b w x\n\
            a 0 a u y\narcs 4\n",
        ..PLAIN
    },
    Row {
        name: "what alterations ask for, in the order of their words",
        files: &[
            (b"g", CHAIN),
            (
                b"s",
                b"delarc z\nsource z u\nsource a z\ntarget a z\nturn z\ncontract z u\n\
                contract u z\nsplitnode z x\nsplitnode u v\nsplitnode u x a\nsplitarc z x k\n\
                splitarc a v k\nsplitarc a x b\nguard q node quota 9\nguard q arc tally\n\
                unguard z\n",
            ),
        ],
        report: b"! 1 2 Unknown z\n! 2 2 Unknown z\n! 3 2 Unknown z\n! 4 2 Unknown z\n\
            ! 5 2 Unknown z\n! 6 2 Unknown z\n! 7 2 Unknown z\n! 8 2 Unknown z\n! 9 3 Taken v\n\
            ! 10 3 Taken a\n! 11 2 Unknown z\n! 12 3 Taken v\n! 13 3 Taken b\n! 15 3 Taken q\n\
            ! 16 2 Unknown z\n",
        status: Status::SomeRefused,
        ..PLAIN
    },
    Row {
        name: "maps and labels follow alterations",
        files: &[
            (b"g", CHAIN),
            (
                b"s",
                b"nodemap h int\nset node h v 7\nsplitnode v x\nget node h x\nget node h v\n\
                contract x v\nget node h v\nget arc cap b\ndelnode x\nget arc cap b\naddnode v\n\
                get node h v\nclear\nget node h v\nnodes base\narcs base\n",
            ),
        ],
        report: b"value 0\nvalue 7\n! 7 2 Unknown v\nvalue 3\n! 10 2 Unknown b\nvalue 0\n\
            ! 14 2 Unknown v\nnodes 0\narcs 0\n",
        status: Status::SomeRefused,
        ..PLAIN
    },
];

const FUSES: [Row<'static>; 5] = [
    Row {
        name: "a fuse of arcs leaves in a contraction, and the tally goes on",
        files: &[
            (b"g", LOOPS),
            (
                b"s",
                b"guard f arc fuse 2\nguard t arc tally\ncontract u v\nguards\n",
            ),
        ],
        report: b"g t arc tally 0 3 2\nguards 1\n",
        ..PLAIN
    },
    Row {
        name: "a fuse leaves in the middle of a contraction",
        files: &[
            (b"g", LOOPS),
            (
                b"s",
                b"guard f arc fuse 2\nguard g node fuse 2\nguard t arc tally\nguard n node tally\n\
                contract u v\nguards\nnodes base\narcs base\n",
            ),
        ],
        report: b"g g node fuse 1\ng t arc tally 0 3 2\ng n node tally 0 1 0\nguards 3\nn 2 w\n\
            n 0 u\nnodes 2\na 5 x w u\na 4 t u w\na 2 r u u\narcs 3\n",
        ..PLAIN
    },
    Row {
        name: "a fuse leaves while the arcs of a node go",
        files: &[
            (b"g", LOOPS),
            (
                b"s",
                b"guard f arc fuse 3\nguard g node fuse 3\nguard t arc tally\nguard n node tally\n\
                delnode v\nguards\nnodes base\narcs base\n",
            ),
        ],
        report: b"g g node fuse 2\ng t arc tally 0 5 0\ng n node tally 0 1 0\nguards 3\nn 2 w\n\
            n 0 u\nnodes 2\na 2 r u u\narcs 1\n",
        ..PLAIN
    },
    Row {
        name: "a contraction that keeps all arcs erases none",
        files: &[
            (b"g", LOOPS),
            (
                b"s",
                b"guard f arc fuse 5\nguard g node fuse 5\nguard t arc tally\nguard n node tally\n\
                contract u v loops\nguards\nnodes base\narcs base\n",
            ),
        ],
        report: b"g f arc fuse 5\ng g node fuse 4\ng t arc tally 0 0 6\ng n node tally 0 1 0\n\
            guards 4\nn 2 w\nn 0 u\nnodes 2\na 5 x w u\na 1 q u u\na 3 s u u\na 4 t u w\n\
            a 2 r u u\na 0 p u u\narcs 6\n",
        ..PLAIN
    },
    Row {
        name: "every fuse leaves at a clear",
        files: &[
            (b"g", LOOPS),
            (
                b"s",
                b"guard f arc fuse 6\nguard g node fuse 6\nguard t arc tally\nguard n node tally\n\
                clear\nguards\nnodes base\narcs base\n",
            ),
        ],
        report: b"g t arc tally 0 6 0\ng n node tally 0 3 0\nguards 2\nnodes 0\narcs 0\n",
        ..PLAIN
    },
];

#[test]
fn alterations_are_made_or_refused(rt: HostRuntime) -> Result<(), Fail> {
    Ok(check_rows(&rt, rt.alloc(), &ALTERATIONS)?)
}

#[test]
fn fuses_leave_within_alterations(rt: HostRuntime) -> Result<(), Fail> {
    Ok(check_rows(&rt, rt.alloc(), &FUSES)?)
}
