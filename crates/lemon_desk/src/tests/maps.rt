//! Maps.

use super::{CHAIN, PLAIN, Row, check_rows};
use plain_machine::Status;
use std::test::Fail;

const MAPS: [Row<'static>; 6] = [
    Row {
        name: "maps are made, written, read and dropped",
        files: &[
            (b"g", CHAIN),
            (
                b"s",
                b"nodemap h int\nset node h u 7\naddnode x\nget node h x\nget node h u\n\
                get arc cap a\nnodemap h bool\nset node h u q\nset arc label a z\n\
                get node label w\ndropmap node h\nget node h u\n",
            ),
        ],
        report: b"value 0\nvalue 7\nvalue 5\n! 7 3 Taken h\n! 8 6 BadValue u q\n\
            ! 9 7 WrongType label\nvalue w\n! 12 2 Unknown h\n",
        status: Status::SomeRefused,
        ..PLAIN
    },
    Row {
        name: "maps of nodes and maps of arcs are apart",
        files: &[
            (b"g", CHAIN),
            (
                b"s",
                b"nodemap cap bool\narcmap h text\nset node cap v true\nset arc h b \"x y\"\n\
                get node cap v\nget node cap u\nget arc h b\nget arc h a\nget arc cap b\n",
            ),
        ],
        report: b"value 1\nvalue 0\nvalue \"x y\"\nvalue \"\"\nvalue 3\n",
        ..PLAIN
    },
    Row {
        name: "a column is a map of texts, and a new arc has an empty one",
        files: &[
            (b"g", CHAIN),
            (
                b"s",
                b"set arc cap a \"five six\"\naddarc c u w\nget arc cap c\nset arc cap c x\n\
                get arc cap a\nget arc cap c\n",
            ),
        ],
        report: b"value \"\"\nvalue \"five six\"\nvalue x\n",
        ..PLAIN
    },
    Row {
        name: "names that a map lacks, the first in the order of the words",
        files: &[
            (b"g", CHAIN),
            (
                b"s",
                b"get node h z\nget node label z\nset arc cap z 1\nset arc h a 1\n\
                dropmap arc h\ndropmap arc label\nnodemap label int\narcmap cap int\n",
            ),
        ],
        report: b"! 1 2 Unknown h\n! 2 2 Unknown z\n! 3 2 Unknown z\n! 4 2 Unknown h\n\
            ! 5 2 Unknown h\n! 6 7 WrongType label\n! 7 3 Taken label\n! 8 3 Taken cap\n",
        status: Status::SomeRefused,
        ..PLAIN
    },
    Row {
        name: "ints in the range of 64 bits alone",
        files: &[
            (b"g", CHAIN),
            (
                b"s",
                b"nodemap h int\nset node h u -9223372036854775808\nget node h u\n\
                set node h u 9223372036854775808\nset node h v +07\nget node h v\n\
                set node h v \"\"\n",
            ),
        ],
        report: b"value -9223372036854775808\n! 4 6 BadValue u 9223372036854775808\nvalue 7\n\
            ! 7 6 BadValue v \"\"\n",
        status: Status::SomeRefused,
        ..PLAIN
    },
    Row {
        name: "maps are saved as columns, by the order of making",
        files: &[
            (b"g", CHAIN),
            (
                b"s",
                b"nodemap h int\nnodemap on bool\nset node h v -4\nset node on w 1\n\
                dropmap arc cap\narcmap len int\narcmap cap text\nset arc len b 9\nsave one\n",
            ),
        ],
        report: b"saved 88\n",
        saved: &[(
            b"one",
            b"@nodes\nlabel\th\ton\t\nu\t0\t0\t\nv\t-4\t0\t\nw\t0\t1\t\n@arcs\n\
            \t\tlabel\tlen\tcap\t\nu\tv\ta\t0\t\"\"\t\nv\tw\tb\t9\t\"\"\t\n",
        )],
        ..PLAIN
    },
];

#[test]
fn keeps_maps(rt: HostRuntime) -> Result<(), Fail> {
    Ok(check_rows(&rt, rt.alloc(), &MAPS)?)
}
