//! Saves.

use super::{JOINED, JOINED_SAVED, PLAIN, Row, STATIONS, check_rows};
use plain_machine::Status;
use std::test::Fail;

const FRONTED: &[u8] = b"@nodes\nlabel\ttitle\t\nn\t\"North gate\"\t\nd\tDepot\t\ne\t\"\"\t\n\
    @arcs\n\t\tlabel\tcap\tcost\t\nn\td\tx\t16\t4\t\nd\te\t\"y z\"\t\"\"\t\"\"\t\n";

const NAMED: &[u8] =
    b"@nodes\nlabel\t\na\t\n@arcs\n\t\tlabel\t\n@attributes\nsource \"a b\"\ntarget \"\"\n";

const WITH_C: &[u8] = b"@nodes\nlabel\t\na\t\nb\t\nc\t\n@arcs\n\t\tlabel\t\na\tb\t0\t\n";

const SAVES: [Row<'static>; 9] = [
    Row {
        name: "a file as it is written, saved again",
        files: &[(b"g", STATIONS), (b"s", b"save out.lgf\n")],
        report: b"saved 157\n",
        saved: &[(b"out.lgf", STATIONS), (b"g", STATIONS)],
        ..PLAIN
    },
    Row {
        name: "labels that need quotes",
        files: &[
            (
                b"g",
                b"@nodes\nlabel\n\"#x\"\n\"\"\n@arcs\n-\n\"#x\" \"\"\n",
            ),
            (b"s", b"nodes base\nsave s\n"),
        ],
        report: b"n 1 \"\"\nn 0 \"#x\"\nnodes 2\nsaved 50\n",
        saved: &[(
            b"s",
            b"@nodes\nlabel\t\n\"#x\"\t\n\"\"\t\n@arcs\n\t\tlabel\t\n\"#x\"\t\"\"\t0\t\n",
        )],
        ..PLAIN
    },
    Row {
        name: "a graph without an item",
        files: &[(b"g", b"@nodes\n@arcs\n"), (b"s", b"save one\n")],
        report: b"saved 29\n",
        saved: &[(b"one", b"@nodes\nlabel\t\n@arcs\n\t\tlabel\t\n")],
        ..PLAIN
    },
    Row {
        name: "the column of the labels behind others, and items with empty texts",
        files: &[
            (
                b"g",
                b"@nodes\ntitle label\n\"North gate\" n\nDepot d\n@arcs\ncap label cost\n\
                n d 16 x 4\n",
            ),
            (b"s", b"addnode e\naddarc \"y z\" d e\nsave one\n"),
        ],
        report: b"saved 104\n",
        saved: &[(b"one", FRONTED)],
        ..PLAIN
    },
    Row {
        name: "attributes are kept, and stand last",
        files: &[
            (
                b"g",
                b"@attributes\nsource \"a b\"\ntarget \"\"\n@nodes\nlabel\na\n@arcs\n-\n",
            ),
            (b"s", b"save one\n"),
        ],
        report: b"saved 67\n",
        saved: &[(b"one", NAMED)],
        ..PLAIN
    },
    Row {
        name: "two saves to one name",
        files: &[
            (b"g", JOINED),
            (b"s", b"save \"the file\"\naddnode c\nsave \"the file\"\n"),
        ],
        report: b"saved 42\nsaved 45\n",
        saved: &[(b"the file", WITH_C)],
        ..PLAIN
    },
    Row {
        name: "a save over the graph file",
        files: &[(b"g", JOINED), (b"s", b"addnode c\nsave g\nsave one\n")],
        report: b"saved 45\nsaved 45\n",
        saved: &[(b"g", WITH_C), (b"one", WITH_C)],
        ..PLAIN
    },
    Row {
        name: "lines that are refused leave no trace in a save",
        files: &[
            (b"g", JOINED),
            (b"s", b"addnode a\naddarc 1 a z\nsave one\n"),
        ],
        report: b"! 1 3 Taken a\n! 2 2 Unknown z\nsaved 42\n",
        saved: &[(b"one", JOINED_SAVED)],
        status: Status::SomeRefused,
        ..PLAIN
    },
    Row {
        name: "a file that was saved, run on itself",
        files: &[(b"g", FRONTED), (b"s", b"save one\n")],
        report: b"saved 104\n",
        saved: &[(b"one", FRONTED)],
        ..PLAIN
    },
];

#[test]
fn saves_graphs(rt: HostRuntime) -> Result<(), Fail> {
    Ok(check_rows(&rt, rt.alloc(), &SAVES)?)
}
