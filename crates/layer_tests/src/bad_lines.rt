//! Script lines that say no command, and those that are passed over.

use script_words::{LineFault, read_line};
use std::test::Fail;

// Lines that say no command, and the column where each goes wrong.
const BAD_LINES: [(&[u8], usize); 39] = [
    (b"frob", 1),
    (b"  frob", 3),
    (b"addnode", 8),
    (b"addnode  ", 10),
    (b"addnode a b", 11),
    (b"guard g node loopless", 14),
    (b"guard g node simple", 14),
    (b"guard g node outcap 1", 14),
    (b"guard g node fuse 0", 19),
    (b"guard g node fuse 12345678", 19),
    (b"guard g node quota 4194305", 20),
    (b"guard g arc quota -1", 19),
    (b"guard g arc quota", 18),
    (b"guard g arc loopless 1", 22),
    (b"guard g int quota 1", 9),
    (b"nodemap - int", 9),
    (b"nodemap \"-\" int", 9),
    (b"arcmap - int", 8),
    (b"degree - in", 8),
    (b"trues node - m", 12),
    (b"nodemap m ints", 11),
    (b"degree d to", 10),
    (b"set graph m a 1", 5),
    (b"save \"a\\q\"", 8),
    (b"save \"a\\q\" b \"", 8),
    (b"frob \"a\\q\"", 1),
    (b"view v", 7),
    (b"view v turn w", 8),
    (b"view v sub w -", 15),
    (b"view v reverse w x", 18),
    (b"addnode \"x", 9),
    (b"addnode x \"y", 11),
    (b"contract u v loop", 14),
    (b"contract u v loops x", 20),
    (b"maxflow v c s t into", 21),
    (b"maxflow v c s t m", 17),
    (b"circulate v - - - into", 23),
    (b"Clear", 1),
    (b"\t\"clear\" \"", 10),
];

// Lines of the youngest forms: cut short, with a token too many, with a wrong word, or with a token
// that can't be read.
const BAD_YOUNG_LINES: [(&[u8], usize); 33] = [
    (b"simplex", 8),
    (b"simplex v - - c", 16),
    (b"simplex v - - c - m", 19),
    (b"simplex v - - c - into", 23),
    (b"simplex v - - c - into m x", 26),
    (b"Simplex v - - c -", 1),
    (b"heaviest v l", 13),
    (b"heaviest v l w x", 16),
    (b"heavy v l w", 1),
    (b"assign v l", 11),
    (b"assign v l w x", 14),
    (b"assigns v l w", 1),
    (b"meancycle", 10),
    (b"meancycle v", 12),
    (b"meancycle v l t x", 17),
    (b"mean v l", 1),
    (b"tie", 4),
    (b"tie a", 6),
    (b"tie a graph", 7),
    (b"tie a node x", 12),
    (b"tied a node", 1),
    (b"tie \"a\\q\" node", 7),
    (b"untie", 6),
    (b"untie a node", 9),
    (b"unties a", 1),
    (b"attr", 5),
    (b"attr a b", 8),
    (b"attribute a", 1),
    (b"relabel node a", 15),
    (b"relabel item a b", 9),
    (b"relabel arc a b c", 17),
    (b"relabel node a \"b", 16),
    (b"relabels node a b", 1),
];

#[test]
fn refuses_lines(rt: HostRuntime) {
    for (line, column) in BAD_LINES {
        let read = read_line(rt.alloc(), line);
        assert_eq!(rt; read.err(), Some(LineFault::Bad(column)), "at {line:?}");
    }
}

#[test]
fn refuses_young_lines(rt: HostRuntime) {
    for (line, column) in BAD_YOUNG_LINES {
        let read = read_line(rt.alloc(), line);
        assert_eq!(rt; read.err(), Some(LineFault::Bad(column)), "at {line:?}");
    }
}

#[test]
fn passes_lines_over(rt: HostRuntime) -> Result<(), Fail> {
    let lines: [&[u8]; 5] = [b"", b" \t\x0b\x0c\r", b"# addnode a", b"  #", b"#\"\\q"];
    for line in lines {
        assert!(rt; read_line(rt.alloc(), line)?.is_none(), "at {line:?}");
    }
    Ok(())
}
