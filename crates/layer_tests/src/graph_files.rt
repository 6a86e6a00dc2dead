//! Graph files as they are read, refused and written.

use lgf_file::{DocFault, LgfFault, LgfKind, doc_bytes, read_doc};
use std::alloc::{AllocError, Global};
use std::test::Fail;
use token_text::Text;

// Files, and their first faults.
const FAULTS: [(&[u8], u64, LgfKind); 45] = [
    // the whole file
    (b"", 1, LgfKind::NoNodes),
    (b"@arcs\n\"\n", 3, LgfKind::NoNodes),
    (b"@nodes\nlabel\n", 3, LgfKind::NoArcs),
    (b"@nodes\nlabel \"\n", 3, LgfKind::NoArcs),
    (b"@arcs\n-\n@nodes\nlabel\n", 1, LgfKind::ArcsFirst),
    (b"\n@edges\n\"\n@nodes\n\"\n", 2, LgfKind::ArcsFirst),
    (b"@node\nlabel\n@arcs\n-\n", 5, LgfKind::NoNodes),
    (b"@ nodes\nlabel\n@arcs\n-", 5, LgfKind::NoNodes),
    // tokens
    (b"@nodes\nlabel\n\"a\n@arcs\n-\n", 3, LgfKind::Token),
    (b"@nodes\nlabel\n\"\\x\"\n@arcs\n-\n", 3, LgfKind::Token),
    (b"@nodes\nlabel\n\"\\400\"\n@arcs\n-\n", 3, LgfKind::Token),
    (b"@nodes\nlabel\na b \"\n@arcs\n-\n", 3, LgfKind::Token),
    (b"@nodes\n\"\n@arcs\n-\n", 2, LgfKind::Token),
    (b"@nodes\nlabel\n@arcs\n- \"\n", 4, LgfKind::Token),
    (b"@attributes\nx \"1\n@nodes\n@arcs\n", 2, LgfKind::Token),
    // columns
    (b"@nodes\nlabel -\n@arcs\n-\n", 2, LgfKind::DashColumn),
    (b"@nodes\n-\n@arcs\n-\n", 2, LgfKind::DashColumn),
    (b"@nodes\nt t \"-\"\n@arcs\n-\n", 2, LgfKind::DashColumn),
    (b"@nodes\nlabel\n@arcs\n- -\n", 4, LgfKind::DashColumn),
    (b"@nodes\nlabel\n@arcs\ncap -\n", 4, LgfKind::DashColumn),
    (b"@nodes\nlabel t t\n@arcs\n-\n", 2, LgfKind::TwiceColumn),
    (b"@nodes\nt \"t\"\n@arcs\n-\n", 2, LgfKind::TwiceColumn),
    (
        b"@nodes\nlabel\n@arcs\ncap cost cap\n",
        4,
        LgfKind::TwiceColumn,
    ),
    (b"@nodes\nid\n@arcs\n-\n", 2, LgfKind::NoLabel),
    (b"@nodes\nLabel\n@arcs\n-\n", 2, LgfKind::NoLabel),
    // rows
    (b"@nodes\nlabel t\na\n@arcs\n-\n", 3, LgfKind::ShortRow),
    (
        b"@nodes\nlabel\na\nb\n@arcs\nlabel cap\na b x",
        7,
        LgfKind::ShortRow,
    ),
    (b"@nodes\nlabel\na\n@arcs\n-\na\n", 6, LgfKind::ShortRow),
    (
        b"@nodes\nlabel\n@arcs\n-\n@attributes\nx\n",
        6,
        LgfKind::ShortRow,
    ),
    (b"@nodes\nlabel\na b\n@arcs\n-\n", 3, LgfKind::LongRow),
    (b"@nodes\nlabel\na\na a\n@arcs\n-\n", 4, LgfKind::LongRow),
    (b"@nodes\nlabel\na\n@arcs\n-\na a a\n", 6, LgfKind::LongRow),
    (
        b"@nodes\nlabel\n@arcs\n-\n@attributes\nx 1 2\n",
        6,
        LgfKind::LongRow,
    ),
    (
        b"@nodes\nlabel\na\n@arcs\n-\na z\n",
        6,
        LgfKind::UnknownLabel,
    ),
    (
        b"@nodes\nlabel\na\n@arcs\n-\nz a\n",
        6,
        LgfKind::UnknownLabel,
    ),
    (
        b"@nodes\nt label\na b\n@arcs\n-\na a\n",
        6,
        LgfKind::UnknownLabel,
    ),
    (
        b"@nodes\nlabel\na\n@arcs\nlabel\na a x\na z x\n",
        7,
        LgfKind::UnknownLabel,
    ),
    (b"@nodes\nlabel\na\na\n@arcs\n-\n", 4, LgfKind::TwiceLabel),
    (
        b"@nodes\nt label\na b\nb b\n@arcs\n-\n",
        4,
        LgfKind::TwiceLabel,
    ),
    (
        b"@nodes\nlabel\na\n@arcs\nt label\na a 1 x\na a 2 x\n",
        7,
        LgfKind::TwiceLabel,
    ),
    (
        b"@nodes\nlabel\n@arcs\n-\n@attributes\nx 1\nx 2\n",
        7,
        LgfKind::TwiceAttribute,
    ),
    // the first bad line
    (
        b"@attributes\nx\n@nodes\nid\n@arcs\n-\n",
        2,
        LgfKind::ShortRow,
    ),
    (
        b"@nodes\nid\n@attributes\nx\n@arcs\n-\n",
        2,
        LgfKind::NoLabel,
    ),
    (
        b"@nodes\nlabel\n@attributes\nx\n@arcs\na a\na\n",
        4,
        LgfKind::ShortRow,
    ),
    (
        b"@nodes\nlabel\n@arcs\n-\na\n@attributes\nx\n",
        5,
        LgfKind::ShortRow,
    ),
];

#[test]
fn refuses_files(rt: HostRuntime) {
    for (bytes, line, kind) in FAULTS {
        let fault = DocFault::Lgf(LgfFault { line, kind });
        let read = read_doc(rt.alloc(), bytes);
        assert_eq!(rt; read.err(), Some(fault), "at {bytes:?}");
    }
}

// A file as it is written.
const STATIONS: &[u8] =
    b"@nodes\nlabel\ttitle\t\n0\t\"North gate\"\t\n1\tDepot\t\n2\t\"Say \\\"hi\\\"\"\t\n@arcs\n\t\tlabel\tcapacity\tcost\t\n0\t1\t0\t16\t4\t\n0\t2\t1\t12\t-2\t\n1\t2\t2\t20\t0\t\n@attributes\nsource 0\ntarget 2\n";

// Files, and the written documents that they spell.
const FILES: [(&[u8], &[u8]); 12] = [
    // made by hand
    (
        b"# made by hand\n@nodes cities\nlabel\na\n@edges\nlabel\na a \"x y\"\n@foo\n\"open\n@nodes\nrubbish\n",
        b"@nodes\nlabel\t\na\t\n@arcs\n\t\tlabel\t\na\ta\t\"x y\"\t\n",
    ),
    (
        b"@nodes\r\nlabel\r\na\r\n@arcs\r\n-\r\n",
        b"@nodes\nlabel\t\na\t\n@arcs\n-\n",
    ),
    (
        b"@nodes\nlabel\n\"#x\"\n\"\"\n@arcs\n-\n\"#x\" \"\"\n",
        b"@nodes\nlabel\t\n\"#x\"\t\n\"\"\t\n@arcs\n-\n\"#x\"\t\"\"\t\n",
    ),
    (STATIONS, STATIONS),
    // sections without any line
    (b"@nodes\n@arcs", b"@nodes\nlabel\t\n@arcs\n-\n"),
    (
        b"@nodes\n\n# none\n@arcs\n@attributes\n",
        b"@nodes\nlabel\t\n@arcs\n-\n",
    ),
    // captions and lines before the first section aren't looked at
    (
        b"\"\n \t@nodes\t\"\\q\nlabel\n\x0b@arcs \"\n\x0c-\n",
        b"@nodes\nlabel\t\n@arcs\n-\n",
    ),
    // tokens are compared by their bytes
    (
        b"@nodes\n\"label\" t\n\"a\" \"\\x61\"\n@arcs\n\"-\"\n\"\\141\" a\n",
        b"@nodes\nlabel\tt\t\na\ta\t\n@arcs\n-\na\ta\t\n",
    ),
    // labels of nodes and of arcs, and names of attributes, are apart
    (
        b"@nodes\nt label\n1 a\n1 b\n@arcs\nlabel\na b a\na b b\n@attributes\na b\n",
        b"@nodes\nt\tlabel\t\n1\ta\t\n1\tb\t\n@arcs\n\t\tlabel\t\na\tb\ta\t\na\tb\tb\t\n@attributes\na b\n",
    ),
    // attributes may stand anywhere, and the first section of a kind is read
    (
        b"@attributes\nx \"\"\n@nodes\nlabel\n@attributes\n\"\n@arcs\ncap\n@edges\n\"\n@arcs\nx x\n",
        b"@nodes\nlabel\t\n@arcs\n\t\tcap\t\n@attributes\nx \"\"\n",
    ),
    // equal values in columns other than that of the labels
    (
        b"@nodes\nlabel\na\n@arcs\ncap\na a 1\na a 1\n",
        b"@nodes\nlabel\t\na\t\n@arcs\n\t\tcap\t\na\ta\t1\t\na\ta\t1\t\n",
    ),
    // a backslash in a plain token stands for itself
    (
        b"@nodes\nlabel\na\\n\n@arcs\n-\n",
        b"@nodes\nlabel\t\n\"a\\\\n\"\t\n@arcs\n-\n",
    ),
];

#[test]
fn writes_what_it_reads(rt: HostRuntime) -> Result<(), Fail> {
    for (bytes, written) in FILES {
        let doc = read_doc(rt.alloc(), bytes)?;
        let plain = doc_bytes(rt.alloc(), &doc)?;
        assert_eq!(rt; plain.as_slice(), written, "at {bytes:?}");
    }
    Ok(())
}

// A file with two of each.
const TOWN: &[u8] =
    b"@nodes\ntitle label\n\"North gate\" 0\nDepot 1\n@arcs\ncap label\n1 0 16 x\n0 0 -2 \"\"\n@attributes\nsource 0\n";

// Whether these are the tokens.
fn are_cells(cells: &[Text], wanted: [&[u8]; 2]) -> bool {
    match cells {
        [first, second] => first.as_bytes() == wanted[0] && second.as_bytes() == wanted[1],
        _ => false,
    }
}

#[test]
fn reads_documents(rt: HostRuntime) -> Result<(), Fail> {
    let doc = read_doc(rt.alloc(), TOWN)?;
    assert!(rt; are_cells(doc.nodes.columns.as_slice(), [b"title", b"label"]));
    assert!(rt; are_cells(doc.arc_columns.as_slice(), [b"cap", b"label"]));
    assert_eq!(rt; doc.nodes.rows.len(), 2);
    assert!(rt;
        are_cells(
            doc.nodes.rows.as_slice()[0].as_slice(),
            [b"North gate", b"0"]
        )
    );
    assert_eq!(rt; doc.arcs.len(), 2);
    let arc = &doc.arcs.as_slice()[0];
    assert_eq!(rt; (arc.from, arc.to), (1, 0));
    assert!(rt; are_cells(arc.values.as_slice(), [b"16", b"x"]));
    assert_eq!(rt; doc.attributes.len(), 1);
    let attribute = &doc.attributes.as_slice()[0];
    assert_eq!(rt; attribute.0.as_bytes(), b"source".as_slice());
    assert_eq!(rt; attribute.1.as_bytes(), b"0".as_slice());
    Ok(())
}

// The front, so many numbered lines with this text behind the number, and the back.
fn numbered(
    alloc: Global,
    front: &[u8],
    count: u32,
    text: &str,
    back: &[u8],
) -> Result<Vec<u8>, AllocError> {
    let mut bytes = Vec::from_slice(alloc, front)?;
    for i in 0..count {
        let line = format!(in alloc; "{i}{text}\n")?;
        bytes.extend_from_slice(line.as_bytes())?;
    }
    bytes.extend_from_slice(back)?;
    Ok(bytes)
}

#[test]
fn refuses_too_many_nodes(rt: HostRuntime) -> Result<(), Fail> {
    let most = numbered(rt.alloc(), b"@nodes\nlabel\n", 1_048_576, "", b"@arcs\n-\n")?;
    assert!(rt; read_doc(rt.alloc(), most.as_slice()).is_ok());
    let file = numbered(rt.alloc(), b"@nodes\nlabel\n", 1_048_577, "", b"@arcs\n-\n")?;
    let fault = DocFault::Lgf(LgfFault {
        line: 1_048_579,
        kind: LgfKind::TooMany,
    });
    assert_eq!(rt; read_doc(rt.alloc(), file.as_slice()).err(), Some(fault));
    Ok(())
}

#[test]
fn refuses_too_many_arcs(rt: HostRuntime) -> Result<(), Fail> {
    let front = b"@nodes\nlabel\n\"\"\n@arcs\nt\n";
    let fault = DocFault::Lgf(LgfFault {
        line: 4_194_310,
        kind: LgfKind::TooMany,
    });
    let mut file = Vec::from_slice(rt.alloc(), front)?;
    for _ in 0..4_194_305 {
        file.extend_from_slice(b"\"\" \"\" -\n")?;
    }
    assert_eq!(rt; read_doc(rt.alloc(), file.as_slice()).err(), Some(fault));
    Ok(())
}
