//! Files that are no graphs.

use super::{PLAIN, Row, check_row};
use plain_machine::Status;
use std::test::Fail;

// Files that are no graphs, and the report.
const NO_GRAPHS: [(&[u8], &[u8]); 22] = [
    (b"", b"! graph 1 NoNodes\n"),
    (b"@arcs\n-\n", b"! graph 3 NoNodes\n"),
    (b"@arcs\n\"\n", b"! graph 3 NoNodes\n"),
    (b"@nodes\nlabel\n", b"! graph 3 NoArcs\n"),
    (b"@nodes\nlabel\na\n", b"! graph 4 NoArcs\n"),
    (b"@nodes\nlabel\na", b"! graph 4 NoArcs\n"),
    (b"@arcs\n-\n@nodes\nlabel\n", b"! graph 1 ArcsFirst\n"),
    (b"@nodes\nlabel\n\"a\n@arcs\n-\n", b"! graph 3 Token\n"),
    (b"@nodes\nlabel\n\"\\q\"\n@arcs\n-\n", b"! graph 3 Token\n"),
    (b"@nodes\nlabel\n\"\\x\"\n@arcs\n-\n", b"! graph 3 Token\n"),
    (
        b"@nodes\nlabel\n\"\\400\"\n@arcs\n-\n",
        b"! graph 3 Token\n",
    ),
    (b"@nodes\nlabel -\n@arcs\n-\n", b"! graph 2 DashColumn\n"),
    (b"@nodes\nt t\n@arcs\n-\n", b"! graph 2 TwiceColumn\n"),
    (b"@nodes\nlabel t t\n@arcs\n-\n", b"! graph 2 TwiceColumn\n"),
    (b"@nodes\nid\n@arcs\n-\n", b"! graph 2 NoLabel\n"),
    (b"@nodes\nlabel t\na\n@arcs\n-\n", b"! graph 3 ShortRow\n"),
    (
        b"@nodes\nlabel\na\nb\n@arcs\nlabel cap\na b x",
        b"! graph 7 ShortRow\n",
    ),
    (b"@nodes\nlabel\na b\n@arcs\n-\n", b"! graph 3 LongRow\n"),
    (
        b"@nodes\nlabel\na\n@arcs\n-\na z\n",
        b"! graph 6 UnknownLabel\n",
    ),
    (
        b"@nodes\nlabel\na\na\n@arcs\n-\n",
        b"! graph 4 TwiceLabel\n",
    ),
    (
        b"@nodes\nlabel\na\n@arcs\nlabel\na a x\n\na a x\n",
        b"! graph 8 TwiceLabel\n",
    ),
    (
        b"@nodes\nlabel\n@arcs\n-\n@attributes\nx 1\nx 2\n",
        b"! graph 7 TwiceAttribute\n",
    ),
];

// There is no script, which isn't looked at.
#[test]
fn refuses_files_that_are_no_graphs(rt: HostRuntime) -> Result<(), Fail> {
    for (graph, report) in NO_GRAPHS {
        let row = Row {
            name: "no graph",
            files: &[(b"g", graph)],
            report,
            status: Status::BadGraph,
            ..PLAIN
        };
        check_row(&rt, rt.alloc(), &row)?;
    }
    Ok(())
}
