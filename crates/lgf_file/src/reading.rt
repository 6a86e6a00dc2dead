//! Bytes as a document.

ghost use Rattle.std.specs.Prelude.{◌≡◌, ◌+◌, ◌<◌, ◌≤◌, ◌^◌, ◌∷◌, [], length, nat_lt};
ghost use Rattle.std.specs.Prelude.{if◌then◌else◌, IfOk, IfErr, IfSome};
ghost use Rattle.std.specs.Option.{option_map_or};
ghost use Rattle.base_items.specs.declared.limits.TheConstants.{MAX_NODES as NODE_LIMIT};
ghost use Rattle.lgf_file.specs.Documents.{IsTable, AreArcs, AreAttributes, NodesSpell, ArcsSpell};
ghost use Rattle.lgf_file.specs.Documents.{AttributesSpell, IsDoc, Spells, node_labels};
ghost use Rattle.lgf_file.specs.Faults.{node_fault, arc_fault, attribute_fault};
ghost use Rattle.lgf_file.specs.Laws.{HasFault};
ghost use Rattle.lgf_file.specs.Reading.{Blames, GraphBlames, PartsBlame, PartsSpell, rows_at};
ghost use Rattle.lgf_file.specs.Results.{Answers, Names, Refuses};
ghost use Rattle.lgf_file.specs.declared.documents.Doc.{Doc as Document};
ghost use Rattle.lgf_file.specs.declared.faults.LgfFault.{LgfFault as Fault};

use crate::arcs::ArcReader;
use crate::attributes::AttributeReader;
use crate::documents::{Doc, Link, Table};
use crate::faults::{DocFault, LgfFault, LgfKind};
use crate::nodes::NodeReader;
use crate::rows::{fault_at, read_rows};
use crate::sections::{Begun, find_sections};
use base_items::List;
use std::alloc::Global;
use token_text::{LabelTable, Text};

/// The document that the bytes spell, or the first fault where they spell none.
///
/// Lines are numbered from 1. The faults of the whole file come first: `NoNodes`, `NoArcs` and
/// `ArcsFirst`. Then comes the first bad line, and on it the first kind in the order of
/// [`LgfKind`].
pub fn read_doc(alloc: Global, bytes: &[u8]) -> Result<Doc, DocFault>
    ensures spelled { IfOk result (Spells bytes.now) }
    ensures valid { IfOk result IsDoc }
    ensures refused { IfErr result (Refuses bytes.now) }

    // Whatever is spelled is what is answered, and so is the first fault, unless memory ran out.
    ensures exact { (doc : Document) → Spells bytes.now doc → Answers doc result }
    ensures exact_fault { (fault : Fault) → HasFault bytes.now fault → Names fault result }
{
    let sections = find_sections(bytes);
    let Some(nodes) = sections.nodes else {
        return Err(fault_at(sections.end, LgfKind::NoNodes));
    };
    let Some(arcs) = sections.arcs else {
        return Err(fault_at(sections.end, LgfKind::NoArcs));
    };
    if arcs.at < nodes.at {
        return Err(fault_at(arcs.at, LgfKind::ArcsFirst));
    }
    read_parts(alloc, &nodes, &arcs, &sections.attributes)
}

// The nodes of a section, and their labels.
fn read_nodes(alloc: Global, begun: &Begun<'_>) -> Result<(Table, LabelTable), DocFault>
    requires { begun.now.at + 1 + length begun.now.rest.now < 2 ^ 64 }
    ensures spelled { IfOk result (λ read.
        NodesSpell (rows_at begun.now.at begun.now.rest.now) read.0) }
    ensures table { IfOk result (λ read. IsTable read.0) }
    ensures labels { IfOk result (λ read. read.1 ≡ node_labels read.0) }
    ensures bad { IfErr result (Blames node_fault (rows_at begun.now.at begun.now.rest.now)) }
{
    let mut reader = NodeReader::new(alloc);
    read_rows(alloc, &mut reader, begun.rest, begun.at + 1)?;
    let read = reader.finish(alloc)?;
    Ok(read)
}

// The columns of a section of arcs and its arcs, between nodes with these labels.
fn read_arcs(
    alloc: Global,
    nodes: &LabelTable,
    begun: &Begun<'_>,
) -> Result<(List<Text>, List<Link>), DocFault>
    requires room { begun.now.at + 1 + length begun.now.rest.now < 2 ^ 64 }
    requires few { length nodes.now ≤ NODE_LIMIT }
    ensures spelled { IfOk result (λ read.
        ArcsSpell (rows_at begun.now.at begun.now.rest.now) nodes.now read.0 read.1) }
    ensures arcs { IfOk result (λ read. AreArcs nodes.now read.0 read.1) }
    ensures bad { IfErr result
        (Blames (arc_fault nodes.now) (rows_at begun.now.at begun.now.rest.now)) }
{
    let mut reader = ArcReader::new(alloc, nodes);
    read_rows(alloc, &mut reader, begun.rest, begun.at + 1)?;
    Ok(reader.finish(alloc))
}

// The attributes of a section. There are none where it is absent.
#[tactic(auto, using(crate::proofs::AttributeLists::attributes_right))]
fn read_attributes(alloc: Global, begun: &Option<Begun<'_>>) -> Result<List<(Text, Text)>, DocFault>
    requires { IfSome begun.now (λ b. b.at + 1 + length b.rest.now < 2 ^ 64) }
    ensures spelled { IfOk result
        (AttributesSpell (option_map_or (λ b. rows_at b.at b.rest.now) begun.now [])) }
    ensures attributes { IfOk result AreAttributes }
    ensures bad { IfErr result
        (Blames attribute_fault (option_map_or (λ b. rows_at b.at b.rest.now) begun.now [])) }
{
    let mut reader = AttributeReader::new(alloc);
    if let Some(begun) = begun {
        read_rows(alloc, &mut reader, begun.rest, begun.at + 1)?;
    }
    Ok(reader.finish())
}

// Nodes, and the arcs between them.
#[derive(Drop)]
struct Graph {
    nodes: Table,
    arc_columns: List<Text>,
    arcs: List<Link>,
}

// The nodes and the arcs of two sections.
fn read_graph(alloc: Global, nodes: &Begun<'_>, arcs: &Begun<'_>) -> Result<Graph, DocFault>
    requires nodes_room { nodes.now.at + 1 + length nodes.now.rest.now < 2 ^ 64 }
    requires arcs_room { arcs.now.at + 1 + length arcs.now.rest.now < 2 ^ 64 }
    ensures nodes_spelled { IfOk result (λ graph.
        NodesSpell (rows_at nodes.now.at nodes.now.rest.now) graph.nodes) }
    ensures arcs_spelled { IfOk result (λ graph. ArcsSpell (rows_at arcs.now.at arcs.now.rest.now)
        (node_labels graph.nodes) graph.arc_columns graph.arcs) }
    ensures nodes { IfOk result (λ graph. IsTable graph.nodes) }
    ensures arcs { IfOk result (λ graph.
        AreArcs (node_labels graph.nodes) graph.arc_columns graph.arcs) }
    ensures bad { IfErr result (GraphBlames (rows_at nodes.now.at nodes.now.rest.now)
        (rows_at arcs.now.at arcs.now.rest.now)) }
{
    let (nodes, labels) = read_nodes(alloc, nodes)?;
    let (arc_columns, arcs) = read_arcs(alloc, &labels, arcs)?;
    Ok(Graph {
        nodes,
        arc_columns,
        arcs,
    })
}

// The document of the three sections.
fn read_parts(
    alloc: Global,
    nodes: &Begun<'_>,
    arcs: &Begun<'_>,
    attributes: &Option<Begun<'_>>,
) -> Result<Doc, DocFault>
    requires nodes_room { nodes.now.at + 1 + length nodes.now.rest.now < 2 ^ 64 }
    requires arcs_room { arcs.now.at + 1 + length arcs.now.rest.now < 2 ^ 64 }
    requires attributes_room { IfSome attributes.now (λ b. b.at + 1 + length b.rest.now < 2 ^ 64) }
    ensures spelled { IfOk result (PartsSpell (rows_at nodes.now.at nodes.now.rest.now)
        (rows_at arcs.now.at arcs.now.rest.now)
        (option_map_or (λ b. rows_at b.at b.rest.now) attributes.now [])) }
    ensures valid { IfOk result IsDoc }
    ensures bad { IfErr result (PartsBlame (rows_at nodes.now.at nodes.now.rest.now)
        (rows_at arcs.now.at arcs.now.rest.now)
        (option_map_or (λ b. rows_at b.at b.rest.now) attributes.now [])) }
{
    match read_graph(alloc, nodes, arcs) {
        Ok(graph) => {
            let attributes = read_attributes(alloc, attributes)?;
            Ok(Doc {
                nodes: graph.nodes,
                arc_columns: graph.arc_columns,
                arcs: graph.arcs,
                attributes,
            })
        }
        Err(DocFault::Memory) => Err(DocFault::Memory),
        Err(DocFault::Lgf(fault)) => match read_attributes(alloc, attributes) {
            Ok(_) => Err(DocFault::Lgf(fault)),
            Err(DocFault::Memory) => Err(DocFault::Memory),
            Err(DocFault::Lgf(other)) => Err(DocFault::Lgf(earlier(fault, other))),
        },
    }
}

// The fault whose line comes first.
fn earlier(one: LgfFault, other: LgfFault) -> LgfFault
    ensures { result ≡ (if nat_lt other.line one.line then other else one) }
{
    if other.line < one.line { other } else { one }
}
