//! A digraph at its limits, and room that was made before.

use crate::steps::{Step, take};
use base_items::{Arc, ItemSort, Limit, MAX_ARCS, MAX_NODES, Node};
use digraph_text::is_live;
use list_digraph::{AddFault, ListDigraph};
use std::test::Fail;

#[test]
fn is_full_of_nodes(rt: HostRuntime) -> Result<(), Fail> {
    let mut graph = ListDigraph::new(rt.alloc());
    graph.reserve(MAX_NODES, 0)?;
    for id in 0..MAX_NODES {
        let fact = graph.add_node().ok();
        assert!(rt; fact.is_some(), "at {id}");
    }
    assert_eq!(rt; graph.add_node().err(), Some(AddFault::Full(Limit::Nodes)));
    assert_eq!(rt; graph.count(ItemSort::Node), 1_048_576);
    // one given back makes room for one
    assert!(rt; take(&mut graph, Step::EraseNode(7)).is_some());
    assert_eq!(rt; graph.add_node().ok().map(|fact| fact.id), Some(7));
    assert_eq!(rt; graph.add_node().err(), Some(AddFault::Full(Limit::Nodes)));
    Ok(())
}

#[test]
fn is_full_of_arcs(rt: HostRuntime) -> Result<(), Fail> {
    let mut graph = ListDigraph::new(rt.alloc());
    graph.reserve(1, MAX_ARCS)?;
    assert!(rt; take(&mut graph, Step::AddNode).is_some());
    for id in 0..MAX_ARCS {
        assert!(rt; take(&mut graph, Step::AddArc(0, 0)).is_some(), "at {id}");
    }
    assert!(rt; is_live(&graph, ItemSort::Node, 0));
    let refused = graph.add_arc(Node(0), Node(0)).err();
    assert_eq!(rt; refused, Some(AddFault::Full(Limit::Arcs)));
    assert_eq!(rt; graph.count(ItemSort::Arc), 4_194_304);
    // nodes have a limit of their own
    assert!(rt; graph.add_node().is_ok());
    Ok(())
}
