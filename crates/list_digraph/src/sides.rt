//! The lists of arcs at the nodes: an arc leaves the list of a node, or enters it.

ghost use Rattle.std.specs.Prelude.{◌≡◌, ◌<◌, ◌≤◌, length, vec_capacity};
ghost use Rattle.linked_lists.specs.Links as spec;
ghost use Rattle.list_digraph.specs.Rows as rows;

use crate::rows::NodeRow;
use linked_lists::{Link, insert, remove};

/// The arc leaves the list of the arcs from the node.
pub fn leave_out(nodes: &mut Vec<NodeRow>, links: &mut Vec<Link>, node: u32, arc: u32)
    requires node { node < length nodes.old.items }
    requires arc { arc < length links.old.items }
    requires neighbours { spec.HasPlaces (length links.old.items)
        (spec.link_at links.old.items arc) }
    ensures nodes { rows.SetsOut nodes.old.items nodes.new.items node
        (spec.head_removed (rows.out_head nodes.old.items node) links.old.items arc) }
    ensures links { links.new.items ≡ spec.removed links.old.items arc }
    ensures room { (vec_capacity nodes.new ≡ vec_capacity nodes.old)
        × (vec_capacity links.new ≡ vec_capacity links.old) }
{
    let mut head = nodes[node as usize].first_out;
    remove(&mut head, links, arc);
    nodes[node as usize].first_out = head;
}

/// The arc leaves the list of the arcs to the node.
pub fn leave_in(nodes: &mut Vec<NodeRow>, links: &mut Vec<Link>, node: u32, arc: u32)
    requires node { node < length nodes.old.items }
    requires arc { arc < length links.old.items }
    requires neighbours { spec.HasPlaces (length links.old.items)
        (spec.link_at links.old.items arc) }
    ensures nodes { rows.SetsIn nodes.old.items nodes.new.items node
        (spec.head_removed (rows.in_head nodes.old.items node) links.old.items arc) }
    ensures links { links.new.items ≡ spec.removed links.old.items arc }
    ensures room { (vec_capacity nodes.new ≡ vec_capacity nodes.old)
        × (vec_capacity links.new ≡ vec_capacity links.old) }
{
    let mut head = nodes[node as usize].first_in;
    remove(&mut head, links, arc);
    nodes[node as usize].first_in = head;
}

/// The arc enters the list of the arcs from the node, behind this arc of it, or in front.
pub fn enter_out(
    nodes: &mut Vec<NodeRow>,
    links: &mut Vec<Link>,
    node: u32,
    behind: Option<u32>,
    arc: u32,
)
    requires few { length links.old.items ≤ 4294967295 }
    requires node { node < length nodes.old.items }
    requires arc { arc < length links.old.items }
    requires behind { spec.IsPlace (length links.old.items) behind }
    requires next { spec.IsPlace (length links.old.items)
        (spec.next_from (rows.out_head nodes.old.items node) links.old.items behind) }
    ensures nodes { rows.SetsOut nodes.old.items nodes.new.items node
        (spec.head_inserted (rows.out_head nodes.old.items node) behind arc) }
    ensures links { links.new.items
        ≡ spec.inserted (rows.out_head nodes.old.items node) links.old.items behind arc }
    ensures room { (vec_capacity nodes.new ≡ vec_capacity nodes.old)
        × (vec_capacity links.new ≡ vec_capacity links.old) }
{
    let mut head = nodes[node as usize].first_out;
    insert(&mut head, links, behind, arc);
    nodes[node as usize].first_out = head;
}

/// The arc enters the list of the arcs to the node, behind this arc of it, or in front.
pub fn enter_in(
    nodes: &mut Vec<NodeRow>,
    links: &mut Vec<Link>,
    node: u32,
    behind: Option<u32>,
    arc: u32,
)
    requires few { length links.old.items ≤ 4294967295 }
    requires node { node < length nodes.old.items }
    requires arc { arc < length links.old.items }
    requires behind { spec.IsPlace (length links.old.items) behind }
    requires next { spec.IsPlace (length links.old.items)
        (spec.next_from (rows.in_head nodes.old.items node) links.old.items behind) }
    ensures nodes { rows.SetsIn nodes.old.items nodes.new.items node
        (spec.head_inserted (rows.in_head nodes.old.items node) behind arc) }
    ensures links { links.new.items
        ≡ spec.inserted (rows.in_head nodes.old.items node) links.old.items behind arc }
    ensures room { (vec_capacity nodes.new ≡ vec_capacity nodes.old)
        × (vec_capacity links.new ≡ vec_capacity links.old) }
{
    let mut head = nodes[node as usize].first_in;
    insert(&mut head, links, behind, arc);
    nodes[node as usize].first_in = head;
}
