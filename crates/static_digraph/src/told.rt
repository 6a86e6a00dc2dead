//! What the chains of nodes and of arcs are told of a numbered digraph.

ghost use Rattle.std.specs.Prelude.{◌≡◌, ◌≤◌, IfOk, OnOk, OnErr, IfErr, length};
ghost use Rattle.plain_certificates.specs.Tables.{at};
ghost use Rattle.static_digraph.specs.Told.{nodes_told, arcs_told};

use crate::fault::FixFault;
use base_items::{Fact, ItemSort};
use notify_chain::{Chain, SeatKey};
use observe_core::{Observer, Veto};
use std::alloc::{AllocError, Global};

/// What is told of the nodes, and what of the arcs.
#[derive(Drop)]
pub struct Facts {
    pub nodes: Vec<Fact>,
    pub arcs: Vec<Fact>,
}

/// What is told of this many nodes.
pub fn node_facts(alloc: Global, count: usize) -> Result<Vec<Fact>, AllocError>
    requires { count ≤ 1048576 }
    ensures { IfOk result (λ facts. facts.items ≡ nodes_told count) }
{
    let mut facts = Vec::with_capacity(alloc, count)?;
    let mut node = 0;
    while node < count {
        facts.push(Fact {
            id: node as u32,
            from: node as u32,
            to: node as u32,
            from_at: node as u64,
            to_at: node as u64,
        })?;
        node += 1;
    }
    Ok(facts)
}

/// What is told of arcs with these ends.
pub fn arc_facts(alloc: Global, from: &[u32], to: &[u32]) -> Result<Vec<Fact>, AllocError>
    requires few { length from.now ≤ 4194304 }
    requires same { length to.now ≡ length from.now }
    ensures { IfOk result
        (λ facts. facts.items ≡ arcs_told (length from.now) (at 0 from.now) (at 0 to.now)) }
{
    let mut facts = Vec::with_capacity(alloc, from.len())?;
    let mut arc = 0;
    while arc < from.len() {
        facts.push(Fact {
            id: arc as u32,
            from: from[arc],
            to: to[arc],
            from_at: arc as u64,
            to_at: arc as u64,
        })?;
        arc += 1;
    }
    Ok(facts)
}

ghost use Rattle.observe_core.specs.Conditions.{CanBuild};
ghost use Rattle.observe_core.specs.Told.{built};
ghost use Rattle.notify_chain.specs.Seats.{seats, AllSeats, AllBecame, AreAsBefore};
ghost use Rattle.static_digraph.specs.Told.{Blames, fault_of};

/// The fault that a chain's refusal becomes.
fn fault(sort: ItemSort, key: SeatKey, veto: Veto) -> FixFault
    ensures { result ≡ fault_of sort key veto }
{
    match veto {
        Veto::Refused => FixFault::Vetoed(sort, key),
        Veto::Memory => FixFault::Memory,
    }
}

/// Tells each chain one build, that of the nodes first. Where an observer refuses, both chains are
/// as before.
pub fn tell_chains<O: Observer>(
    nodes: &[Fact],
    arcs: &[Fact],
    on_nodes: &mut Chain<O>,
    on_arcs: &mut Chain<O>,
) -> Result<(), FixFault>
    requires nodes { AllSeats (λ s. CanBuild nodes.now s.seen) (seats O.watch on_nodes.old) }
    requires arcs { AllSeats (λ s. CanBuild arcs.now s.seen) (seats O.watch on_arcs.old) }
    ensures nodes { OnOk result (AllBecame O.watch (built nodes.now) on_nodes.old on_nodes.new) }
    ensures arcs { OnOk result (AllBecame O.watch (built arcs.now) on_arcs.old on_arcs.new) }
    ensures nodes_kept { OnErr result (AreAsBefore O.watch on_nodes.old on_nodes.new) }
    ensures arcs_kept { OnErr result (AreAsBefore O.watch on_arcs.old on_arcs.new) }
    ensures blamed { IfErr result (Blames (built nodes.now) (built arcs.now)
        (seats O.watch on_nodes.old) (seats O.watch on_arcs.old)) }
    ensures nodes_left { on_nodes.new.left ≡ on_nodes.old.left }
    ensures arcs_left { on_arcs.new.left ≡ on_arcs.old.left }
{
    if let Err((key, veto)) = on_nodes.announce_build(nodes) {
        return Err(fault(ItemSort::Node, key, veto));
    }
    if let Err((key, veto)) = on_arcs.announce_build(arcs) {
        on_nodes.undo_build();
        return Err(fault(ItemSort::Arc, key, veto));
    }
    Ok(())
}
