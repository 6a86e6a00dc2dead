//! The seats of kept views: how they come, are filled, and go.

ghost use Rattle.std.specs.Prelude.{◌≡◌, ◌<◌, None, Option, IfOk};
ghost use Rattle.std.specs.Prelude.{OnErr, option_and_then};
ghost use Rattle.alter_graph.specs.Attaching.{detached};
ghost use Rattle.alter_graph.specs.Chains.{chains_seen};
ghost use Rattle.alter_graph.specs.State.{state_of, IsInStep as StandsInStep, IsSame};
ghost use Rattle.desk_world.specs.Claims.{Sits};
ghost use Rattle.desk_world.specs.KeptMaps.{present_in};
ghost use Rattle.desk_world.specs.Looks.{look_in};
ghost use Rattle.desk_world.specs.Placing.{SitMaps, SomeSeatsCome, Keeps, own_key, own_role};
ghost use Rattle.desk_world.specs.Placing.{marks_by, all_marked};
ghost use Rattle.desk_world.specs.Seating.{Puts};

use crate::opening::attach;
use crate::placing::place_item;
use crate::refusals::taken;
use crate::tables::{KeptKeys, KeptMaps, ViewRow};
use alter_graph::Alterable;
use base_items::ItemSort;
use desk_seats::Seat;
use kept_views::{KeptArcs, KeptNodes};
use observe_core::Observer;
use std::alloc::{AllocError, Global};

// Attaches the seats of a view that reads these maps: of all nodes, then of all arcs. Where the
// second fails for want of memory, the first is taken out again; all is then as before.
fn attach_seats<B: Observer>(
    alloc: Global,
    graph: &mut Alterable<Seat<B>>,
    maps: &KeptMaps,
) -> Result<KeptKeys, AllocError>
    requires in_step { StandsInStep (state_of ⟦<Seat<B> as Observer>⟧.watch graph.old) }
    ensures came { IfOk result (λ keys. SomeSeatsCome maps.now keys
        (state_of ⟦<Seat<B> as Observer>⟧.watch graph.old)
        (state_of ⟦<Seat<B> as Observer>⟧.watch graph.new)) }
    ensures same { OnErr result (IsSame (state_of ⟦<Seat<B> as Observer>⟧.watch graph.old)
        (state_of ⟦<Seat<B> as Observer>⟧.watch graph.new)) }
    ensures in_step { StandsInStep (state_of ⟦<Seat<B> as Observer>⟧.watch graph.new) }
{
    let nodes = Seat::KeptNodes(KeptNodes::new(maps.node_filter.is_none(), alloc));
    let nodes = attach(alloc, graph, ItemSort::Node, nodes)?;
    let arcs = Seat::KeptArcs(KeptArcs::new(maps.shape, maps.arc_filter.is_none(), alloc));
    match attach(alloc, graph, ItemSort::Arc, arcs) {
        Ok(arcs) => Ok(KeptKeys {
            maps: *maps,
            nodes,
            arcs,
        }),
        Err(_) => {
            let _ = graph.detach(ItemSort::Node, nodes);
            Err(AllocError)
        }
    }
}

// Places each live item of a sort anew in a kept view.
fn place_all<B: Observer>(graph: &mut Alterable<Seat<B>>, keys: &KeptKeys, sort: ItemSort)
    requires in_step { StandsInStep (state_of ⟦<Seat<B> as Observer>⟧.watch graph.old) }
    requires maps { SitMaps (look_in (chains_seen ⟦<Seat<B> as Observer>⟧.watch graph.old.chains))
        keys.now.maps }
    requires seat { Sits (own_role sort keys.now.maps)
        (look_in (chains_seen ⟦<Seat<B> as Observer>⟧.watch graph.old.chains) sort
        (own_key sort keys.now).0) }
    ensures puts { let old = chains_seen ⟦<Seat<B> as Observer>⟧.watch graph.old.chains in
        Puts sort (own_key sort keys.now).0
        (all_marked (marks_by (present_in (look_in old) keys.now.maps) sort)) old
        (chains_seen ⟦<Seat<B> as Observer>⟧.watch graph.new.chains) }
    ensures in_step { StandsInStep (state_of ⟦<Seat<B> as Observer>⟧.watch graph.new) }
    ensures graph { graph.new.graph ≡ graph.old.graph }
{
    for id in 0..graph.graph().used(sort) {
        if graph.graph().fact(sort, id).is_some() {
            place_item(graph, keys, sort, id);
        }
    }
}

/// Attaches the seats of a view that reads these maps, and places all items by their present
/// values. The error is want of memory; all is then as before.
pub(crate) fn attach_kept<B: Observer>(
    alloc: Global,
    graph: &mut Alterable<Seat<B>>,
    maps: &KeptMaps,
) -> Result<KeptKeys, AllocError>
    requires in_step { StandsInStep (state_of ⟦<Seat<B> as Observer>⟧.watch graph.old) }
    requires maps { SitMaps (look_in (chains_seen ⟦<Seat<B> as Observer>⟧.watch graph.old.chains))
        maps.now }
    ensures keeps { IfOk result (λ keys. Keeps maps.now keys
        (state_of ⟦<Seat<B> as Observer>⟧.watch graph.old)
        (state_of ⟦<Seat<B> as Observer>⟧.watch graph.new)) }
    ensures same { OnErr result (IsSame (state_of ⟦<Seat<B> as Observer>⟧.watch graph.old)
        (state_of ⟦<Seat<B> as Observer>⟧.watch graph.new)) }
    ensures in_step { StandsInStep (state_of ⟦<Seat<B> as Observer>⟧.watch graph.new) }
{
    let keys = attach_seats(alloc, graph, maps)?;
    place_all(graph, &keys, ItemSort::Node);
    place_all(graph, &keys, ItemSort::Arc);
    Ok(keys)
}

/// The seats of what was a view, if it was kept.
pub(crate) fn keys_of(row: Option<ViewRow>) -> Option<KeptKeys>
    ensures { result ≡ option_and_then (λ row. row.kept) row }
{
    match row {
        None => None,
        Some(row) => row.kept,
    }
}

/// Takes the seats of a kept view out.
pub(crate) fn let_seats_go<O: Observer>(graph: &mut Alterable<O>, keys: &KeptKeys)
    ensures graph { graph.new.graph ≡ graph.old.graph }
    ensures detached { chains_seen O.watch graph.new.chains ≡ detached ItemSort.Arc keys.now.arcs.0
        (detached ItemSort.Node keys.now.nodes.0 (chains_seen O.watch graph.old.chains)) }
    ensures in_step { StandsInStep (state_of O.watch graph.old)
        → StandsInStep (state_of O.watch graph.new) }
{
    let _ = graph.detach(ItemSort::Node, keys.nodes);
    let _ = graph.detach(ItemSort::Arc, keys.arcs);
}
