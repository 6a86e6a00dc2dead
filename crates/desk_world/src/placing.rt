//! Items of kept views are placed anew, by their present values.

ghost use Rattle.std.specs.Prelude.{◌≡◌};
ghost use Rattle.plain_digraph.specs.Items.{IsLive};
ghost use Rattle.alter_graph.specs.Chains.{chains_seen};
ghost use Rattle.alter_graph.specs.State.{state_of, IsInStep};
ghost use Rattle.desk_world.specs.Claims as claims;
ghost use Rattle.desk_world.specs.Claims.{Sits};
ghost use Rattle.desk_world.specs.InStep.{AreInStep};
ghost use Rattle.desk_world.specs.KeptMaps.{passes, amount, present_in};
ghost use Rattle.desk_world.specs.Looks.{look_in};
ghost use Rattle.desk_world.specs.Plain.{plain_of};
ghost use Rattle.desk_world.specs.Placing.{SitsGiven, SitMaps, own_key, own_role, marks_by};
ghost use Rattle.desk_world.specs.Placing.{marked_with, AreUnplaced};
ghost use Rattle.desk_world.specs.Seating.{Puts};

use crate::seat_writes::bool_at;
use crate::tables::KeptKeys;
use crate::world::World;
use alter_graph::Alterable;
use base_items::ItemSort;
use desk_seats::Seat;
use notify_chain::SeatKey;
use observe_core::Observer;

/// Whether a live item passes the filter in a seat; where there is no filter it does.
fn passes<B: Observer>(
    graph: &Alterable<Seat<B>>,
    sort: ItemSort,
    filter: Option<SeatKey>,
    id: u32,
) -> bool
    requires in_step { IsInStep (state_of ⟦<Seat<B> as Observer>⟧.watch graph.now) }
    requires there { SitsGiven claims.Bools
        (look_in (chains_seen ⟦<Seat<B> as Observer>⟧.watch graph.now.chains) sort) filter }
    requires live { IsLive graph.now.graph.graph sort id }
    ensures { result ≡ passes
        (look_in (chains_seen ⟦<Seat<B> as Observer>⟧.watch graph.now.chains) sort) filter id }
{
    match filter {
        Some(key) => bool_at(graph, sort, key, id),
        None => true,
    }
}

/// The int of a live arc in the seat of a map; 0 where there is no map.
fn amount<B: Observer>(graph: &Alterable<Seat<B>>, map: Option<SeatKey>, id: u32) -> i64
    requires in_step { IsInStep (state_of ⟦<Seat<B> as Observer>⟧.watch graph.now) }
    requires there { SitsGiven claims.Ints
        (look_in (chains_seen ⟦<Seat<B> as Observer>⟧.watch graph.now.chains) ItemSort.Arc) map }
    requires live { IsLive graph.now.graph.graph ItemSort.Arc id }
    ensures { result ≡ amount
        (look_in (chains_seen ⟦<Seat<B> as Observer>⟧.watch graph.now.chains) ItemSort.Arc) map
        id }
{
    let Some(key) = map else {
        return 0;
    };
    match graph.seat(ItemSort::Arc, key) {
        None => unreachable!(),
        Some(seat) => seat.int(id),
    }
}

/// Places a live node anew in a kept view: it is shown where it passes the filter.
fn place_node<B: Observer>(graph: &mut Alterable<Seat<B>>, keys: &KeptKeys, id: u32)
    requires in_step { IsInStep (state_of ⟦<Seat<B> as Observer>⟧.watch graph.old) }
    requires maps { SitMaps (look_in (chains_seen ⟦<Seat<B> as Observer>⟧.watch graph.old.chains))
        keys.now.maps }
    requires seat { Sits (own_role ItemSort.Node keys.now.maps)
        (look_in (chains_seen ⟦<Seat<B> as Observer>⟧.watch graph.old.chains) ItemSort.Node
        keys.now.nodes.0) }
    requires live { IsLive graph.old.graph.graph ItemSort.Node id }
    ensures puts { let old = chains_seen ⟦<Seat<B> as Observer>⟧.watch graph.old.chains in
        Puts ItemSort.Node keys.now.nodes.0
        (marked_with id (marks_by (present_in (look_in old) keys.now.maps) ItemSort.Node id)) old
        (chains_seen ⟦<Seat<B> as Observer>⟧.watch graph.new.chains) }
    ensures in_step { IsInStep (state_of ⟦<Seat<B> as Observer>⟧.watch graph.new) }
    ensures graph { graph.new.graph ≡ graph.old.graph }
{
    let shown = passes(&*graph, ItemSort::Node, keys.maps.node_filter, id);
    match graph.seat_mut(ItemSort::Node, keys.nodes) {
        None => unreachable!(),
        Some(seat) => seat.set_node(id, shown),
    }
}

/// Places a live arc anew in a kept view: it is shown where it passes the filter, forward where its
/// flow is below its capacity, and backward where its flow is above 0.
fn place_arc<B: Observer>(graph: &mut Alterable<Seat<B>>, keys: &KeptKeys, id: u32)
    requires in_step { IsInStep (state_of ⟦<Seat<B> as Observer>⟧.watch graph.old) }
    requires maps { SitMaps (look_in (chains_seen ⟦<Seat<B> as Observer>⟧.watch graph.old.chains))
        keys.now.maps }
    requires seat { Sits (own_role ItemSort.Arc keys.now.maps)
        (look_in (chains_seen ⟦<Seat<B> as Observer>⟧.watch graph.old.chains) ItemSort.Arc
        keys.now.arcs.0) }
    requires live { IsLive graph.old.graph.graph ItemSort.Arc id }
    ensures puts { let old = chains_seen ⟦<Seat<B> as Observer>⟧.watch graph.old.chains in
        Puts ItemSort.Arc keys.now.arcs.0
        (marked_with id (marks_by (present_in (look_in old) keys.now.maps) ItemSort.Arc id)) old
        (chains_seen ⟦<Seat<B> as Observer>⟧.watch graph.new.chains) }
    ensures in_step { IsInStep (state_of ⟦<Seat<B> as Observer>⟧.watch graph.new) }
    ensures graph { graph.new.graph ≡ graph.old.graph }
{
    let shown = passes(&*graph, ItemSort::Arc, keys.maps.arc_filter, id);
    let cap = amount(&*graph, keys.maps.cap, id);
    let flow = amount(&*graph, keys.maps.flow, id);
    match graph.seat_mut(ItemSort::Arc, keys.arcs) {
        None => unreachable!(),
        Some(seat) => seat.set_arc(id, shown, flow < cap, 0 < flow),
    }
}

/// Places a live item anew in a kept view.
pub fn place_item<B: Observer>(
    graph: &mut Alterable<Seat<B>>,
    keys: &KeptKeys,
    sort: ItemSort,
    id: u32,
)
    requires in_step { IsInStep (state_of ⟦<Seat<B> as Observer>⟧.watch graph.old) }
    requires maps { SitMaps (look_in (chains_seen ⟦<Seat<B> as Observer>⟧.watch graph.old.chains))
        keys.now.maps }
    requires seat { Sits (own_role sort keys.now.maps)
        (look_in (chains_seen ⟦<Seat<B> as Observer>⟧.watch graph.old.chains) sort
        (own_key sort keys.now).0) }
    requires live { IsLive graph.old.graph.graph sort id }
    ensures puts { let old = chains_seen ⟦<Seat<B> as Observer>⟧.watch graph.old.chains in
        Puts sort (own_key sort keys.now).0
        (marked_with id (marks_by (present_in (look_in old) keys.now.maps) sort id)) old
        (chains_seen ⟦<Seat<B> as Observer>⟧.watch graph.new.chains) }
    ensures in_step { IsInStep (state_of ⟦<Seat<B> as Observer>⟧.watch graph.new) }
    ensures graph { graph.new.graph ≡ graph.old.graph }
{
    match sort {
        ItemSort::Node => place_node(graph, keys, id),
        ItemSort::Arc => place_arc(graph, keys, id),
    }
}

impl<B: Observer> World<Seat<B>> {
    /// Places a live item anew in each kept view.
    pub(crate) fn place_anew(&mut self, sort: ItemSort, id: u32)
        requires in_step { AreUnplaced ⟦<Seat<B> as Observer>⟧.watch sort id self.old }
        requires live { IsLive self.old.graph.graph.graph sort id }
        ensures in_step { AreInStep ⟦<Seat<B> as Observer>⟧.watch self.new }
        ensures same { plain_of ⟦<Seat<B> as Observer>⟧.watch self.new
            ≡ plain_of ⟦<Seat<B> as Observer>⟧.watch self.old }
        ensures graph { self.new.graph.graph ≡ self.old.graph.graph }
        ensures pool { self.new.pool ≡ self.old.pool }
    {
        for place in 0..self.views.len() {
            if let Some(keys) = &self.views.value(place).kept {
                place_item(&mut self.graph, keys, sort, id);
            }
        }
    }
}
