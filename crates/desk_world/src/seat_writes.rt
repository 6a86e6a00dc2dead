//! Writes to the seats of maps.

ghost use Rattle.std.specs.Prelude.{◌≡◌, Some, None, cond};
ghost use Rattle.plain_digraph.specs.Items.{IsLive};
ghost use Rattle.alter_graph.specs.Chains.{chains_seen};
ghost use Rattle.alter_graph.specs.State.{state_of, IsInStep};
ghost use Rattle.desk_seats.specs.Contents.{holding, StillFits};
ghost use Rattle.value_maps.specs.Entries.{HasValue};
ghost use Rattle.desk_world.specs.Claims as claims;
ghost use Rattle.desk_world.specs.Claims.{Plays, Sits, role_of};
ghost use Rattle.desk_world.specs.Derived.{bools_seen};
ghost use Rattle.desk_world.specs.Indexes.{is_index_kind, trues_with};
ghost use Rattle.desk_world.specs.Looks.{look_in};
ghost use Rattle.desk_world.specs.Seating.{Puts};
ghost use Rattle.desk_world.specs.Values.{HasItem, kind_for, type_for, held_with};

use crate::tables::{MapKind, MapRow};
use crate::values::Value;
use alter_graph::Alterable;
use base_items::ItemSort;
use desk_seats::Seat;
use notify_chain::SeatKey;
use observe_core::Observer;
use token_text::Text;

/// The key of the seat of an index of the map. None where it is another map's index, or none.
pub fn index_key(row: &MapRow, map: &Text) -> Option<SeatKey>
    ensures { result ≡ cond (is_index_kind map.now row.now.kind) (Some row.now.key) None }
{
    match &row.kind {
        MapKind::Ints => None,
        MapKind::Bools => None,
        MapKind::Texts => None,
        MapKind::Degrees(_) => None,
        MapKind::Trues(source) => {
            if source.as_bytes() == map.as_bytes() {
                Some(row.key)
            } else {
                None
            }
        }
    }
}

/// The bool of a live item of the map of bools in a seat.
pub fn bool_at<B: Observer>(
    graph: &Alterable<Seat<B>>,
    sort: ItemSort,
    key: SeatKey,
    id: u32,
) -> bool
    requires in_step { IsInStep (state_of ⟦<Seat<B> as Observer>⟧.watch graph.now) }
    requires there { Sits claims.Bools
        (look_in (chains_seen ⟦<Seat<B> as Observer>⟧.watch graph.now.chains) sort key.0) }
    requires live { IsLive graph.now.graph.graph sort id }
    ensures { HasValue id result (bools_seen
        (look_in (chains_seen ⟦<Seat<B> as Observer>⟧.watch graph.now.chains) sort key.0)) }
{
    match graph.seat(sort, key) {
        None => unreachable!(),
        Some(seat) => seat.bool(id),
    }
}

/// Writes the value of a live item to the map of its type in a seat.
pub fn write_seat<B: Observer>(
    graph: &mut Alterable<Seat<B>>,
    sort: ItemSort,
    key: SeatKey,
    id: u32,
    value: Value,
)
    requires in_step { IsInStep (state_of ⟦<Seat<B> as Observer>⟧.watch graph.old) }
    requires there { Sits (role_of (kind_for (type_for value)))
        (look_in (chains_seen ⟦<Seat<B> as Observer>⟧.watch graph.old.chains) sort key.0) }
    requires live { IsLive graph.old.graph.graph sort id }
    ensures puts { Puts sort key.0 (held_with value id)
        (chains_seen ⟦<Seat<B> as Observer>⟧.watch graph.old.chains)
        (chains_seen ⟦<Seat<B> as Observer>⟧.watch graph.new.chains) }
    ensures in_step { IsInStep (state_of ⟦<Seat<B> as Observer>⟧.watch graph.new) }
    ensures graph { graph.new.graph ≡ graph.old.graph }
{
    match graph.seat_mut(sort, key) {
        None => unreachable!(),
        Some(seat) => write_to(seat, id, value),
    }
}

/// Writes whether a live item of the index in a seat is true.
pub fn write_true<B: Observer>(
    graph: &mut Alterable<Seat<B>>,
    sort: ItemSort,
    key: SeatKey,
    id: u32,
    value: bool,
)
    requires in_step { IsInStep (state_of ⟦<Seat<B> as Observer>⟧.watch graph.old) }
    requires there { Sits claims.Trues
        (look_in (chains_seen ⟦<Seat<B> as Observer>⟧.watch graph.old.chains) sort key.0) }
    requires live { IsLive graph.old.graph.graph sort id }
    ensures puts { Puts sort key.0 (trues_with id value)
        (chains_seen ⟦<Seat<B> as Observer>⟧.watch graph.old.chains)
        (chains_seen ⟦<Seat<B> as Observer>⟧.watch graph.new.chains) }
    ensures in_step { IsInStep (state_of ⟦<Seat<B> as Observer>⟧.watch graph.new) }
    ensures graph { graph.new.graph ≡ graph.old.graph }
{
    match graph.seat_mut(sort, key) {
        None => unreachable!(),
        Some(seat) => seat.write_true(id, value),
    }
}

/// Writes a value to what a seat holds.
pub fn write_to<B: Observer>(seat: &mut Seat<B>, id: u32, value: Value)
    requires role { Plays (role_of (kind_for (type_for value)))
        (⟦<Seat<B> as Observer>⟧.watch seat.old).seen }
    requires live { HasItem value id (⟦<Seat<B> as Observer>⟧.watch seat.old).seen }
    ensures seen { let old = (⟦<Seat<B> as Observer>⟧.watch seat.old).seen in
        (⟦<Seat<B> as Observer>⟧.watch seat.new).seen ≡ holding (held_with value id old) old }
    ensures fits { StillFits (⟦<Seat<B> as Observer>⟧.watch seat.old).seen
        (⟦<Seat<B> as Observer>⟧.watch seat.new).seen }
{
    match value {
        Value::Int(value) => seat.set_int(id, value),
        Value::Bool(value) => seat.set_bool(id, value),
        Value::Text(value) => {
            let _ = seat.set_text(id, value);
        }
    }
}
