//! What stands under the names of a world, beside the seats of its observers.

ghost use Rattle.std.specs.Prelude.{◌≡◌, []};

use base_items::ItemSort;
use desk_names::NameTable;
use notify_chain::SeatKey;
use observe_core::KeptShape;
use script_words::{Direction, LayerWord};
use std::alloc::Global;
use token_text::Text;

/// What a map is: a map of values, the degrees of nodes, or the true items of a bool map.
#[derive(Drop)]
pub enum MapKind {
    Ints,
    Bools,
    Texts,
    Degrees(Direction),
    /// The name of the bool map.
    Trues(Text),
}

/// A map, and the key of its seat. Degrees sit in the chain of the arcs, every other map in that of
/// its items.
#[derive(Drop)]
pub struct MapRow {
    pub kind: MapKind,
    pub key: SeatKey,
}

/// What is attached to the items of a sort: the seats of their labels and of the attributes that
/// are tied to them, and their maps.
#[derive(Drop)]
pub struct ItemTables {
    pub labels: SeatKey,
    pub ties: SeatKey,
    pub maps: NameTable<MapRow>,
}

/// The seat of a guard.
#[derive(Clone, Copy)]
pub struct GuardRow {
    pub sort: ItemSort,
    pub key: SeatKey,
}

/// What the layers of a kept view read: their shape, and the seats of the maps that they name. A
/// map of such a view is never dropped and keeps its seat.
#[derive(Clone, Copy)]
pub struct KeptMaps {
    pub shape: KeptShape,
    pub node_filter: Option<SeatKey>,
    pub arc_filter: Option<SeatKey>,
    pub cap: Option<SeatKey>,
    pub flow: Option<SeatKey>,
}

/// The seats of a kept view: of its nodes, and of its arcs, with what they are placed by.
#[derive(Clone, Copy)]
pub struct KeptKeys {
    pub maps: KeptMaps,
    pub nodes: SeatKey,
    pub arcs: SeatKey,
}

/// A view over another, and its seats if it is kept.
#[derive(Drop)]
pub struct ViewRow {
    pub layer: LayerWord,
    pub below: Text,
    pub kept: Option<KeptKeys>,
}

/// An attribute: plain text, or the number of a tie to an item of the sort.
#[derive(Drop)]
pub enum AttributeRow {
    Plain(Text),
    Tied(ItemSort, u32),
}
