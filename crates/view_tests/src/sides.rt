//! The two observers of a kept view as one type, and how items are placed in their seats.

ghost use Rattle.std.specs.Prelude.{List};
ghost use Rattle.base_items.specs.declared.items.Fact.{Fact as Told};
ghost use Rattle.alter_graph.specs.Lending.{Rewrites};
ghost use Rattle.alter_graph.specs.State.{state_of, IsInStep};
ghost use Rattle.view_tests.specs.Sides.{watched};

use alter_graph::Alterable;
use base_items::{Fact, ItemSort};
use kept_views::{KeptArcs, KeptNodes};
use kept_walks::{Kept, ends_are_held};
use notify_chain::SeatKey;
use observe_core::{After, Kind, Observer, Readout, Veto};

/// An observer of a kept view. Contracts see of it what they see of what it holds.
#[derive(Drop)]
pub enum Side {
    Nodes(KeptNodes),
    Arcs(KeptArcs),
}

// The call on what it holds.
macro_rules! held {
    ($side:expr, $it:ident => $call:expr) => {
        match $side {
            Side::Nodes($it) => $call,
            Side::Arcs($it) => $call,
        }
    };
}

impl Observer for Side {
    ghost use Rattle.view_tests.specs.Sides.{watched as seen_so};

    ghost watch = { seen_so };

    fn kind(&self) -> Kind {
        held!(self, o => o.kind())
    }

    fn readout(&self) -> Readout {
        held!(self, o => o.readout())
    }

    fn arm(&mut self, k: u32) {
        held!(self, o => o.arm(k))
    }

    fn add(&mut self, f: Fact) -> Result<(), Veto> {
        held!(self, o => o.add(f))
    }

    fn undo_add(&mut self, f: Fact) {
        held!(self, o => o.undo_add(f))
    }

    fn shift(&mut self, old: Fact, new: Fact) -> Result<(), Veto> {
        held!(self, o => o.shift(old, new))
    }

    fn undo_shift(&mut self, old: Fact, new: Fact) {
        held!(self, o => o.undo_shift(old, new))
    }

    fn build(&mut self, all: &[Fact]) -> Result<(), Veto> {
        held!(self, o => o.build(all))
    }

    fn undo_build(&mut self) {
        held!(self, o => o.undo_build())
    }

    fn erase(&mut self, f: Fact) -> After {
        held!(self, o => o.erase(f))
    }

    fn clear(&mut self) -> After {
        held!(self, o => o.clear())
    }
}

impl Side {
    // Places a node that it holds.
    fn place_node(&mut self, id: u32, shown: bool)
        ensures { (live : List Told)
            → Rewrites live (watched self.old).seen (watched self.new).seen }
    {
        if let Side::Nodes(nodes) = self {
            if nodes.has(id) {
                if shown {
                    nodes.set(id, true);
                } else if !nodes.all() {
                    nodes.set(id, false);
                }
            }
        }
    }

    // Places an arc that it holds.
    fn place_arc(&mut self, id: u32, shown: bool, forward: bool, backward: bool)
        ensures { (live : List Told)
            → Rewrites live (watched self.old).seen (watched self.new).seen }
    {
        if let Side::Arcs(arcs) = self {
            if arcs.fact(id).is_some() {
                if shown {
                    arcs.set(id, true, forward, backward);
                } else if !arcs.all() {
                    arcs.set(id, false, forward, backward);
                }
            }
        }
    }
}

/// Places a node of the view whose nodes have this seat.
pub fn place_node(all: &mut Alterable<Side>, nodes: SeatKey, id: u32, shown: bool)
    requires { IsInStep (state_of watched all.old) }
    ensures { IsInStep (state_of watched all.new) }
{
    if let Some(side) = all.seat_mut(ItemSort::Node, nodes) {
        side.place_node(id, shown);
    }
}

/// Places an arc of the view whose arcs have this seat.
pub fn place_arc(
    all: &mut Alterable<Side>,
    arcs: SeatKey,
    id: u32,
    shown: bool,
    forward: bool,
    backward: bool,
)
    requires { IsInStep (state_of watched all.old) }
    ensures { IsInStep (state_of watched all.new) }
{
    if let Some(side) = all.seat_mut(ItemSort::Arc, arcs) {
        side.place_arc(id, shown, forward, backward);
    }
}

/// The kept view of two seats. None where they aren't those of its observers.
pub fn kept_of(all: &Alterable<Side>, nodes: SeatKey, arcs: SeatKey) -> Option<Kept<'_>>
    requires { IsInStep (state_of watched all.now) }
{
    let Some(Side::Nodes(nodes)) = all.seat(ItemSort::Node, nodes) else {
        return None;
    };
    let Some(Side::Arcs(arcs)) = all.seat(ItemSort::Arc, arcs) else {
        return None;
    };
    ends_are_held();
    Some(Kept::new(nodes, arcs))
}
