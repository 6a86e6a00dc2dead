//! The seat: each call goes to what its variant holds, and none changes the variant.

use base_items::Fact;
use index_maps::{CrossRef, Degree, Ties, TrueItems};
use kept_views::{KeptArcs, KeptNodes};
use observe_core::{After, Kind, Observer, Readout, Veto};
use snap_shots::Half;
use value_maps::{BoolMap, IntMap, TextMap};

/// An observer of a world. Its form is the place of its variant, from 0; else contracts see of it
/// what they see of what it holds. A half is first, so that it has the form of a half by itself.
/// `B` is the place of a boxed observer.
#[derive(Drop)]
pub enum Seat<B> {
    Half(Half),
    Ints(IntMap),
    Bools(BoolMap),
    Texts(TextMap),
    Refs(CrossRef),
    Degrees(Degree),
    Trues(TrueItems),
    KeptNodes(KeptNodes),
    KeptArcs(KeptArcs),
    Ties(Ties),
    Boxed(B),
}

// The call on what the seat holds.
macro_rules! held {
    ($seat:expr, $it:ident => $call:expr) => {
        match $seat {
            Seat::Half($it) => $call,
            Seat::Ints($it) => $call,
            Seat::Bools($it) => $call,
            Seat::Texts($it) => $call,
            Seat::Refs($it) => $call,
            Seat::Degrees($it) => $call,
            Seat::Trues($it) => $call,
            Seat::KeptNodes($it) => $call,
            Seat::KeptArcs($it) => $call,
            Seat::Ties($it) => $call,
            Seat::Boxed($it) => $call,
        }
    };
}

impl<B: Observer> Observer for Seat<B> {
    ghost use Rattle.desk_seats.specs.Forms as form;
    ghost use Rattle.desk_seats.specs.Forms.{formed};
    ghost use Rattle.desk_seats.specs.declared.seat.Seat.TheVariants.{Half as Halves};
    ghost use Rattle.desk_seats.specs.declared.seat.Seat.TheVariants.{Ints, Bools, Texts, Refs};
    ghost use Rattle.desk_seats.specs.declared.seat.Seat.TheVariants.{Degrees, Trues};
    ghost use Rattle.desk_seats.specs.declared.seat.Seat.TheVariants.{KeptNodes as Nodes};
    ghost use Rattle.desk_seats.specs.declared.seat.Seat.TheVariants.{KeptArcs as Arcs};
    ghost use Rattle.desk_seats.specs.declared.seat.Seat.TheVariants.{Ties as Tied, Boxed};

    ghost watch = { elim [
      | Halves o ↦ formed form.half_form (⟦<Half as Observer>⟧.watch o)
      | Ints o ↦ formed form.ints_form (⟦<IntMap as Observer>⟧.watch o)
      | Bools o ↦ formed form.bools_form (⟦<BoolMap as Observer>⟧.watch o)
      | Texts o ↦ formed form.texts_form (⟦<TextMap as Observer>⟧.watch o)
      | Refs o ↦ formed form.labels_form (⟦<CrossRef as Observer>⟧.watch o)
      | Degrees o ↦ formed form.degrees_form (⟦<Degree as Observer>⟧.watch o)
      | Trues o ↦ formed form.trues_form (⟦<TrueItems as Observer>⟧.watch o)
      | Nodes o ↦ formed form.nodes_form (⟦<KeptNodes as Observer>⟧.watch o)
      | Arcs o ↦ formed form.arcs_form (⟦<KeptArcs as Observer>⟧.watch o)
      | Tied o ↦ formed form.ties_form (⟦<Ties as Observer>⟧.watch o)
      | Boxed b ↦ formed form.boxed_form (B.watch b)
    ] };

    fn kind(&self) -> Kind {
        held!(self, o => o.kind())
    }

    fn readout(&self) -> Readout {
        held!(self, o => o.readout())
    }

    fn arm(&mut self, k: u32) {
        held!(self, o => o.arm(k))
    }

    fn add(&mut self, f: Fact) -> Result<(), Veto> {
        held!(self, o => o.add(f))
    }

    fn undo_add(&mut self, f: Fact) {
        held!(self, o => o.undo_add(f))
    }

    fn shift(&mut self, old: Fact, new: Fact) -> Result<(), Veto> {
        held!(self, o => o.shift(old, new))
    }

    fn undo_shift(&mut self, old: Fact, new: Fact) {
        held!(self, o => o.undo_shift(old, new))
    }

    fn build(&mut self, all: &[Fact]) -> Result<(), Veto> {
        held!(self, o => o.build(all))
    }

    fn undo_build(&mut self) {
        held!(self, o => o.undo_build())
    }

    fn erase(&mut self, f: Fact) -> After {
        held!(self, o => o.erase(f))
    }

    fn clear(&mut self) -> After {
        held!(self, o => o.clear())
    }
}
