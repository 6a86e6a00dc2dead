//! Views by name: which there are, and how they come and go.

ghost use Rattle.std.specs.Prelude.{◌≡◌, ◌+◌, ◌<◌, ◌^◌, false, IfOk, OnOk, OnErr};
ghost use Rattle.script_words.specs.declared.commands.Command.TheVariants as command;
ghost use Rattle.script_words.specs.Valid.{IsValid};
ghost use Rattle.plain_world.specs.Tables.{has_entry};
ghost use Rattle.desk_world.specs.KeptViews.{NoneStand, views_of};
ghost use Rattle.desk_world.specs.Shown.{with_view};
ghost use Rattle.plain_world.specs.Views.{is_base};
ghost use Rattle.desk_world.specs.Plain.{plain_of};
ghost use Rattle.desk_world.specs.InStep.{IsInStep, AreInStep, HasStamps};
ghost use Rattle.desk_world.specs.Faults.{Answers};

use crate::refusals::wrong_type;
use crate::tables::ViewRow;
use crate::world::World;
use desk_seats::Seat;
use observe_core::Observer;
use report_text::{Reply, StepFault};
use script_words::LayerWord;
use std::alloc::{AllocError, Global};
use token_text::{Text, copy_text};

/// Whether the name is that of the view that is always there.
pub fn is_base(name: &Text) -> bool
    ensures { result ≡ is_base name.now }
{
    name.as_bytes() == b"base".as_slice()
}

// The same name once more, if there is one.
fn copy_given(alloc: Global, name: &Option<Text>) -> Result<Option<Text>, AllocError>
    ensures { IfOk result (λ copy. copy ≡ name.now) }
{
    match name {
        Some(name) => Ok(Some(copy_text(alloc, name.as_bytes())?)),
        None => Ok(None),
    }
}

/// The same layer once more.
pub fn copy_layer(alloc: Global, layer: &LayerWord) -> Result<LayerWord, AllocError>
    ensures { IfOk result (λ copy. copy ≡ layer.now) }
{
    match layer {
        LayerWord::Reverse => Ok(LayerWord::Reverse),
        LayerWord::Undirect => Ok(LayerWord::Undirect),
        LayerWord::Split => Ok(LayerWord::Split),
        LayerWord::Sub(nodes, arcs) => {
            let nodes = copy_given(alloc, nodes)?;
            let arcs = copy_given(alloc, arcs)?;
            Ok(LayerWord::Sub(nodes, arcs))
        }
        LayerWord::Residual(cap, flow) => {
            let cap = copy_text(alloc, cap.as_bytes())?;
            let flow = copy_text(alloc, flow.as_bytes())?;
            Ok(LayerWord::Residual(cap, flow))
        }
    }
}

impl<B: Observer> World<Seat<B>> {
    /// Makes a view of one layer over another view. All values are read where it is asked.
    pub(crate) fn view(
        &mut self,
        alloc: Global,
        name: &Text,
        layer: &LayerWord,
        below: &Text,
    ) -> Result<Reply, StepFault>
        requires valid { IsValid (command.View name.now layer.now below.now) }
        requires in_step { IsInStep ⟦<Seat<B> as Observer>⟧.watch self.old }
        requires stamps { HasStamps self.old }
        ensures step { Answers (plain_of ⟦<Seat<B> as Observer>⟧.watch self.old)
            (command.View name.now layer.now below.now)
            (plain_of ⟦<Seat<B> as Observer>⟧.watch self.new) result }
        ensures in_step { IsInStep ⟦<Seat<B> as Observer>⟧.watch self.new }
        ensures stamps { self.new.graph.graph.graph.stamps
            < self.old.graph.graph.graph.stamps + 2 ^ 24 }
    {
        self.ask_view(alloc, below)?;
        self.ask_layer(alloc, name, layer)?;
        self.ask_layer_left(below)?;
        self.put_view(alloc, name, layer, below)?;
        Ok(Reply::Quiet)
    }

    // Puts a view of a new name last, on which none stands. The error is want of memory; the plain
    // world is then as before.
    fn put_view(
        &mut self,
        alloc: Global,
        name: &Text,
        layer: &LayerWord,
        below: &Text,
    ) -> Result<(), AllocError>
        requires in_step { AreInStep ⟦<Seat<B> as Observer>⟧.watch self.old }
        requires new { has_entry self.old.views.rows name.now ≡ false }
        requires alone { NoneStand (views_of self.old.views.rows) name.now }
        ensures made { OnOk result (plain_of ⟦<Seat<B> as Observer>⟧.watch self.new
            ≡ with_view (plain_of ⟦<Seat<B> as Observer>⟧.watch self.old) name.now layer.now
            below.now) }
        ensures same { OnErr result (plain_of ⟦<Seat<B> as Observer>⟧.watch self.new
            ≡ plain_of ⟦<Seat<B> as Observer>⟧.watch self.old) }
        ensures in_step { AreInStep ⟦<Seat<B> as Observer>⟧.watch self.new }
        ensures graph { self.new.graph ≡ self.old.graph }
    {
        let layer = copy_layer(alloc, layer)?;
        let below = copy_text(alloc, below.as_bytes())?;
        let name = copy_text(alloc, name.as_bytes())?;
        self.views.reserve()?;
        self.views.put(
            name,
            ViewRow {
                layer,
                below,
                kept: None,
            },
        );
        Ok(())
    }

    /// Lets a view go on which none stands. The base stays always.
    pub(crate) fn unview(&mut self, alloc: Global, name: &Text) -> Result<Reply, StepFault>
        requires in_step { IsInStep ⟦<Seat<B> as Observer>⟧.watch self.old }
        requires stamps { HasStamps self.old }
        ensures step { Answers (plain_of ⟦<Seat<B> as Observer>⟧.watch self.old)
            (command.Unview name.now) (plain_of ⟦<Seat<B> as Observer>⟧.watch self.new) result }
        ensures in_step { IsInStep ⟦<Seat<B> as Observer>⟧.watch self.new }
        ensures stamps { self.new.graph.graph.graph.stamps
            < self.old.graph.graph.graph.stamps + 2 ^ 24 }
    {
        self.ask_view(alloc, name)?;
        if is_base(name) {
            return Err(wrong_type(alloc, name));
        }
        self.ask_alone(alloc, name)?;
        self.remove_view(name);
        Ok(Reply::Quiet)
    }
}
