//! The layers of views, whose maps go by numbers.

ghost use Rattle.std.specs.Prelude.{◌≡◌, ◌≤◌, IfOk, length, option_map};
ghost use Rattle.plain_views.specs.Renaming.{renamed};
ghost use Rattle.plain_world.specs.Views as views;
ghost use Rattle.view_tower.specs.Layers as code;
ghost use Rattle.desk_world.specs.MapNumbers.{number_of, numbered_tower};
ghost use Rattle.desk_world.specs.Plain.{plain_of};
ghost use Rattle.desk_world.specs.InStep.{IsInStep, AreInStep};

use crate::world::World;
use base_items::{ItemSort, MAX_LAYERS};
use desk_seats::Seat;
use observe_core::Observer;
use script_words::LayerWord;
use std::alloc::{AllocError, Global};
use token_text::Text;
use view_tower::Layer;

impl<B: Observer> World<Seat<B>> {
    /// How many layers a view has.
    pub(crate) fn depth(&self, view: &Text) -> u32
        ensures { result
            ≡ length (views.tower_of (plain_of ⟦<Seat<B> as Observer>⟧.watch self.now) view.now) }
    {
        let mut count = 0;
        let mut name = view;
        'down: while count < MAX_LAYERS {
            match self.views.get(name) {
                None => return count,
                Some(row) => name = &row.below,
            }
            count += 1;
        }
        count
    }

    /// The layers of a view, the lowest first. The error is want of memory, or of a number for a
    /// map.
    pub(crate) fn layers_of(&self, alloc: Global, view: &Text) -> Result<Vec<Layer>, AllocError>
        requires { IsInStep ⟦<Seat<B> as Observer>⟧.watch self.now }
        ensures layers { let world = plain_of ⟦<Seat<B> as Observer>⟧.watch self.now in
            IfOk result (λ layers. code.tower_of layers.items ≡ numbered_tower world view.now) }
        ensures few { IfOk result (λ layers. length layers.items ≤ 8) }
    {
        let mut layers = Vec::new(alloc);
        let mut name = view;
        'down: while layers.len() < MAX_LAYERS as usize {
            let Some(row) = self.views.get(name) else {
                break 'down;
            };
            layers.push(self.numbered(&row.layer)?)?;
            name = &row.below;
        }
        layers.reverse();
        Ok(layers)
    }

    // The layer with its maps by their numbers.
    fn numbered(&self, layer: &LayerWord) -> Result<Layer, AllocError>
        requires { AreInStep ⟦<Seat<B> as Observer>⟧.watch self.now }
        ensures { let world = plain_of ⟦<Seat<B> as Observer>⟧.watch self.now in
            IfOk result (λ l. code.layer_of l
            ≡ renamed (number_of world) (views.layer_of layer.now)) }
    {
        match layer {
            LayerWord::Reverse => Ok(Layer::Reverse),
            LayerWord::Undirect => Ok(Layer::Undirect),
            LayerWord::Split => Ok(Layer::Split),
            LayerWord::Sub(nodes, arcs) => Ok(Layer::Sub {
                nodes: self.given_number(ItemSort::Node, nodes)?,
                arcs: self.given_number(ItemSort::Arc, arcs)?,
            }),
            LayerWord::Residual(cap, flow) => Ok(Layer::Residual {
                cap: self.number(ItemSort::Arc, cap)?,
                flow: self.number(ItemSort::Arc, flow)?,
            }),
        }
    }

    // The number of a map, if one is given.
    fn given_number(&self, sort: ItemSort, name: &Option<Text>) -> Result<Option<u32>, AllocError>
        requires { AreInStep ⟦<Seat<B> as Observer>⟧.watch self.now }
        ensures { let world = plain_of ⟦<Seat<B> as Observer>⟧.watch self.now in
            IfOk result (λ number. number ≡ option_map (number_of world sort) name.now) }
    {
        match name {
            Some(name) => Ok(Some(self.number(sort, name)?)),
            None => Ok(None),
        }
    }

    /// The number of a map: its place in the table. A name that no map has gets the place after the
    /// last. The error is want of a number.
    pub(crate) fn number(&self, sort: ItemSort, name: &Text) -> Result<u32, AllocError>
        requires { AreInStep ⟦<Seat<B> as Observer>⟧.watch self.now }
        ensures { let world = plain_of ⟦<Seat<B> as Observer>⟧.watch self.now in
            IfOk result (λ number. number ≡ number_of world sort name.now) }
    {
        let maps = &self.tables(sort).maps;
        let place = match maps.place(name) {
            Some(place) => place,
            None => maps.len(),
        };
        match u32::try_from(place) {
            Ok(number) => Ok(number),
            Err(_) => Err(AllocError),
        }
    }
}
