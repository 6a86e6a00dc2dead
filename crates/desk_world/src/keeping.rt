//! Views are kept: their seats come, and what these are placed by.

ghost use Rattle.std.specs.Prelude.{◌≡◌, ◌<◌, ◌+◌, ◌^◌, None, false, Option, IfNone, IfOk, IfSome};
ghost use Rattle.std.specs.Prelude.{OnOk, OnErr};
ghost use Rattle.script_words.specs.declared.commands.Command.TheVariants as command;
ghost use Rattle.script_words.specs.declared.commands.LayerWord.TheVariants as words;
ghost use Rattle.script_words.specs.declared.commands.MapType.{MapType};
ghost use Rattle.plain_world.specs.Demands as demands;
ghost use Rattle.plain_world.specs.Refusals.{breach};
ghost use Rattle.plain_world.specs.Tables.{Name, without_entry};
ghost use Rattle.plain_world.specs.Valid.{IsLayer};
ghost use Rattle.desk_world.specs.Faults.{Answers, Meets};
ghost use Rattle.desk_world.specs.InStep.{IsInStep, AreInStep, HasStamps};
ghost use Rattle.desk_world.specs.KeptMaps.{ReadsMaps, AreMapsOf, AreSeatsOf, IsSeatOf};
ghost use Rattle.desk_world.specs.KeptMaps.{OneSub, OneResidual, Both, is_sub};
ghost use Rattle.desk_world.specs.KeptViews.{views_of};
ghost use Rattle.desk_world.specs.Placing.{Keeps};
ghost use Rattle.desk_world.specs.Plain.{plain_of, tables_of};
ghost use Rattle.desk_world.specs.Shown.{with_kept};
ghost use Rattle.desk_world.specs.Values.{HasType, kind_for};

use crate::kept_seats::{attach_kept, keys_of, let_seats_go};
use crate::refusals::{taken, wrong_type};
use crate::tables::{KeptMaps, ViewRow};
use crate::views::copy_layer;
use crate::world::World;
use base_items::ItemSort;
use desk_seats::Seat;
use notify_chain::SeatKey;
use observe_core::{KeptShape, Observer};
use report_text::{Reply, StepFault};
use script_words::LayerWord;
use std::alloc::{AllocError, Global};
use token_text::{Text, copy_text};

impl<B: Observer> World<Seat<B>> {
    // Asks that the view isn't kept yet. `Taken` where it is.
    fn ask_unkept(&self, alloc: Global, view: &Text) -> Result<(), StepFault>
        requires { IsInStep ⟦<Seat<B> as Observer>⟧.watch self.now }
        ensures { let world = plain_of ⟦<Seat<B> as Observer>⟧.watch self.now in
            Meets world (demands.New demands.KeptViews view.now) result }
    {
        match self.views.get(view) {
            None => Ok(()),
            Some(row) => match &row.kept {
                None => Ok(()),
                Some(_) => Err(taken(alloc, view)),
            },
        }
    }

    // The seat of a map of values.
    fn map_seat(&self, sort: ItemSort, name: &Text) -> SeatKey
        requires in_step { AreInStep ⟦<Seat<B> as Observer>⟧.watch self.now }
        requires there { (kind : MapType)
            × HasType (plain_of ⟦<Seat<B> as Observer>⟧.watch self.now) sort name.now kind }
        ensures { let world = plain_of ⟦<Seat<B> as Observer>⟧.watch self.now in
            (kind : MapType) → HasType world sort name.now kind
            → IsSeatOf (tables_of self.now sort).maps.rows (kind_for kind) name.now result }
    {
        match self.tables(sort).maps.get(name) {
            None => unreachable!(),
            Some(row) => row.key,
        }
    }

    // The seat of a map of bools, if one is given.
    fn filter_seat(&self, sort: ItemSort, name: &Option<Text>) -> Option<SeatKey>
        requires in_step { AreInStep ⟦<Seat<B> as Observer>⟧.watch self.now }
        requires bools { IfSome name.now (λ name.
            HasType (plain_of ⟦<Seat<B> as Observer>⟧.watch self.now) sort name MapType.Bools) }
        ensures { AreSeatsOf (tables_of self.now sort).maps.rows (kind_for MapType.Bools) name.now
            result }
    {
        match name {
            Some(name) => Some(self.map_seat(sort, name)),
            None => None,
        }
    }

    // What a view reads that is one sub.
    fn sub_maps(&self, nodes: &Option<Text>, arcs: &Option<Text>) -> KeptMaps
        requires in_step { AreInStep ⟦<Seat<B> as Observer>⟧.watch self.now }
        requires layer { IsLayer (plain_of ⟦<Seat<B> as Observer>⟧.watch self.now)
            (words.Sub nodes.now arcs.now) }
        ensures { AreMapsOf (OneSub nodes.now arcs.now) self.now.nodes.maps.rows
            self.now.arcs.maps.rows result }
    {
        KeptMaps {
            shape: KeptShape::Sub,
            node_filter: self.filter_seat(ItemSort::Node, nodes),
            arc_filter: self.filter_seat(ItemSort::Arc, arcs),
            cap: None,
            flow: None,
        }
    }

    // What a view reads that is one residual.
    fn residual_maps(&self, cap: &Text, flow: &Text) -> KeptMaps
        requires in_step { AreInStep ⟦<Seat<B> as Observer>⟧.watch self.now }
        requires layer { IsLayer (plain_of ⟦<Seat<B> as Observer>⟧.watch self.now)
            (words.Residual cap.now flow.now) }
        ensures { AreMapsOf (OneResidual cap.now flow.now) self.now.nodes.maps.rows
            self.now.arcs.maps.rows result }
    {
        KeptMaps {
            shape: KeptShape::Residual,
            node_filter: None,
            arc_filter: None,
            cap: Some(self.map_seat(ItemSort::Arc, cap)),
            flow: Some(self.map_seat(ItemSort::Arc, flow)),
        }
    }

    // What a residual over a view reads, where that is a sub. None exactly where its layer is
    // another.
    fn maps_over(&self, cap: &Text, flow: &Text, below: &LayerWord) -> Option<KeptMaps>
        requires in_step { AreInStep ⟦<Seat<B> as Observer>⟧.watch self.now }
        requires own { IsLayer (plain_of ⟦<Seat<B> as Observer>⟧.watch self.now)
            (words.Residual cap.now flow.now) }
        requires layer { IsLayer (plain_of ⟦<Seat<B> as Observer>⟧.watch self.now) below.now }
        ensures some { IfSome result (λ m. (nodes arcs : Option Name)
            × (below.now ≡ words.Sub nodes arcs)
            × AreMapsOf (Both cap.now flow.now nodes arcs) self.now.nodes.maps.rows
            self.now.arcs.maps.rows m) }
        ensures none { IfNone result (is_sub below.now ≡ false) }
    {
        let LayerWord::Sub(nodes, arcs) = below else {
            return None;
        };
        let sub = self.sub_maps(nodes, arcs);
        let own = self.residual_maps(cap, flow);
        Some(KeptMaps {
            shape: KeptShape::ResidualOverSub,
            node_filter: sub.node_filter,
            arc_filter: sub.arc_filter,
            cap: own.cap,
            flow: own.flow,
        })
    }

    // What the layers of a view read. `WrongType` where they aren't one sub, one residual, or a
    // residual over a sub.
    fn kept_maps(&self, alloc: Global, view: &Text) -> Result<KeptMaps, StepFault>
        requires { IsInStep ⟦<Seat<B> as Observer>⟧.watch self.now }
        ensures meets { let world = plain_of ⟦<Seat<B> as Observer>⟧.watch self.now in
            Meets world (demands.CanBeKept view.now) result }
        ensures maps { IfOk result (λ m. ReadsMaps self.now.nodes self.now.arcs
            (views_of self.now.views.rows) view.now m) }
    {
        let Some(row) = self.views.get(view) else {
            return Err(wrong_type(alloc, view));
        };
        let below = self.views.get(&row.below);
        match &row.layer {
            LayerWord::Sub(nodes, arcs) => match below {
                None => Ok(self.sub_maps(nodes, arcs)),
                Some(_) => Err(wrong_type(alloc, view)),
            },
            LayerWord::Residual(cap, flow) => match below {
                None => Ok(self.residual_maps(cap, flow)),
                Some(below) => {
                    if self.views.has(&below.below) {
                        return Err(wrong_type(alloc, view));
                    }
                    match self.maps_over(cap, flow, &below.layer) {
                        None => Err(wrong_type(alloc, view)),
                        Some(maps) => Ok(maps),
                    }
                }
            },
            LayerWord::Reverse => Err(wrong_type(alloc, view)),
            LayerWord::Undirect => Err(wrong_type(alloc, view)),
            LayerWord::Split => Err(wrong_type(alloc, view)),
        }
    }

    // Keeps a view that reads these maps and isn't kept yet. The error is want of memory; the plain
    // world is then as before.
    fn keep_view(&mut self, alloc: Global, view: &Text, maps: &KeptMaps) -> Result<(), AllocError>
        requires in_step { AreInStep ⟦<Seat<B> as Observer>⟧.watch self.old }
        requires unkept { let world = plain_of ⟦<Seat<B> as Observer>⟧.watch self.old in
            breach world (demands.New demands.KeptViews view.now) ≡ None }
        requires maps { ReadsMaps self.old.nodes self.old.arcs (views_of self.old.views.rows)
            view.now maps.now }
        ensures kept { OnOk result (plain_of ⟦<Seat<B> as Observer>⟧.watch self.new
            ≡ with_kept (plain_of ⟦<Seat<B> as Observer>⟧.watch self.old) view.now) }
        ensures same { OnErr result (plain_of ⟦<Seat<B> as Observer>⟧.watch self.new
            ≡ plain_of ⟦<Seat<B> as Observer>⟧.watch self.old) }
        ensures in_step { AreInStep ⟦<Seat<B> as Observer>⟧.watch self.new }
        ensures graph { self.new.graph.graph.graph ≡ self.old.graph.graph.graph }
    {
        let Some(row) = self.views.get(view) else {
            unreachable!()
        };
        let layer = copy_layer(alloc, &row.layer)?;
        let below = copy_text(alloc, row.below.as_bytes())?;
        let keys = attach_kept(alloc, &mut self.graph, maps)?;
        let row = ViewRow {
            layer,
            below,
            kept: Some(keys),
        };
        let _ = self.views.replace(view, row);
        Ok(())
    }

    /// Keeps a view whose layers are one sub, one residual, or a residual over a sub: two seats
    /// hold what it shows, and follow each later change.
    pub(crate) fn keep(&mut self, alloc: Global, view: &Text) -> Result<Reply, StepFault>
        requires in_step { IsInStep ⟦<Seat<B> as Observer>⟧.watch self.old }
        requires stamps { HasStamps self.old }
        ensures step { Answers (plain_of ⟦<Seat<B> as Observer>⟧.watch self.old)
            (command.Keep view.now) (plain_of ⟦<Seat<B> as Observer>⟧.watch self.new) result }
        ensures in_step { IsInStep ⟦<Seat<B> as Observer>⟧.watch self.new }
        ensures stamps { self.new.graph.graph.graph.stamps
            < self.old.graph.graph.graph.stamps + 2 ^ 24 }
    {
        self.ask_view(alloc, view)?;
        self.ask_unkept(alloc, view)?;
        let maps = self.kept_maps(alloc, view)?;
        self.keep_view(alloc, view, &maps)?;
        Ok(Reply::Quiet)
    }

    /// Takes a view out on which none stands, with its seats.
    pub(crate) fn remove_view(&mut self, view: &Text)
        requires in_step { AreInStep ⟦<Seat<B> as Observer>⟧.watch self.old }
        requires alone { breach (plain_of ⟦<Seat<B> as Observer>⟧.watch self.old)
            (demands.NoneStandsOn view.now) ≡ None }
        ensures gone { let world = plain_of ⟦<Seat<B> as Observer>⟧.watch self.old in
            plain_of ⟦<Seat<B> as Observer>⟧.watch self.new
            ≡ record world { views = without_entry world.views view.now } }
        ensures in_step { AreInStep ⟦<Seat<B> as Observer>⟧.watch self.new }
        ensures graph { self.new.graph.graph ≡ self.old.graph.graph }
    {
        match keys_of(self.views.remove(view)) {
            None => {}
            Some(keys) => let_seats_go(&mut self.graph, &keys),
        }
    }
}
